//! A store goes on from epoch to epoch.

ghost use Rattle.std.specs.Prelude.{◌≡◌, ◌≤◌, ◌<◌, ◌^◌, ◌⊎◌, IfErr, IfOk, IfSome, OnOk, Some, None, [], option_map, length};
ghost use Rattle.vr_model.specs.Groups.{most_replicas};
ghost use Rattle.net_hello.specs.declared.hello.Epoch.{Epoch as Numbered};
ghost use Rattle.plc_epochs.specs.declared.kept.Kept.TheVariants as keeps;
ghost use Rattle.plc_store.specs.Judging.{IsFromOutside, IsUnread};
ghost use Rattle.plc_store.specs.Keeping.{HasSeen, IsByHand, IsNext, IsProgramWanted, IsRefusedByHand, WouldGoBack};
ghost use Rattle.plc_store.specs.Keeping.{are_of_one_epoch, kept_by_hand, lacks, next_by_hand, numbered_by_hand};
ghost use Rattle.plc_store.specs.Keeping.{seen_in, store_in, with_image, with_kept, with_seen};
ghost use Rattle.plc_store.specs.Spelling.{Saying, saying, spelling};
ghost use Rattle.plc_store.specs.declared.judging.Refusal.TheVariants.{Backward, OtherMachine, TooLong};

use crate::directory::StoreDirectory;
use crate::header::{Header, Seen, Store};
use crate::judging::{Refusal, is_changed};
use crate::opening::stored_in;
use crate::spelling::{epoch_of, spell};
use net_hello::Epoch;
use plc_epochs::Kept;
use sha2::{Digest, Sha256};
use std::alloc::Global;
use vr_model::MOST_REPLICAS;

/// Whether both have something of one epoch, or nothing of any.
fn are_of_one_epoch(kept: &Kept, other: &Kept) -> bool
    ensures { result ≡ are_of_one_epoch kept.now other.now }
{
    let (epoch, other) = (epoch_of(kept), epoch_of(other));
    epoch.number == other.number && epoch.image == other.image
}

/// Which stores were seen in the epoch of which a store of this header is to have something: none in another one.
fn seen_in(header: &Header, kept: &Kept) -> Seen
    ensures { result ≡ seen_in header.now kept.now }
{
    if are_of_one_epoch(&header.kept, kept) {
        header.seen
    } else {
        [0; MOST_REPLICAS]
    }
}

/// What a store of this header is known by in the epoch of which it's to have something: in another one it's the number
/// that was drawn. So a copy of it from an epoch before isn't what others have seen in this one.
fn store_in(header: &Header, kept: &Kept, drawn: u64) -> u64
    ensures { result ≡ store_in header.now kept.now drawn }
{
    if are_of_one_epoch(&header.kept, kept) {
        header.store
    } else {
        drawn
    }
}

/// A store with something else of epochs. Where that's another epoch it's known by the number that was drawn, and which
/// stores were seen is forgotten.
fn with_kept(store: Store, kept: &Kept, drawn: u64) -> Store
    ensures { saying result ≡ with_kept (saying store) kept.now drawn }
{
    let seen = seen_in(&store.header, kept);
    let number = store_in(&store.header, kept, drawn);
    let Store { header, image } = store;
    Store {
        header: Header {
            kept: *kept,
            store: number,
            seen,
            ..header
        },
        image,
    }
}

/// A store that has seen this one of a machine.
fn with_seen(store: Store, machine: u8, seen: u64) -> Store
    requires { machine < most_replicas }
    ensures { saying result ≡ with_seen (saying store) machine seen }
{
    let Store { mut header, image } = store;
    header.seen[usize::from(machine)] = seen;
    Store { header, image }
}

/// Puts a store into its directory, in the place of the one that's there.
fn put<D: StoreDirectory>(alloc: Global, directory: &mut D, store: Store) -> Result<Store, Refusal>
    ensures same { IfOk result (λ put. saying put ≡ saying store) }
    ensures done { OnOk result (D.group directory.new ≡ Some (spelling (saying store))) }
    ensures refused { IfErr result IsFromOutside }
    ensures whole { (D.group directory.new ≡ D.group directory.old)
        ⊎ (D.group directory.new ≡ Some (spelling (saying store))) }
    ensures views { D.views directory.new ≡ D.views directory.old }
    ensures mark { D.mark directory.new ≡ D.mark directory.old }
{
    let bytes = spell(alloc, &store)?;
    directory.put(bytes)?;
    Ok(store)
}

/// Takes the views and the mark of the epoch before away, where one is to be begun.
fn make_room<D: StoreDirectory>(directory: &mut D, kept: &Kept) -> Result<(), Refusal>
    ensures begun { OnOk result ((epoch : Numbered) → kept.now ≡ keeps.Begun epoch
        → (D.views directory.new ≡ []) × (D.mark directory.new ≡ None)) }
    ensures refused { IfErr result IsFromOutside }
    ensures group { D.group directory.new ≡ D.group directory.old }
{
    match kept {
        Kept::Begun(_) => Ok(directory.forget_views()?),
        _ => Ok(()),
    }
}

/// Puts a store with this of epochs into its directory, where this number was drawn.
fn go_on<D: StoreDirectory>(
    alloc: Global,
    directory: &mut D,
    store: Store,
    kept: &Kept,
    drawn: u64,
) -> Result<Store, Refusal>
    ensures next { IfOk result (λ put. saying put ≡ with_kept (saying store) kept.now drawn) }
    ensures done { OnOk result (D.group directory.new ≡ Some (spelling (with_kept (saying store) kept.now drawn))) }
    ensures begun { (epoch : Numbered) → kept.now ≡ keeps.Begun epoch
        → (D.group directory.new ≡ D.group directory.old)
        ⊎ ((D.views directory.new ≡ []) × (D.mark directory.new ≡ None)) }
    ensures refused { IfErr result IsFromOutside }
    ensures whole { (D.group directory.new ≡ D.group directory.old)
        ⊎ (D.group directory.new ≡ Some (spelling (with_kept (saying store) kept.now drawn))) }
{
    make_room(directory, kept)?;
    put(alloc, directory, with_kept(store, kept, drawn))
}

/// Has the store of a directory say this of epochs, and answers it: it stands there before it's answered. It's
/// `Backward` where the store would go back. Where it says that already nothing is written. Where that's another epoch
/// the store is known by the number that was drawn from then on. Where it begins an epoch by this, the views and the
/// mark of the one before are taken away first. Where it fails the store is as it was, or the next one.
pub fn keep<D: StoreDirectory>(
    alloc: Global,
    directory: &mut D,
    kept: &Kept,
    drawn: u64,
) -> Result<Store, Refusal>
    ensures next { IfOk result (λ store. IsNext (D.group directory.old) kept.now drawn (saying store)) }
    ensures kept { IfOk result (λ store. D.group directory.new ≡ Some (spelling (saying store))) }
    ensures begun { (epoch : Numbered) → kept.now ≡ keeps.Begun epoch
        → (D.group directory.new ≡ D.group directory.old)
        ⊎ ((D.views directory.new ≡ []) × (D.mark directory.new ≡ None)) }
    ensures refused { IfErr result (λ e. IsUnread (D.group directory.old) e
        ⊎ ((e ≡ Backward) × WouldGoBack (D.group directory.old) kept.now)) }
    ensures whole { (D.group directory.new ≡ D.group directory.old) ⊎ (said : Saying)
        × IsNext (D.group directory.old) kept.now drawn said × (D.group directory.new ≡ Some (spelling said)) }
{
    let store = stored_in(alloc, directory)?;
    if store.header.kept == *kept {
        return Ok(store);
    }
    if !store.header.kept.goes_on(kept) {
        return Err(Refusal::Backward);
    }
    go_on(alloc, directory, store, kept, drawn)
}

/// Has the store of a directory say that this store of a machine was seen in its epoch, and answers it: it stands there
/// before it's answered. Where no group has such a machine it's `OtherMachine`. Where it fails the store is as it was,
/// or says so.
pub fn see<D: StoreDirectory>(
    alloc: Global,
    directory: &mut D,
    machine: u8,
    seen: u64,
) -> Result<Store, Refusal>
    ensures seen { IfOk result (λ store. HasSeen (D.group directory.old) machine seen (saying store)) }
    ensures kept { IfOk result (λ store. D.group directory.new ≡ Some (spelling (saying store))) }
    ensures refused { IfErr result (λ e. IsUnread (D.group directory.old) e
        ⊎ ((e ≡ OtherMachine) × (most_replicas ≤ machine))) }
    ensures whole { (D.group directory.new ≡ D.group directory.old) ⊎ (said : Saying)
        × HasSeen (D.group directory.old) machine seen said × (D.group directory.new ≡ Some (spelling said)) }
    ensures views { D.views directory.new ≡ D.views directory.old }
    ensures mark { D.mark directory.new ≡ D.mark directory.old }
{
    if usize::from(machine) >= MOST_REPLICAS {
        return Err(Refusal::OtherMachine);
    }
    let store = stored_in(alloc, directory)?;
    put(alloc, directory, with_seen(store, machine, seen))
}

/// A store with this image in place of its own, if there is one.
fn with_image(store: Store, image: Option<Vec<u8>>) -> Result<Store, Refusal>
    ensures made { IfOk result (λ made. saying made ≡ with_image (saying store) (option_map (λ v. v.items) image)) }
    ensures refused { IfErr result (λ e. (e ≡ TooLong) × IfSome image (λ v. 2 ^ 32 ≤ length v.items)) }
{
    let Some(image) = image else {
        return Ok(store);
    };
    let header = Header {
        program: Sha256::digest(image.as_slice()),
        ..store.header
    };
    match Store::new(header, image) {
        Some(store) => Ok(store),
        None => Err(Refusal::TooLong),
    }
}

/// Whether a store that has this, and an image of the first sum, has entered an epoch that begins with the second.
fn lacks(kept: &Kept, own: &[u8; 32], program: &[u8; 32]) -> bool
    ensures { result ≡ lacks kept.now own.now program.now }
{
    match kept {
        Kept::Entered(epoch) => epoch.image == *program && own != program,
        _ => false,
    }
}

/// Into which epoch a store is put by hand.
#[derive(Clone, Copy, Debug, PartialEq, Eq)]
pub enum ByHand {
    /// The one behind its own.
    Next,
    /// The one of this number, above its own, whatever that is: also where it waits.
    Numbered(u64),
}

/// What a store that has this of epochs has in the epoch behind its own, with an image of this sum.
fn next_by_hand(kept: &Kept, program: &[u8; 32]) -> Result<Kept, Refusal>
    ensures { result ≡ next_by_hand kept.now program.now }
{
    match kept.by_hand(*program) {
        Ok(next) => Ok(next),
        Err(fault) => Err(Refusal::from(fault)),
    }
}

/// What a store that has this of epochs has in the epoch of this number, with an image of this sum.
fn numbered_by_hand(kept: &Kept, program: &[u8; 32], number: u64) -> Result<Kept, Refusal>
    ensures { result ≡ numbered_by_hand kept.now program.now number }
{
    if number <= epoch_of(kept).number {
        return Err(Refusal::NotAbove);
    }
    if number == u64::MAX {
        return Err(Refusal::LastEpoch);
    }
    Ok(Kept::Entered(Epoch {
        number,
        image: *program,
    }))
}

/// What a store of this header has of epochs by hand, with an image of this sum.
fn kept_by_hand(header: &Header, program: &[u8; 32], into: ByHand) -> Result<Kept, Refusal>
    ensures { result ≡ kept_by_hand header.now program.now into }
{
    match into {
        ByHand::Next if lacks(&header.kept, &header.program, program) => Ok(header.kept),
        ByHand::Next => next_by_hand(&header.kept, program),
        ByHand::Numbered(number) => numbered_by_hand(&header.kept, program, number),
    }
}

/// Puts the store of a directory into an epoch by hand, with this image, or the one that it has. Where it has entered an
/// epoch that begins with this image, and has another one, it gets the image for the next one, and stays in that epoch.
/// In another epoch it's known by the number that was drawn. A store of which the program was changed in its epoch wants
/// an image: `Changed`. `Waits` and `LastEpoch` are those of `Kept::by_hand`; `NotAbove` is told of a number that is no
/// greater than its own epoch's. Where it fails the store is as it was, or the next one.
pub fn enter_by_hand<D: StoreDirectory>(
    alloc: Global,
    directory: &mut D,
    into: ByHand,
    image: Option<Vec<u8>>,
    drawn: u64,
) -> Result<Store, Refusal>
    ensures entered { IfOk result (λ store.
        IsByHand (D.group directory.old) into (option_map (λ v. v.items) image) drawn (saying store)) }
    ensures kept { IfOk result (λ store. D.group directory.new ≡ Some (spelling (saying store))) }
    ensures refused { IfErr result (λ e. IsUnread (D.group directory.old) e
        ⊎ IsRefusedByHand (D.group directory.old) (D.mark directory.old) into (option_map (λ v. v.items) image) e) }
    ensures changed { OnOk result
        (¬ IsProgramWanted (D.group directory.old) (D.mark directory.old) (option_map (λ v. v.items) image)) }
    ensures whole { (D.group directory.new ≡ D.group directory.old) ⊎ (said : Saying)
        × IsByHand (D.group directory.old) into (option_map (λ v. v.items) image) drawn said
        × (D.group directory.new ≡ Some (spelling said)) }
{
    let store = stored_in(alloc, directory)?;
    if image.is_none() && is_changed(&store.header.kept, directory.mark()) {
        return Err(Refusal::Changed);
    }
    let header = store.header;
    let store = with_image(store, image)?;
    let kept = kept_by_hand(&header, &store.header.program, into)?;
    put(alloc, directory, with_kept(store, &kept, drawn))
}
