//! What the store of a machine begins with, and what a start asks of it.

ghost use Rattle.std.specs.Prelude.{◌≡◌, ◌↔◌, ◌≤◌, ◌<◌, ◌^◌, Err, IfOk, vec_len};
ghost use Rattle.net_hello.specs.Identity.{identity_of};
ghost use Rattle.plc_store.specs.Spelling.{saying};
ghost use Rattle.plc_machine.specs.Making.{new_saying, saying_of, terms_of, waiting_saying, wanted_by};
ghost use Rattle.plc_machine.specs.declared.making.NotMade.TheVariants as why;

use net_hello::{Epoch, group_identity};
use plc_epochs::Kept;
use plc_group::Group;
use plc_store::{Header, Store, Wanted};
use sha2::{Digest, Sha256};
use vr_model::MOST_REPLICAS;

/// Why a machine gets no store.
#[derive(Clone, Copy, Debug, PartialEq, Eq)]
pub enum NotMade {
    /// The group has no machine of this number.
    NoMachine,
    /// The image of the program has 4 GiB or more.
    TooLong,
}

/// What tells a group from another, as SHA-256.
pub fn group_identity_of(group: &Group) -> [u8; 32]
    ensures { result ≡ identity_of (terms_of group.now) }
{
    let name = group.name.as_str();
    group_identity(name, group.config, group.budget, &group.identity)
}

/// The store of a machine, by its place in the group file, which is known by this number, with this of epochs and this
/// image. No store of another machine was seen.
fn store_of(
    group: &Group,
    machine: u8,
    number: u64,
    kept: Kept,
    image: Vec<u8>,
) -> Result<Store, NotMade>
    ensures made { IfOk result (λ store. saying store ≡ saying_of group.now machine number kept image.items) }
    ensures no_machine { (result ≡ Err why.NoMachine) ↔ (vec_len group.now.machines ≤ machine) }
    ensures too_long { (result ≡ Err why.TooLong)
        ↔ ((machine < vec_len group.now.machines) × (2 ^ 32 ≤ vec_len image)) }
{
    if usize::from(machine) >= group.machines.len() {
        return Err(NotMade::NoMachine);
    }
    let header = Header {
        identity: group_identity_of(group),
        kept,
        program: Sha256::digest(image.as_slice()),
        machine,
        store: number,
        seen: [0; MOST_REPLICAS],
    };
    match Store::new(header, image) {
        Some(store) => Ok(store),
        None => Err(NotMade::TooLong),
    }
}

/// The store of a new machine, by its place in the group file: it has entered the group's first epoch, which begins with
/// this image. It's known by this number, which is drawn for it, and isn't 0.
pub fn new_store(group: &Group, machine: u8, image: Vec<u8>, number: u64) -> Result<Store, NotMade>
    ensures made { IfOk result (λ store. saying store ≡ new_saying group.now machine image.items number) }
    ensures no_machine { (result ≡ Err why.NoMachine) ↔ (vec_len group.now.machines ≤ machine) }
    ensures too_long { (result ≡ Err why.TooLong)
        ↔ ((machine < vec_len group.now.machines) × (2 ^ 32 ≤ vec_len image)) }
{
    let epoch = Epoch {
        number: 1,
        image: Sha256::digest(image.as_slice()),
    };
    store_of(group, machine, number, Kept::Entered(epoch), image)
}

/// The store of a machine whose disk was lost, by its place in the group file: it's in no epoch, and waits for one that
/// others are in. It's known by this number, which is drawn for it, and isn't 0.
pub fn waiting_store(
    group: &Group,
    machine: u8,
    image: Vec<u8>,
    number: u64,
) -> Result<Store, NotMade>
    ensures made { IfOk result (λ store. saying store ≡ waiting_saying group.now machine image.items number) }
    ensures no_machine { (result ≡ Err why.NoMachine) ↔ (vec_len group.now.machines ≤ machine) }
    ensures too_long { (result ≡ Err why.TooLong)
        ↔ ((machine < vec_len group.now.machines) × (2 ^ 32 ≤ vec_len image)) }
{
    store_of(group, machine, number, Kept::Nothing, image)
}

/// What a start of a machine of this group asks of its store.
pub fn wanted(group: &Group) -> Wanted
    ensures { result ≡ wanted_by group.now }
{
    Wanted {
        identity: group_identity_of(group),
        machines: group.config.group_size(),
    }
}
