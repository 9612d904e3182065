//! Which hello is accepted.

ghost use Rattle.std.specs.Prelude.{◌≡◌, ◌↔◌, Option, Err, IfErr, IsTrue, OnOk};
ghost use Rattle.net_hello.specs.Identity.{AreOfOneEpoch, Judges, are_alike, is_another_store, is_far_above, judged_by};
ghost use Rattle.net_hello.specs.declared.hello.Known.{Known as Seen};

use crate::hello::{Hello, Known};
use thiserror::Error;
use vr_model::Party;

/// Why a hello is refused.
#[derive(Clone, Copy, Debug, PartialEq, Eq, Error)]
pub enum Refusal {
    #[error("another version")]
    OtherVersion,
    /// Name, size, budget, checkpoints or drawn bytes aren't those of this group.
    #[error("another group")]
    OtherGroup,
    /// Its machine shows outputs for another time, by its group's file.
    #[error("another fresh")]
    OtherFresh,
    #[error("another epoch")]
    OtherEpoch,
    /// The epoch has this number, and began with another image.
    #[error("another program")]
    OtherProgram,
    /// It speaks for this end's own party.
    #[error("own party")]
    OwnParty,
    /// Its party isn't one that this end is connected with.
    #[error("no member")]
    NoMember,
    /// Its machine has another store than the one that was seen in this epoch.
    #[error("another store")]
    OtherStore,
    /// It has seen another store of this end's own machine in this epoch.
    #[error("own store replaced")]
    OwnStore,
    /// It was started before the one that was seen last.
    #[error("fewer starts")]
    FewerStarts,
    /// It was started so many times more than the one that was seen last that it can't be told by its own store.
    #[error("more starts")]
    MoreStarts,
    /// It has seen this end's own party started more often: by a copy of this machine's store, elsewhere.
    #[error("own copy")]
    OwnStarts,
}

/// More starts than this between two hellos of a party aren't believed.
const MOST_MORE: u64 = 4096;

/// Whether two digests are one.
fn is_same(digest: &[u8; 32], other: &[u8; 32]) -> bool
    ensures { IsTrue result ↔ (digest.now ≡ other.now) }
{
    digest == other
}

/// Whether two parties are of one kind and number.
fn are_alike(party: Party, other: Party) -> bool
    ensures { result ≡ are_alike party other }
{
    match (party, other) {
        (Party::Replica(i), Party::Replica(j)) => i == j,
        (Party::Client(c), Party::Client(d)) => c.number == d.number,
        _ => false,
    }
}

/// Whether two parties are one.
fn is_one(party: Party, other: Party) -> bool
    ensures { IsTrue result ↔ (party ≡ other) }
{
    are_alike(party, other)
}

/// Whether two hellos speak in one epoch of one group. Else the first reason to refuse.
fn judge_epoch(own: &Hello, hello: &Hello) -> Result<(), Refusal>
    ensures ok { OnOk result (AreOfOneEpoch own.now hello.now) }
    ensures err { IfErr result (λ refusal. (seen : Option Seen) → Judges own.now seen hello.now (Err refusal)) }
{
    if !is_same(&hello.identity, &own.identity) {
        return Err(Refusal::OtherGroup);
    }
    if hello.fresh != own.fresh {
        return Err(Refusal::OtherFresh);
    }
    if hello.epoch.number != own.epoch.number {
        return Err(Refusal::OtherEpoch);
    }
    if !is_same(&hello.epoch.image, &own.epoch.image) {
        return Err(Refusal::OtherProgram);
    }
    Ok(())
}

/// Whether a store was seen, and this is another one.
fn is_another_store(seen: u64, store: u64) -> bool
    ensures { result ≡ is_another_store seen store }
{
    seen != 0 && seen != store
}

/// Whether starts were seen, and these are far more.
fn is_far_above(seen: u64, starts: u64) -> bool
    ensures { result ≡ is_far_above seen starts }
{
    seen != 0 && starts.saturating_sub(seen) > MOST_MORE
}

/// Whether a hello is accepted by what is known of its party, and by what its end knows of this one's.
fn judge_known(own: &Hello, seen: Known, hello: &Hello) -> Result<(), Refusal>
    ensures { result ≡ judged_by own.now seen hello.now }
{
    if is_another_store(seen.store, hello.store) {
        return Err(Refusal::OtherStore);
    }
    if is_another_store(hello.known.store, own.store) {
        return Err(Refusal::OwnStore);
    }
    if hello.starts < seen.starts {
        return Err(Refusal::FewerStarts);
    }
    if is_far_above(seen.starts, hello.starts) {
        return Err(Refusal::MoreStarts);
    }
    if own.starts < hello.known.starts {
        return Err(Refusal::OwnStarts);
    }
    Ok(())
}

/// Whether a hello is accepted, by one's own and by what is known of its party; `None` where that isn't one to be
/// connected with. Else the first reason to refuse it.
pub fn judge(own: &Hello, seen: Option<Known>, hello: &Hello) -> Result<(), Refusal>
    ensures { Judges own.now seen hello.now result }
{
    match judge_epoch(own, hello) {
        Ok(()) => {}
        Err(refusal) => return Err(refusal),
    }
    if is_one(hello.party, own.party) {
        return Err(Refusal::OwnParty);
    }
    match seen {
        None => Err(Refusal::NoMember),
        Some(known) => judge_known(own, known, hello),
    }
}
