//! The road from keys between machines to one history. There is no code here, as in `laws_threads`: each function's
//! clause states a law, and its empty body is proved to meet it.
//!
//! ```rust
//! laws_keys::keyed_machines_are_one_run::<S>(); // for whoever's clause rests on it
//! ```
//!
//! `laws_threads` presupposes that each message which is taken was handed out before, to its taker. Here that is so
//! where the group has a key, or a forged record came: body and sum stand in the bytes that came over a connection, the
//! sum is right there, and nobody who has the key sealed that (`ForgedCame` of `specs/Ways`, `HasForged` of net_keys).
//!
//! Proved:
//!
//! - Of one way over a connection (`specs/Ways`): as what was opened at its end is a prefix of what was sealed at the
//!   other (`only_sealed_is_heard` of net_keys), what was given is a prefix of the messages whose frames were sealed
//!   there, in order, with no fault; or a forged record came, and was opened (`only_sealed_is_given`).
//! - Of one connection of net_peers with a key (`specs/Hellos`): what is given behind a hello that its sayer has proved
//!   was opened, of the bytes that came, over a way from that sayer's machine to this one, behind the records by which
//!   both have met (`proved_connections_are_ways`), in however many readings (`readings_join`); and a visit that was
//!   left is the first record over such a way (`left_visits_are_opened`).
//! - Of all moves of a group, in one order (`specs/Brought`): where each message that is taken came over such a way, at
//!   whose other end only what was handed out before was put, or went within its machine, each was handed out before,
//!   to its taker; or by some moment a forged record had come (`only_handed_is_taken`).
//! - So the processes of machines, each by itself, are one run of the group with one history, or a forged record came
//!   (`keyed_machines_are_one_run`). No word of the network is presupposed: it may lose, double, change, make up, hold
//!   back and play again what it likes.
//! - The same of what machines and clients did as it was, starts that failed and clients that start again among it: it
//!   comes to one run with one history, or a forged record came (`keyed_machines_that_ran_are_one_run`).
//!
//! `proofs/Worked` has a connection worked out: records that come and are opened, none of which was forged, one of
//! which a byte was changed, and one that comes again; and a hello behind a wrong sum, of which no forged record came.
//!
//! Presupposed beside the forging: that no two connections have one pair of nonces (`IsSealedThere` of net_keys has
//! it), and that whoever has the key seals only frames of what was handed out. Of a reader in memory the bytes are
//! known to its contract; that what reads a connection of TCP, whose bytes are known to none, does the same is by its
//! being one function for all readers. By code alone: that the bytes of a hello's record, which net_peers judges, are
//! those that came first over the connection, and that a link hands its inbox what it opened behind the hello that it
//! accepted, and nothing else.
//!
//! Only tested: nothing.
#![tactic(auto)]

ghost use Rattle.std.specs.Prelude.{ℕ, ◌⊎◌, Bool, List, [], ◌++◌, None};
ghost use Rattle.vr_model.specs.Membership.{Group};
ghost use Rattle.laws_threads.specs.CodeMoves.{CodeMove, AreOneRun};
ghost use Rattle.laws_threads.specs.MachineMoves.{AreMachineMoves};
ghost use Rattle.laws_threads.specs.Ran.{RanAsOne};
ghost use Rattle.laws_keys.specs.Ways.{OnlySealedIsGiven};
ghost use Rattle.laws_keys.specs.Hellos.{LeftOpenWays, ProvedOpenWays, ReadingsJoin};
ghost use Rattle.laws_keys.specs.Brought.{AllAreBrought, AnyForgedIn, Book, HasPlaces, HaveRanByKeys};
ghost use Rattle.laws_keys.specs.Brought.{KeyedMachinesInOneOrder};

use laws_threads::{Judged, machines_are_one_run, machines_that_ran_are_one_run};
use net_ends::only_sent_is_given;
use net_keys::only_sealed_is_heard;

/// What the other end of a way has given is a prefix of the messages that were put at the end which seals, in order,
/// and it met no fault; or a forged record came over it, and was opened.
pub fn only_sealed_is_given()
    ensures { OnlySealedIsGiven }
{
    only_sealed_is_heard();
    only_sent_is_given();
}

/// What was given in two readings of sealed records, one behind the other, was given in one.
pub fn readings_join()
    ensures { ReadingsJoin }
{}

/// What is given behind a hello that its sayer has proved was opened, of the bytes that came, over a way from that
/// sayer's machine.
pub fn proved_connections_are_ways()
    ensures { ProvedOpenWays }
{}

/// What a machine has proved that it leaves came, and was opened, as the first record over a way from it.
pub fn left_visits_are_opened()
    ensures { LeftOpenWays }
{}

/// Where each message that is taken was brought by a way, or within its machine, each was handed out before, to its
/// taker; or by some moment a forged record had come.
pub fn only_handed_is_taken<S>()
    ensures { (group : Group) (book : Book) (moves : List (CodeMove S)) → AllAreBrought group book 0 [] moves
        → HasPlaces group moves ⊎ AnyForgedIn book }
{
    only_sealed_is_given();
}

/// The processes of a group's machines that have a key are one run of the group, with one history, or by some moment a
/// forged record had come: where each machine's list is right by itself, as `machines_are_one_run` of laws_threads has
/// it, and each message that is taken was brought.
pub fn keyed_machines_are_one_run<S: Judged>()
    ensures { (group : Group) (book : Book) (early late : List (CodeMove S))
        → KeyedMachinesInOneOrder S.load_gives S.save_gives S.faults S.begin_gives S.holds S.is_first group book
        (early ++ late)
        → AreOneRun group early late ⊎ AnyForgedIn book }
{
    only_sealed_is_given();
    machines_are_one_run::<S>();
}

/// What the machines of a group that have a key and its clients did, as it was, comes to one run of the group with one
/// history, or by some moment a forged record had come: where each message that was taken was brought, each client kept
/// to its rule over all its starts, and each machine's list, without moves that handed nothing out, is right by itself.
pub fn keyed_machines_that_ran_are_one_run<S: Judged>()
    ensures { (group : Group) (book : Book) (early late : List (CodeMove S))
        → HaveRanByKeys (λ i moves. AreMachineMoves S.load_gives S.save_gives S.faults S.begin_gives S.holds S.is_first
        group i None 0 moves) group book early late
        → RanAsOne group early late ⊎ AnyForgedIn book }
{
    only_sealed_is_given();
    machines_that_ran_are_one_run::<S>();
}
