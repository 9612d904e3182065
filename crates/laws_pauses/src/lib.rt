//! The law of durable replicas: a power cut is to them a pause, and no crash. There is no code here, as in
//! `laws_history`: each function's clause states a law over the rules of `vr_model`, and its body is proved to meet it.
//!
//! ```rust
//! use il_model::{Answer, Command};
//!
//! laws_pauses::a_power_cut_is_a_pause::<Command, Answer>();
//! ```
//!
//! A durable replica writes each input that it takes up to its store, but for those that change nothing, and hands out
//! no message before all that it took up by then is flushed (`specs/Pauses`). Behind a power cut it begins with what its
//! store has, and takes the same inputs up again. Proved, for every list of such steps, with any number of power cuts,
//! of which each leaves any part of what wasn't flushed: its life is that of one replica that never crashed, right by
//! the rules, which said all that left the machine (`a_power_cut_is_a_pause`). An input that was lost with the power is
//! as a message that never came. Worked lives show a power cut on either side of a commit, and what becomes of a
//! replica whose disk forgets what was flushed (`worked_pauses`).
//!
//! That is what is asked of a disk: what was flushed is read back, whole and in order. No test is needed here. That the
//! code of a replica takes these steps is no theorem of this crate.
#![tactic(auto)]

ghost use Rattle.std.specs.Prelude.{◌≡◌, ℕ, List};
ghost use Rattle.vr_model.specs.Stores.{KnownState};
ghost use Rattle.laws_pauses.specs.Pauses.{DurableStep, AreDurable, IsUnbroken, begun};
ghost use Rattle.laws_pauses.specs.WorkedPauses.{WorkedPauses};

/// A replica that writes down what it takes up, but for what changes nothing, and hands out nothing before all of it is
/// flushed, lives one unbroken life, whatever power cuts there are, and whatever of what wasn't flushed survives each.
pub fn a_power_cut_is_a_pause<C, A>()
    ensures { (f i : ℕ) (answer : List C → A) (known : KnownState C) (steps : List (DurableStep C A))
        → AreDurable f i answer (begun known.replica) steps
        → IsUnbroken f i answer known (begun known.replica) steps }
{}

/// What the definitions compute for the primary of three, whatever the command: the power goes between a commit and its
/// REPLY, where the commit survives and where it doesn't; and a disk forgets what was flushed.
pub fn worked_pauses<C, A>()
    ensures { (answer : List C → A) (a : C) → WorkedPauses answer a }
{}
