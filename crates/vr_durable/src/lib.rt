//! A durable replica, as a value: it's told what comes in and which flush is over, and says what is to be written and
//! flushed, which view is to be saved, and what may be handed out. It knows no file, no link and no clock.
//!
//! ```rust
//! // at a start, of both files of this owner's journal, where so many starts were counted before
//! let Some((file, kept)) = find(alloc, owner, first, second, counted)? else { .. }; // none: the others have it
//! let replica = resume(Core::new(alloc, config, number, image, budget)?, alloc, &kept)?; // what it was
//! .. // the other file is begun, with a new base and this start (vr_bases, vr_journal): its records have this sum
//! let mut durable = Durable::new(alloc, replica, sum, saved); // whose store keeps this view
//! durable.take_up(alloc, event)?; // once or more: the rule is done, what it sends waits
//! if let Some(bytes) = durable.begin_flush(alloc) {
//!     .. // these bytes are put behind the file's, and the file is flushed
//!     durable.end_flush();
//! }
//! if let Some(view) = durable.unsaved_view() {
//!     .. // the view's file is written and flushed
//!     durable.saved(view);
//! }
//! for message in durable.hand_out(alloc) { .. }
//! ```
//!
//! A flush or a save that failed is told by nothing: the value is let go then, which is to the group a power cut, and
//! the replica goes on from its journal (vr_resumed).
//!
//! Proved: each call is a step of a durable replica as the law of pauses has them (`a_power_cut_is_a_pause`), for each
//! life that the value stands for: `take_up` takes its event up, and puts its record behind what is to be written;
//! `hand_out` hands out all that is held, in order, or nothing; and it hands out something only where all that was put
//! is flushed, and no later view waits to be saved. What a flush is to write is all that was put since the one before.
//! Over any list of calls, and over cuts (`a_life_goes_on`): the calls are steps of one such life, what they hand out
//! is what leaves the machine in it, and whoever goes on from what is read back behind a cut goes on in that life.
//! `find` looks at whole files of the last life alone: one that wasn't in use in the last start that was counted is
//! void. `resume` gives a replica that stands for what each record of which a file keeps the base becomes by the inputs
//! that it keeps, in order.
//!
//! By its caller's code alone: that what `begin_flush` gives is written and flushed before `end_flush`, and the view
//! before `saved`. Each input is put, also one that changes nothing. No test rests here. Nothing calls it yet.
#![tactic(auto)]

mod durable;
mod fault;
mod laws;
mod lives;
mod putting;
mod resuming;

pub use durable::Durable;
pub use fault::{ResumeFault, TakeFault};
pub use laws::a_life_goes_on;
pub use lives::find;
pub use resuming::resume;
