//! A replica: one event, one call. Each step is the rule of its event, with the view that the rule saves made safe
//! before anything is sent; or a named fault. It uses the three crates of rules on the core of `vr_core`, and any
//! store.
//!
//! ```rust
//! use vr_replica::Replica;
//! use vr_model::Event;
//!
//! let mut replica = Replica::new(alloc, config, 1, image, budget).ok()?;
//! let sends = replica.step(alloc, Event::Timeout, store).ok()?; // two STARTVIEWCHANGEs; `store` is any `ViewStore`
//! ```
//!
//! Proved of `step`, for every record that the replica stands for: it is the rule of its event, what the rule saves was
//! saved in the store and nothing else, and what is sent are the rule's messages; or it is lost for want of memory and
//! nothing changed; or its store failed, and it's down and sends nothing. `Down` is answered exactly where it's down
//! and the event is no restart, `Store` only where the store failed in this call. `standing`, `commit`, `op_number`,
//! `entry` and `last_scan` tell what is so of each such record; `snapshot` is that of the controller that has executed its
//! committed entries.
//!
//! Tests (nothing rests on them alone): `replicas.rows` of `tests_bytes` has runs of events with the exact messages or
//! the fault. Which of two effects within one call comes first no clause can say: that the save does is that `step`
//! returns what it sends.
#![tactic(auto)]

mod fault;
mod rules;
mod scans;
mod state;
mod stepping;
mod view_store;

pub use fault::{StepFault, StoreFault};
pub use scans::ScanInputs;
pub use state::Replica;
pub use view_store::ViewStore;
