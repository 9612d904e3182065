//! One machine of a group, as values: what its store begins with, when it leads, and what it submits and shows then.
//! It knows no socket, no thread and no clock: times are told to it, from a beginning of its own on.
//!
//! ```rust
//! let store = new_store(&group, 0, image, number)?; // it has entered the first epoch
//! let mut driver = MachineDriver::new(&group.config, client, starts, pace);
//! driver.look(led_view(standing, has_failed), last_scan, now)?; // by what its own replica shows
//! let sends = driver.submit(alloc, &mut staging, now)?; // a scan, where one is due and it leads
//! let release = driver.on_reply(&message);
//! if driver.shows(later) { .. } // a reply is written only while this is so
//! ```
//!
//! Proved: what is formatted starts as a new machine of its group, or as one that waits. A machine leads exactly while
//! its replica is shown as the primary of a view that goes on normally, and submits a scan only then, where one is due:
//! of one sample, if the staging has a ghost history, at the moment of the last scan of its log and the time since that
//! came in. What waited when it was deposed is never asked for again. It shows outputs only for so long behind the
//! submission of their scan, and, where it takes over, only so long behind the last scan that came in here: so by one
//! clock what a machine shows of a scan has expired where the next opens behind it (`no_two_show`). Moments never go
//! back (`moments_rise`).
//!
//! `plc_member` drives by it. That clocks of machines go equally fast is a premise.
#![tactic(auto)]

mod driver;
mod laws;
mod leading;
mod making;

pub use driver::{MachineDriver, NumbersUsedUp, client_starts};
pub use laws::{moments_rise, no_two_show, what_is_formatted_starts};
pub use leading::{Course, LastScan, Lead, Pace, SeenScan, led_view};
pub use making::{NotMade, group_identity_of, new_store, waiting_store, wanted};
