//! What a replica judges by a few numbers: whether a view is later than its own, how far a majority has come, whether it
//! is told enough to recover. It uses the types of `vr_model`; the crates of the rules use it.
//!
//! ```rust
//! let is_later = vr_judging::is_behind(Status::Normal, 3, 4); // true
//! let committed = vr_judging::reached(config, 0, &acknowledged, 7); // 7 at most
//! let recovers = vr_judging::is_enough(1, 2, 3, 4); // of three replicas two have answered: true
//! ```
//!
//! Proved: each is what the rules ask for (`specs/Judging`, and `reached` of `vr_model`). Three of the bodies that the
//! protocol can't have are refused here: a log that is replaced in one's own view (`start_view_cuts_normal_log`), an
//! operation that's answered before a majority has it (`answers_before_a_majority`), a recovery into a view before the
//! stored one (`recovers_below_stored_view`).
#![tactic(auto)]

mod behind;
mod enough;
mod majority;

pub use behind::is_behind;
pub use enough::is_enough;
pub use majority::reached;
