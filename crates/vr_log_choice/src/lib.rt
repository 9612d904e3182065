//! Which log a new view begins with: the best among the DOVIEWCHANGEs of a quorum. It uses the types of `vr_model`.
//!
//! ```rust
//! let best = vr_log_choice::choose(members.as_slice()); // of one DOVIEWCHANGE at least: the place of the best
//! ```
//!
//! Proved: none of the members has a later last normal view, nor an equal one with a longer log, nor both equal with a
//! lower replica number; of equal ones it's the first (`best`). That is what the rules' own recursion over the numbers
//! of the replicas chooses (`rules`). The longest log alone would be wrong: that body is refused (`longest_log_wins`).
//!
//! Tests (nothing rests on them alone): `replicas.rows` of `tests_bytes` has four choices.
#![tactic(auto)]

ghost use Rattle.std.specs.Prelude.{◌≡◌, ◌<◌, ◌↔◌, length, IsTrue};
ghost use Rattle.vr_model.specs.BestLog.{GoesBefore, IsBest, IsRulesChoice};

use vr_model::DoViewChange;

/// The index of the best of these (Viewstamped Replication Revisited, section 4.2): none has a later last normal view,
/// nor an equal one with a longer log, nor both equal with a lower replica number; of equal ones the first.
pub fn choose(members: &[DoViewChange]) -> usize
    requires { 0 < length members.now }
    ensures best { IsBest members.now result }
    ensures rules { IsRulesChoice members.now result }
{
    let mut best = 0;
    for i in 1..members.len() {
        if goes_before(&members[i], &members[best]) {
            best = i;
        }
    }
    best
}

fn goes_before(a: &DoViewChange, b: &DoViewChange) -> bool
    ensures { IsTrue result ↔ GoesBefore a.now b.now }
{
    if a.last_normal_view != b.last_normal_view {
        return a.last_normal_view > b.last_normal_view;
    }
    if a.log.op_number() != b.log.op_number() {
        return a.log.op_number() > b.log.op_number();
    }
    a.replica < b.replica
}
