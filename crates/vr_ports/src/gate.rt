//! What stands round the steps of a replica.

use vr_model::Standing;

/// Is called round each step of its replica, from call 1.
pub trait Gate {
    fn before(&mut self, call: u64);

    /// `standing`: what the replica shows of itself after the step.
    fn after(&mut self, call: u64, standing: Standing);
}

/// A gate that each step passes at once.
#[derive(Clone, Copy, Debug, PartialEq, Eq)]
pub struct OpenGate;

impl Gate for OpenGate {
    fn before(&mut self, _call: u64) {}

    fn after(&mut self, _call: u64, _standing: Standing) {}
}
