//! The parts of a replica.

/// The parts of a replica, beside its state: the way of its messages, what keeps its view, what says when it is late,
/// and what stands round its steps.
#[derive(Drop)]
pub struct Seat<L, S, T, G> {
    pub link: L,
    pub store: S,
    pub timer: T,
    pub gate: G,
}
