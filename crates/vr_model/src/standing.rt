//! What a replica shows of itself.

/// The statuses of Viewstamped Replication Revisited, section 4, and `Down` for a replica that crashed.
#[derive(Clone, Copy, Debug, PartialEq, Eq)]
pub enum Status {
    Normal,
    ViewChange,
    Recovering,
    Down,
}

/// What a replica shows of itself after a step, for those that only watch it.
#[derive(Clone, Copy, Debug, PartialEq, Eq)]
pub struct Standing {
    pub status: Status,
    /// The view that it is in, or changes to; 0 while it recovers or is down.
    pub view: u64,
    /// Whether it is the primary of its view, and that view goes on normally.
    pub is_primary: bool,
}
