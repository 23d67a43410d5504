//! Candidates.

/// A candidate window: its root, its partner, if it has one, and the number of its gates.
#[derive(Clone, Copy)]
pub struct WindowCandidate {
    pub root: u32,
    pub partner: Option<u32>,
    pub count: u32,
}
