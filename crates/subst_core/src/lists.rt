//! The lists by which a window is passed.

/// The lists of a window of a net, each of nodes in ascending order.
#[derive(Clone, Copy)]
pub struct WindowLists<'a> {
    /// The window's gates.
    pub gates: &'a [u32],
    /// The nodes outside that the gates read, and further nodes that don't depend on the gates.
    pub inputs: &'a [u32],
    /// The gates that a gate outside or a sink reads.
    pub outputs: &'a [u32],
}
