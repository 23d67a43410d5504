//! The subproblems of a size, each with a formula of its own.
use fence_core::Fence;

/// The chains of a size that one formula describes.
#[derive(Drop)]
pub enum Subproblem {
    /// All chains of the size.
    Whole,
    /// The chains whose steps are ordered by levels, with the fence's number of steps on each level.
    Levels(Fence),
}
