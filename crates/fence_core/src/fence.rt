//! A fence: how many steps are on each level.
ghost use Rattle.std.specs.Prelude.{◌≡◌};
ghost use Rattle.fence_core.specs.Fence.{IsFence};

use std::marker::Model;

/// The numbers of steps on the levels 1, 2 and so on, each at least one. Contracts see the list of
/// these numbers.
#[derive(Drop)]
pub struct Fence {
    levels: Vec<u32>,
}

impl Model for Fence {
    ghost use Rattle.std.specs.Prelude.{ℕ, List};
    ghost use Rattle.fence_core.specs.Fence.{IsFence};

    ghost Value = { List ℕ };

    ghost view = { λ fence. fence.levels.items };

    ghost invariant = { λ fence. IsFence fence.levels.items };
}

impl Fence {
    /// The fence with these numbers of steps on the levels 1, 2 and so on.
    pub fn new(levels: Vec<u32>) -> Fence
        requires { IsFence levels.items }
        ensures { result ≡ levels.items }
    {
        Fence { levels }
    }

    /// The numbers of steps on the levels 1, 2 and so on.
    pub fn levels(&self) -> &[u32]
        ensures value { result.now ≡ self.now }
        ensures whole { IsFence self.now }
    {
        &self.levels
    }
}
