//! Settings of netlist improvement.
ghost use Rattle.std.specs.Prelude.{◌≡◌};
ghost use Rattle.settings.specs.Improve.{defaults, IsInRange};

use crate::Method;
use crate::limits::DEFAULT_CONFLICTS;
use op_basis::Basis;

/// Settings of netlist improvement, apart from the netlist.
#[derive(Clone, Copy, PartialEq, Eq)]
pub struct ImproveSettings {
    /// The operators that new gates may have; at least one.
    pub basis: Basis,
    /// The encoding of exact synthesis for windows.
    pub method: Method,
    /// The most gates of a window, from 0 to 8. With 0 nothing is resynthesized; only dangling gates are
    /// removed.
    pub cap: u32,
    /// The most rounds over all windows that change something, from 1 to 100,000.
    pub rounds: u32,
    /// The conflict limit of each formula: the search may give up and leave a formula open once it has learnt
    /// at least this many clauses; from 1 to 10,000,000.
    pub conflicts: u32,
    /// Whether observability don't-cares (ODC) are used: rows on which no output depends on the window's
    /// outputs.
    pub observe: bool,
    /// How much work a netlist is walked before windows are resynthesized, from 0 to 1,000: a factor for what is added
    /// to the work that each netlist gets.
    pub effort: u32,
    /// The seed of the random choices of walks, from 0 to 1,000,000.
    pub seed: u32,
}

impl ImproveSettings {
    /// The defaults: all operators, the method `ssv`, windows of at most 5 gates, 1,000 rounds, a limit of
    /// 100,000 conflicts, no observability don't-cares, an effort of 0, and the seed 1.
    pub fn defaults() -> ImproveSettings
        ensures value { result ≡ defaults }
        ensures range { IsInRange result }
    {
        ImproveSettings {
            basis: Basis::new(u16::MAX),
            method: Method::Ssv,
            cap: 5,
            rounds: 1000,
            conflicts: DEFAULT_CONFLICTS,
            observe: false,
            effort: 0,
            seed: 1,
        }
    }
}
