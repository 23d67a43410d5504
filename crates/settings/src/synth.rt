//! Settings of exact synthesis: the search for a chain with the fewest steps (gates).
ghost use Rattle.std.specs.Prelude.{◌≡◌};
ghost use Rattle.settings.specs.Synth.{defaults, IsInRange};

use crate::limits::{DEFAULT_CONFLICTS, DEFAULT_EFFORT};
use crate::methods::{Method, MethodChoice};
use chain_theory::MOST_STEPS;
use op_basis::Basis;

/// Settings of exact synthesis, apart from the truth tables.
#[derive(Clone, Copy, PartialEq, Eq)]
pub struct SynthSettings {
    /// The allowed operators (gate types); at least one.
    pub basis: Basis,
    /// The encoding.
    pub method: MethodChoice,
    /// The greatest size to try, from 1 to 16.
    pub max: u32,
    /// The conflict limit of each formula: the search may give up and leave a formula open once it has learnt
    /// at least this many clauses; from 1 to 10,000,000.
    pub conflicts: u32,
    /// A factor for the work of the walks that look for a chain before the formulas do, from 0 (no walk) to 1,000.
    pub effort: u32,
}

impl SynthSettings {
    /// The defaults: all operators, the method `ssv`, sizes up to 16, a limit of 100,000 conflicts, and an
    /// effort of 1.
    pub fn defaults() -> SynthSettings
        ensures value { result ≡ defaults }
        ensures range { IsInRange result }
    {
        SynthSettings {
            basis: Basis::new(u16::MAX),
            method: MethodChoice::Named(Method::Ssv),
            max: MOST_STEPS,
            conflicts: DEFAULT_CONFLICTS,
            effort: DEFAULT_EFFORT,
        }
    }
}
