//! The verdict that follows from the sections and the chain.
ghost use Rattle.std.specs.Prelude.{◌≡◌};
ghost use Rattle.cert_theory.specs.Certificate as certificates;

use crate::Verdict;

impl Verdict {
    /// The verdict with a chain of `size` steps, where `low` is the first open size.
    pub fn found(size: u32, low: Option<u32>) -> Verdict
        ensures { result ≡ certificates.found size low }
    {
        match low {
            None => Verdict::Minimum(size),
            Some(low) => Verdict::Bounded { low, r: size },
        }
    }

    /// The verdict if no chain of at most `max` steps was found, where `low` is the first open size.
    pub fn not_found(max: u32, low: Option<u32>) -> Verdict
        ensures { result ≡ certificates.not_found max low }
    {
        match low {
            None => Verdict::NoChain(max),
            Some(low) => Verdict::Open { low },
        }
    }
}
