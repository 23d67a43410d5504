//! The whole search: it advances until it ends, and keeps the sections. Its invariant `HasSearched` says that the
//! sections so far are those of all sizes below the next one; with the trailer they are a valid certificate.
ghost use Rattle.std.specs.Prelude.{◌≡◌, IfOk};
ghost use Rattle.settings.specs.declared.methods.MethodChoice.TheVariants.{Named};
ghost use Rattle.settings.specs.Synth.{IsInRange};
ghost use Rattle.cert_theory.specs.Certificate.{IsValid};
ghost use Rattle.cert_theory.specs.LiveBounds.{HaveLiveBounds};

use crate::advancing::{Advance, SizeSearch};
use cert_theory::{Certificate, Header};
use op_basis::Basis;
use progress::Tell;
use sat_solve::Solver;
use settings::Method;
use std::alloc::{AllocError, Global};
use tt_core::Spec;

/// Searches the sizes from 0 to `max` with the solver `S` for a chain of the fewest steps over the basis that
/// implements the tables, and returns the certificate of what it found. A subproblem is left open once the solver
/// has learnt at least `budget` clauses. `effort` is a factor for the work of the walks, 0 for no walk. The basis isn't
/// empty, and `max` and `budget` are in the ranges of `settings`. `tell` hears of each subproblem.
#[tactic(auto, using(crate::specs::SearchedLaws::steps))]
pub fn search<S: Solver, T: Tell>(
    alloc: Global,
    spec: &Spec,
    basis: Basis,
    method: Method,
    max: u32,
    budget: u32,
    effort: u32,
    tell: &T,
) -> Result<Certificate, AllocError>
    requires settings { IsInRange (record {
      basis = basis;
      method = Named method;
      max = max;
      conflicts = budget;
      effort = 0;
    }) }
    ensures header { IfOk result (λ b. b.header ≡ record {
      spec = spec.now;
      basis = basis;
      method = method;
      conflicts = budget;
      max = max;
    }) }
    ensures valid { IfOk result (λ b. IsValid b) }
    ensures live_bounds { IfOk result (λ b. HaveLiveBounds b.header b.sections) }
{
    let mut search = SizeSearch::new(copied(alloc, spec)?, basis, method, max, budget, effort);
    let mut sections = Vec::new(alloc);
    loop {
        match search.advance::<S, T>(alloc, tell)? {
            Advance::Section { rest, section } => {
                sections.push(section)?;
                search = rest;
            }
            Advance::Ended { chain, verdict } => {
                let header = Header {
                    spec: copied(alloc, spec)?,
                    basis,
                    method,
                    conflicts: budget,
                    max,
                };
                return Ok(Certificate {
                    header,
                    sections,
                    chain,
                    verdict,
                });
            }
        }
    }
}

/// A copy of the tables.
fn copied(alloc: Global, spec: &Spec) -> Result<Spec, AllocError>
    ensures { IfOk result (λ copy. copy ≡ spec.now) }
{
    let on = Vec::from_slice(alloc, spec.on())?;
    let care = Vec::from_slice(alloc, spec.care())?;
    Ok(Spec::new(spec.n(), on, care))
}
