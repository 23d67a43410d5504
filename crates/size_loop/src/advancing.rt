//! The search as a value that advances size by size. The contract of one step is enough to build a certificate
//! from all steps (`specs/SearchedLaws.antt`), whether the caller keeps the sections or writes and drops them.
//! It looks for a chain before the formulas of a size (`known`), and keeps the shortest one until its size comes.
ghost use Rattle.std.specs.Prelude.{◌≡◌, ◌≤◌, None, IsTrue, IfOk};
ghost use Rattle.settings.specs.declared.methods.MethodChoice.TheVariants.{Named};
ghost use Rattle.settings.specs.Synth.{IsInRange};
ghost use Rattle.cert_theory.specs.Certificate.{IsSection, IsTrailer};
ghost use Rattle.size_loop.specs.Advancing.{IfSection, IfEnded, after_section, open_with};
ghost use Rattle.cert_theory.specs.LiveBounds.{HasLiveBoundsIn};
ghost use Rattle.size_loop.specs.State.{IsState};
ghost use Rattle.size_loop.specs.Outcomes.{IsKnown, HasSize};

use crate::known::known_from;
use crate::sizes::{SizeOutcome, search_formulas};
use cert_theory::{Header, Section, Verdict};
use chain_core::Chain;
use op_basis::Basis;
use progress::Tell;
use sat_solve::Solver;
use settings::Method;
use std::alloc::{AllocError, Global};
use std::marker::Model;
use tt_core::Spec;

/// A search in progress: the sizes below `next` are done, and `low` is the first open one among them.
#[derive(Drop)]
pub struct SizeSearch {
    header: Header,
    next: u32,
    low: Option<u32>,
    // the chain that is known before its size comes, if any
    known: Option<Chain>,
    effort: u32,
}

impl Model for SizeSearch {
    ghost use Rattle.size_loop.specs.State.{State, IsState};
    ghost use Rattle.size_loop.specs.Outcomes.{IsKnown};

    ghost Value = { State };

    ghost view = { λ s. record { header = s.header; next = s.next; low = s.low } };

    ghost invariant = { λ s. IsState (record { header = s.header; next = s.next; low = s.low }) ×
        IsKnown s.header s.known };
}

/// The result of the next size.
#[derive(Drop)]
pub enum Advance {
    /// No chain was found: the logs of its subproblems, and the search that goes on after it.
    Section {
        rest: SizeSearch,
        section: Section,
    },
    /// The search ends with a chain of that size or, after the greatest size, without one.
    Ended {
        chain: Option<Chain>,
        verdict: Verdict,
    },
}

#[tactic(auto, using(crate::specs::OutcomeLaws::knowing))]
impl SizeSearch {
    /// A search for a chain over the basis that implements the tables, from size 0 on. `max` is the greatest size.
    /// A formula is left open once the solver has learnt at least `budget` clauses of it. `effort` is a factor for
    /// the work of the walks, 0 for no walk. The basis isn't empty, and `max` and `budget` are in the ranges of
    /// `settings`.
    pub fn new(
        spec: Spec,
        basis: Basis,
        method: Method,
        max: u32,
        budget: u32,
        effort: u32,
    ) -> SizeSearch
        requires settings { IsInRange (record {
          basis = basis;
          method = Named method;
          max = max;
          conflicts = budget;
          effort = 0;
        }) }
        ensures header { result.header ≡ record {
          spec = spec;
          basis = basis;
          method = method;
          conflicts = budget;
          max = max;
        } }
        ensures next { result.next ≡ 0 }
        ensures low { result.low ≡ None }
        ensures whole { IsState result }
    {
        // for the prover: bring in the type invariants
        let _inputs = spec.n();
        let _operators = basis.get();
        SizeSearch {
            header: Header {
                spec,
                basis,
                method,
                conflicts: budget,
                max,
            },
            next: 0,
            low: None,
            known: None,
            effort,
        }
    }

    /// Searches the next size with the solver `S`. `tell` hears of each subproblem.
    pub fn advance<S: Solver, T: Tell>(self, alloc: Global, tell: &T) -> Result<Advance, AllocError>
        ensures within { IfOk result (λ step. IfSection step (λ rest section. self.next ≤ self.header.max)) }
        ensures section { IfOk result (λ step. IfSection step (λ rest section.
            IsSection self.header self.next section)) }
        ensures live_bounds { IfOk result (λ step.
            IfSection step (λ rest section. HasLiveBoundsIn self.header section)) }
        ensures rest { IfOk result (λ step. IfSection step (λ rest section. rest ≡ after_section self section)) }
        ensures trailer { IfOk result (λ step. IfEnded step (λ chain verdict.
            IsTrailer self.header self.next self.low chain verdict)) }
    {
        let SizeSearch {
            header,
            next,
            low,
            known,
            effort,
        } = self;
        if next > header.max {
            return Ok(Advance::Ended {
                chain: None,
                verdict: Verdict::not_found(header.max, low),
            });
        }
        let known = known_from(alloc, &header, next, effort, known)?;
        if has_size(&known, next) {
            return Ok(Advance::Ended {
                chain: known,
                verdict: Verdict::found(next, low),
            });
        }
        match search_formulas::<S, T>(alloc, &header, next, tell)? {
            SizeOutcome::Found(chain) => Ok(Advance::Ended {
                chain: Some(chain),
                verdict: Verdict::found(next, low),
            }),
            SizeOutcome::Logged(section) => {
                let rest = SizeSearch {
                    header,
                    next: next + 1,
                    low: first_open(low, &section),
                    known,
                    effort,
                };
                Ok(Advance::Section { rest, section })
            }
        }
    }
}

/// Whether there is a chain and it has `size` steps.
fn has_size(chain: &Option<Chain>, size: u32) -> bool
    ensures { IsTrue result → HasSize size chain.now }
{
    match chain {
        Some(chain) => chain.steps().len() == size as usize,
        None => false,
    }
}

/// The first open size up to that of `section`, where `low` is the first open one before it. A size is open if one
/// of its subproblems is.
fn first_open(low: Option<u32>, section: &Section) -> Option<u32>
    ensures { result ≡ open_with low section.now }
{
    match low {
        Some(low) => Some(low),
        None if section.is_open() => Some(section.size),
        None => None,
    }
}
