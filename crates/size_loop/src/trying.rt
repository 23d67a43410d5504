//! One subproblem of a size: its formula is encoded and given to the solver. An assignment is decoded to a chain;
//! the log has what the solver promises of it, over the same formula.
ghost use Rattle.std.specs.Prelude.{◌≤◌, IfOk, Contains};
ghost use Rattle.cert_theory.specs.Certificate.{IsHeader};
ghost use Rattle.cert_theory.specs.Coding.{coding_of};
ghost use Rattle.size_loop.specs.Outcomes.{IsTried};
ghost use Rattle.size_loop.specs.Coded.{IsCodedBy};

use cert_theory::{LogEnd, Header, SubproblemLog};
use chain_core::Chain;
use enc_base::Encoding;
use enc_theory::Subproblem;
use sat_solve::{Solved, Solver};
use std::alloc::{AllocError, Global};

/// The result of a subproblem.
#[derive(Drop)]
pub enum SubproblemOutcome {
    /// A chain of the size.
    Found(Chain),
    /// A log that refutes the subproblem, or has spent the budget on it.
    Logged(SubproblemLog),
}

/// Searches the subproblem `subproblem` of `size` with the solver `S`.
pub fn try_subproblem<S: Solver, E: Encoding>(
    alloc: Global,
    encoding: &E,
    header: &Header,
    size: u32,
    subproblem: Subproblem,
) -> Result<SubproblemOutcome, AllocError>
    requires header { IsHeader header.now }
    requires coding { IsCodedBy (coding_of header.now.method) (E.subproblems_of encoding.now)
        (E.formula_of encoding.now) }
    requires size { size ≤ header.now.max }
    requires subproblem { Contains (E.subproblems_of encoding.now header.now.spec size) subproblem }
    ensures { IfOk result (λ outcome. IsTried header.now size subproblem outcome) }
{
    let cnf = encoding.formula(alloc, &header.spec, header.basis, size, &subproblem)?;
    match S::solve(alloc, &cnf, header.conflicts)? {
        Solved::Sat(assign) => {
            let chain = encoding.decode(
                alloc,
                &header.spec,
                header.basis,
                size,
                &subproblem,
                &assign,
            )?;
            // for the prover: brings in the type invariant
            let _steps = chain.steps();
            Ok(SubproblemOutcome::Found(chain))
        }
        Solved::Unsat(log) => Ok(SubproblemOutcome::Logged(SubproblemLog {
            subproblem,
            ended: LogEnd::Refuted,
            log,
        })),
        Solved::Open(log) => Ok(SubproblemOutcome::Logged(SubproblemLog {
            subproblem,
            ended: LogEnd::Open,
            log,
        })),
    }
}
