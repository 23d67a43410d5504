//! The command that writes a part.
ghost use Rattle.std.specs.Prelude.{◌≡◌, ℕ, ◌≤◌, List, length, Err, IfOk, IfErr};
ghost use Rattle.text_core.specs.Lines.{lines_of};
ghost use Rattle.tt_core.specs.Gives.{Fails};
ghost use Rattle.chain_core.specs.Spelling.{chain_text as chain_text_of};
ghost use Rattle.settings.specs.Synth.{IsInRange};
ghost use Rattle.synth_core.specs.Tables.{tables_alone};
ghost use Rattle.cmd_part.specs.declared.part.PartOfSearch.{PartOfSearch};
ghost use Rattle.frame_core.specs.Views.{Judges, reply_value, refusal_value};
ghost use Rattle.cmd_lines.specs.TableLines.{most_of_tables};
ghost use Rattle.cmd_synth.specs.SynthReport.{AreTables, synth_refusal};
ghost use Rattle.cmd_part.specs.PartReport as spec;

use crate::part::PartOfSearch;
use crate::trying::{header_of, try_part};
use cert_text::write_subproblems;
use cert_theory::{LogEnd, SubproblemLog};
use chain_core::{Chain, write_chain};
use cmd_lines::{MOST_BYTES_OF_TABLES, name_spec, spec_status};
use frame_core::{ErrorLine, Refusal, Replier, Reply, Status, Stop};
use sat_solve::Solver;
use size_loop::SubproblemOutcome;
use std::alloc::{AllocError, Global};
use std::marker::PhantomData;
use synth_core::tables;
use tt_core::{Spec, SpecError};

/// A fault of the tables as a refusal.
fn refusal_of(error: SpecError) -> Refusal
    ensures { refusal_value result ≡ synth_refusal error }
{
    Refusal {
        status: spec_status(error),
        line: name_spec(error),
    }
}

/// The refusal where a size has no such part.
#[tactic(auto, unfolding(crate::specs::PartReport::no_such_part))]
fn no_such_part() -> Refusal
    ensures { refusal_value result ≡ spec.part_refusal spec.NoSuchPart }
{
    Refusal {
        status: Status::Malformed,
        line: ErrorLine::plain(b"NoSuchPart"),
    }
}

/// Why there are no tables.
#[tactic(auto, using(crate::proofs::Replying::replying))]
fn stop_of(error: SpecError) -> Stop
    ensures { (part : PartOfSearch) (bytes : List ℕ) → length bytes ≤ most_of_tables →
        Fails error (tables_alone (lines_of bytes)) → Judges (spec.part_task part) bytes (Err result) }
{
    match error {
        SpecError::Memory => Stop::NoMemory,
        error => Stop::NoAnswer(refusal_of(error)),
    }
}

/// The tables in the input.
#[tactic(auto, using(crate::proofs::Replying::replying))]
fn tables_in(alloc: Global, bytes: &[u8], part: PartOfSearch) -> Result<Spec, Stop>
    requires { length bytes.now ≤ most_of_tables }
    ensures tables { IfOk result (λ spec. AreTables bytes.now spec) }
    ensures stop { IfErr result (λ stop. Judges (spec.part_task part) bytes.now (Err stop)) }
{
    match tables(alloc, bytes) {
        Ok(spec) => {
            // for the prover: brings in the type invariant
            let _inputs = spec.n();
            Ok(spec)
        }
        Err(error) => Err(stop_of(error)),
    }
}

/// The result of a part of a search for the tables in the input.
#[tactic(auto, using(crate::proofs::Replying::replying))]
fn outcome_in<S: Solver>(
    alloc: Global,
    bytes: &[u8],
    part: PartOfSearch,
) -> Result<SubproblemOutcome, Stop>
    requires within { length bytes.now ≤ most_of_tables }
    requires range { IsInRange part.settings }
    requires size { part.size ≤ part.settings.max }
    ensures part { IfOk result (λ outcome. spec.HasPart part bytes.now outcome) }
    ensures stop { IfErr result (λ stop. Judges (spec.part_task part) bytes.now (Err stop)) }
{
    let spec = match tables_in(alloc, bytes, part) {
        Ok(spec) => spec,
        Err(stop) => return Err(stop),
    };
    let header = header_of(spec, &part.settings);
    let found = match try_part::<S>(alloc, &header, part.size, part.before) {
        Ok(found) => found,
        Err(AllocError) => return Err(Stop::NoMemory),
    };
    let Some(outcome) = found else {
        return Err(Stop::NoAnswer(no_such_part()));
    };
    Ok(outcome)
}

/// The text of a log, as it stands in a section.
#[tactic(auto, using(crate::proofs::Replying::writing))]
fn log_text(alloc: Global, log: SubproblemLog) -> Result<Vec<u8>, AllocError>
    ensures { IfOk result (λ text. text.items ≡ spec.log_text log) }
{
    let mut text = Vec::new(alloc);
    let mut logs = Vec::new(alloc);
    logs.push(log)?;
    write_subproblems(&logs, &mut text)?;
    Ok(text)
}

/// The text of a chain.
fn chain_text(alloc: Global, chain: &Chain) -> Result<Vec<u8>, AllocError>
    ensures { IfOk result (λ text. text.items ≡ chain_text_of chain.now) }
{
    let mut text = Vec::new(alloc);
    write_chain(chain, &mut text)?;
    Ok(text)
}

/// The status of a log.
fn ended_status(ended: LogEnd) -> Status
    ensures { result ≡ spec.ended_status ended }
{
    match ended {
        LogEnd::Refuted => Status::Done,
        LogEnd::Open => Status::Undecided,
    }
}

/// The reply for a result.
fn reply_of(alloc: Global, outcome: SubproblemOutcome) -> Result<Reply, AllocError>
    ensures { IfOk result (λ reply. reply_value reply ≡ spec.part_reply outcome) }
{
    match outcome {
        SubproblemOutcome::Found(chain) => {
            let text = chain_text(alloc, &chain)?;
            Ok(Reply {
                text,
                report: None,
                status: Status::Done,
            })
        }
        SubproblemOutcome::Logged(log) => {
            let status = ended_status(log.ended);
            let text = log_text(alloc, log)?;
            Ok(Reply {
                text,
                report: None,
                status,
            })
        }
    }
}

/// The command: a part of a search, solved with `S`.
#[derive(Drop)]
pub struct WritePart<S> {
    /// The part.
    pub part: PartOfSearch,
    /// The solver.
    pub solver: PhantomData<S>,
}

impl<S: Solver> Replier for WritePart<S> {
    ghost task = { λ job. spec.part_task job.part };

    ghost ready = { λ job. IsInRange job.part.settings × job.part.size ≤ job.part.settings.max };

    fn reads(&self) -> Option<usize> {
        Some(MOST_BYTES_OF_TABLES)
    }

    #[tactic(auto, using(crate::proofs::Replying::replying))]
    fn reply(&self, alloc: Global, bytes: &[u8]) -> Result<Reply, Stop> {
        let outcome = match outcome_in::<S>(alloc, bytes, self.part) {
            Ok(outcome) => outcome,
            Err(stop) => return Err(stop),
        };
        match reply_of(alloc, outcome) {
            Ok(reply) => Ok(reply),
            Err(AllocError) => Err(Stop::NoMemory),
        }
    }
}
