//! The reader of one subproblem's log, which depends neither on where in a text the log is nor on what may
//! follow. It keeps a checker of the subproblem's formula, and how many additions are still missing.
//!
//! The argument: the checker's state is the state after the log so far, so it refuses of the next line what the
//! definition refuses, and its subsumption test decides the definition's.
ghost use Rattle.std.specs.Prelude.{◌≡◌, ℕ, ◌==◌, List, [], IfOk};
ghost use Rattle.sat_theory.specs.Line as theory;
ghost use Rattle.sat_theory.specs.Line.{IsLine, HasClause};
ghost use Rattle.sat_theory.specs.Formula.{Formula};
ghost use Rattle.lrat_text.specs.Values.{line_value};
ghost use Rattle.lrat_check.specs.Checked.{HasAccepted};
ghost use Rattle.cert_theory.specs.Gives.{GivesSubproblem};
ghost use Rattle.cert_theory.specs.SubproblemLines as judging;
ghost use Rattle.cert_theory.specs.Spelling.{done_text};
ghost use Rattle.cert_file.specs.Logged.{IsLogged, IsRefusal, MayAdd, added_by, is_unsubsumed_by, IsReading, IsFed};

use cert_theory::{LogEnd, SubproblemError};
use cnf_core::Cnf;
use lrat_check::{CheckError, Checker};
use lrat_text::{Line, LineError, read_line};
use std::alloc::{AllocError, Global};

/// The log of a subproblem, as far as it has been read.
#[derive(Drop)]
pub struct SubproblemReader {
    pub(crate) checker: Checker,
    /// How the log says that it will end.
    pub(crate) ended: LogEnd,
    /// How many more additions an open log needs.
    pub(crate) missing: u32,
}

/// The effect of one more line.
#[derive(Drop)]
pub enum SubproblemStep {
    /// The line belongs to the log.
    More(SubproblemReader),
    /// The line ends the log, without a fault.
    Done,
}

impl SubproblemReader {
    /// A reader before the first line of a log over this formula. An open log needs at least `conflicts`
    /// additions.
    pub fn new(
        alloc: Global,
        cnf: Cnf,
        conflicts: u32,
        end: LogEnd,
    ) -> Result<SubproblemReader, AllocError>
        ensures reading { IfOk result (λ reader. IsReading cnf conflicts [] reader) }
        ensures ended { IfOk result (λ reader. reader.ended ≡ end) }
    {
        let checker = checker_of(alloc, cnf, end)?;
        Ok(SubproblemReader {
            checker,
            ended: end,
            missing: conflicts,
        })
    }

    /// How the log says that it will end.
    pub fn ended(&self) -> LogEnd
        ensures { result ≡ self.now.ended }
    {
        self.ended
    }

    /// Reads the next line: its text, and whether an LF ends it.
    pub fn feed(
        self,
        alloc: Global,
        text: &[u8],
        lf: bool,
    ) -> Result<SubproblemStep, SubproblemError>
        ensures { (f : Formula) (conflicts : ℕ) (log : List theory.Line) → IsReading f conflicts log self →
            IsFed f conflicts self.ended log (record { text = text.now; ended = lf }) result }
    {
        let SubproblemReader {
            checker,
            ended: end,
            missing,
        } = self;
        if is_done(text, lf) {
            let empty = checker.refuted();
            // for the prover: dropped here at once; left to the exit, each of its fields would be
            drop(checker);
            closed(empty, missing == 0, end)?;
            return Ok(SubproblemStep::Done);
        }
        let mut checker = checker;
        match logged(alloc, &mut checker, end, text, lf) {
            Ok(added) => Ok(SubproblemStep::More(SubproblemReader {
                checker,
                ended: end,
                missing: missing.saturating_sub(added),
            })),
            Err(fault) => {
                // for the prover: dropped here at once; left to the exit, each of its fields would be
                drop(checker);
                Err(fault)
            }
        }
    }
}

/// A checker of a formula. Only open logs need the index for subsumption tests.
fn checker_of(alloc: Global, cnf: Cnf, end: LogEnd) -> Result<Checker, AllocError>
    ensures { IfOk result (HasAccepted cnf []) }
{
    match end {
        LogEnd::Refuted => Checker::new(alloc, cnf),
        LogEnd::Open => Checker::indexed(alloc, cnf),
    }
}

/// Whether a line is the end of a log.
fn is_done(text: &[u8], lf: bool) -> bool
    ensures { result ≡ judging.is_line done_text (record { text = text.now; ended = lf }) }
{
    lf && text == b"done".as_slice()
}

/// The LRAT line that a text spells.
#[tactic(auto, unfolding(cert_theory::specs::SubproblemLines::spelled_in))]
fn spelled(alloc: Global, text: &[u8], lf: bool) -> Result<Line, SubproblemError>
    ensures exact { GivesSubproblem line_value result (judging.spelled_in (record { text = text.now; ended = lf })) }
    ensures is_line { IfOk result (λ l. IsLine (line_value l)) }
    ensures clause { IfOk result (λ l. HasClause (line_value l)) }
{
    if !lf {
        return Err(SubproblemError::Syntax);
    }
    match read_line(alloc, text) {
        Ok(line) => Ok(line),
        Err(LineError::Memory) => Err(SubproblemError::Memory),
        Err(_) => Err(SubproblemError::Syntax),
    }
}

/// Whether a line adds no clause that a live clause subsumes.
fn is_unsubsumed(checker: &Checker, line: &Line) -> bool
    ensures { is_unsubsumed_by checker.now (line_value line.now) result }
{
    match line {
        Line::Add { lits, .. } => checker.is_unsubsumed(lits),
        Line::Delete { .. } => true,
    }
}

/// How many clauses a line adds: 0 or 1.
fn added_by(line: &Line) -> u32
    ensures { result ≡ added_by (line_value line.now) }
{
    match line {
        Line::Add { .. } => 1,
        Line::Delete { .. } => 0,
    }
}

/// Whether a log may add what a line adds; only open logs are restricted.
fn may_add(checker: &Checker, end: LogEnd, line: &Line) -> bool
    ensures { MayAdd checker.now end (line_value line.now) result }
{
    match end {
        LogEnd::Refuted => true,
        LogEnd::Open => is_unsubsumed(checker, line),
    }
}

/// A fault of the checker as one of the log.
fn refusal(fault: CheckError) -> SubproblemError
    ensures { IsRefusal fault result }
{
    match fault {
        CheckError::Memory => SubproblemError::Memory,
        fault => SubproblemError::StepRefused(fault),
    }
}

/// Checks a line of a log, and returns how many clauses it adds.
fn logged(
    alloc: Global,
    checker: &mut Checker,
    end: LogEnd,
    text: &[u8],
    lf: bool,
) -> Result<u32, SubproblemError>
    ensures { (f : Formula) (log : List theory.Line) → HasAccepted f log checker.old →
        IsLogged f end log (record { text = text.now; ended = lf }) checker.new result }
{
    let spelled = spelled(alloc, text, lf)?;
    let allowed = may_add(checker, end, &spelled);
    let added = added_by(&spelled);
    match checker.feed(spelled) {
        Ok(()) => {}
        Err(fault) => return Err(refusal(fault)),
    }
    if !allowed {
        return Err(SubproblemError::NotNew);
    }
    Ok(added)
}

/// Checks at the end of a log: whether there is an empty clause, and whether there are enough additions.
fn closed(empty: bool, enough: bool, end: LogEnd) -> Result<(), SubproblemError>
    ensures { GivesSubproblem (λ x. x) result (judging.closed empty enough end) }
{
    match end {
        LogEnd::Refuted => {
            if !empty {
                return Err(SubproblemError::NotRefuted);
            }
        }
        LogEnd::Open => {
            if empty {
                return Err(SubproblemError::EmptyClauseDerived);
            }
            if !enough {
                return Err(SubproblemError::TooShort);
            }
        }
    }
    Ok(())
}
