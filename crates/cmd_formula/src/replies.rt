//! The two commands: the formula of a part, and its log.
ghost use Rattle.std.specs.Prelude.{◌≡◌, ℕ, ◌≤◌, List, None, Err, IfOk, IfErr, length};
ghost use Rattle.frame_core.specs.declared.status.Status.TheVariants.{Done};
ghost use Rattle.chain_theory.specs.Limits.{most_steps};
ghost use Rattle.depth_theory.specs.Verdicts.{most_of_certificate};
ghost use Rattle.frame_core.specs.Views.{Judges, reply_value, refusal_value};
ghost use Rattle.cmd_formula.specs.Claimed.{IsFound};
ghost use Rattle.cmd_formula.specs.Dimacs.{dimacs_text};
ghost use Rattle.cmd_formula.specs.Parts.{Part};
ghost use Rattle.cmd_formula.specs.FormulaReport.{formula_part, log_part, HasText, task_of, formula_task, log_task};
ghost use Rattle.cmd_formula.specs.FormulaReport.{formula_refusal, NoSuchPart};

use crate::claims::claim_in;
use crate::dimacs::push_dimacs;
use crate::formulas::{formula_at, size_in};
use crate::logs::plain_text;
use crate::parts::PartAsked;
use cnf_core::Cnf;
use frame_core::{ErrorLine, Refusal, Replier, Reply, Status, Stop};
use std::alloc::{AllocError, Global};

/// The most bytes of a certificate that are read: 256 MiB, as by `recheck`.
const MOST_BYTES: usize = 268_435_456;

/// A part that a certificate has.
#[derive(Drop)]
struct FoundPart {
    /// Its size.
    size: u32,
    /// Its formula.
    cnf: Cnf,
}

/// The refusal where a certificate doesn't have the part.
#[tactic(auto, unfolding(crate::specs::FormulaReport::no_such_part))]
fn no_such_part() -> Refusal
    ensures { refusal_value result ≡ formula_refusal NoSuchPart }
{
    Refusal {
        status: Status::Malformed,
        line: ErrorLine::plain(b"NoSuchPart"),
    }
}

/// The part of a certificate.
#[tactic(auto, using(crate::proofs::Finding::finding))]
fn part_in(alloc: Global, bytes: &[u8], asked: PartAsked) -> Result<FoundPart, Stop>
    requires { length bytes.now ≤ most_of_certificate }
    ensures found { IfOk result (λ x. IsFound asked.size asked.part bytes.now x.size x.cnf) }
    ensures few { IfOk result (λ x. x.size ≤ most_steps) }
    ensures stop { IfErr result (λ stop. (text : Part → List ℕ) →
        Judges (task_of text asked.size asked.part) bytes.now (Err stop)) }
{
    let claim = match claim_in(alloc, bytes) {
        Ok(claim) => claim,
        Err(stop) => return Err(stop),
    };
    let Some(size) = size_in(&claim, asked) else {
        return Err(Stop::NoAnswer(no_such_part()));
    };
    match formula_at(alloc, &claim.header, size, asked.part) {
        Ok(Some(cnf)) => Ok(FoundPart { size, cnf }),
        Ok(None) => Err(Stop::NoAnswer(no_such_part())),
        Err(AllocError) => Err(Stop::NoMemory),
    }
}

/// A formula in DIMACS.
fn dimacs(alloc: Global, cnf: &Cnf) -> Result<Vec<u8>, AllocError>
    ensures { IfOk result (λ text. text.items ≡ dimacs_text cnf.now) }
{
    let mut text = Vec::new(alloc);
    push_dimacs(&mut text, cnf)?;
    Ok(text)
}

/// The formula of a part, in DIMACS.
#[tactic(auto, using(crate::proofs::Finding::finding))]
fn formula_text(alloc: Global, bytes: &[u8], asked: PartAsked) -> Result<Vec<u8>, Stop>
    requires { length bytes.now ≤ most_of_certificate }
    ensures text { IfOk result (λ text. HasText formula_part asked.size asked.part bytes.now text.items) }
    ensures stop { IfErr result (λ stop. Judges (formula_task asked.size asked.part) bytes.now (Err stop)) }
{
    let found = match part_in(alloc, bytes, asked) {
        Ok(found) => found,
        Err(stop) => return Err(stop),
    };
    match dimacs(alloc, &found.cnf) {
        Ok(text) => Ok(text),
        Err(AllocError) => Err(Stop::NoMemory),
    }
}

/// The log of a part, as plain LRAT.
#[tactic(auto, using(crate::proofs::Finding::finding))]
fn log_text(alloc: Global, bytes: &[u8], asked: PartAsked) -> Result<Vec<u8>, Stop>
    requires { length bytes.now ≤ most_of_certificate }
    ensures text { IfOk result (λ text. HasText log_part asked.size asked.part bytes.now text.items) }
    ensures stop { IfErr result (λ stop. Judges (log_task asked.size asked.part) bytes.now (Err stop)) }
{
    let found = match part_in(alloc, bytes, asked) {
        Ok(found) => found,
        Err(stop) => return Err(stop),
    };
    match plain_text(alloc, bytes, found.size, asked.part, &found.cnf) {
        Ok(text) => Ok(text),
        Err(AllocError) => Err(Stop::NoMemory),
    }
}

/// A text as a reply.
fn reply_of(text: Vec<u8>) -> Reply
    ensures { reply_value result ≡ record { text = text.items; report = None; status = Done } }
{
    Reply {
        text,
        report: None,
        status: Status::Done,
    }
}

/// The command that writes the formula of a part of a certificate in DIMACS.
#[derive(Drop)]
pub struct WriteFormula(pub PartAsked);

impl Replier for WriteFormula {
    ghost task = { λ asked. formula_task asked.0.size asked.0.part };

    ghost ready = { λ _. Unit {0} };

    fn reads(&self) -> Option<usize> {
        Some(MOST_BYTES)
    }

    #[tactic(auto, using(crate::proofs::Finding::finding))]
    fn reply(&self, alloc: Global, bytes: &[u8]) -> Result<Reply, Stop> {
        match formula_text(alloc, bytes, self.0) {
            Ok(text) => Ok(reply_of(text)),
            Err(stop) => Err(stop),
        }
    }
}

/// The command that writes the log of a part of a certificate as plain LRAT.
#[derive(Drop)]
pub struct WriteLog(pub PartAsked);

impl Replier for WriteLog {
    ghost task = { λ asked. log_task asked.0.size asked.0.part };

    ghost ready = { λ _. Unit {0} };

    fn reads(&self) -> Option<usize> {
        Some(MOST_BYTES)
    }

    #[tactic(auto, using(crate::proofs::Finding::finding))]
    fn reply(&self, alloc: Global, bytes: &[u8]) -> Result<Reply, Stop> {
        match log_text(alloc, bytes, self.0) {
            Ok(text) => Ok(reply_of(text)),
            Err(stop) => Err(stop),
        }
    }
}
