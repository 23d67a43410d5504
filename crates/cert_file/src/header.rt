//! The lines of the header.
ghost use Rattle.std.specs.Prelude.{◌≡◌, ◌+◌, ◌<◌, ◌≤◌, List, ◌∷◌, length, IfOk, IfSome};
ghost use Rattle.text_core.specs.Lines.{Line};
ghost use Rattle.tt_core.specs.Words.{IsSpec};
ghost use Rattle.tt_core.specs.Tables as tables;
ghost use Rattle.chain_theory.specs.Limits.{most_steps};
ghost use Rattle.cert_theory.specs.Judging as judging;
ghost use Rattle.line_reader.specs.TextLines.{line_of};
ghost use Rattle.cert_file.specs.HeaderLines.{with_max, with_conflicts, with_method, header_by, header_in};
ghost use Rattle.cert_file.specs.Stages.{Answer, Judged, IsStage};
ghost use Rattle.cert_file.specs.Claims.{KeepsClaim};

use crate::lines::{TextLine, is_line, value_of};
use crate::stage::{NextSize, Stage};
use cert_theory::{CertificateError, Header};
use op_basis::{Basis, read_basis, write_basis};
use settings::{MOST_CONFLICTS, MOST_STEPS, Method, method_named};
use std::alloc::{AllocError, Global};
use text_core::{begins_lower, number_up_to};
use tt_core::{MOST_INPUTS, MOST_OUTPUTS, Spec, are_cells, inputs, push_row};

/// The first line: the format and its version.
#[tactic(auto, unfolding(cert_theory::specs::Judging::certificate_of, crate::specs::HeaderLines::header_in))]
pub(crate) fn at_start(line: &TextLine) -> Result<Stage, CertificateError>
    requires { line.now.number ≡ 1 }
    ensures keeps { IfOk result (λ s. IsStage s (line.now.number + 1)) }
    ensures answer { (ls : List Line) (answer : Answer) → answer ≡ judging.certificate_of (line_of line.now ∷ ls) →
        Judged result (line.now.number + 1) ls answer }
    ensures keeps_claim { (ls all : List Line) → header_in all ≡ header_in (line_of line.now ∷ ls) →
        IfOk result (λ s. KeepsClaim s (line.now.number + 1) ls all) }
{
    if !is_line(b"chains 1", line) {
        return Err(CertificateError::Syntax(line.number));
    }
    Ok(Stage::Inputs)
}

/// The number of inputs.
#[tactic(auto, unfolding(cert_theory::specs::Judging::with_tables, crate::specs::HeaderLines::header_by))]
pub(crate) fn at_inputs(alloc: Global, line: &TextLine) -> Result<Stage, CertificateError>
    requires { line.now.number ≡ 2 }
    ensures keeps { IfOk result (λ s. IsStage s (line.now.number + 1)) }
    ensures answer { (ls : List Line) (answer : Answer) →
        answer ≡ judging.with_tables (tables.tables_of (line_of line.now ∷ ls)) →
        Judged result (line.now.number + 1) ls answer }
    ensures keeps_claim { (ls all : List Line) →
        header_in all ≡ header_by (tables.tables_of (line_of line.now ∷ ls)) →
        IfOk result (λ s. KeepsClaim s (line.now.number + 1) ls all) }
{
    let Some(n) = inputs(line.text, line.ended) else {
        return Err(CertificateError::Syntax(line.number));
    };
    if n > MOST_INPUTS {
        return Err(CertificateError::Syntax(line.number));
    }
    Ok(Stage::Tables {
        n,
        on: Vec::new(alloc),
        care: Vec::new(alloc),
    })
}

/// The basis on a line, if it has its canonical spelling.
#[tactic(auto, unfolding(cert_theory::specs::Judging::basis_in))]
pub(crate) fn basis_in(alloc: Global, line: &TextLine) -> Result<Option<Basis>, AllocError>
    ensures exact { IfOk result (λ basis. basis ≡ judging.basis_in (line_of line.now)) }
    ensures some { IfOk result (λ basis. IfSome basis (λ b. 0 < b)) }
{
    let Some(word) = value_of(b"basis ", line) else {
        return Ok(None);
    };
    let Ok(basis) = read_basis(word) else {
        return Ok(None);
    };
    let mut spelling = Vec::new(alloc);
    write_basis(basis, &mut spelling)?;
    if word != spelling.as_slice() {
        return Ok(None);
    }
    Ok(Some(basis))
}

/// The line after the tables, which must be that of the basis.
#[tactic(auto, // for the prover
unfolding(cert_theory::specs::Judging::with_tables, cert_theory::specs::Judging::after_tables, // for the prover
crate::specs::HeaderLines::header_by, crate::specs::HeaderLines::with_basis))]
fn at_basis(
    alloc: Global,
    n: u32,
    on: Vec<u64>,
    care: Vec<u64>,
    line: &TextLine,
) -> Result<Stage, CertificateError>
    requires number { line.now.number ≡ 3 + length on.items }
    requires tables { IsSpec (record { n = n; on = on.items; care = care.items }) }
    ensures keeps { IfOk result (λ s. IsStage s (line.now.number + 1)) }
    ensures answer { (ls : List Line) (answer : Answer) →
        answer ≡ judging.with_tables (tables.end_of (record { n = n; on = on.items; care = care.items })
        (line_of line.now ∷ ls)) → Judged result (line.now.number + 1) ls answer }
    ensures keeps_claim { (ls all : List Line) →
        header_in all ≡ header_by (tables.end_of (record { n = n; on = on.items; care = care.items })
        (line_of line.now ∷ ls)) → IfOk result (λ s. KeepsClaim s (line.now.number + 1) ls all) }
{
    if on.is_empty() {
        return Err(CertificateError::Syntax(line.number));
    }
    let Some(basis) = basis_in(alloc, line)? else {
        return Err(CertificateError::Syntax(line.number));
    };
    Ok(Stage::Methods {
        spec: Spec::new(n, on, care),
        basis,
    })
}

/// A table, or the line after the tables.
#[tactic(auto, // for the prover
unfolding(cert_theory::specs::Judging::with_tables, tt_core::specs::Tables::rows_of, // for the prover
crate::specs::HeaderLines::header_by))]
pub(crate) fn at_tables(
    alloc: Global,
    n: u32,
    on: Vec<u64>,
    care: Vec<u64>,
    line: &TextLine,
) -> Result<Stage, CertificateError>
    requires number { line.now.number ≡ 3 + length on.items }
    requires tables { IsSpec (record { n = n; on = on.items; care = care.items }) }
    ensures keeps { IfOk result (λ s. IsStage s (line.now.number + 1)) }
    ensures answer { (ls : List Line) (answer : Answer) →
        answer ≡ judging.with_tables (tables.rows_of (record { n = n; on = on.items; care = care.items })
        (line_of line.now ∷ ls)) → Judged result (line.now.number + 1) ls answer }
    ensures keeps_claim { (ls all : List Line) →
        header_in all ≡ header_by (tables.rows_of (record { n = n; on = on.items; care = care.items })
        (line_of line.now ∷ ls)) → IfOk result (λ s. KeepsClaim s (line.now.number + 1) ls all) }
{
    if begins_lower(line.text) {
        return at_basis(alloc, n, on, care, line);
    }
    if on.len() == MOST_OUTPUTS
        || !line.ended
        || line.text.is_empty()
        || !are_cells(line.text)
        || line.text.len() != 1 << n
    {
        return Err(CertificateError::Syntax(line.number));
    }
    let mut on = on;
    let mut care = care;
    push_row(n, &mut on, &mut care, line.text)?;
    Ok(Stage::Tables { n, on, care })
}

/// The method on a line.
#[tactic(auto, unfolding(cert_theory::specs::Judging::method_in))]
pub(crate) fn method_in(line: &TextLine) -> Option<Method>
    ensures { result ≡ judging.method_in (line_of line.now) }
{
    method_named(value_of(b"method ", line)?)
}

/// The line of the method.
#[tactic(auto, unfolding(cert_theory::specs::Judging::after_basis, crate::specs::HeaderLines::with_method))]
pub(crate) fn at_method(
    spec: Spec,
    basis: Basis,
    line: &TextLine,
) -> Result<Stage, CertificateError>
    requires basis { 0 < basis }
    requires output { 0 < length spec.on }
    ensures keeps { IfOk result (λ s. IsStage s (line.now.number + 1)) }
    ensures answer { (ls : List Line) (answer : Answer) →
        answer ≡ judging.after_basis spec basis line.now.number (line_of line.now ∷ ls) →
        Judged result (line.now.number + 1) ls answer }
    ensures keeps_claim { (ls all : List Line) → header_in all ≡ with_method spec basis (line_of line.now ∷ ls) →
        IfOk result (λ s. KeepsClaim s (line.now.number + 1) ls all) }
{
    let Some(method) = method_in(line) else {
        return Err(CertificateError::Syntax(line.number));
    };
    Ok(Stage::Conflicts {
        spec,
        basis,
        method,
    })
}

/// The conflict limit on a line, from 1 to 10,000,000.
#[tactic(auto, unfolding(cert_theory::specs::Judging::conflicts_in))]
pub(crate) fn conflicts_in(line: &TextLine) -> Option<u32>
    ensures { result ≡ judging.conflicts_in (line_of line.now) }
{
    let conflicts = number_up_to(MOST_CONFLICTS, value_of(b"conflicts ", line)?)?;
    if conflicts == 0 {
        return None;
    }
    Some(conflicts)
}

/// The line of the conflict limit.
#[tactic(auto, unfolding(cert_theory::specs::Judging::after_method, crate::specs::HeaderLines::with_conflicts))]
pub(crate) fn at_conflicts(
    spec: Spec,
    basis: Basis,
    method: Method,
    line: &TextLine,
) -> Result<Stage, CertificateError>
    requires basis { 0 < basis }
    requires output { 0 < length spec.on }
    ensures keeps { IfOk result (λ s. IsStage s (line.now.number + 1)) }
    ensures answer { (ls : List Line) (answer : Answer) →
        answer ≡ judging.after_method spec basis method line.now.number (line_of line.now ∷ ls) →
        Judged result (line.now.number + 1) ls answer }
    ensures keeps_claim { (ls all : List Line) →
        header_in all ≡ with_conflicts spec basis method (line_of line.now ∷ ls) →
        IfOk result (λ s. KeepsClaim s (line.now.number + 1) ls all) }
{
    let Some(conflicts) = conflicts_in(line) else {
        return Err(CertificateError::Syntax(line.number));
    };
    Ok(Stage::Sizes {
        spec,
        basis,
        method,
        conflicts,
    })
}

/// The greatest size on a line, at most 16.
#[tactic(auto, unfolding(cert_theory::specs::Judging::max_in))]
pub(crate) fn max_in(line: &TextLine) -> Option<u32>
    ensures exact { result ≡ judging.max_in (line_of line.now) }
    ensures small { IfSome result (λ max. max ≤ most_steps) }
{
    let word = value_of(b"max ", line)?;
    number_up_to(MOST_STEPS, word)
}

/// The line of the greatest size, which ends the header.
#[tactic(auto, unfolding(cert_theory::specs::Judging::after_conflicts, crate::specs::HeaderLines::with_max))]
pub(crate) fn at_max(
    spec: Spec,
    basis: Basis,
    method: Method,
    conflicts: u32,
    line: &TextLine,
) -> Result<Stage, CertificateError>
    requires basis { 0 < basis }
    requires output { 0 < length spec.on }
    ensures keeps { IfOk result (λ s. IsStage s (line.now.number + 1)) }
    ensures answer { (ls : List Line) (answer : Answer) →
        answer ≡ judging.after_conflicts spec basis method conflicts line.now.number (line_of line.now ∷ ls) →
        Judged result (line.now.number + 1) ls answer }
    ensures keeps_claim { (ls all : List Line) →
        header_in all ≡ with_max spec basis method conflicts (line_of line.now ∷ ls) →
        IfOk result (λ s. KeepsClaim s (line.now.number + 1) ls all) }
{
    let Some(max) = max_in(line) else {
        return Err(CertificateError::Syntax(line.number));
    };
    let header = Header {
        spec,
        basis,
        method,
        conflicts,
        max,
    };
    Ok(Stage::Between {
        next: NextSize {
            header,
            size: 0,
            low: None,
        },
    })
}
