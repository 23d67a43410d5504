//! The formula of a part, from what the certificate claims.
ghost use Rattle.std.specs.Prelude.{◌≡◌, ◌+◌, ◌≤◌, ◌<◌, IfOk, IfSome};
ghost use Rattle.std.specs.Option.{option_map};
ghost use Rattle.chain_theory.specs.Limits.{most_steps};
ghost use Rattle.cmd_formula.specs.Parts as parts;

use crate::parts::PartAsked;
use cert_file::{Claim, Header};
use cnf_core::Cnf;
use enc_base::Encoding;
use enc_fence::FenceEnc;
use enc_select::Select;
use enc_ssv::{Plain, Ssv};
use enc_strong::{Strong, StrongFence};
use settings::Method;
use std::alloc::{AllocError, Global};

/// The formula of a numbered subproblem of a size by an encoding; None if the size has no such subproblem.
#[tactic(auto, using(crate::proofs::Choosing::choosing))]
fn formula_by<E: Encoding>(
    alloc: Global,
    encoding: &E,
    header: &Header,
    size: u32,
    part: u32,
) -> Result<Option<Cnf>, AllocError>
    requires size { size ≤ most_steps }
    requires operators { 0 < header.now.basis }
    ensures { IfOk result (λ cnf. cnf ≡ option_map
        (E.formula_of encoding.now header.now.spec header.now.basis size)
        (parts.numbered part (E.subproblems_of encoding.now header.now.spec size))) }
{
    let subproblems = encoding.subproblems(alloc, &header.spec, size)?;
    if part == 0 {
        return Ok(None);
    }
    let Some(subproblem) = subproblems.get(part as usize - 1) else {
        return Ok(None);
    };
    let cnf = encoding.formula(alloc, &header.spec, header.basis, size, subproblem)?;
    Ok(Some(cnf))
}

/// The formula of a numbered subproblem of a size; None if the size has no such subproblem.
#[tactic(auto, unfolding(cert_theory::specs::Coding::coding_of))]
pub(crate) fn formula_at(
    alloc: Global,
    header: &Header,
    size: u32,
    part: u32,
) -> Result<Option<Cnf>, AllocError>
    requires size { size ≤ most_steps }
    requires operators { 0 < header.now.basis }
    ensures { IfOk result (λ cnf. cnf ≡ parts.formula_at header.now part size) }
{
    match header.method {
        Method::Plain => formula_by(alloc, &Plain, header, size, part),
        Method::Ssv => formula_by(alloc, &Ssv, header, size, part),
        Method::Select => formula_by(alloc, &Select, header, size, part),
        Method::Fence => formula_by(alloc, &FenceEnc, header, size, part),
        Method::Strong => formula_by(alloc, &Strong, header, size, part),
        Method::StrongFence => formula_by(alloc, &StrongFence, header, size, part),
    }
}

/// The number of sections of a certificate.
fn sections(claim: &Claim) -> u32
    requires { parts.count_of claim.now.header claim.now.chain ≤ most_steps + 1 }
    ensures { result ≡ parts.count_of claim.now.header claim.now.chain }
{
    match &claim.chain {
        None => claim.header.max + 1,
        Some(chain) => chain.steps().len() as u32,
    }
}

/// The size that is asked for, if it has a section.
pub(crate) fn size_in(claim: &Claim, asked: PartAsked) -> Option<u32>
    requires { parts.count_of claim.now.header claim.now.chain ≤ most_steps + 1 }
    ensures exact { result ≡ parts.size_in (parts.count_of claim.now.header claim.now.chain) asked.size }
    ensures few { IfSome result (λ size. size ≤ most_steps) }
{
    let count = sections(claim);
    let size = match asked.size {
        Some(size) => size,
        None => count.saturating_sub(1),
    };
    if size < count { Some(size) } else { None }
}
