//! The trailer of a certificate.
ghost use Rattle.std.specs.Prelude.{◌≡◌, ◌++◌, OnOk, OnErr};
ghost use Rattle.text_core.specs.Lines.{line_bytes};
ghost use Rattle.chain_core.specs.Spelling.{line};
ghost use Rattle.cert_theory.specs.Spelling as spelling;

use crate::tables::push_numbered;
use cert_theory::Verdict;
use chain_core::{Chain, write_chain};
use std::alloc::AllocError;
use text_core::push_number;

/// Appends the lines of a chain, if there is one.
fn push_block(text: &mut Vec<u8>, chain: &Option<Chain>) -> Result<(), AllocError>
    ensures { OnOk result (text.new.items ≡ text.old.items ++ spelling.text_of (spelling.block_lines chain.now)) }
{
    match chain {
        Some(chain) => write_chain(chain, text),
        None => Ok(()),
    }
}

/// Appends the line of a verdict.
#[tactic(auto, unfolding(cert_theory::specs::Spelling::verdict_line))]
fn push_verdict(text: &mut Vec<u8>, verdict: Verdict) -> Result<(), AllocError>
    ensures { OnOk result (text.new.items ≡ text.old.items ++ line_bytes (line (spelling.verdict_line verdict))) }
{
    match verdict {
        Verdict::Minimum(r) => push_numbered(text, b"minimum ", r),
        Verdict::NoChain(max) => push_numbered(text, b"none ", max),
        Verdict::Bounded { low, r } => {
            text.extend_from_slice(b"bounded ")?;
            push_number(text, low)?;
            push_numbered(text, b" ", r)
        }
        Verdict::Open { low } => push_numbered(text, b"open ", low),
    }
}

/// Appends the lines of a trailer.
#[tactic(auto, using(crate::proofs::Written::trailer_pieces))]
pub fn push_trailer(
    text: &mut Vec<u8>,
    chain: &Option<Chain>,
    verdict: Verdict,
) -> Result<(), AllocError>
    ensures { OnOk result (text.new.items ≡ text.old.items ++
        spelling.text_of (spelling.trailer_lines chain.now verdict)) }
{
    push_block(text, chain)?;
    push_verdict(text, verdict)?;
    text.extend_from_slice(b"end\n")
}

/// Appends the lines of a trailer: the chain, if there is one, the verdict, and `end`. On an error `out` is
/// unchanged.
pub fn write_trailer(
    chain: &Option<Chain>,
    verdict: Verdict,
    out: &mut Vec<u8>,
) -> Result<(), AllocError>
    ensures ok { OnOk result (out.new.items ≡ out.old.items ++
        spelling.text_of (spelling.trailer_lines chain.now verdict)) }
    ensures err { OnErr result (out.new.items ≡ out.old.items) }
{
    let mut text = Vec::new(*out.allocator());
    push_trailer(&mut text, chain, verdict)?;
    out.extend_from_slice(&text)
}
