//! Depth certificates as they are written.
ghost use Rattle.std.specs.Prelude.{◌≡◌, ◌++◌, ◌∷◌, decimal, OnOk, OnErr};
ghost use Rattle.text_core.specs.Lines.{line_bytes};
ghost use Rattle.chain_core.specs.Spelling.{line};
ghost use Rattle.cert_theory.specs.Certificate.{IsValid, HasOutput};
ghost use Rattle.depth_theory.specs.DepthCertificate.{IsDepth};
ghost use Rattle.depth_theory.specs.DepthSpelling as spelling;
ghost use Rattle.depth_core.specs.Texts.{whole_text};

use crate::DepthCertificate;
use cert_text::{push_numbered, write_certificate, write_subproblems};
use cert_theory::{Certificate, SubproblemLog};
use depth_theory::DepthVerdict;
use std::alloc::AllocError;
use text_core::push_number;

/// The number of levels of the chain, from the verdict.
fn levels_of(verdict: DepthVerdict) -> u32
    ensures { result ≡ spelling.levels_of verdict }
{
    match verdict {
        DepthVerdict::Levels(levels) => levels,
        DepthVerdict::Bounded { low: _, levels } => levels,
    }
}

/// Appends a line with a keyword and two numbers.
fn push_two(text: &mut Vec<u8>, word: &[u8], first: u32, second: u32) -> Result<(), AllocError>
    ensures { OnOk result (text.new.items ≡ text.old.items ++
        line_bytes (line (word.now ++ (decimal first ++ 32 ∷ decimal second)))) }
{
    text.extend_from_slice(word)?;
    push_number(text, first)?;
    push_numbered(text, b" ", second)
}

/// Appends the line with the depth.
#[tactic(auto, unfolding(depth_theory::specs::DepthSpelling::depth_line))]
fn push_depth(text: &mut Vec<u8>, depth: u32) -> Result<(), AllocError>
    ensures { OnOk result (text.new.items ≡ text.old.items ++ line_bytes (line (spelling.depth_line depth))) }
{
    push_numbered(text, b"depth ", depth)
}

/// Appends the line of a verdict.
#[tactic(auto, unfolding(depth_theory::specs::DepthSpelling::levels_line))]
fn push_levels(text: &mut Vec<u8>, verdict: DepthVerdict) -> Result<(), AllocError>
    ensures { OnOk result (text.new.items ≡ text.old.items ++ line_bytes (line (spelling.levels_line verdict))) }
{
    match verdict {
        DepthVerdict::Levels(levels) => push_numbered(text, b"levels ", levels),
        DepthVerdict::Bounded { low, levels } => push_two(text, b"levels-bounded ", low, levels),
    }
}

/// Appends the lines of a depth certificate.
fn push_all(
    text: &mut Vec<u8>,
    certificate: &Certificate,
    subproblems: &[SubproblemLog],
    verdict: DepthVerdict,
) -> Result<(), AllocError>
    requires valid { IsValid certificate.now }
    requires output { HasOutput certificate.now }
    ensures { OnOk result (text.new.items ≡ text.old.items ++ whole_text certificate.now subproblems.now verdict) }
{
    write_certificate(certificate, text)?;
    push_depth(text, levels_of(verdict))?;
    write_subproblems(subproblems, text)?;
    push_levels(text, verdict)?;
    text.extend_from_slice(b"end\n")?;
    Ok(())
}

/// Appends the unique text of a depth certificate whose tables have an output. On an error nothing was written.
#[tactic(auto, using(crate::proofs::Written::pieces))]
pub fn write_depth(value: &DepthCertificate, out: &mut Vec<u8>) -> Result<(), AllocError>
    requires is_depth { IsDepth value.now }
    requires output { HasOutput value.now.certificate }
    ensures ok { OnOk result (out.new.items ≡ out.old.items ++ spelling.depth_text value.now) }
    ensures err { OnErr result (out.new.items ≡ out.old.items) }
{
    let mut text = Vec::new(*out.allocator());
    push_all(
        &mut text,
        &value.certificate,
        &value.subproblems,
        value.verdict,
    )?;
    out.extend_from_slice(&text)
}
