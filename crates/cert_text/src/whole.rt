//! Whole certificates.
ghost use Rattle.std.specs.Prelude.{◌≡◌, ◌<◌, ◌++◌, OnOk, OnErr};
ghost use Rattle.cert_theory.specs.Certificate.{IsValid, HasOutput};
ghost use Rattle.cert_theory.specs.Spelling as spelling;
ghost use Rattle.cert_text.specs.Texts.{sections_text, whole_text};

use crate::header::push_header;
use crate::section::push_section;
use crate::trailer::push_trailer;
use cert_theory::{Certificate, Header, Section, Verdict};
use chain_core::Chain;
use std::alloc::AllocError;

/// Appends the lines of sections.
#[tactic(auto, using(crate::proofs::Written::sections))]
fn push_sections(text: &mut Vec<u8>, sections: &[Section]) -> Result<(), AllocError>
    ensures { OnOk result (text.new.items ≡ text.old.items ++ sections_text sections.now) }
{
    let mut left = sections;
    while let Some((section, rest)) = left.split_first() {
        push_section(text, section)?;
        left = rest;
    }
    Ok(())
}

/// Appends the lines of a certificate.
#[tactic(auto, unfolding(crate::specs::Texts::whole_text))]
fn push_certificate(
    text: &mut Vec<u8>,
    header: &Header,
    sections: &[Section],
    chain: &Option<Chain>,
    verdict: Verdict,
) -> Result<(), AllocError>
    requires { 0 < header.now.basis }
    ensures { OnOk result (text.new.items ≡ text.old.items ++ whole_text header.now sections.now chain.now verdict) }
{
    push_header(
        text,
        &header.spec,
        header.basis,
        header.method,
        header.conflicts,
        header.max,
    )?;
    push_sections(text, sections)?;
    push_trailer(text, chain, verdict)
}

/// Appends the spelling of a valid certificate with an output. On an error `out` is unchanged.
#[tactic(auto, using(crate::proofs::Written::whole))]
pub fn write_certificate(certificate: &Certificate, out: &mut Vec<u8>) -> Result<(), AllocError>
    requires valid { IsValid certificate.now }
    requires output { HasOutput certificate.now }
    ensures ok { OnOk result (out.new.items ≡ out.old.items ++ spelling.cert_text certificate.now) }
    ensures err { OnErr result (out.new.items ≡ out.old.items) }
{
    let mut text = Vec::new(*out.allocator());
    push_certificate(
        &mut text,
        &certificate.header,
        &certificate.sections,
        &certificate.chain,
        certificate.verdict,
    )?;
    out.extend_from_slice(&text)
}
