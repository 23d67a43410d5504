//! Reads tables, searches, and writes the certificate.
ghost use Rattle.std.specs.Prelude.{◌≡◌, ◌^◌, ◌<◌, length, IfOk, IfErr};
ghost use Rattle.text_core.specs.Lines.{lines_of};
ghost use Rattle.settings.specs.declared.methods.Method.TheVariants.{Fence};
ghost use Rattle.settings.specs.declared.methods.MethodChoice.TheVariants.{Named};
ghost use Rattle.settings.specs.Synth.{IsInRange};
ghost use Rattle.tt_core.specs.Gives.{Fails};
ghost use Rattle.cert_theory.specs.Certificate.{HasOutput, IsValid};
ghost use Rattle.cert_theory.specs.Spelling.{cert_text};
ghost use Rattle.depth_theory.specs.DepthCertificate.{IsDepth};
ghost use Rattle.depth_theory.specs.DepthSpelling.{depth_text};
ghost use Rattle.synth_core.specs.Tables.{tables_alone};
ghost use Rattle.synth_core.specs.DepthCertifying.{IsCertificate};

use crate::tables;
use cert_text::write_certificate;
use cert_theory::{Certificate, Verdict};
use depth_core::{DepthCertificate, DepthResult, least_depth, write_depth};
use depth_theory::DepthVerdict;
use progress::Tell;
use sat_solve::Solver;
use settings::SynthSettings;
use std::alloc::{AllocError, Global};
use tt_core::SpecError;

/// The result of a search for the fewest steps and levels.
#[derive(Clone, Copy)]
pub enum DepthFound {
    /// A chain with the fewest steps, and what is known of its levels.
    Least(DepthVerdict),
    /// The fewest steps aren't known, or no chain is within `max`: what is known of the steps.
    Other(Verdict),
}

/// A certificate as text, and its result.
#[derive(Drop)]
pub struct CertifiedDepth {
    pub text: Vec<u8>,
    pub found: DepthFound,
}

/// The text of a depth certificate.
fn depth_written(alloc: Global, certificate: &DepthCertificate) -> Result<Vec<u8>, AllocError>
    requires is_depth { IsDepth certificate.now }
    requires output { HasOutput certificate.now.certificate }
    ensures { IfOk result (λ text. text.items ≡ depth_text certificate.now) }
{
    let mut text = Vec::new(alloc);
    write_depth(certificate, &mut text)?;
    Ok(text)
}

/// The text of a certificate.
fn certificate_written(alloc: Global, certificate: &Certificate) -> Result<Vec<u8>, AllocError>
    requires valid { IsValid certificate.now }
    requires output { HasOutput certificate.now }
    ensures { IfOk result (λ text. text.items ≡ cert_text certificate.now) }
{
    let mut text = Vec::new(alloc);
    write_certificate(certificate, &mut text)?;
    Ok(text)
}

/// Searches with the solver `S` for a chain of the fewest steps that implements the tables in the input, and among
/// the chains of that size for one of the fewest levels, and writes the certificate. A line after the tables is
/// refused as `BadRow`. `tell` hears of each subproblem.
#[tactic(auto, using(crate::proofs::DepthCertified::certifying))]
pub fn certify_depth<S: Solver, T: Tell>(
    alloc: Global,
    bytes: &[u8],
    settings: &SynthSettings,
    tell: &T,
) -> Result<CertifiedDepth, SpecError>
    requires length { length bytes.now < 2 ^ 31 }
    requires range { IsInRange settings.now }
    requires by_fences { settings.now.method ≡ Named Fence }
    ensures certificate { IfOk result (λ c. IsCertificate bytes.now settings.now c.text.items c.found) }
    ensures refusal { IfErr result (λ e. Fails e (tables_alone (lines_of bytes.now))) }
{
    let spec = tables(alloc, bytes)?;
    match least_depth::<S, T>(
        alloc,
        &spec,
        settings.basis,
        settings.max,
        settings.conflicts,
        settings.effort,
        tell,
    )? {
        DepthResult::Least(certificate) => {
            let text = depth_written(alloc, &certificate)?;
            Ok(CertifiedDepth {
                text,
                found: DepthFound::Least(certificate.verdict),
            })
        }
        DepthResult::Other(certificate) => {
            let text = certificate_written(alloc, &certificate)?;
            Ok(CertifiedDepth {
                text,
                found: DepthFound::Other(certificate.verdict),
            })
        }
    }
}
