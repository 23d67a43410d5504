//! Depth certificates, as contracts see them.
use cert_theory::{Certificate, SubproblemLog};
use depth_theory::DepthVerdict;
use std::marker::Model;

/// A certificate by fences, the logs `subproblems` of the fences with fewer levels than its chain, and the verdict on
/// its levels.
#[derive(Drop)]
pub struct DepthCertificate {
    pub certificate: Certificate,
    pub subproblems: Vec<SubproblemLog>,
    pub verdict: DepthVerdict,
}

impl Model for DepthCertificate {
    ghost use Rattle.depth_theory.specs.DepthCertificate as theory;

    ghost Value = { theory.DepthCertificate };

    ghost view = { λ b. record {
      certificate = b.certificate;
      subproblems = b.subproblems.items;
      verdict = b.verdict;
    } };
}
