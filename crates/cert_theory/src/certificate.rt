//! A whole certificate, as contracts see it.
use crate::{Header, Section, Verdict};
use chain_core::Chain;
use std::marker::Model;

/// A certificate: the header, the logs of the sizes without a chain, the chain if one was found, and the
/// verdict.
#[derive(Drop)]
pub struct Certificate {
    pub header: Header,
    pub sections: Vec<Section>,
    pub chain: Option<Chain>,
    pub verdict: Verdict,
}

impl Model for Certificate {
    ghost use Rattle.cert_theory.specs.Certificate as theory;

    ghost Value = { theory.Certificate };

    ghost view = { λ b. record {
      header = b.header;
      sections = b.sections.items;
      chain = b.chain;
      verdict = b.verdict;
    } };
}
