//! What the text of a certificate claims.
use cert_theory::{Header, Verdict};
use chain_core::Chain;

/// The question of a certificate, its chain if it has one, and its verdict.
#[derive(Drop)]
pub struct Claim {
    /// The tables, the basis, the method, the conflict limit and the greatest size.
    pub header: Header,
    /// The chain, if one was found.
    pub chain: Option<Chain>,
    /// What the certificate proves.
    pub verdict: Verdict,
}
