//! The log of one subproblem. Contracts see its lines as values of `sat_theory`.
use crate::LogEnd;
use enc_theory::Subproblem;
use log_core::Log;
use std::marker::Model;

/// A log over the formula of a subproblem, and how it ends.
#[derive(Drop)]
pub struct SubproblemLog {
    pub subproblem: Subproblem,
    pub ended: LogEnd,
    pub log: Log,
}

impl Model for SubproblemLog {
    ghost use Rattle.cert_theory.specs.Certificate as theory;

    ghost Value = { theory.SubproblemLog };

    ghost view = { λ p. record { subproblem = p.subproblem; ended = p.ended; log = p.log } };
}
