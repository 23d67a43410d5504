//! Windows that stayed undecided.
use crate::candidate::WindowCandidate;
use cert_theory::Certificate;
use std::marker::Model;

/// A window that stayed undecided, and the certificate of its search.
#[derive(Drop)]
pub struct Undecided {
    pub candidate: WindowCandidate,
    pub search: Certificate,
}

impl Model for Undecided {
    ghost use Rattle.improve_theory.specs.Undecided as theory;

    ghost Value = { theory.Undecided };

    ghost view = { λ u. record { candidate = u.candidate; search = u.search } };
}
