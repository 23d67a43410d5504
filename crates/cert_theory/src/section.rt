//! The logs of one size, and whether they leave it open.
ghost use Rattle.std.specs.Prelude.{◌≡◌};
ghost use Rattle.cert_theory.specs.Certificate as certificates;

use crate::{LogEnd, SubproblemLog};
use std::marker::Model;

/// The logs of one size, one for each of its subproblems, in order.
#[derive(Drop)]
pub struct Section {
    pub size: u32,
    pub subproblems: Vec<SubproblemLog>,
}

impl Model for Section {
    ghost use Rattle.cert_theory.specs.Certificate as theory;

    ghost Value = { theory.Section };

    ghost view = { λ s. record { size = s.size; subproblems = s.subproblems.items } };
}

impl Section {
    /// Whether a subproblem of the size is open, that is, neither refuted nor satisfied.
    pub fn is_open(&self) -> bool
        ensures { result ≡ certificates.is_open self.now }
    {
        self.subproblems
            .iter()
            .any(|subproblem| subproblem.ended == LogEnd::Open)
    }
}
