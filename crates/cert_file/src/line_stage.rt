//! `Stage` as a reader of lines, for `line_reader`.
ghost use Rattle.std.specs.Prelude.{Err};
ghost use Rattle.cert_file.specs.Stages.{IsStage};
ghost use Rattle.cert_file.specs.StageAnswers.{AnswersText, Refuses, Ends};
ghost use Rattle.cert_file.specs.EndLaws.{ended};

use crate::stage::Stage;
use crate::stepping::{take, verdict_of};
use cert_theory::{CertificateError, Verdict};
use line_reader::{LineStage, TextLine};
use std::alloc::Global;

impl LineStage for Stage {
    type Fault = CertificateError;

    type End = Verdict;

    ghost whole = { λ stage number. IsStage stage number };

    ghost stands = { λ stage number lines all. AnswersText stage number lines all };

    ghost refuses = { λ e all. Refuses e all };

    ghost gives = { λ result text. Ends result text };

    fn start(_alloc: Global) -> Stage {
        Stage::Start
    }

    fn take(self, alloc: Global, line: &TextLine) -> Result<Stage, CertificateError> {
        take(alloc, self, line)
    }

    fn end(self, _alloc: Global, number: u32) -> Result<Verdict, CertificateError> {
        verdict_of(self, number)
    }

    fn no_memory() -> CertificateError {
        CertificateError::Memory
    }

    ghost refusal = { λ e text refused. ended text (Err e) refused };
}
