//! Depth certificates as texts that are read line by line.
ghost use Rattle.std.specs.Prelude.{Err};
ghost use Rattle.depth_file.specs.EndLaws.{ended};
ghost use Rattle.depth_file.specs.Stages.{IsStage};
ghost use Rattle.depth_file.specs.StageAnswers.{AnswersText, Refuses, Ends};

use crate::stage::Stage;
use crate::stepping::{take, verdict_of};
use cert_file::CertificateReader;
use depth_theory::{DepthError, DepthVerdict};
use line_reader::{LineStage, TextLine};
use std::alloc::Global;

impl LineStage for Stage {
    type Fault = DepthError;

    type End = DepthVerdict;

    ghost whole = { λ stage number. IsStage stage };

    ghost stands = { λ stage number lines all. AnswersText stage number lines all };

    ghost refuses = { λ e all. Refuses e all };

    ghost gives = { λ result text. Ends result text };

    fn start(alloc: Global) -> Stage {
        Stage::Prefix {
            reader: CertificateReader::new(alloc),
        }
    }

    fn take(self, alloc: Global, line: &TextLine) -> Result<Stage, DepthError> {
        take(alloc, self, line)
    }

    fn end(self, alloc: Global, number: u32) -> Result<DepthVerdict, DepthError> {
        verdict_of(alloc, self, number)
    }

    fn no_memory() -> DepthError {
        DepthError::Memory
    }

    ghost refusal = { λ e text refused. ended text (Err e) refused };
}
