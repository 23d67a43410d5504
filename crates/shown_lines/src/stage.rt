//! The shown lines of a text so far, as a reader of lines.
ghost use Rattle.std.specs.Prelude.{◌≡◌, ◌++◌, IfOk, OnOk};
ghost use Rattle.text_core.specs.Lines.{line_bytes};
ghost use Rattle.line_reader.specs.TextLines.{line_of};
ghost use Rattle.shown_lines.specs.Shown.{shown_text};
ghost use Rattle.shown_lines.specs.ShownStages.{has_shown, is_stage};

use crate::lines::is_shown;
use line_reader::{LineStage, TextLine};
use std::alloc::{AllocError, Global};

/// Adds a line to a text, as it is written.
#[tactic(auto, using(crate::proofs::ShownSoFar::writing))]
fn push_line(text: &mut Vec<u8>, line: &TextLine) -> Result<(), AllocError>
    ensures { OnOk result (text.new.items ≡ text.old.items ++ line_bytes (line_of line.now)) }
{
    text.extend_from_slice(line.text)?;
    if !line.ended {
        return Ok(());
    }
    text.push(b'\n')?;
    Ok(())
}

/// The shown lines so far.
#[derive(Drop)]
pub struct ShownStage {
    pub(crate) shown: Vec<u8>,
}

impl LineStage for ShownStage {
    ghost use Rattle.std.specs.Prelude.{◌≡◌, IfOk};
    ghost use Rattle.shown_lines.specs.Shown.{shown_text};
    ghost use Rattle.shown_lines.specs.ShownStages.{has_shown, is_stage};

    type Fault = AllocError;

    type End = Vec<u8>;

    ghost whole = { λ stage number. is_stage stage number };

    ghost stands = { λ stage number lines all. has_shown stage number lines all };

    ghost refuses = { λ e all. Unit {0} };

    ghost gives = { λ result text. IfOk result (λ end. end.items ≡ shown_text text) };

    fn start(alloc: Global) -> ShownStage {
        ShownStage {
            shown: Vec::new(alloc),
        }
    }

    #[tactic(auto, using(crate::proofs::ShownSoFar::showing))]
    fn take(self, _alloc: Global, line: &TextLine) -> Result<ShownStage, AllocError> {
        if !is_shown(line.text) {
            return Ok(self);
        }
        let mut shown = self.shown;
        push_line(&mut shown, line)?;
        Ok(ShownStage { shown })
    }

    #[tactic(auto, using(crate::proofs::ShownSoFar::showing))]
    fn end(self, _alloc: Global, _number: u32) -> Result<Vec<u8>, AllocError> {
        Ok(self.shown)
    }

    fn no_memory() -> AllocError {
        AllocError
    }

    ghost refusal = { λ e text refused. tt };
}
