//! The law of judging depth certificates, as the contract of a function that does nothing.
ghost use Rattle.std.specs.Prelude.{◌≡◌, List};
ghost use Rattle.text_core.specs.Lines.{Line};
ghost use Rattle.depth_theory.specs.DepthJudging.{Answer, IsJudged};

/// Every list of lines has exactly one answer as a depth certificate.
pub fn lines_have_one_answer()
    ensures some { (lines : List Line) → (answer : Answer) × IsJudged lines answer }
    ensures one { (lines : List Line) (a b : Answer) → IsJudged lines a → IsJudged lines b → a ≡ b }
{}
