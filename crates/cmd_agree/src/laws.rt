//! The spelling of inputs of `agree`, as the contract of a function with an empty body.
ghost use Rattle.std.specs.Prelude.{◌≡◌, ◌↔◌, ℕ, List, Ok};
ghost use Rattle.cmd_agree.specs.Agree.{AgreeInput, question_of};
ghost use Rattle.cmd_agree.specs.Asked.{AsksQuestion};

/// Bytes are read as tables and a chain if and only if they are their spelling, line by line.
pub fn laws_of_questions()
    ensures { (bytes : List ℕ) (question : AgreeInput) →
        (question_of bytes ≡ Ok question) ↔ AsksQuestion bytes question }
{}
