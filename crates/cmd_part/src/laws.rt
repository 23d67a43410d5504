//! The parts of a size as its section. Each law is the contract of a function that does nothing.
ghost use Rattle.std.specs.Prelude.{◌≡◌, ℕ, List, [], ◌∷◌, ◌++◌, map, All};
ghost use Rattle.std.specs.List.{flat_map};
ghost use Rattle.chain_core.specs.Spelling.{line};
ghost use Rattle.cert_theory.specs.declared.data.Header.{Header};
ghost use Rattle.cert_theory.specs.Certificate.{Section, SubproblemLog, IsSection, IsSubproblemLog, subproblem_of};
ghost use Rattle.cert_theory.specs.Certificate.{subproblems_of, tried};
ghost use Rattle.cert_theory.specs.Spelling.{size_line, section_lines, text_of};
ghost use Rattle.cmd_part.specs.PartReport.{log_text};

/// Logs of the parts of a size are a section of it: of all, or by `strong-fence` up to the first that is open. And the
/// texts of the parts, one after the other, follow the line of the size in its text.
#[tactic(auto, using(crate::specs::JoinLaws::joining))]
pub fn parts_make_sections()
    ensures section { (h : Header) (size : ℕ) (logs : List SubproblemLog) →
        map subproblem_of logs ≡ tried h.method (subproblems_of h size) logs → All (IsSubproblemLog h size) logs →
        IsSection h size (record { size = size; subproblems = logs }) }
    ensures text { (s : Section) → text_of (section_lines s) ≡
        text_of (line (size_line s.size) ∷ []) ++ flat_map log_text s.subproblems }
{}
