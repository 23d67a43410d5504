//! Consequences of the definitions. Each law is the contract of a function with an empty body.
ghost use Rattle.std.specs.Prelude.{◌≡◌, ◌↔◌, true, List, None};
ghost use Rattle.sat_theory.specs.Formula.{Formula, Assignment, Satisfies};
ghost use Rattle.sat_theory.specs.Line.{Line};
ghost use Rattle.sat_theory.specs.State.{State};
ghost use Rattle.sat_theory.specs.Holding.{Holds};
ghost use Rattle.sat_theory.specs.Log.{Refutes};
ghost use Rattle.lrat_check.specs.Live.{AreClauses};
ghost use Rattle.lrat_check.specs.Judging.{line_fault};
ghost use Rattle.lrat_check.specs.Checked.{Checked, HasAccepted};

/// If a checker of a formula has accepted some lines and is refuted, the lines refute the formula, and no
/// assignment satisfies it.
pub fn refuted_is_unsatisfiable()
    ensures refutes { (f : Formula) (lines : List Line) (c : Checked) → HasAccepted f lines c → c.refuted ≡ true →
        Refutes f lines }
    ensures none { (f : Formula) (lines : List Line) (c : Checked) (v : Assignment) → HasAccepted f lines c →
        c.refuted ≡ true → Satisfies v f → ⊥ }
{}

/// A line has no fault if and only if it holds.
pub fn faultless_lines_hold()
    ensures { (s : State) (line : Line) → AreClauses s.live → ((line_fault s line ≡ None) ↔ Holds s line) }
{}
