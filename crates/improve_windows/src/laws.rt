//! Laws about improved texts, as contracts of functions that do nothing.
ghost use Rattle.std.specs.Prelude.{◌≡◌, ℕ, ◌≤◌, Bool, true, List, [], ◌++◌};
ghost use Rattle.net_theory.specs.Net.{Net};
ghost use Rattle.net_document.specs.Format.{Format, IsNetlist};
ghost use Rattle.settings.specs.declared.improve.ImproveSettings.{ImproveSettings};
ghost use Rattle.improve_theory.specs.Settled.{IsSettled};
ghost use Rattle.improve_theory.specs.Undecided.{Undecided};
ghost use Rattle.improve_theory.specs.Improvement.{IsImprovementBy};
ghost use Rattle.improve_windows.specs.Report.{first_line, last_line};
ghost use Rattle.improve_windows.specs.Improving.{IsReported};

/// Only netlists are improved, and the result is a netlist again.
pub fn improved_texts_are_netlists()
    ensures read { (f : Format) (s : ImproveSettings) (bytes text report : List ℕ) →
        IsReported f s bytes text report →
        IsNetlist f bytes }
    ensures written { (f : Format) (s : ImproveSettings) (bytes text report : List ℕ) →
        IsReported f s bytes text report → IsNetlist f text }
{}

/// With a cap of at most 5 no window stays undecided, whatever the conflict limit: where the net is settled,
/// no listed window up to the cap has a shorter chain for its local specification, and the report has just
/// two lines.
pub fn small_windows_are_decided()
    ensures none_named { (s : ImproveSettings) (n m : Net) (settled : Bool) (undecided : List Undecided) → s.cap ≤ 5 →
        IsImprovementBy s n m settled undecided → undecided ≡ [] }
    ensures settled { (s : ImproveSettings) (n m : Net) (undecided : List Undecided) → s.cap ≤ 5 →
        IsImprovementBy s n m true undecided → IsSettled s m [] }
    ensures report { (f : Format) (s : ImproveSettings) (bytes text report : List ℕ) → s.cap ≤ 5 →
        IsReported f s bytes text report → (before : ℕ) × (after : ℕ) × (settled : Bool) ×
        (report ≡ first_line before after ++ last_line settled) }
{}
