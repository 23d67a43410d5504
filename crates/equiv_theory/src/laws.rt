//! Laws of the definitions, each as the contract of a function that does nothing.
ghost use Rattle.std.specs.Prelude.{ℕ, List};
ghost use Rattle.sat_theory.specs.Formula.{Assignment, Satisfies, IsFormula};
ghost use Rattle.sat_theory.specs.Line.{Line};
ghost use Rattle.sat_theory.specs.Log.{Refutes};
ghost use Rattle.clause_core.specs.Clauses.{IsSatisfiable};
ghost use Rattle.net_theory.specs.Net.{Net};
ghost use Rattle.net_theory.specs.Circuit.{Circuit, IsProper};
ghost use Rattle.net_document.specs.Equivalence.{AreEquivalentCircuits};
ghost use Rattle.equiv_theory.specs.Miter.{miter};
ghost use Rattle.equiv_theory.specs.Counterexample.{AreComparable, Differ, DifferAt, HaveSameInterface};

/// The miter is a formula, and it is satisfiable exactly if some assignment of the sources gives some sink two
/// different values. The values that a model gives the sources are such an assignment.
pub fn miters_ask_for_a_difference()
    ensures formula { (first second : Net) → AreComparable first second → IsFormula (miter first second) }
    ensures sound { (first second : Net) → AreComparable first second → IsSatisfiable (miter first second) →
        Differ first second }
    ensures complete { (first second : Net) → AreComparable first second → Differ first second →
        IsSatisfiable (miter first second) }
    ensures shown { (first second : Net) (v : Assignment) → AreComparable first second →
        Satisfies v (miter first second) → (i : ℕ) × DifferAt first second v i }
{}

/// Circuits of one interface are equivalent if a log refutes their miter, whoever wrote the log.
pub fn refuted_circuits_do_the_same()
    ensures { (c k : Circuit) (lines : List Line) → IsProper c → IsProper k → HaveSameInterface c k →
        Refutes (miter c.net k.net) lines → AreEquivalentCircuits c k }
{}
