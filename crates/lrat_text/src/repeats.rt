//! Whether a variable repeats among the literals of a line. In most cases a table of marks, indexed by the
//! variable modulo its size, shows at once that it doesn't. If the mark is already set, a short clause is
//! searched, and a long one has a hash set of its variables. All of these compute the test of the definition.
ghost use Rattle.std.specs.Prelude.{◌≡◌, ℤ, true, false, List, [], ◌∷◌, ◌++◌, length, IfOk, OnOk};
ghost use Rattle.lrat_text.specs.Reading as spec;
ghost use Rattle.lrat_text.specs.Seen.{IsSeen, HasVariables, AreMarked};

use cnf_core::Lit;
use std::alloc::AllocError;
use std::collections::HashSet;

/// The number of marks. Variable v has the mark v modulo this number; 1024 marks are 1 KiB.
pub(crate) const MARKS: usize = 1024;

/// The length up to which a clause is searched if a mark is set. A longer clause has its variables in a hash set,
/// so the time for a literal is bounded.
const FEW: usize = 256;

/// Whether a literal's variable occurred before; the variable is recorded.
pub(crate) fn comes_again(
    marks: &mut [bool],
    seen: &mut HashSet<u32>,
    lits: &[Lit],
    lit: Lit,
) -> Result<bool, AllocError>
    requires seen { IsSeen seen.old lits.now }
    requires marked { AreMarked marks.old lits.now }
    ensures again { IfOk result (λ yes. yes ≡ spec.is_repeated lits.now lit) }
    ensures seen { IfOk result (λ yes. yes ≡ false → IsSeen seen.new (lits.now ++ lit ∷ [])) }
    ensures marked { AreMarked marks.new (lits.now ++ lit ∷ []) }
{
    let fresh = mark(marks, lit);
    if lits.len() < FEW {
        if fresh {
            return Ok(false);
        }
        return Ok(is_repeated(lits, lit));
    }
    if lits.len() == FEW {
        insert_all(seen, lits)?;
    }
    Ok(!seen.insert(lit.variable())?)
}

/// Sets the mark of a literal's variable, and returns whether it was unset.
#[tactic(auto, using(crate::proofs::Marked::marking))]
fn mark(marks: &mut [bool], lit: Lit) -> bool
    requires { length marks.old ≡ 1024 }
    ensures fresh { (lits : List ℤ) → AreMarked marks.old lits → result ≡ true → spec.is_repeated lits lit ≡ false }
    ensures marked { (lits : List ℤ) → AreMarked marks.old lits → AreMarked marks.new (lits ++ lit ∷ []) }
{
    let place = lit.variable() as usize % MARKS;
    if marks[place] {
        return false;
    }
    marks[place] = true;
    true
}

fn is_repeated(lits: &[Lit], lit: Lit) -> bool
    ensures { result ≡ spec.is_repeated lits.now lit }
{
    let variable = lit.variable();
    lits.iter().any(|other| other.variable() == variable)
}

/// Puts the variables of all literals into an empty set.
fn insert_all(seen: &mut HashSet<u32>, lits: &[Lit]) -> Result<(), AllocError>
    requires { seen.old.keys ≡ [] }
    ensures { OnOk result (HasVariables seen.new lits.now) }
{
    for lit in lits {
        seen.insert(lit.variable())?;
    }
    Ok(())
}
