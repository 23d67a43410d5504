//! One gate of a net over a basis. A constant and a copy need no gate, and a gate with an operator of the basis stays.
//! Any other is the chain of its function of its different signals, before or after its operands were mapped.
ghost use Rattle.std.specs.Prelude.{◌≡◌, ◌+◌, ◌≤◌, ◌<◌, ◌^◌, true, false, length, IfOk, OnOk, IfSome, IfNone, vec_len};
ghost use Rattle.std.specs.Prelude.{slice_get, Some};
ghost use Rattle.op_basis.specs.Basis.{members};
ghost use Rattle.net_theory.specs.Net.{IsGateAt, AreGates};
ghost use Rattle.net_theory.specs.Limits.{default_gates};
ghost use Rattle.net_basis.specs.Joins.{operands as operands_of, makes};
ghost use Rattle.net_basis.specs.Placing.{AreRecipes, IsSignalOf, IsMemberFor};
ghost use Rattle.net_basis.specs.OverBasis.{most_for_one};
ghost use Rattle.net_basis.specs.Conversion.{is_made_of, steps_of, lengths_by, IsFunctionOf};
ghost use Rattle.net_basis.specs.Conversion.{MayEndAt, IsGateAnswer};

use crate::local::local_word;
use crate::placing::push_chain;
use crate::recipe::Recipe;
use net_core::{Gate, Sig};
use net_theory::DEFAULT_GATES;
use op_basis::{Basis, Op};
use std::alloc::AllocError;

/// What became of a gate.
#[derive(Clone, Copy)]
pub enum Expressed {
    /// Its signal.
    By(Sig),
    /// The basis can't express its function.
    Cannot,
    /// There would be too many gates.
    TooMany,
}

/// Whether a net may have so many more gates.
pub fn has_room(sources: u32, gates: usize, more: usize) -> bool
    requires gates { gates ≤ default_gates }
    requires more { more < 2 ^ 62 }
    ensures nodes { result ≡ true → sources + 1 + gates + more < 2 ^ 31 }
    ensures gates { result ≡ true → gates + more ≤ default_gates }
    ensures none { result ≡ false → MayEndAt sources gates more }
{
    if gates + more > DEFAULT_GATES as usize {
        return false;
    }
    (sources as usize) + 1 + gates + more < 1 << 31
}

/// The signal of a gate that needs none: a constant, or a copy of an operand.
#[tactic(auto, using(crate::proofs::Locals::locals))]
fn free_signal(word: Op, gate: &Gate) -> Option<Sig>
    requires { IsFunctionOf word gate.now }
    ensures some { IfSome result (IsSignalOf gate.now) }
    ensures none { IfNone result (operands_of word ≡ false) }
{
    let number = word.get();
    if number == 0 {
        return Some(Sig::Zero);
    }
    if number == 15 {
        return Some(Sig::One);
    }
    if number == 3 {
        return Some(gate.a);
    }
    if number == 5 {
        return Some(gate.b);
    }
    None
}

/// The signal of a gate that needs none as it is now.
#[tactic(auto, using(crate::proofs::Locals::locals))]
fn free_now(gate: &Gate) -> Option<Sig>
    ensures { IfSome result (IsSignalOf gate.now) }
{
    let word = local_word(gate);
    free_signal(word, gate)
}

/// The gate, or that of its function, if its operator is in the basis.
#[tactic(auto, using(crate::proofs::Locals::locals))]
fn member_for(basis: Basis, word: Op, gate: &Gate) -> Option<Gate>
    requires function { IsFunctionOf word gate.now }
    requires low { gate.now.op < 16 }
    ensures some { IfSome result (IsMemberFor (members basis) gate.now) }
    ensures none { IfNone result (members basis word ≡ false) }
{
    // for the prover: an operator is below 16
    let _low = word.get();
    if basis.contains(gate.op) {
        return Some(*gate);
    }
    if basis.contains(word) {
        return Some(Gate {
            op: word,
            a: gate.a,
            b: gate.b,
        });
    }
    None
}

/// Appends a gate of the basis.
fn keep(
    basis: Basis,
    sources: u32,
    gates: &mut Vec<Gate>,
    word: Op,
    gate: &Gate,
    member: Gate,
) -> Result<Expressed, AllocError>
    requires gates { AreGates sources gates.old.items }
    requires gate { IsGateAt (sources + 1 + length gates.old.items) gate.now }
    requires few { vec_len gates.old ≤ default_gates }
    requires room { sources + vec_len gates.old < 2 ^ 31 }
    requires member { IsMemberFor (members basis) gate.now member }
    ensures answer { IfOk result (IsGateAnswer (members basis) word 1 sources gates.old.items gates.new.items
        gate.now) }
    ensures few { OnOk result (vec_len gates.new ≤ default_gates) }
    ensures room { OnOk result (sources + vec_len gates.new < 2 ^ 31) }
    ensures more { OnOk result (vec_len gates.new ≤ vec_len gates.old + 1) }
{
    if !has_room(sources, gates.len(), 1) {
        return Ok(Expressed::TooMany);
    }
    let sig = Sig::Node(sources + 1 + gates.len() as u32);
    gates.push(member)?;
    Ok(Expressed::By(sig))
}

/// Appends the chain of the function `function`, which has the gate's values.
fn replace(
    basis: Basis,
    recipe: &Recipe,
    function: Op,
    sources: u32,
    gates: &mut Vec<Gate>,
    word: Op,
    gate: &Gate,
) -> Result<Expressed, AllocError>
    requires made { makes (members basis) operands_of recipe.now.joins.items function ≡ true }
    requires steps { length recipe.now.joins.items ≤ most_for_one }
    requires value { IsFunctionOf function gate.now }
    requires gates { AreGates sources gates.old.items }
    requires gate { IsGateAt (sources + 1 + length gates.old.items) gate.now }
    requires few { vec_len gates.old ≤ default_gates }
    requires room { sources + vec_len gates.old < 2 ^ 31 }
    ensures answer { IfOk result (IsGateAnswer (members basis) word (length recipe.now.joins.items) sources
        gates.old.items gates.new.items gate.now) }
    ensures few { OnOk result (vec_len gates.new ≤ default_gates) }
    ensures room { OnOk result (sources + vec_len gates.new < 2 ^ 31) }
    ensures more { OnOk result (vec_len gates.new ≤ vec_len gates.old + length recipe.now.joins.items) }
{
    if !has_room(sources, gates.len(), recipe.joins.len()) {
        return Ok(Expressed::TooMany);
    }
    let sig = push_chain(
        basis,
        sources,
        gates,
        &recipe.joins,
        function,
        gate.a,
        gate.b,
    )?;
    Ok(Expressed::By(sig))
}

/// The recipe of a function.
fn recipe_of(recipes: &[Recipe], function: Op) -> &Recipe
    requires { length recipes.now ≡ 16 }
    ensures { slice_get recipes.now function ≡ Some result.now }
{
    &recipes[usize::from(function.get())]
}

/// The number of steps of a recipe, or the most that may be where there is none.
fn steps(recipe: &Recipe) -> usize
    ensures { result ≡ steps_of (Some recipe.now) }
{
    if recipe.is_made {
        return recipe.joins.len();
    }
    16
}

/// Whether a recipe has no more steps than another.
fn is_no_longer(short: &Recipe, own: &Recipe) -> bool
    ensures { result ≡ true → steps_of (Some short.now) ≤ steps_of (Some own.now) }
{
    steps(short) <= steps(own)
}

/// The function whose chain takes the place of a gate: that of the gate as it is now, its operands mapped, if it has a
/// chain that is no longer than that of `word`.
fn chosen(recipes: &[Recipe], word: Op, gate: &Gate) -> Op
    requires count { length recipes.now ≡ 16 }
    requires function { IsFunctionOf word gate.now }
    ensures function { IsFunctionOf result gate.now }
    ensures short { is_made_of (slice_get recipes.now result) ≡ true →
        steps_of (slice_get recipes.now result) ≤ steps_of (slice_get recipes.now word) }
    ensures none { is_made_of (slice_get recipes.now result) ≡ false → result ≡ word }
{
    let simple = local_word(gate);
    let short = recipe_of(recipes, simple);
    let own = recipe_of(recipes, word);
    if !short.is_made {
        return word;
    }
    if !is_no_longer(short, own) {
        return word;
    }
    simple
}

/// Appends the chain of a gate's function, if there is one.
fn by_recipe(
    basis: Basis,
    recipes: &[Recipe],
    sources: u32,
    gates: &mut Vec<Gate>,
    word: Op,
    gate: &Gate,
) -> Result<Expressed, AllocError>
    requires recipes { AreRecipes (members basis) recipes.now }
    requires function { IsFunctionOf word gate.now }
    requires gates { AreGates sources gates.old.items }
    requires gate { IsGateAt (sources + 1 + length gates.old.items) gate.now }
    requires few { vec_len gates.old ≤ default_gates }
    requires room { sources + vec_len gates.old < 2 ^ 31 }
    ensures answer { IfOk result (IsGateAnswer (members basis) word (steps_of (slice_get recipes.now word)) sources
        gates.old.items gates.new.items gate.now) }
    ensures few { OnOk result (vec_len gates.new ≤ default_gates) }
    ensures room { OnOk result (sources + vec_len gates.new < 2 ^ 31) }
    ensures more { OnOk result (vec_len gates.new ≤ vec_len gates.old + steps_of (slice_get recipes.now word)) }
{
    let function = chosen(recipes, word, gate);
    let recipe = recipe_of(recipes, function);
    if !recipe.is_made {
        return Ok(Expressed::Cannot);
    }
    replace(basis, recipe, function, sources, gates, word, gate)
}

/// Appends the gates of a gate's value, by its function `word` of its different signals before its operands were
/// mapped.
pub fn express(
    basis: Basis,
    recipes: &[Recipe],
    sources: u32,
    gates: &mut Vec<Gate>,
    word: Op,
    gate: &Gate,
) -> Result<Expressed, AllocError>
    requires recipes { AreRecipes (members basis) recipes.now }
    requires function { IsFunctionOf word gate.now }
    requires gates { AreGates sources gates.old.items }
    requires gate { IsGateAt (sources + 1 + length gates.old.items) gate.now }
    requires few { vec_len gates.old ≤ default_gates }
    requires room { sources + vec_len gates.old < 2 ^ 31 }
    ensures answer { IfOk result (IsGateAnswer (members basis) word (lengths_by (members basis) recipes.now word)
        sources gates.old.items gates.new.items gate.now) }
    ensures few { OnOk result (vec_len gates.new ≤ default_gates) }
    ensures room { OnOk result (sources + vec_len gates.new < 2 ^ 31) }
    ensures more { OnOk result (vec_len gates.new ≤ vec_len gates.old + lengths_by (members basis) recipes.now word) }
{
    if let Some(sig) = free_signal(word, gate) {
        return Ok(Expressed::By(sig));
    }
    if let Some(sig) = free_now(gate) {
        return Ok(Expressed::By(sig));
    }
    if let Some(member) = member_for(basis, word, gate) {
        return keep(basis, sources, gates, word, gate, member);
    }
    by_recipe(basis, recipes, sources, gates, word, gate)
}
