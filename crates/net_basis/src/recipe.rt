//! For each of the sixteen operators a least chain over the basis, or the proof that there is none.
ghost use Rattle.std.specs.Prelude.{IfOk};
ghost use Rattle.op_basis.specs.Basis.{members};
ghost use Rattle.net_basis.specs.Placing.{IsClosure, IsRecipe, AreRecipes};

use crate::closure::{Closure, closure_of};
use crate::join::Join;
use crate::least::least_joins;
use op_basis::{Basis, Op};
use std::alloc::{AllocError, Global};

/// The steps of a least chain for an operator; `is_made` is false where the basis has none.
#[derive(Drop)]
pub struct Recipe {
    pub is_made: bool,
    pub joins: Vec<Join>,
}

/// A least chain for an operator, if the closure has it.
fn recipe_for(alloc: Global, basis: Basis, all: &Closure, op: Op) -> Result<Recipe, AllocError>
    requires { IsClosure (members basis) (members all.now.known) all.now.joins.items }
    ensures { IfOk result (IsRecipe (members basis) op) }
{
    // for the prover: no member of the basis is above 15
    let _members = basis.get();
    if !all.known.contains(op) {
        return Ok(Recipe {
            is_made: false,
            joins: Vec::new(alloc),
        });
    }
    let joins = least_joins(alloc, basis, &all.joins, op)?;
    Ok(Recipe {
        is_made: true,
        joins,
    })
}

/// The recipes of the sixteen operators, in order.
pub fn recipes(alloc: Global, basis: Basis) -> Result<Vec<Recipe>, AllocError>
    ensures { IfOk result (λ all. AreRecipes (members basis) all.items) }
{
    let every = closure_of(alloc, basis)?;
    let mut all = Vec::new(alloc);
    for word in 0..16u8 {
        let one = recipe_for(alloc, basis, &every, Op::new(word))?;
        all.push(one)?;
    }
    Ok(all)
}
