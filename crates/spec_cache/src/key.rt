//! The keys of the cache: specifications as lists of words, which are compared and hashed.
ghost use Rattle.std.specs.Prelude.{◌≡◌, nat_eq, IfOk};
ghost use Rattle.std.specs.Cmp.Lexicographic.{pointwise};
ghost use Rattle.std.specs.Cmp.Rules.{comparing, hashing};
ghost use Rattle.std.specs.Hash as fed;
ghost use Rattle.std.proofs.Common.{rules};
ghost use Rattle.spec_cache.specs.ProvedBounds.{spelled};

use std::alloc::{AllocError, Global};
use std::hash::{Hash, Hasher};
use std::marker::Model;
use tt_core::Spec;

/// A specification as a list of words: the number of inputs, the outputs' values, and their care sets.
#[derive(Drop)]
pub struct SpecKey(Vec<u64>);

impl Model for SpecKey {
    ghost use Rattle.std.specs.Prelude.{List, ℕ};

    ghost Value = { List ℕ };

    ghost view = { λ k. k.0.items };
}

impl SpecKey {
    /// The key of a specification.
    pub fn of(alloc: Global, spec: &Spec) -> Result<SpecKey, AllocError>
        ensures { IfOk result (λ key. key ≡ spelled spec.now) }
    {
        let mut words = Vec::new(alloc);
        words.push(u64::from(spec.n()))?;
        words.extend_from_slice(spec.on())?;
        words.extend_from_slice(spec.care())?;
        Ok(SpecKey(words))
    }

    /// The words.
    pub fn get(&self) -> &[u64]
        ensures { result.now ≡ self.now }
    {
        &self.0
    }
}

impl PartialEq for SpecKey {
    ghost eq = { pointwise nat_eq };

    ghost laws = { Prim.search (comparing, rules) };

    fn eq(&self, other: &SpecKey) -> bool {
        self.get() == other.get()
    }
}

impl Eq for SpecKey {
    ghost laws = { Prim.search (comparing, rules) };
}

impl Hash for SpecKey {
    ghost hash_input = { fed.slice fed.u64 };

    ghost respects_eq = { Prim.search (hashing, rules) };

    fn hash<H: Hasher>(&self, state: &mut H) {
        self.get().hash(state);
    }
}
