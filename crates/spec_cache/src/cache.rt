//! The cache: a hash map from keys to entries.
ghost use Rattle.std.specs.Prelude.{◌≡◌, ℕ, List, None, OnOk, OnErr};
ghost use Rattle.std.specs.Option.{option_copied};
ghost use Rattle.op_basis.specs.Basis.{members};
ghost use Rattle.spec_cache.specs.ProvedBounds.{IsProvedBound, IsNoted, found_at, fewest_of, chain_of, open_of};

use crate::key::SpecKey;
use chain_core::Chain;
use op_basis::Basis;
use std::alloc::{AllocError, Global};
use std::collections::HashMap;
use std::marker::Model;

/// An entry: a proved lower bound `fewest` for the number of steps, a chain that may implement the specification,
/// and whether the search at that number was left open (conflict limit).
#[derive(Drop)]
pub struct Found {
    pub fewest: u32,
    pub chain: Option<Chain>,
    pub open: bool,
}

/// A cache of search results over a basis. Contracts see the basis and the entries.
#[derive(Drop)]
pub struct SpecCache {
    basis: Basis,
    found: HashMap<SpecKey, Found>,
}

impl Model for SpecCache {
    ghost use Rattle.spec_cache.specs.ProvedBounds.{CacheContents, HasProvedBounds};

    ghost Value = { CacheContents };

    ghost view = { λ m. record { basis = m.basis; entries = m.found.entries } };

    ghost invariant = { λ m. HasProvedBounds (record { basis = m.basis; entries = m.found.entries }) };
}

impl SpecCache {
    /// An empty cache for a basis.
    #[tactic(auto, using(crate::specs::BoundLaws::caching))]
    pub fn new(alloc: Global, basis: Basis) -> SpecCache
        ensures basis { result.basis ≡ basis }
        ensures empty { (key : List ℕ) → found_at result key ≡ None }
    {
        SpecCache {
            basis,
            found: HashMap::new(alloc),
        }
    }

    /// A lower bound: no chain of fewer steps over the basis implements the specification of `key`. It is that of
    /// the entry, or 0 if there is none.
    #[tactic(auto, using(crate::specs::BoundLaws::caching))]
    pub fn fewest(&self, key: &SpecKey) -> u32
        ensures bound { IsProvedBound (members self.now.basis) key.now result }
        ensures noted { result ≡ fewest_of (found_at self.now key.now) }
    {
        match self.found.get(key) {
            Some(found) => found.fewest,
            None => 0,
        }
    }

    /// The chain of the entry, if it has one.
    #[tactic(auto, using(crate::specs::BoundLaws::caching))]
    pub fn chain(&self, key: &SpecKey) -> Option<&Chain>
        ensures { option_copied result ≡ chain_of (found_at self.now key.now) }
    {
        match self.found.get(key) {
            Some(found) => found.chain.as_ref(),
            None => None,
        }
    }

    /// Whether the entry says that a search was left open. This says nothing about chains.
    #[tactic(auto, using(crate::specs::BoundLaws::caching))]
    pub fn is_open(&self, key: &SpecKey) -> bool
        ensures { result ≡ open_of (found_at self.now key.now) }
    {
        match self.found.get(key) {
            Some(found) => found.open,
            None => false,
        }
    }

    /// Stores an entry for a key, in place of the former one. No chain of fewer than `found.fewest` steps may
    /// implement the specification.
    #[tactic(auto, using(crate::specs::BoundLaws::caching))]
    pub fn note(&mut self, key: SpecKey, found: Found) -> Result<(), AllocError>
        requires { IsProvedBound (members self.old.basis) key found.fewest }
        ensures basis { self.new.basis ≡ self.old.basis }
        ensures noted { OnOk result (IsNoted self.old self.new key found) }
        ensures err { OnErr result (self.new ≡ self.old) }
    {
        self.found.insert(key, found)?;
        Ok(())
    }
}
