//! A search for smaller nets: a walk over the graph of a net, which stops and goes on, and what it has found as a net
//! that is compared with the given one.
ghost use Rattle.std.specs.Prelude.{◌<◌, ◌≤◌, IfOk, IfSome, length};
ghost use Rattle.op_basis.specs.Basis.{members};
ghost use Rattle.net_theory.specs.Implements.{IsCleanedUp};
ghost use Rattle.net_theory.specs.Operators.{HasOperatorsWithin};
ghost use Rattle.net_levels.specs.Levels.{levels_of};

use crate::polarity::net_within;
use move_check::judged;
use net_core::Net;
use net_levels::levels;
use net_walk::NetWalk;
use op_basis::Basis;
use sat_solve::Solver;
use share_core::share;
use std::alloc::{AllocError, Global};
use thresholds::MOVE_CONFLICTS;
use xag_core::{Xag, from_net, into_net};

/// So many times pairs are shared at most, each time in the graph that the last time left.
const MOST_SHARINGS: u32 = 3;

/// What is added to the seed where a search begins again: more than any seed that is given.
const NEXT_SEED: u64 = 0x1_0000_0000;

/// No limit of levels.
const UNLIMITED: u32 = u32::MAX;

/// A search. `most_levels` limits the levels of the graph, and `is_lost` says that the graph wasn't found to be
/// equivalent to the net, or has too many levels as a net.
#[derive(Drop)]
pub struct Moves {
    alloc: Global,
    allowed: u16,
    walk: NetWalk,
    seed: u64,
    most_levels: u32,
    is_lost: bool,
}

/// The set of a net's operators together with those of `bits`.
fn operators_of(net: &Net, bits: u16) -> u16 {
    let mut found = bits;
    for gate in net.gates() {
        found |= 1u16.wrapping_shl(u32::from(gate.op.get()));
    }
    found
}

/// Whether a graph has more levels as a net than the limit.
fn is_too_deep(alloc: Global, xag: &Xag, allowed: u16, most: u32) -> Result<bool, AllocError> {
    if most == UNLIMITED {
        return Ok(false);
    }
    let net = net_of(alloc, xag, allowed)?;
    Ok(levels(alloc, &net)? > most)
}

/// The graph after sharing, as long as that leaves fewer gates, and not too many levels.
fn shared(alloc: Global, xag: Xag, allowed: u16, most: u32) -> Result<Xag, AllocError> {
    let mut best = xag;
    for _time in 0..MOST_SHARINGS {
        let other = share(alloc, &best)?;
        if is_too_deep(alloc, &other, allowed, most)? {
            break;
        }
        let is_smaller = other.gates().len() < best.gates().len();
        best = other;
        if !is_smaller {
            break;
        }
    }
    Ok(best)
}

/// A walk from the graph of a net, after sharing.
fn walk_from(
    alloc: Global,
    net: &Net,
    allowed: u16,
    seed: u64,
    most: u32,
) -> Result<NetWalk, AllocError> {
    let xag = from_net(alloc, net, false)?;
    let begun = shared(alloc, xag, allowed, most)?;
    NetWalk::within(alloc, &begun, allowed, seed, most)
}

/// A graph as a net. Where all its operators are allowed, it has a gate for each gate of the graph and a NOT for each
/// sink that needs one; otherwise polarities and further NOT gates bring its operators into that set where they can.
fn net_of(alloc: Global, xag: &Xag, allowed: u16) -> Result<Net, AllocError> {
    let direct = into_net(alloc, xag)?;
    if operators_of(&direct, allowed) == allowed {
        return Ok(direct);
    }
    net_within(alloc, xag, Basis::new(allowed))
}

impl Moves {
    /// A search that begins with a net, for gates of the basis or of the net, with the random numbers of a seed.
    pub fn new(alloc: Global, net: &Net, basis: Basis, seed: u32) -> Result<Moves, AllocError> {
        Moves::within(alloc, net, basis, seed, UNLIMITED)
    }

    /// A search as `new`'s for nets of at most `most_levels` levels, which the net has to have.
    pub fn within(
        alloc: Global,
        net: &Net,
        basis: Basis,
        seed: u32,
        most_levels: u32,
    ) -> Result<Moves, AllocError> {
        // a generator takes an odd seed for the even one before it
        let seed = u64::from(seed).wrapping_mul(2).wrapping_sub(1);
        let allowed = operators_of(net, basis.get());
        let walk = walk_from(alloc, net, allowed, seed, most_levels)?;
        Ok(Moves {
            alloc,
            allowed,
            walk,
            seed,
            most_levels,
            is_lost: false,
        })
    }

    /// Begins again with a net.
    fn begin_again(&mut self, net: &Net) -> Result<(), AllocError> {
        self.seed = self.seed.wrapping_add(NEXT_SEED);
        self.walk = walk_from(self.alloc, net, self.allowed, self.seed, self.most_levels)?;
        self.is_lost = false;
        Ok(())
    }

    /// Goes on for so much work. The net is the least one that was accepted so far: the search begins again with it,
    /// where its own graph has more gates, or is lost.
    pub fn run(&mut self, net: &Net, work: u64) -> Result<(), AllocError> {
        if self.is_lost || self.walk.size() as usize > net.gates().len() {
            self.begin_again(net)?;
        }
        let end = self.walk.work().saturating_add(work);
        self.walk.run(end)
    }

    /// Begins: until the work is so much for each gate that there is by then, or `patience` for each since one was
    /// saved.
    pub fn begin(&mut self, work: u64, patience: u64) -> Result<(), AllocError> {
        self.walk.run_by_size(work, patience)
    }

    /// What the search has found, as a net.
    fn candidate(&mut self) -> Result<Net, AllocError> {
        let best = self.walk.best()?;
        net_of(self.alloc, &best, self.allowed)
    }

    /// The candidate, if it has fewer gates and may replace the net.
    fn accepted<S: Solver>(
        &mut self,
        net: &Net,
        candidate: &Net,
        basis: Basis,
    ) -> Result<Option<Net>, AllocError>
        ensures cleaned_up { IfOk result (λ found. IfSome found (IsCleanedUp net.now)) }
        ensures operators { IfOk result (λ found. IfSome found (HasOperatorsWithin (members basis) net.now)) }
        ensures fewer { IfOk result (λ found. IfSome found (λ m. length m.gates < length net.now.gates)) }
    {
        if candidate.gates().len() >= net.gates().len() {
            return Ok(None);
        }
        let found = judged::<S>(self.alloc, net, candidate, basis, MOVE_CONFLICTS)?;
        self.is_lost = found.is_none();
        Ok(found)
    }

    /// A smaller net than the given one that may replace it, if the search has found one. None where it hasn't, or
    /// where the check doesn't find it equivalent.
    pub fn smaller<S: Solver>(&mut self, net: &Net, basis: Basis) -> Result<Option<Net>, AllocError>
        ensures cleaned_up { IfOk result (λ found. IfSome found (IsCleanedUp net.now)) }
        ensures operators { IfOk result (λ found. IfSome found (HasOperatorsWithin (members basis) net.now)) }
        ensures fewer { IfOk result (λ found. IfSome found (λ m. length m.gates < length net.now.gates)) }
    {
        let candidate = self.candidate()?;
        self.accepted::<S>(net, &candidate, basis)
    }

    /// Whether what was found last couldn't replace the net: the search then begins again.
    pub fn is_lost(&self) -> bool {
        self.is_lost
    }

    /// The search is lost, and begins again with a limit that is lower by so many levels.
    fn lose(&mut self, fewer: u32) {
        self.most_levels = self.most_levels.saturating_sub(fewer);
        self.is_lost = true;
    }

    /// A smaller net as `smaller`'s, if it has at most so many levels.
    pub fn smaller_within<S: Solver>(
        &mut self,
        net: &Net,
        basis: Basis,
        most: u32,
    ) -> Result<Option<Net>, AllocError>
        ensures cleaned_up { IfOk result (λ found. IfSome found (IsCleanedUp net.now)) }
        ensures operators { IfOk result (λ found. IfSome found (HasOperatorsWithin (members basis) net.now)) }
        ensures fewer { IfOk result (λ found. IfSome found (λ m. length m.gates < length net.now.gates)) }
        ensures levels { IfOk result (λ found. IfSome found (λ m. levels_of m ≤ most)) }
    {
        let candidate = self.candidate()?;
        let before = levels(self.alloc, &candidate)?;
        if before > most {
            self.lose(before - most);
            return Ok(None);
        }
        let Some(found) = self.accepted::<S>(net, &candidate, basis)? else {
            return Ok(None);
        };
        if levels(self.alloc, &found)? > most {
            self.lose(1);
            return Ok(None);
        }
        Ok(Some(found))
    }
}
