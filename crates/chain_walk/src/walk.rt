//! The walk: a random gate, its required function, and another one or two gates in its place, if the net gets no
//! larger, or sometimes larger by one gate.

use crate::change::Change;
use crate::choices::Choices;
use crate::cone::Cone;
use crate::divisors::Divisors;
use crate::matching::matching_divisor;
use crate::mffc::Mffc;
use crate::operator::Operator;
use crate::pairs::Pairs;
use crate::parameters::{
    GAIN_TRIES, MOST_ABOVE, MOST_INNER, MOST_PAIRS, ONE_GATE_TRIES, PLACE_CHECKS, SLACK,
    TWO_GATE_CHECKS, TWO_GATE_INTERVAL, TWO_GATE_PLACES, TWO_GATE_TRIES, UPHILL_INTERVAL,
};
use crate::rebuilding::Rebuild;
use crate::required::Required;
use crate::small_net::{SmallNet, small};
use crate::sweeping::{OutputComplements, Sweep, cost_of, remove_output_complements};
use rows::{Random, at, entry};
use std::alloc::{AllocError, Global};

/// Where a run ends: after so many moves, after so many without a gain, at a net of so few gates, or when the walk's
/// work is so much in all.
#[derive(Clone, Copy)]
pub struct Limits {
    pub moves: u32,
    pub patience: u32,
    pub enough: u32,
    pub work: u64,
}

/// Where a run stands: the least cost so far, the moves since it was found, the moves since the net grew, and whether a
/// net of the least cost is kept.
#[derive(Clone, Copy)]
struct Progress {
    least: u32,
    since: u32,
    above: u32,
    is_kept: bool,
}

/// A net and all that its walk uses again.
#[derive(Drop)]
pub struct Walk {
    choices: Choices,
    complements: OutputComplements,
    care: Vec<u64>,
    random: Random,
    work: u64,
    net: SmallNet,
    next: SmallNet,
    kept: SmallNet,
    cost: u32,
    cone: Cone,
    mffc: Mffc,
    divisors: Divisors,
    required: Required,
    inner: Required,
    pairs: Pairs,
    rebuild: Rebuild,
    sweep: Sweep,
}

impl Walk {
    /// A walk over nets of the basis (operator k is a member where bit k is 1). Outputs matter in the rows of `care`,
    /// so many words for each output as a signal has. The seed decides all that is random.
    pub fn new(
        alloc: Global,
        basis: u16,
        complements: OutputComplements,
        care: Vec<u64>,
        seed: u64,
    ) -> Result<Walk, AllocError> {
        Ok(Walk {
            choices: Choices::new(alloc, basis)?,
            complements,
            care,
            random: Random::new(seed),
            work: 0,
            net: SmallNet::new(alloc, 0, 1)?,
            next: SmallNet::new(alloc, 0, 1)?,
            kept: SmallNet::new(alloc, 0, 1)?,
            cost: 0,
            cone: Cone::new(alloc),
            mffc: Mffc::new(alloc),
            divisors: Divisors::new(alloc),
            required: Required::new(alloc),
            inner: Required::new(alloc),
            pairs: Pairs::new(alloc),
            rebuild: Rebuild::new(alloc),
            sweep: Sweep::new(alloc),
        })
    }

    /// Begins at a net, whose outputs the walk keeps in the rows that matter.
    pub fn start(&mut self, net: &SmallNet) -> Result<(), AllocError> {
        self.net.copy_from(net)?;
        self.sweep.sweep(&mut self.net)?;
        self.net_changed();
        self.cost = cost_of(&self.net, self.complements);
        Ok(())
    }

    /// What is known of the net holds no more.
    fn net_changed(&mut self) {
        self.divisors.forget();
        self.mffc.forget();
    }

    /// The net.
    pub fn net(&self) -> &SmallNet {
        &self.net
    }

    /// What the net costs.
    pub fn cost(&self) -> u32 {
        self.cost
    }

    /// The work so far: pairs tried, and words of the net in each move. It doesn't depend on the machine.
    pub fn work(&self) -> u64 {
        self.work.saturating_add(self.pairs.checks())
    }

    /// The operators of the basis.
    pub fn choices(&self) -> &Choices {
        &self.choices
    }

    /// Puts the net into `other`, with each output as a signal without complement, or as a constant.
    pub fn copy_into(&self, other: &mut SmallNet) -> Result<(), AllocError> {
        other.copy_from(&self.net)?;
        remove_output_complements(other, &self.choices)
    }

    /// Makes a change of the target, if the net costs at most `growth` more with it.
    fn apply(&mut self, target: u32, change: Change, growth: u32) -> Result<bool, AllocError> {
        let is_made = self.rebuild.rebuild(
            &self.net,
            &self.choices,
            &self.cone,
            target,
            change,
            &mut self.next,
        )?;
        if !is_made {
            return Ok(false);
        }
        self.sweep.sweep(&mut self.next)?;
        let cost = cost_of(&self.next, self.complements);
        if cost > self.cost.saturating_add(growth) {
            return Ok(false);
        }
        std::mem::swap(&mut self.net, &mut self.next);
        self.net_changed();
        self.cost = cost;
        Ok(true)
    }

    /// Finds the required function of a target.
    fn find_required(&mut self, target: u32) -> Result<(), AllocError> {
        self.cone.flip(&self.net, target, &self.care)?;
        self.required
            .set(self.net.row(target), self.cone.observed())?;
        let words = u64::from(self.net.signals()).saturating_mul(u64::from(self.net.words()));
        self.work = self.work.saturating_add(words);
        Ok(())
    }

    /// The literal of a divisor that is the required function; None where there is none.
    fn matching_divisor(&mut self) -> Option<u32> {
        matching_divisor(
            &self.net,
            &self.choices,
            &mut self.divisors,
            &self.required,
            &mut self.random,
        )
    }

    /// How many gates a change adds or keeps.
    fn added(&mut self, target: u32, change: Change) -> u32 {
        self.mffc.added(&self.net, &self.choices, target, change)
    }

    /// A pair of those found that saves a gate, of a few from a random one on.
    fn gaining_pair(&mut self, target: u32) -> Option<Change> {
        let count = small(self.pairs.found().len());
        let first = self.random.below(count);
        for step in 0..count.min(GAIN_TRIES) {
            let index = first.wrapping_add(step) as usize;
            let Some(gate) = self.pairs.found().get(index).copied() else {
                break;
            };
            if self.added(target, Change::One(gate)) < self.mffc.count() {
                return Some(Change::One(gate));
            }
        }
        None
    }

    /// Tries one new gate: one that saves, and else, where `allows_zero_gain`, a random one.
    fn try_one(&mut self, target: u32, allows_zero_gain: bool) -> Result<bool, AllocError> {
        self.pairs.search(
            &self.net,
            &self.choices,
            &mut self.divisors,
            &self.required,
            MOST_PAIRS,
            &mut self.random,
        )?;
        if self.mffc.count() >= 2 {
            if let Some(change) = self.gaining_pair(target) {
                if self.apply(target, change, 0)? {
                    return Ok(true);
                }
            }
        }
        if allows_zero_gain {
            self.try_zero_gain(target)
        } else {
            Ok(false)
        }
    }

    /// Tries random pairs of those found that keep the cost.
    fn try_zero_gain(&mut self, target: u32) -> Result<bool, AllocError> {
        for _tried in 0..ONE_GATE_TRIES {
            let Some(gate) = self.pairs.random_found(&mut self.random) else {
                return Ok(false);
            };
            let change = Change::One(gate);
            if self.added(target, change) <= self.mffc.count() && self.apply(target, change, 0)? {
                return Ok(true);
            }
        }
        Ok(false)
    }

    /// Tries inner gates of those found under an outer operator.
    fn try_inner(
        &mut self,
        target: u32,
        outer: Operator,
        beside: u32,
        growth: u32,
    ) -> Result<bool, AllocError> {
        for _tried in 0..TWO_GATE_TRIES {
            let Some(gate) = self.pairs.random_found(&mut self.random) else {
                return Ok(false);
            };
            let change = Change::Two(gate, outer, beside);
            let most = self.mffc.count().saturating_add(growth);
            if self.added(target, change) <= most && self.apply(target, change, growth)? {
                return Ok(true);
            }
        }
        Ok(false)
    }

    /// Searches the inner gate of an outer operator with one operand. False where there is none.
    fn search_inner(&mut self, outer: Operator, beside: u32) -> Result<bool, AllocError> {
        let exists = self
            .inner
            .set_inner(outer, &self.required, self.net.row(beside))?;
        if !exists || !self.inner.has_on() || !self.inner.has_off() {
            return Ok(false);
        }
        self.work = self.work.saturating_add(PLACE_CHECKS);
        self.pairs.search(
            &self.net,
            &self.choices,
            &mut self.divisors,
            &self.inner,
            MOST_INNER,
            &mut self.random,
        )?;
        Ok(!self.pairs.found().is_empty())
    }

    /// The outer operator of a place; places go over the divisors, and for each over the operators.
    fn outer_at(&self, place: u32) -> Operator {
        let operators = self.choices.outers();
        let count = small(operators.len()).max(1);
        entry(operators, place % count, Operator::new(0))
    }

    /// The other operand of a place.
    fn beside_at(&self, place: u32) -> u32 {
        let count = small(self.choices.outers().len()).max(1);
        at(self.divisors.listed(), place / count)
    }

    /// Tries two new gates, from a random place on.
    fn try_two(&mut self, target: u32, growth: u32) -> Result<bool, AllocError> {
        self.divisors.list_all()?;
        let places = small(self.divisors.listed().len()).saturating_mul(small(
            self.choices.outers().len(),
        ));
        let mut place = self.random.below(places);
        let mut left = TWO_GATE_PLACES;
        let most = self.work().saturating_add(TWO_GATE_CHECKS);
        for _tried in 0..places {
            let (outer, beside) = (self.outer_at(place), self.beside_at(place));
            if self.search_inner(outer, beside)? {
                if self.try_inner(target, outer, beside, growth)? {
                    return Ok(true);
                }
                left = left.saturating_sub(1);
            }
            if left == 0 || self.work() > most {
                break;
            }
            place = if place.saturating_add(1) >= places {
                0
            } else {
                place.saturating_add(1)
            };
        }
        Ok(false)
    }

    /// Tries new gates in a target's place.
    fn try_gates(&mut self, target: u32, is_two: bool, growth: u32) -> Result<bool, AllocError> {
        self.mffc.find(&self.net, target)?;
        if (!is_two || self.mffc.count() >= 2) && self.try_one(target, !is_two)? {
            return Ok(true);
        }
        if is_two && self.mffc.count().saturating_add(growth) >= 2 {
            return self.try_two(target, growth);
        }
        Ok(false)
    }

    /// One move at a target.
    fn try_target(&mut self, target: u32, is_two: bool, growth: u32) -> Result<bool, AllocError> {
        self.find_required(target)?;
        if !self.required.has_off() {
            return self.apply(target, Change::Literal(1), 0);
        }
        if !self.required.has_on() {
            return self.apply(target, Change::Literal(0), 0);
        }
        self.divisors
            .list(&self.net, &self.cone, target, &mut self.random)?;
        if let Some(literal) = self.matching_divisor() {
            return self.apply(target, Change::Literal(literal), 0);
        }
        self.try_gates(target, is_two, growth)
    }

    /// Whether the net may grow in this move. Before it does, a net of the least cost is kept.
    fn may_grow(&mut self, progress: &mut Progress) -> Result<bool, AllocError> {
        if self.cost >= progress.least.saturating_add(SLACK)
            || self.random.below(UPHILL_INTERVAL) != 0
        {
            return Ok(false);
        }
        if !progress.is_kept {
            self.kept.copy_from(&self.net)?;
            progress.is_kept = true;
            progress.above = 0;
        }
        Ok(true)
    }

    /// Goes back to the net that is kept, where there is one.
    fn go_back(&mut self, progress: &mut Progress) -> Result<(), AllocError> {
        if progress.is_kept {
            self.net.copy_from(&self.kept)?;
            self.net_changed();
            self.cost = cost_of(&self.net, self.complements);
            progress.is_kept = false;
        }
        Ok(())
    }

    /// Takes note of the net after a move.
    fn note(&mut self, progress: &mut Progress) -> Result<(), AllocError> {
        progress.since = progress.since.saturating_add(1);
        if self.cost > progress.least {
            progress.above = progress.above.saturating_add(1);
            if progress.above > MOST_ABOVE {
                return self.go_back(progress);
            }
            return Ok(());
        }
        if self.cost < progress.least {
            progress.since = 0;
            progress.least = self.cost;
        }
        progress.is_kept = false;
        Ok(())
    }

    /// One move.
    fn step(&mut self, progress: &mut Progress) -> Result<(), AllocError> {
        let target = self
            .net
            .first_gate()
            .saturating_add(self.random.below(self.net.size()));
        let grows = self.may_grow(progress)?;
        let is_two = self.random.below(TWO_GATE_INTERVAL) == 0 || grows;
        self.try_target(target, is_two, u32::from(grows))?;
        self.note(progress)
    }

    /// Whether a run is over.
    fn is_over(&self, progress: &Progress, limits: Limits) -> bool {
        self.net.size() == 0
            || self.cost <= limits.enough
            || progress.since > limits.patience
            || self.work() >= limits.work
    }

    /// Walks up to the limits. The net ends as the least one on the way, the last of several.
    pub fn run(&mut self, limits: Limits) -> Result<(), AllocError> {
        let mut progress = Progress {
            least: self.cost,
            since: 0,
            above: 0,
            is_kept: false,
        };
        for _move in 0..limits.moves {
            if self.is_over(&progress, limits) {
                break;
            }
            self.step(&mut progress)?;
        }
        if self.cost > progress.least {
            self.go_back(&mut progress)
        } else {
            Ok(())
        }
    }
}
