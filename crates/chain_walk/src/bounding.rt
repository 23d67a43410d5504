//! Small nets of tables of at most six inputs: walks from random starts, again from another one after a while without a
//! gain.

use crate::choices::Choices;
use crate::small_net::SmallNet;
use crate::starting::Tables;
use crate::sweeping::OutputComplements;
use crate::walk::{Limits, Walk};
use rows::Random;
use std::alloc::{AllocError, Global};

/// A walk begins anew after so many moves without a gain, and with six inputs, where minima are farther, after more.
const PATIENCE: u32 = 2_000;

const PATIENCE_OF_SIX: u32 = 30_000;

/// The most walks, lest each were over at once.
const MOST_WALKS: u32 = 100_000;

/// Where a search ends: at a net of so few gates, or after so much work. The seed decides all that is random.
#[derive(Clone, Copy)]
pub struct Bound {
    pub enough: u32,
    pub work: u64,
    pub seed: u64,
}

/// The limits of one walk.
fn limits_of(tables: &Tables, bound: Bound) -> Limits {
    let patience = if tables.inputs() == 6 {
        PATIENCE_OF_SIX
    } else {
        PATIENCE
    };
    Limits {
        moves: u32::MAX,
        patience,
        enough: bound.enough,
        work: bound.work,
    }
}

/// A search in progress: its walk, the least net so far, and the cost of that net.
#[derive(Drop)]
struct Search {
    choices: Choices,
    walk: Walk,
    random: Random,
    best: SmallNet,
    least: u32,
}

impl Search {
    /// A search without a net.
    fn new(alloc: Global, basis: u16, tables: &Tables, seed: u64) -> Result<Search, AllocError> {
        let care = Vec::from_slice(alloc, tables.care())?;
        Ok(Search {
            choices: Choices::new(alloc, basis)?,
            walk: Walk::new(alloc, basis, OutputComplements::Counted, care, seed)?,
            random: Random::new(seed.wrapping_add(1)),
            best: SmallNet::new(alloc, 0, 1)?,
            least: u32::MAX,
        })
    }

    /// Keeps the walk's net where it is the least so far.
    fn keep_least(&mut self) -> Result<(), AllocError> {
        if self.walk.cost() >= self.least {
            return Ok(());
        }
        self.least = self.walk.cost();
        self.walk.copy_into(&mut self.best)
    }

    /// One walk from a random start. Returns whether another one may follow.
    fn walk_once(
        &mut self,
        alloc: Global,
        tables: &Tables,
        bound: Bound,
    ) -> Result<bool, AllocError> {
        let start = tables.random_start(alloc, &self.choices, &mut self.random)?;
        let Some(net) = start else {
            return Ok(false);
        };
        self.walk.start(&net)?;
        self.walk.run(limits_of(tables, bound))?;
        self.keep_least()?;
        Ok(self.least > bound.enough && self.walk.work() < bound.work)
    }

    /// Walks until the bound ends the search.
    fn run(&mut self, alloc: Global, tables: &Tables, bound: Bound) -> Result<(), AllocError> {
        for _walk in 0..MOST_WALKS {
            if !self.walk_once(alloc, tables, bound)? {
                break;
            }
        }
        Ok(())
    }

    /// The least net that was found.
    fn into_best(self) -> Option<SmallNet> {
        let Search { best, least, .. } = self;
        if least == u32::MAX { None } else { Some(best) }
    }
}

/// A net of the tables over the basis with as few gates as the search finds, its outputs without complements; None
/// where it finds no net to begin with.
pub fn search_net(
    alloc: Global,
    basis: u16,
    tables: &Tables,
    bound: Bound,
) -> Result<Option<SmallNet>, AllocError> {
    let mut search = Search::new(alloc, basis, tables, bound.seed)?;
    search.run(alloc, tables, bound)?;
    Ok(search.into_best())
}
