//! Restarts: the search backtracks to level 0 after runs of conflicts whose lengths follow Luby's sequence
//! (Luby, Sinclair and Zuckerman, "Optimal speedup of Las Vegas algorithms", 1993). Clauses, scores and saved
//! phases stay, so a restart loses little, and no answer depends on its time.
ghost use Rattle.std.specs.Prelude.{◌≡◌, ℕ, ◌+◌, ◌-◌, ◌*◌, ◌%◌, ◌^◌, ◌<◌, ◌≤◌, IsTrue, IsFalse};
ghost use Rattle.cdcl_core.specs.Luby.{IsLuby, IsPowerUpTo};

/// The number of conflicts of the shortest runs.
const SHORTEST_RUN: u64 = 80;

/// The number of runs after which the sequence starts over, so that indices fit in 32 bits.
const RUNS: u32 = 2147483647;

/// The current run of conflicts.
#[derive(Drop)]
pub(crate) struct Restarts {
    /// its index in the sequence, from 1 on
    pub(crate) run: u32,
    /// how many of its conflicts are still to come
    pub(crate) left: u64,
}

impl Restarts {
    /// The first run.
    pub(crate) fn new() -> Restarts {
        Restarts {
            run: 1,
            left: SHORTEST_RUN,
        }
    }

    /// Counts a conflict, and returns whether a run ended with it.
    pub(crate) fn count(&mut self) -> bool
        ensures goes_on { IsFalse result → self.new ≡ record self.old { left = self.old.left - 1 } }
        ensures due { IsTrue result → self.old.left ≤ 1 }
        ensures next { IsTrue result → self.new.run ≡ self.old.run % RUNS + 1 }
        ensures ends { IsTrue result → (length : ℕ) × IsLuby self.new.run length ×
            (self.new.left ≡ SHORTEST_RUN * length) }
    {
        if self.left > 1 {
            self.left -= 1;
            return false;
        }
        self.run = self.run % RUNS + 1;
        self.left = SHORTEST_RUN * u64::from(luby(self.run));
        true
    }
}

/// The member of Luby's sequence at an index.
fn luby(index: u32) -> u32
    requires some { 0 < index }
    requires small { index < 2 ^ 31 }
    ensures { IsLuby index result }
{
    let mut rest = index;
    let mut power = greatest_power(rest);
    while rest + 1 < 2 * power {
        rest = rest + 1 - power;
        power = greatest_power(rest);
    }
    power
}

/// The greatest power of 2 that isn't above `number`.
fn greatest_power(number: u32) -> u32
    requires some { 0 < number }
    requires small { number < 2 ^ 31 }
    ensures { IsPowerUpTo number result }
{
    let mut power = 1;
    while power <= number / 2 {
        power *= 2;
    }
    power
}
