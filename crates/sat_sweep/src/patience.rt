//! How long a sweep goes on asking about pairs that the solver gives up on (conflict limit). Pairs within one net
//! seldom matter, and are asked while enough of them are derived. A pair across the nets rests on earlier ones, so
//! if one is given up, those above it become hard too: while far more are given up than derived, they are asked
//! with few conflicts only, and the next round asks the first of them with more. These numbers affect the time
//! alone.

/// How many pairs within one net may be given up before any is derived.
const MOST_WITHIN_NET: u32 = 64;

/// How many more of these may be given up for each one that is derived.
const REFUND: u32 = 4;

/// Pairs across the nets get few conflicts once those given up outnumber the derived ones by this.
const MOST_EXCESS: u32 = 30;

/// The excess is counted up to this number, so 31 derived pairs restore the round's limit.
const MOST_COUNTED: u32 = 60;

/// The conflict limit while the excess is too great.
const FEW: u32 = 2;

/// The counters of one round.
#[derive(Drop)]
pub(crate) struct Patience {
    /// How many pairs within one net may still be given up.
    within_net: u32,
    /// By how many the pairs across the nets that were given up outnumber the derived ones.
    excess: u32,
}

impl Patience {
    /// The counters at the start of a round.
    pub(crate) fn new() -> Patience {
        Patience {
            within_net: MOST_WITHIN_NET,
            excess: 0,
        }
    }

    /// Whether pairs within one net are still asked.
    pub(crate) fn asks_within_net(&self) -> bool {
        self.within_net > 0
    }

    /// The conflict limit for a pair across the nets, where the round's is `limit`.
    pub(crate) fn limit(&self, limit: u32) -> u32 {
        if self.excess < MOST_EXCESS {
            return limit;
        }
        limit.min(FEW)
    }

    /// Counts the result of one pair: whether it is within one net, and whether it was merged or given up.
    pub(crate) fn count_result(&mut self, is_within_net: bool, is_merged: bool) {
        match (is_within_net, is_merged) {
            (true, true) => self.within_net = self.within_net.saturating_add(REFUND),
            (true, false) => self.within_net = self.within_net.saturating_sub(1),
            (false, true) => self.excess = self.excess.saturating_sub(1),
            (false, false) => self.excess = MOST_COUNTED.min(self.excess.saturating_add(1)),
        }
    }
}
