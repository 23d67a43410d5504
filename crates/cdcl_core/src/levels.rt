//! Where decision levels begin on the trail. The starts rise, so those from `back` on are the last ones.
ghost use Rattle.std.specs.Prelude.{ℕ, ◌<◌, ◌≤◌, ◌-◌, length, slice_index_or, AllPairs};
ghost use Rattle.cdcl_core.specs.Levels.{IsDropped};

/// Drops the levels that begin at trail index `back` or later, and returns where the first of them began.
pub(crate) fn drop_levels(starts: &mut Vec<usize>, back: usize) -> usize
    requires some { 0 < length starts.old.items }
    requires rising { AllPairs (λ a b. a < b) starts.old.items }
    requires last { (d : ℕ) → back ≤ slice_index_or starts.old.items (length starts.old.items - 1) d }
    ensures { IsDropped back starts.old.items starts.new.items result }
{
    let mut keep = starts.len() - 1;
    while keep > 0 && starts[keep - 1] >= back {
        keep -= 1;
    }
    let end = starts[keep];
    starts.truncate(keep);
    end
}
