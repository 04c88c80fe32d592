// Looking for a slot.
ghost use Rattle.std.specs.Prelude.{◌≡◌, ◌<◌, false, length, MatchOption};
ghost use Rattle.std.specs.Option.{option_map};
ghost use Rattle.store.specs.Pairs.{has, lookup};
ghost use Rattle.area.specs.Layout.{live, content};
ghost use Rattle.slot.specs.Slots.{slot, SlotOf, SlotFor};
ghost use Rattle.slot.specs.Kept.{pairs_of};

use crate::slots::SlotStore;
use area::layout::SLOT;
use area::record_at::{is_held, is_live};
use names::Name;

impl SlotStore {
    // The slot of a name.
    pub(crate) fn find(&self, name: Name) -> Option<usize>
        ensures slot { MatchOption result (has (pairs_of self.now) name.bytes ≡ false) (λ i. SlotOf self.now.rows self.now.area.items name.bytes i) }
        ensures finds { lookup (pairs_of self.now) name.bytes ≡ option_map (λ i. content (slot self.now.area.items i)) result }
    {
        self.area
            .chunks_exact(SLOT)
            .take(self.rows)
            .position(|slot| is_held(slot, name))
    }

    // The first free slot.
    fn first_free(&self) -> Option<usize>
        ensures { MatchOption result (length (pairs_of self.now) ≡ self.now.rows) (λ i. (i < self.now.rows) × (live (slot self.now.area.items i) ≡ false)) }
    {
        self.area
            .chunks_exact(SLOT)
            .take(self.rows)
            .position(|slot| !is_live(slot))
    }

    // The slot to put a record of the name in: its own, or a free one.
    pub(crate) fn place(&self, name: Name) -> Option<usize>
        ensures { MatchOption result ((has (pairs_of self.now) name.bytes ≡ false) × (length (pairs_of self.now) ≡ self.now.rows)) (λ i. SlotFor self.now.rows self.now.area.items name.bytes i) }
    {
        self.find(name).or_else(|| self.first_free())
    }
}
