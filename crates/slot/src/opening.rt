// Opening a slot store over an area, and giving the area back.
ghost use Rattle.std.specs.Prelude.{◌≡◌, [], vec_len};
ghost use Rattle.area.specs.Layout.{rows_of};
ghost use Rattle.slot.specs.Slots.{slot_pairs, cleared};

use crate::slots::SlotStore;
use area::layout::SLOT;
use area::record_at::{bury, rows};

impl SlotStore {
    // A store with no pair in the area, whatever bytes the area held.
    pub fn open(mut area: Vec<u8>) -> SlotStore
        ensures rows { result.rows ≡ rows_of (vec_len area) }
        ensures marks { result.area.items ≡ cleared result.rows area.items }
        ensures none { slot_pairs result.rows result.area.items ≡ [] }
    {
        let rows = rows(area.len());
        // kept as a loop over places: of what `chunks_exact_mut` wrote a proof knows the length alone
        for i in 0..rows {
            bury(&mut area, i * SLOT);
        }
        SlotStore { area, rows }
    }

    // The bytes of the area.
    pub fn area(&self) -> &[u8]
        ensures { result.now ≡ self.now.area.items }
    {
        self.area.as_slice()
    }

    // Gives the area back.
    pub fn close(self) -> Vec<u8>
        ensures { result ≡ self.area }
    {
        let SlotStore { area, rows: _ } = self;
        area
    }
}
