ghost use Rattle.std.specs.Prelude.{◌≡◌, true, vec_len};
ghost use Rattle.store.specs.Pairs.{once};
ghost use Rattle.area.specs.Layout.{rows_of};
ghost use Rattle.slot.specs.Slots.{slot_pairs};

// An area of the caller's with its number of slots, which opening fixes; no name lies in two of them.
#[derive(Drop)]
pub struct SlotStore {
    pub(crate) area: Vec<u8>,
    // kept as a field: clauses and searches name it, where the number worked out of the area's length is no plainer
    pub(crate) rows: usize,
    ghost counted: { rows ≡ rows_of (vec_len area) },
    ghost apart: { once (slot_pairs rows area.items) ≡ true },
}
