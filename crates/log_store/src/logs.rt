ghost use Rattle.std.specs.Prelude.{◌≡◌, ◌≤◌, true, length, take, vec_len};
ghost use Rattle.store.specs.Pairs.{once};
ghost use Rattle.area.specs.Layout.{rows_of};
ghost use Rattle.log_store.specs.Chain.{records, all_exact, log_pairs};

// An area of the caller's with its number of rows, which opening fixes, the end of the log in it and the number of live records. The
// bytes up to the end are records one behind the other, no name is live twice, and there are no more live ones than rows.
#[derive(Drop)]
pub struct LogStore {
    pub(crate) area: Vec<u8>,
    // kept as a field: clauses and searches name it, where the number worked out of the area's length is no plainer
    pub(crate) rows: usize,
    pub(crate) end: usize,
    // kept beside the area: counted anew, it would cost each put one more walk through all records, live and dead
    pub(crate) count: usize,
    ghost counted: { rows ≡ rows_of (vec_len area) },
    ghost inside: { end ≤ vec_len area },
    ghost good: { all_exact (records (take end area.items)) ≡ true },
    ghost apart: { once (log_pairs (records (take end area.items))) ≡ true },
    ghost number: { count ≡ length (log_pairs (records (take end area.items))) },
    ghost few: { length (log_pairs (records (take end area.items))) ≤ rows },
}
