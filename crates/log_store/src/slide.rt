// Sliding the live records of a log to the front of its area.
ghost use Rattle.std.specs.Prelude.{◌≡◌, ◌≤◌, true, length, take, vec_len};
ghost use Rattle.log_store.specs.Chain.{records, bytes_of, all_exact, lives};

use area::layout::HEADER;
use area::record_at::{is_live, length_of};

// Moves the live records to the front, in order, and answers where they end.
// Kept as a loop over places, and as a function of the area: it moves the bytes that it walks through, and between two records no store lies in them.
pub(crate) fn slide(area: &mut Vec<u8>, end: usize) -> usize
    requires { (end ≤ vec_len area.old) × (all_exact (records (take end area.old.items)) ≡ true) }
    ensures front { take result area.new.items ≡ bytes_of (lives (records (take end area.old.items))) }
    ensures end { result ≡ length (bytes_of (lives (records (take end area.old.items)))) }
    ensures len { vec_len area.new ≡ vec_len area.old }
{
    let mut from = 0;
    let mut to = 0;
    while from < end {
        let record = &area[from..end];
        let size = HEADER + length_of(record);
        if is_live(record) {
            area.copy_within(from..from + size, to);
            to += size;
        }
        from += size;
    }
    to
}
