// The records of a log in order.
ghost use Rattle.std.specs.Prelude.{◌≤◌, length};

use area::layout::HEADER;
use area::record_at::length_of;

// The records from a place of a log on, live and dead, each with the place where it begins.
#[derive(Drop)]
pub struct Records<'a> {
    pub(crate) log: &'a [u8],
    pub(crate) at: usize,
    ghost inside: { at ≤ length log.now },
}

impl<'a> Iterator for Records<'a> {
    ghost use Rattle.std.specs.Iterator.{YieldsFirstBy, item_count};
    ghost use Rattle.log_store.specs.Kept.{records_left};

    type Item = (usize, &'a [u8]);

    ghost next_gives = { YieldsFirstBy (λ r. (r.0, r.1.now)) records_left };

    ghost remaining = { item_count records_left };

    fn next(&mut self) -> Option<(usize, &'a [u8])> {
        let rest = &self.log[self.at..];
        if rest.is_empty() {
            return None;
        }
        let at = self.at;
        let size = rest.len().min(HEADER + length_of(rest));
        self.at += size;
        Some((at, &rest[..size]))
    }
}
