// The three steps of a put: the old record marked dead, room made, the new record appended.
ghost use Rattle.std.specs.Prelude.{◌≡◌, ◌+◌, ◌<◌, ◌≤◌, true, false, not, ◌&&◌, [], ◌∷◌, ◌++◌, length, if◌then◌else◌, vec_len, nat_eq, nat_le};
ghost use Rattle.names.specs.Refusals.{answer};
ghost use Rattle.store.specs.Pairs.{pair, has, without};
ghost use Rattle.area.specs.Layout.{slot_size, laid, lay_number};
ghost use Rattle.log_store.specs.Chain.{marked, with_room};
ghost use Rattle.log_store.specs.Kept.{records_of, pairs_of};

use crate::logs::LogStore;
use crate::slide::slide;
use area::layout::HEADER;
use area::record_at::{bury, write};
use names::{Name, Refusal};

impl LogStore {
    // Whether the name is new and every row has its pair.
    pub(crate) fn is_full_for(&self, name: Name) -> bool
        ensures { result ≡ (nat_le self.now.rows (length (pairs_of self.now)) && not (has (pairs_of self.now) name.bytes)) }
    {
        self.live() >= self.rows && self.find(name).is_none()
    }

    // Marks the live record of the name dead; says whether there was one, for a drop's answer.
    pub(crate) fn end_pair(&mut self, name: Name) -> bool
        ensures found { result ≡ has (pairs_of self.old) name.bytes }
        ensures marks { records_of self.new ≡ marked name.bytes (records_of self.old) }
        ensures pairs { pairs_of self.new ≡ without name.bytes (pairs_of self.old) }
        ensures len { vec_len self.new.area ≡ vec_len self.old.area }
    {
        let Some((at, _)) = self.find(name) else {
            return false;
        };
        bury(&mut self.area, at);
        self.count -= 1;
        true
    }

    // Slides the live records to the front where n bytes more do not fit behind the last record.
    pub(crate) fn make_room(&mut self, n: usize)
        ensures marks { records_of self.new ≡ with_room (vec_len self.old.area) n (records_of self.old) }
        ensures pairs { pairs_of self.new ≡ pairs_of self.old }
        ensures room { length (pairs_of self.old) < self.old.rows → n ≤ slot_size → self.new.end + n ≤ vec_len self.new.area }
        ensures len { vec_len self.new.area ≡ vec_len self.old.area }
    {
        if n > self.area.len() - self.end {
            self.end = slide(&mut self.area, self.end);
        }
    }

    // Lays a record of a new name behind the last; refused, and nothing done, where the record is too long (42) or does not fit there (41).
    pub(crate) fn append(&mut self, name: Name, content: &[u8]) -> Result<(), Refusal>
        requires fresh { has (pairs_of self.old) name.bytes ≡ false }
        requires row { length (pairs_of self.old) < self.old.rows }
        ensures outcome { answer result ≡ lay_number (vec_len self.old.area) self.old.end (length content.now) }
        ensures marks { records_of self.new ≡ (if nat_eq (answer result) 0 then records_of self.old ++ laid name.bytes content.now ∷ [] else records_of self.old) }
        ensures pairs { pairs_of self.new ≡ (if nat_eq (answer result) 0 then pairs_of self.old ++ pair name.bytes content.now ∷ [] else pairs_of self.old) }
        ensures len { vec_len self.new.area ≡ vec_len self.old.area }
    {
        write(&mut self.area, self.end, name, content)?;
        self.end += HEADER + content.len();
        self.count += 1;
        Ok(())
    }
}
