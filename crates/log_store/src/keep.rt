// The log store keeps the contract of every store, and says which records lie in the area after each call.
ghost use Rattle.std.specs.Prelude.{◌≡◌, length, if◌then◌else◌, vec_len, nat_eq};
ghost use Rattle.names.specs.Refusals.{answer};
ghost use Rattle.store.specs.Says.{PutSays, GetSays, DropSays, Within};
ghost use Rattle.area.specs.Layout.{longest};
ghost use Rattle.log_store.specs.Chain.{marked, log_put};
ghost use Rattle.log_store.specs.Kept.{records_of, pairs_of};

use crate::logs::LogStore;
use area::layout::{HEADER, LONGEST};
use area::record_at::read;
use names::{Name, Refusal};
use store::Store;

impl Store for LogStore {
    const LIMIT: usize = LONGEST;

    ghost LIMIT = { longest };

    ghost rows = { λ s. s.rows };

    ghost pairs = { pairs_of };

    ghost apart = { λ s. s.apart };

    fn capacity(&self) -> usize {
        self.rows
    }

    fn put(&mut self, name: Name, content: &[u8]) -> Result<(), Refusal>
        ensures says { PutSays longest self.old.rows (pairs_of self.old) (pairs_of self.new) name.bytes content.now (answer result) }
        ensures rows { self.new.rows ≡ self.old.rows }
        ensures lie { records_of self.new ≡ (if nat_eq (answer result) 0 then log_put (vec_len self.old.area) (records_of self.old) name.bytes content.now else records_of self.old) }
    {
        if content.len() > LONGEST {
            return Err(Refusal::RecordTooLong { unit: None });
        }
        if self.is_full_for(name) {
            return Err(Refusal::StoreFull { unit: None });
        }
        let _ = self.end_pair(name);
        self.make_room(HEADER + content.len());
        self.append(name, content)
    }

    fn get(&mut self, name: Name, buffer: &mut [u8]) -> Result<Option<usize>, Refusal>
        ensures says { GetSays (pairs_of self.old) (pairs_of self.new) name.bytes buffer.old buffer.new result }
        ensures within { Within result (length buffer.old) }
        ensures rows { self.new.rows ≡ self.old.rows }
        ensures lie { records_of self.new ≡ records_of self.old }
    {
        let Some((_, record)) = self.find(name) else {
            return Ok(None);
        };
        let n = read(record, buffer)?;
        Ok(Some(n))
    }

    fn drop(&mut self, name: Name) -> bool
        ensures says { DropSays (pairs_of self.old) (pairs_of self.new) name.bytes result }
        ensures rows { self.new.rows ≡ self.old.rows }
        ensures lie { records_of self.new ≡ marked name.bytes (records_of self.old) }
    {
        self.end_pair(name)
    }
}
