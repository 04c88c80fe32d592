// The slot store keeps the contract of every store.
ghost use Rattle.area.specs.Layout.{longest};
ghost use Rattle.slot.specs.Kept.{pairs_of};

use crate::slots::SlotStore;
use area::layout::{LONGEST, SLOT};
use area::record_at::{bury, read, write};
use names::{Name, Refusal};
use store::Store;

impl Store for SlotStore {
    const LIMIT: usize = LONGEST;

    ghost LIMIT = { longest };

    ghost rows = { λ s. s.rows };

    ghost pairs = { pairs_of };

    ghost apart = { λ s. s.apart };

    fn capacity(&self) -> usize {
        self.rows
    }

    fn put(&mut self, name: Name, content: &[u8]) -> Result<(), Refusal> {
        if content.len() > LONGEST {
            return Err(Refusal::RecordTooLong { unit: None });
        }
        let Some(i) = self.place(name) else {
            return Err(Refusal::StoreFull { unit: None });
        };
        write(&mut self.area, i * SLOT, name, content)
    }

    fn get(&mut self, name: Name, buffer: &mut [u8]) -> Result<Option<usize>, Refusal> {
        let Some(i) = self.find(name) else {
            return Ok(None);
        };
        let at = i * SLOT;
        let n = read(&self.area[at..at + SLOT], buffer)?;
        Ok(Some(n))
    }

    fn drop(&mut self, name: Name) -> bool {
        let Some(i) = self.find(name) else {
            return false;
        };
        bury(&mut self.area, i * SLOT);
        true
    }
}
