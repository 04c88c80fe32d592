// The cache keeps the contract of every store, with the pairs, the rows and the limit of the store below, and says which records it holds.
ghost use Rattle.std.specs.Prelude.{◌≡◌, length};
ghost use Rattle.names.specs.Refusals.{answer};
ghost use Rattle.store.specs.Pairs.{lookup, without};
ghost use Rattle.store.specs.Says.{PutSays, GetSays, DropSays, Within};
ghost use Rattle.cache.specs.Recent.{after_put, after_get};
ghost use Rattle.cache.specs.Kept.{kept};

use crate::over::Cache;
use names::{Name, Refusal};
use store::Store;

impl<S: Store> Store for Cache<S> {
    const LIMIT: usize = S::LIMIT;

    ghost LIMIT = { S.Store.LIMIT };

    ghost rows = { λ c. S.Store.rows c.below };

    ghost pairs = { λ c. S.Store.pairs c.below };

    ghost apart = { λ c. S.Store.apart c.below };

    fn capacity(&self) -> usize {
        self.below.capacity()
    }

    fn put(&mut self, name: Name, content: &[u8]) -> Result<(), Refusal>
        ensures says { PutSays S.Store.LIMIT (S.Store.rows self.old.below) (S.Store.pairs self.old.below) (S.Store.pairs self.new.below) name.bytes content.now (answer result) }
        ensures rows { S.Store.rows self.new.below ≡ S.Store.rows self.old.below }
        ensures held { kept self.new.copies ≡ after_put (answer result) name.bytes content.now (kept self.old.copies) }
    {
        self.below.put(name, content)?;
        self.copies.admit(name, content);
        Ok(())
    }

    fn get(&mut self, name: Name, buffer: &mut [u8]) -> Result<Option<usize>, Refusal>
        ensures says { GetSays (S.Store.pairs self.old.below) (S.Store.pairs self.new.below) name.bytes buffer.old buffer.new result }
        ensures within { Within result (length buffer.old) }
        ensures rows { S.Store.rows self.new.below ≡ S.Store.rows self.old.below }
        ensures held { kept self.new.copies ≡ after_get (lookup (S.Store.pairs self.old.below) name.bytes) (length buffer.old) name.bytes (kept self.old.copies) }
    {
        match self.copies.recall(name, buffer)? {
            Some(n) => Ok(Some(n)),
            None => self.fetch(name, buffer),
        }
    }

    fn drop(&mut self, name: Name) -> bool
        ensures says { DropSays (S.Store.pairs self.old.below) (S.Store.pairs self.new.below) name.bytes result }
        ensures rows { S.Store.rows self.new.below ≡ S.Store.rows self.old.below }
        ensures held { kept self.new.copies ≡ without name.bytes (kept self.old.copies) }
    {
        self.copies.forget(name);
        self.below.drop(name)
    }
}
