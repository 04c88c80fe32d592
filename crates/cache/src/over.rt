// The cache over any store.
ghost use Rattle.std.specs.Prelude.{◌≡◌, [], length, IfOk};
ghost use Rattle.store.specs.Pairs.{lookup};
ghost use Rattle.store.specs.Says.{GetSays, Within};
ghost use Rattle.cache.specs.Recent.{after_get, TrueCopies};
ghost use Rattle.cache.specs.Kept.{kept};

use crate::copies::Copies;
use names::{Name, Refusal};
use std::alloc::{AllocError, Global};
use store::Store;

#[derive(Drop)]
pub struct Cache<S: Store> {
    pub(crate) below: S,
    pub(crate) copies: Copies,
    ghost true_copies: { TrueCopies (kept copies) (S.Store.pairs below) },
}

impl<S: Store> Cache<S> {
    // A cache with no copy over a store.
    pub fn open(heap: Global, below: S) -> Result<Cache<S>, AllocError>
    where
        S: Drop,
        ensures opens { IfOk result (λ c. (c.below ≡ below) × (kept c.copies ≡ [])) }
    {
        let copies = Copies::open(heap)?;
        Ok(Cache { below, copies })
    }

    // The store below.
    pub fn below(&self) -> &S
        ensures { result.now ≡ self.now.below }
    {
        &self.below
    }

    // Gives the store below back.
    pub fn close(self) -> S
        ensures { result ≡ self.below }
    {
        let Cache { below, copies: _ } = self;
        below
    }

    // Gets a record that has no copy from below, and takes a copy of it in.
    pub(crate) fn fetch(&mut self, name: Name, buffer: &mut [u8]) -> Result<Option<usize>, Refusal>
        ensures says { GetSays (S.Store.pairs self.old.below) (S.Store.pairs self.new.below) name.bytes buffer.old buffer.new result }
        ensures within { Within result (length buffer.old) }
        ensures rows { S.Store.rows self.new.below ≡ S.Store.rows self.old.below }
        ensures latest { kept self.new.copies ≡ after_get (lookup (S.Store.pairs self.old.below) name.bytes) (length buffer.old) name.bytes (kept self.old.copies) }
    {
        let Some(n) = self.below.get(name, buffer)? else {
            return Ok(None);
        };
        self.copies.admit(name, &buffer[0..n]);
        Ok(Some(n))
    }
}
