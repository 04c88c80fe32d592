// Elements of a pool come into use and go out of it; each keeps its memory.
ghost use Rattle.std.specs.Prelude.{◌≡◌, ◌<◌, [], ◌∷◌, ◌++◌, length, set, is_ok, IfOk, OnErr, if◌then◌else◌, nat_lt};
ghost use Rattle.std.specs.List.{remove};
ghost use Rattle.bounded.specs.Held.{used};

use crate::full::Full;
use crate::pool::Pool;
use std::alloc::{AllocError, Global};
use std::mem;

impl<T, const N: usize> Pool<T, N> {
    // None in use, and N spare ones that are made here.
    pub fn open<F: Fn(Global) -> Result<T, AllocError>>(
        heap: Global,
        make: F,
    ) -> Result<Pool<T, N>, AllocError>
    where
        T: Drop,
        F: Drop,
        requires { F.IsAlwaysCallable make }
        ensures { IfOk result (λ p. used p ≡ []) }
    {
        let used = Vec::with_capacity(heap, N)?;
        let mut spare = Vec::with_capacity(heap, N)?;
        for _ in 0..N {
            spare.push_reserved(make(heap)?);
        }
        Ok(Pool { used, spare })
    }

    // The elements in use.
    pub fn as_slice(&self) -> &[T]
        ensures { result.now ≡ used self.now }
    {
        self.used.as_slice()
    }

    // How many are in use.
    pub fn len(&self) -> usize
        ensures { result ≡ length (used self.now) }
    {
        self.used.len()
    }

    // One more in use at the end, by an exchange: its content is taken from the caller's, who has a spare one from then on.
    // Refused, and nothing done, where N are in use.
    pub fn add(&mut self, x: &mut T) -> Result<(), Full>
    where
        T: Drop,
        ensures fits { is_ok result ≡ nat_lt (length (used self.old)) N }
        ensures after { used self.new ≡ (if is_ok result then used self.old ++ x.old ∷ [] else used self.old) }
        ensures refused { OnErr result (x.new ≡ x.old) }
    {
        let mut free = self.spare.pop().ok_or(Full)?;
        mem::swap(&mut free, x);
        self.used.push_reserved(free);
        Ok(())
    }

    // Another element at a place, by an exchange.
    pub fn replace(&mut self, i: usize, x: &mut T)
        requires { i < length (used self.old) }
        ensures after { used self.new ≡ set (used self.old) i x.old }
    {
        mem::swap(&mut self.used[i], x);
    }

    // The element at a place is spare from now on.
    pub fn remove(&mut self, i: usize)
    where
        T: Drop,
        requires { i < length (used self.old) }
        ensures { used self.new ≡ remove (used self.old) i }
    {
        let x = self.used.remove(i);
        self.spare.push_reserved(x);
    }

    // None in use.
    pub fn clear(&mut self)
    where
        T: Drop,
        ensures { used self.new ≡ [] }
    {
        let _ = self.spare.append(&mut self.used);
    }
}
