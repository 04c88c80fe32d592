ghost use Rattle.std.specs.Prelude.{◌≡◌, ◌+◌, [], ◌∷◌, ◌++◌, length, take, is_ok, IfOk, if◌then◌else◌, nat_le, nat_lt};
ghost use Rattle.bounded.specs.Held.{held};

use crate::full::Full;
use crate::list::Bounded;
use std::alloc::{AllocError, Global};

impl<T, const N: usize> Bounded<T, N> {
    // An empty list with memory for N elements.
    pub fn open(heap: Global) -> Result<Bounded<T, N>, AllocError>
        ensures { IfOk result (λ b. held b ≡ []) }
    {
        let items = Vec::with_capacity(heap, N)?;
        Ok(Bounded { items })
    }

    // The elements.
    pub fn as_slice(&self) -> &[T]
        ensures { result.now ≡ held self.now }
    {
        self.items.as_slice()
    }

    // How many elements there are.
    pub fn len(&self) -> usize
        ensures { result ≡ length (held self.now) }
    {
        self.items.len()
    }

    // One element more at the end; refused, and nothing done, where N stand.
    // A list takes elements one by one: a method that took any iterator would have each caller prove how many come.
    pub fn push(&mut self, x: T) -> Result<(), Full>
    where
        T: Drop,
        ensures fits { is_ok result ≡ nat_lt (length (held self.old)) N }
        ensures after { held self.new ≡ (if is_ok result then held self.old ++ x ∷ [] else held self.old) }
    {
        if self.items.len() >= N {
            return Err(Full);
        }
        self.items.push_reserved(x);
        Ok(())
    }

    // No elements.
    pub fn clear(&mut self)
    where
        T: Drop,
        ensures { held self.new ≡ [] }
    {
        self.items.clear();
    }

    // The first n elements, or all where there are fewer.
    pub fn truncate(&mut self, n: usize)
    where
        T: Drop,
        ensures { held self.new ≡ take n (held self.old) }
    {
        self.items.truncate(n);
    }

    // More elements at the end; refused, and nothing done, where they would pass N.
    pub fn extend(&mut self, more: &[T]) -> Result<(), Full>
    where
        T: Copy,
        ensures fits { is_ok result ≡ nat_le (length (held self.old) + length more.now) N }
        ensures after { held self.new ≡ (if is_ok result then held self.old ++ more.now else held self.old) }
    {
        let room = N - self.items.len();
        if more.len() > room {
            return Err(Full);
        }
        self.items.extend_from_slice(more).map_err(|_| Full)
    }
}
