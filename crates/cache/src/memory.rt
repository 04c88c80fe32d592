// Looking for a copy, taking one in and letting one go.
ghost use Rattle.std.specs.Prelude.{◌≡◌, ◌+◌, ◌<◌, false, [], length, take, IfOk, Some, vec_len, vec_capacity, MatchOption};
ghost use Rattle.std.specs.Option.{option_map};
ghost use Rattle.names.specs.Refusals.{answer};
ghost use Rattle.store.specs.Pairs.{has, lookup, without};
ghost use Rattle.store.specs.Says.{get_number, get_buffer};
ghost use Rattle.cache.specs.Recent.{admitted, to_front, after_get, PlaceOf};
ghost use Rattle.cache.specs.Kept.{kept};

use crate::copies::{Copied, Copies};
use area::layout::LONGEST;
use bounded::Bounded;
use names::{Name, Refusal};
use std::alloc::{AllocError, Global};
use store::copy_out;

// How many copies are held.
pub const PLACES: usize = 4;

impl Copies {
    // No copy, with memory for four.
    pub(crate) fn open(heap: Global) -> Result<Copies, AllocError>
        ensures { IfOk result (λ c. kept c ≡ []) }
    {
        let latest = Vec::with_capacity(heap, PLACES)?;
        let mut spare = Vec::with_capacity(heap, PLACES)?;
        for _ in 0..PLACES {
            spare.push_reserved(Bounded::open(heap)?);
        }
        Ok(Copies { latest, spare })
    }

    // The place of the name's copy.
    pub(crate) fn find(&self, name: Name) -> Option<usize>
        ensures { MatchOption result (has (kept self.now) name.bytes ≡ false) (λ i. PlaceOf (kept self.now) name.bytes i) }
    {
        self.latest.iter().position(|copied| copied.name == name)
    }

    // Lets the name's copy go.
    pub(crate) fn forget(&mut self, name: Name)
        ensures { kept self.new ≡ without name.bytes (kept self.old) }
    {
        if let Some(i) = self.find(name) {
            let Copied { name: _, content } = self.latest.remove(i);
            self.spare.push_reserved(content);
        }
    }

    // Takes a copy in as the latest; one that is too long takes no place.
    pub(crate) fn admit(&mut self, name: Name, bytes: &[u8])
        ensures { kept self.new ≡ admitted name.bytes bytes.now (kept self.old) }
    {
        self.forget(name);
        if bytes.len() > LONGEST {
            return;
        }
        let mut content = free_place(&mut self.latest, &mut self.spare);
        content.clear();
        let _ = content.extend(bytes);
        self.latest.push_reserved(Copied { name, content });
        self.latest.rotate_right(1);
    }

    // Copies the name's copy to the buffer's start and makes it the latest; none where the name has no copy.
    pub(crate) fn recall(&mut self, name: Name, buffer: &mut [u8]) -> Result<Option<usize>, Refusal>
        ensures outcome { answer result ≡ get_number (lookup (kept self.old) name.bytes) (length buffer.old) }
        ensures told { IfOk result (λ n. n ≡ option_map length (lookup (kept self.old) name.bytes)) }
        ensures filled { buffer.new ≡ get_buffer (lookup (kept self.old) name.bytes) buffer.old }
        ensures latest { kept self.new ≡ after_get (lookup (kept self.old) name.bytes) (length buffer.old) name.bytes (kept self.old) }
    {
        let Some(i) = self.find(name) else {
            return Ok(None);
        };
        let n = copy_out(self.latest[i].content.as_slice(), buffer)?;
        self.touch(i);
        Ok(Some(n))
    }

    // Makes the copy at a place the latest.
    fn touch(&mut self, i: usize)
        requires { i < vec_len self.old.latest }
        ensures { kept self.new ≡ to_front i (kept self.old) }
    {
        // kept as a removal: `latest[..=i].rotate_right(1)` was tried, and its proof did not close, as no fact names the list after it
        let copied = self.latest.remove(i);
        self.latest.push_reserved(copied);
        self.latest.rotate_right(1);
    }
}

// The memory of a free place, or else of the oldest copy.
// Kept as a function of the two lists: a place is out of both then, which a `Copies` does not allow.
fn free_place(
    latest: &mut Vec<Copied>,
    spare: &mut Vec<Bounded<u8, LONGEST>>,
) -> Bounded<u8, LONGEST>
    requires { vec_len latest.old + vec_len spare.old ≡ 4 }
    ensures oldest { latest.new.items ≡ take 3 latest.old.items }
    ensures three { vec_len latest.new + vec_len spare.new ≡ 3 }
    ensures room { vec_capacity latest.new ≡ vec_capacity latest.old }
    ensures beside { vec_capacity spare.new ≡ vec_capacity spare.old }
{
    match spare.pop() {
        Some(content) => content,
        None => {
            let Copied { name: _, content } = latest.pop().unwrap();
            content
        }
    }
}
