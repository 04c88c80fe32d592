// The trait of every store: what put, get and drop answer and leave, in terms of the pairs held.
ghost use Rattle.std.specs.Prelude.{◌≡◌, ℕ, true, List, length};
ghost use Rattle.names.specs.Refusals.{answer};
ghost use Rattle.store.specs.Pairs.{Pair, once};
ghost use Rattle.store.specs.Says.{PutSays, GetSays, DropSays, Within};

use names::{Name, Refusal};

pub trait Store {
    // The longest record that a store of this kind takes.
    const LIMIT: usize;

    ghost LIMIT: { ℕ };

    // how many pairs the store takes, fixed when it is opened
    ghost rows: { Self → ℕ };

    // the pairs that it holds
    ghost pairs: { Self → List Pair };

    // The number of rows.
    fn capacity(&self) -> usize
        ensures { result ≡ rows self.now };

    // The name has this record from now on, unless the record is too long (42) or there is no row for a new name (41).
    fn put(&mut self, name: Name, content: &[u8]) -> Result<(), Refusal>
        ensures says { PutSays LIMIT (rows self.old) (pairs self.old) (pairs self.new) name.bytes content.now (answer result) }
        ensures rows { rows self.new ≡ rows self.old };

    // The record of the name at the buffer's start, and its length; none if there is none; refused (43) if the buffer is shorter.
    fn get(&mut self, name: Name, buffer: &mut [u8]) -> Result<Option<usize>, Refusal>
        ensures says { GetSays (pairs self.old) (pairs self.new) name.bytes buffer.old buffer.new result }
        ensures within { Within result (length buffer.old) }
        ensures rows { rows self.new ≡ rows self.old };

    // The name has no record from now on; says whether it had one, as a set's `remove` does: that it had none is no refusal.
    fn drop(&mut self, name: Name) -> bool
        ensures says { DropSays (pairs self.old) (pairs self.new) name.bytes result }
        ensures rows { rows self.new ≡ rows self.old };

    // no name stands twice
    ghost apart: { (s : Self) → once (pairs s) ≡ true };
}
