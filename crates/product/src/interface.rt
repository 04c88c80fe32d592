// An interface: at most twelve rows.
ghost use Rattle.std.specs.Prelude.{◌≡◌, ◌<◌, [], ◌∷◌, ◌++◌, length, IfOk, if◌then◌else◌, nat_lt};
ghost use Rattle.names.specs.Refusals.{answer};
ghost use Rattle.product.specs.Parts.{rows, first_row};

use crate::row::Row;
use bounded::Bounded;
use names::{Name, Refusal};
use std::alloc::{AllocError, Global};

#[derive(Drop)]
pub struct Interface {
    pub list: Bounded<Row, 12>,
}

impl Interface {
    // An interface with no rows, and memory for twelve.
    pub fn open(heap: Global) -> Result<Interface, AllocError>
        ensures { IfOk result (λ i. rows i ≡ []) }
    {
        let list = Bounded::open(heap)?;
        Ok(Interface { list })
    }

    // The rows, first to last.
    pub fn rows(&self) -> &[Row]
        ensures { result.now ≡ rows self.now }
    {
        self.list.as_slice()
    }

    // One row more at the end; refused, and nothing done, where twelve stand.
    pub fn push(&mut self, row: Row) -> Result<(), Refusal>
        ensures answered { answer result ≡ (if nat_lt (length (rows self.old)) 12 then 0 else 16) }
        ensures after { rows self.new ≡ (if nat_lt (length (rows self.old)) 12 then rows self.old ++ row ∷ [] else rows self.old) }
    {
        self.list.push(row).map_err(|_| Refusal::TooManyRows)
    }

    // No rows.
    pub fn clear(&mut self)
        ensures { rows self.new ≡ [] }
    {
        self.list.clear();
    }

    // The rows of another interface in place of its own. A clone would want memory, and this never does.
    pub fn copy_from(&mut self, other: &Interface)
        ensures { rows self.new ≡ rows other.now }
    {
        self.clear();
        let _ = self.list.extend(other.rows());
    }

    // The first row of a name.
    pub fn find(&self, name: Name) -> Option<Row>
        ensures { result ≡ first_row name.bytes (rows self.now) }
    {
        self.rows().iter().find(|row| row.name == name).copied()
    }
}
