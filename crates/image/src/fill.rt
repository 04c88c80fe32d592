// An image is opened once, then emptied and filled in place, unit by unit in link order.
ghost use Rattle.std.specs.Prelude.{◌≡◌, ◌&&◌, [], length, is_ok, IfOk, if◌then◌else◌, nat_le, nat_lt, slice_index_or};
ghost use Rattle.image.specs.Picture.{parts, units, no_units, with_unit};

use crate::column::Column;
use crate::image::Image;
use crate::sections::Sections;
use crate::target::Target;
use bounded::{Bounded, Full, Pool};
use names::Name;
use std::alloc::{AllocError, Global};

impl Sections {
    // No units.
    pub(crate) fn clear(&mut self)
        ensures { parts self.new ≡ no_units }
    {
        self.names.clear();
        self.codes.lists.clear();
        self.entries.lists.clear();
        self.references.lists.clear();
    }
}

impl Image {
    // An image of no units, and memory for all that its limits allow.
    pub fn open(heap: Global) -> Result<Image, AllocError>
        ensures { IfOk result (λ i. units i ≡ no_units) }
    {
        let names = Bounded::open(heap)?;
        // kept as three literals: the borrow checker does not cover `Bounded::open` passed on for any type and number
        let codes = Column {
            lists: Pool::open(heap, Bounded::open)?,
            next: Bounded::open(heap)?,
        };
        let entries = Column {
            lists: Pool::open(heap, Bounded::open)?,
            next: Bounded::open(heap)?,
        };
        let references = Column {
            lists: Pool::open(heap, Bounded::open)?,
            next: Bounded::open(heap)?,
        };
        let sections = Sections {
            names,
            codes,
            entries,
            references,
        };
        Ok(Image { sections })
    }

    // No units.
    pub fn clear(&mut self)
        ensures { units self.new ≡ no_units }
    {
        self.sections.clear();
    }

    // One unit more, last in link order; refused, and nothing done, where 24 stand or a part is over its limit.
    pub fn add(
        &mut self,
        name: Name,
        code: &[u8],
        entries: &[u16],
        references: &[Target],
    ) -> Result<(), Full>
        ensures fits { is_ok result ≡ (nat_lt (length (units self.old).names) 24 && (nat_le (length code.now) 384 && (nat_le (length entries.now) 12 && nat_le (length references.now) 32))) }
        ensures after { units self.new ≡ (if is_ok result then with_unit (units self.old) name code.now entries.now references.now else units self.old) }
    {
        if self.sections.names.len() >= 24
            || code.len() > 384
            || entries.len() > 12
            || references.len() > 32
        {
            return Err(Full);
        }
        self.sections.names.push(name)?;
        self.sections.codes.add(code)?;
        self.sections.entries.add(entries)?;
        self.sections.references.add(references)
    }

    // The names, in link order.
    pub fn names(&self) -> &[Name]
        ensures { result.now ≡ (units self.now).names }
    {
        self.sections.names.as_slice()
    }

    // The code of the unit at a position.
    pub fn code(&self, unit: usize) -> &[u8]
        ensures { result.now ≡ slice_index_or (units self.now).codes unit [] }
    {
        self.sections.codes.get(unit)
    }

    // The entries of the unit at a position.
    pub fn entries(&self, unit: usize) -> &[u16]
        ensures { result.now ≡ slice_index_or (units self.now).entries unit [] }
    {
        self.sections.entries.get(unit)
    }

    // The references of the unit at a position.
    pub fn references(&self, unit: usize) -> &[Target]
        ensures { result.now ≡ slice_index_or (units self.now).references unit [] }
    {
        self.sections.references.get(unit)
    }
}
