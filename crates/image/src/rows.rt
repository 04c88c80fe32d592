// Sections of lists, and of rows that begin with the position of their unit.
ghost use Rattle.std.specs.Prelude.{◌≡◌, ◌<◌, ◌≤◌, ◌∷◌, length};
ghost use Rattle.bounded.specs.Held.{held};
ghost use Rattle.codec.specs.Format.{left, filled, each, listed, pair};
ghost use Rattle.image.specs.Dealt.{lists, run, run_read, dealt};
ghost use Rattle.image.specs.Picture.{exactly};

use crate::column::Column;
use bounded::Bounded;
use codec::{Count, Field, Input, Malformed, Sink};

// Reads the rows of one unit, which all begin with its position, in place of what is held; answers how many rows are left for others.
fn read_run<T: Field + Drop, const N: usize>(
    input: &mut Input<'_>,
    unit: u8,
    rows: usize,
    into: &mut Bounded<T, N>,
) -> Result<usize, Malformed>
    ensures { run_read result (held into.new) (left input.new) ≡ run T.Field.format.get unit N rows (left input.old) }
{
    into.clear();
    // kept as a count: how many rows are left is the answer
    for taken in 0..rows {
        let Ok(()) = input.skip(unit) else {
            return Ok(rows - taken);
        };
        let x = T::read(input)?;
        into.push(x)?;
    }
    Ok(0)
}

// Puts the rows of one unit, each behind the unit's position, where they have room.
fn append_run<T: Field, S: Sink>(unit: usize, rows: &[T], out: &mut S)
    ensures { unit < 256 → S.Sink.Takes out.old (each (λ x. unit ∷ T.Field.format.put x) rows.now) out.new }
{
    for x in rows {
        u8::append_count(unit, out);
        x.append(out);
    }
}

impl<T: Field + Drop, const N: usize> Column<T, N> {
    // Reads a section of the rows of so many units, in place of what is held.
    pub(crate) fn read_dealt(&mut self, input: &mut Input<'_>, units: u8) -> Result<(), Malformed>
        requires { units ≤ 24 }
        ensures { filled result (lists self.new) (left input.new) ≡ (dealt N units T.Field.format).get (left input.old) }
    {
        self.lists.clear();
        let mut others = u16::read_count(input)?;
        for unit in 0..units {
            others = read_run(input, unit, others, &mut self.next)?;
            self.lists.add(&mut self.next)?;
        }
        Malformed::unless(others == 0)
    }

    // Reads a count, which must be the number of units, and a section for each, in place of what is held.
    pub(crate) fn read_exactly(&mut self, input: &mut Input<'_>, units: u8) -> Result<(), Malformed>
        requires { units ≤ 24 }
        ensures { filled result (lists self.new) (left input.new) ≡ (exactly units (listed pair N T.Field.format)).get (left input.old) }
    {
        self.lists.clear();
        Malformed::unless(u8::read(input)? == units)?;
        for _ in 0..units {
            u16::read_section(input, &mut self.next)?;
            self.lists.add(&mut self.next)?;
        }
        Ok(())
    }
}

impl<T: Field, const N: usize> Column<T, N> {
    // Puts the lists, each behind its count, behind their number, where they have room.
    pub(crate) fn append_exactly<S: Sink>(&self, out: &mut S)
        requires { N < 65536 }
        ensures { S.Sink.Takes out.old ((exactly (length (lists self.now)) (listed pair N T.Field.format)).put (lists self.now)) out.new }
    {
        u8::append_count(self.lists.len(), out);
        for list in self.lists.as_slice() {
            u16::append_section(list, out);
        }
    }

    // Puts the rows of all lists behind their number, where they have room.
    pub(crate) fn append_dealt<S: Sink>(&self, out: &mut S)
        requires { N ≤ 384 }
        ensures { S.Sink.Takes out.old ((dealt N (length (lists self.now)) T.Field.format).put (lists self.now)) out.new }
    {
        u16::append_count(self.total(), out);
        for (unit, list) in self.lists.as_slice().iter().enumerate() {
            append_run(unit, list.as_slice(), out);
        }
    }
}
