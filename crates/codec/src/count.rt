// A section: a count, which is a number of one byte or of two, and so many elements.
ghost use Rattle.std.specs.Prelude.{◌≡◌, ◌<◌, ℕ};
ghost use Rattle.bounded.specs.Held.{held};
ghost use Rattle.codec.specs.Format.{Format, left, read_as, filled, listed, byte, pair};

use crate::field::Field;
use crate::input::Input;
use crate::malformed::Malformed;
use crate::section::{append_list, read_list};
use crate::sink::Sink;
use bounded::Bounded;

pub trait Count {
    // how a count stands in bytes
    ghost format: { Format ℕ };
    // the first number that is too high for a count
    ghost limit: { ℕ };

    // The count that stands first in what is left.
    fn read_count(input: &mut Input<'_>) -> Result<usize, Malformed>
        ensures { read_as result (left input.new) ≡ format.get (left input.old) };

    // A number as a count, where it is not too high and has room.
    fn append_count<S: Sink>(n: usize, out: &mut S)
        ensures { n < limit → S.Takes out.old (format.put n) out.new };

    // Reads a section into a list, in place of what it holds.
    final fn read_section<T: Field + Drop, const N: usize>(
        input: &mut Input<'_>,
        into: &mut Bounded<T, N>,
    ) -> Result<(), Malformed>
        ensures { filled result (held into.new) (left input.new) ≡ (listed format N T.Field.format).get (left input.old) }
    {
        let count = Self::read_count(input)?;
        read_list(input, count, into)
    }

    // Puts a section, where it has room.
    final fn append_section<T: Field, S: Sink, const N: usize>(xs: &Bounded<T, N>, out: &mut S)
        ensures { N < limit → S.Sink.Takes out.old ((listed format N T.Field.format).put (held xs.now)) out.new }
    {
        Self::append_count(xs.len(), out);
        append_list(xs.as_slice(), out);
    }
}

// Kept as two impls with like bodies: for any type `try_from` promises nothing by itself, and laws that tie it to `limit` and `format`
// would be no plainer.
impl Count for u8 {
    ghost format = { byte };

    ghost limit = { 256 };

    fn read_count(input: &mut Input<'_>) -> Result<usize, Malformed> {
        Ok(usize::from(u8::read(input)?))
    }

    fn append_count<S: Sink>(n: usize, out: &mut S) {
        if let Ok(count) = u8::try_from(n) {
            count.append(out);
        }
    }
}

impl Count for u16 {
    ghost format = { pair };

    ghost limit = { 65536 };

    fn read_count(input: &mut Input<'_>) -> Result<usize, Malformed> {
        Ok(usize::from(u16::read(input)?))
    }

    fn append_count<S: Sink>(n: usize, out: &mut S) {
        if let Ok(count) = u16::try_from(n) {
            count.append(out);
        }
    }
}
