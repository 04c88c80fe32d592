// So many elements, one behind the other.
ghost use Rattle.std.specs.Prelude.{◌≡◌, nat_lt};
ghost use Rattle.std.specs.List.{list_all};
ghost use Rattle.bounded.specs.Held.{held};
ghost use Rattle.codec.specs.Format.{left, filled, many_within, each};

use crate::field::Field;
use crate::input::Input;
use crate::malformed::Malformed;
use crate::sink::Sink;
use bounded::Bounded;

// Reads so many elements into a list, in place of what it holds; nothing is read where they would pass its limit.
pub(crate) fn read_list<T: Field + Drop, const N: usize>(
    input: &mut Input<'_>,
    count: usize,
    into: &mut Bounded<T, N>,
) -> Result<(), Malformed>
    ensures { filled result (held into.new) (left input.new) ≡ many_within N count T.Field.format.get (left input.old) }
{
    into.clear();
    Malformed::unless(count <= N)?;
    for _ in 0..count {
        let x = T::read(input)?;
        into.push(x)?;
    }
    Ok(())
}

// Puts elements, one behind the other, where they have room.
pub(crate) fn append_list<T: Field, S: Sink>(xs: &[T], out: &mut S)
    ensures { S.Sink.Takes out.old (each T.Field.format.put xs.now) out.new }
{
    for x in xs {
        x.append(out);
    }
}

// Whether each place is below a limit.
pub fn all_below(places: &[u16], limit: usize) -> bool
    ensures { result ≡ list_all (λ p. nat_lt p limit) places.now }
{
    places.iter().all(|p| usize::from(*p) < limit)
}
