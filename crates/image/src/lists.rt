// The lists of all units, unit by unit.
ghost use Rattle.std.specs.Prelude.{◌≡◌, ◌<◌, ◌≤◌, ◌&&◌, [], ◌∷◌, ◌++◌, length, is_ok, if◌then◌else◌, nat_le, nat_lt, slice_index_or};
ghost use Rattle.bounded.specs.Held.{used};
ghost use Rattle.image.specs.Dealt.{lists, flat};

use crate::column::Column;
use bounded::Full;

impl<T, const N: usize> Column<T, N> {
    // The list of a unit, where it has one.
    pub(crate) fn get(&self, unit: usize) -> &[T]
        ensures { result.now ≡ slice_index_or (lists self.now) unit [] }
    {
        // kept as a match: a closure over any T is known by an `ensures` of its own only, which is no plainer
        match self.lists.as_slice().get(unit) {
            Some(list) => list.as_slice(),
            None => &[],
        }
    }

    // How many elements stand in all lists.
    pub(crate) fn total(&self) -> usize
        requires { N ≤ 384 }
        ensures value { result ≡ length (flat (lists self.now)) }
        ensures few { result ≤ 9216 }
    {
        // kept as a loop: over any T the closure of a `map` before `sum` needs an `ensures` of its own, which is no plainer
        let mut sum = 0;
        for list in self.lists.as_slice() {
            sum += list.len();
        }
        sum
    }
}

impl<T: Copy, const N: usize> Column<T, N> {
    // One list more; refused, and nothing done, where 24 stand or it is over its limit.
    pub(crate) fn add(&mut self, list: &[T]) -> Result<(), Full>
        ensures fits { is_ok result ≡ (nat_le (length list.now) N && nat_lt (length (used self.old.lists)) 24) }
        ensures after { lists self.new ≡ (if is_ok result then lists self.old ++ list.now ∷ [] else lists self.old) }
    {
        self.next.clear();
        self.next.extend(list)?;
        self.lists.add(&mut self.next)
    }
}
