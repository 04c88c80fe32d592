use bounded::{Bounded, Pool};

// A list for each of some units, at most 24, in link order.
#[derive(Drop)]
pub struct Column<T, const N: usize> {
    pub(crate) lists: Pool<Bounded<T, N>, 24>,
    // what the next list is filled in
    pub(crate) next: Bounded<T, N>,
}
