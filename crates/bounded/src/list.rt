ghost use Rattle.std.specs.Prelude.{◌≤◌, vec_len, vec_capacity};

// At most N elements, in memory for N.
#[derive(Drop)]
pub struct Bounded<T, const N: usize> {
    pub(crate) items: Vec<T>,
    ghost room: { N ≤ vec_capacity items },
    ghost few: { vec_len items ≤ N },
}
