ghost use Rattle.std.specs.Prelude.{◌≡◌, ◌+◌, ◌≤◌, vec_len, vec_capacity};

// At most N elements, each with memory of its own: the first in use, the others spare.
#[derive(Drop)]
pub struct Pool<T, const N: usize> {
    pub(crate) used: Vec<T>,
    pub(crate) spare: Vec<T>,
    ghost all: { vec_len used + vec_len spare ≡ N },
    ghost room: { N ≤ vec_capacity used },
    ghost beside: { N ≤ vec_capacity spare },
}
