ghost use Rattle.std.specs.Prelude.{◌≡◌, ◌+◌, ◌≤◌, vec_len, vec_capacity};

use area::layout::LONGEST;
use bounded::Bounded;
use names::Name;

// A copy of a record, with its name.
#[derive(Drop)]
pub struct Copied {
    pub(crate) name: Name,
    pub(crate) content: Bounded<u8, LONGEST>,
}

// The copies, the latest first, and the memory of the places that are free; four places in all, reserved.
// Kept beside `bounded::Pool`, whose elements come in at the end and hand no memory on: here one comes to the front, and the oldest
// gives its memory.
#[derive(Drop)]
pub struct Copies {
    pub(crate) latest: Vec<Copied>,
    pub(crate) spare: Vec<Bounded<u8, LONGEST>>,
    ghost four: { vec_len latest + vec_len spare ≡ 4 },
    ghost room: { 4 ≤ vec_capacity latest },
    ghost beside: { 4 ≤ vec_capacity spare },
}
