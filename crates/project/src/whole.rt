use crate::unit::Unit;
use bounded::Pool;

// A project: its units, and one more to fill before it takes its place among them.
#[derive(Drop)]
pub struct Project {
    pub(crate) units: Pool<Unit, 24>,
    pub(crate) next: Unit,
}
