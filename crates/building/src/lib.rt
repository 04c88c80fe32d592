// A build: the products of the units built so far, what a unit would be stored as, and whether a stored artifact is current.
// A workshop goes unit by unit through these.
#![tactic(auto)]

pub mod course;
pub mod desk;
pub mod done;
pub mod make;
pub mod mark;
pub mod step;
pub mod stop;
pub mod table;
pub mod unit;
pub mod workshop;

pub use desk::{Desk, Stale};
pub use mark::Mark;
pub use stop::Stop;
pub use table::{Done, Finished};
pub use workshop::{Halt, Workshop};
