// Lists of at most N elements whose memory is reserved when they are opened: no later call can want memory.
#![tactic(auto)]

pub mod full;
pub mod list;
pub mod methods;
pub mod pool;
pub mod turns;

pub use full::Full;
pub use list::Bounded;
pub use pool::Pool;
