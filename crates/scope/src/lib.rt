// The names of a formula unit: which may be declared, and whether each that is used is known and of use where it stands.
// Values and code stand on it.
#![tactic(auto)]

pub mod declared;
pub mod imported;
pub mod unit;
pub mod used;

pub use declared::{check_names, entry_of, is_constant};
pub use imported::{constant_at, function_at};
pub use unit::Unit;
