// What a translation gives: an interface of named rows, and a product of interface, code, entries and references.
// Every list has a limit, is reserved when it is opened, and is cleared and refilled in place.
#![tactic(auto)]

pub mod interface;
pub mod parts;
pub mod row;

pub use interface::Interface;
pub use parts::Product;
pub use row::{Reference, Row};
