// What a translator owes, and two parts of the answer: the house sameness of interfaces, and echo, a translator to try things with.
// A translator means a function from a source and the interfaces of its imports to a product or a fault, a sameness of interfaces,
// and a count of translations asked. Its laws are part of the trait, so that what stands above is proved once for every translator.
#![tactic(auto)]

pub mod contract;
pub mod echo;
pub mod house;
pub mod limits;

pub use contract::Translator;
pub use echo::Echo;
pub use house::same_rows;
pub use limits::{admit, admits};
