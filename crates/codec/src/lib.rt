// How the parts of files are read and written: numbers with the highest byte first, and sections of a count and so many elements.
// One trait says for each kind of element how it stands in bytes, one for each kind of count, and one for what bytes are put into;
// the section's reader and writer serve them all.
#![tactic(auto)]

pub mod buffer;
pub mod count;
pub mod elements;
pub mod field;
pub mod input;
pub mod list;
pub mod malformed;
pub mod section;
pub mod sink;

pub use buffer::Buffer;
pub use count::Count;
pub use field::Field;
pub use input::Input;
pub use malformed::Malformed;
pub use section::all_below;
pub use sink::Sink;
