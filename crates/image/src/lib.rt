// An image: the linked units in link order, and its writing as bytes.
// Reading takes any bytes and answers exactly what the format says; reading what was written gives the units, and writing what was read the bytes.
#![tactic(auto)]

pub mod check;
pub mod column;
pub mod fields;
pub mod fill;
pub mod image;
pub mod lists;
pub mod read;
pub mod rows;
pub mod sections;
pub mod target;
pub mod write;

pub use image::Image;
pub use target::Target;
pub use write::longest;
