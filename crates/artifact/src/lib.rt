// An artifact: a unit's source, the interfaces that it was translated against, and its product; and its writing as bytes.
// Reading takes any bytes and answers exactly what the format says; writing what was read gives the bytes again, and reading what was written the parts.
// Stores keep artifacts as bytes, and the build manager stands on the round trip.
#![tactic(auto)]

pub mod artifact;
pub mod fill;
pub mod read;
pub mod write;

pub use artifact::Artifact;
pub use write::longest;
