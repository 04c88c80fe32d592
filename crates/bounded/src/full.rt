// What a list answers that has no room.
use std::error::Error;
use std::fmt;

// As many elements stand as the list takes.
#[derive(Clone, Copy, Debug, PartialEq, Eq)]
pub struct Full;

impl fmt::Display for Full {
    fn fmt<W: fmt::Write>(&self, f: &mut fmt::Formatter<W>) -> fmt::Result {
        f.write_str("the list is full")
    }
}

impl Error for Full {}
