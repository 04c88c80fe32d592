use names::Name;
use std::fmt;

// One declaration as others see it: its name, kind and value, and the line that it stands on.
// A kind is a number, since each language has kinds of its own and an artifact keeps any byte.
#[derive(Clone, Copy, Debug, PartialEq, Eq)]
pub struct Row {
    pub name: Name,
    pub kind: u8,
    pub value: i32,
    pub line: u16,
}

// A call of an entry: the position of an import, counted from 1, or 0 for the unit itself, and the number of the entry there.
#[derive(Clone, Copy, Debug, PartialEq, Eq)]
pub struct Reference {
    pub position: u8,
    pub entry: u8,
}

impl fmt::Display for Row {
    fn fmt<W: fmt::Write>(&self, f: &mut fmt::Formatter<W>) -> fmt::Result {
        write!(
            f,
            "{} {} {} {}",
            self.name, self.kind, self.value, self.line
        )
    }
}

impl fmt::Display for Reference {
    fn fmt<W: fmt::Write>(&self, f: &mut fmt::Formatter<W>) -> fmt::Result {
        write!(f, "{} {}", self.position, self.entry)
    }
}
