use names::Name;

// What a name is declared as, with the number of that kind in a row.
#[derive(Clone, Copy, Debug, PartialEq, Eq)]
pub enum Kind {
    Constant = 1,
    Function = 2,
}

// What a line declares.
#[derive(Clone, Copy, Debug, PartialEq, Eq)]
pub struct Declared {
    pub kind: Kind,
    pub name: Name,
}

// A constant or a function: its name, its line, and where its expression stands among the tokens.
// Places and no slice: tokens and declarations lie in the reserved memory of one translator.
#[derive(Clone, Copy, Debug, PartialEq, Eq)]
pub struct Declaration {
    pub kind: Kind,
    pub name: Name,
    pub line: u16,
    pub start: usize,
    pub end: usize,
}
