use names::Name;

// What may stand first in parentheses with two operands.
#[derive(Clone, Copy, Debug, PartialEq, Eq)]
pub enum Operator {
    Add,
    Subtract,
    Multiply,
    Divide,
    Less,
    Equal,
}

#[derive(Clone, Copy, Debug, PartialEq, Eq)]
pub enum Token {
    Open,
    Close,
    Operator(Operator),
    Name(Name),
    // a name of the import at that position, counted from 1
    Word { position: u8, name: Name },
    Number(i32),
    // a word that is none of these
    NoForm,
    // the end of a line
    LineEnd,
}
