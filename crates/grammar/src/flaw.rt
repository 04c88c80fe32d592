// What may be wrong with a formula source.
ghost use Rattle.std.specs.Prelude.{◌≡◌};
ghost use Rattle.grammar.specs.Flaws.{number, at};

use names::Fault;

// The flaws, each with its number.
#[derive(Clone, Copy, Debug, PartialEq, Eq)]
pub enum Flaw {
    // the first line is not the word formula
    Opening = 1,
    // a word has no form
    Formless = 2,
    // the line is no declaration
    NoDeclaration = 3,
    // the name is reserved, or declared above
    IllNamed = 4,
    // a used name is unknown, or of no use where it stands
    IllUsed = 5,
    // a constant has no value within 32 bits
    NoValue = 7,
    // constants need each other in a circle
    Circle = 8,
    // more stands there than fits
    TooMuch = 9,
}

impl Flaw {
    // The fault that the flaw is at a line, or at line 0 for the whole source.
    pub fn at(self, line: u16) -> Fault
        ensures { result ≡ at self line }
    {
        Fault {
            // the discriminant of a flaw is its number in a fault
            code: self as u8,
            line,
        }
    }
}
