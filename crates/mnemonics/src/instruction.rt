// One instruction of formula code.
#[derive(Clone, Copy, Debug, PartialEq, Eq)]
pub enum Instruction {
    // a value onto the stack
    Push(i32),
    // the function's argument onto the stack
    Argument,
    // two values from the stack, their result onto it
    Add,
    Subtract,
    Multiply,
    Divide,
    Less,
    Equal,
    // the call of a reference by its number
    Call(u8),
    // the end of a function
    Return,
}
