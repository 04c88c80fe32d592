// A call of a store as a value, and what it answers where it is not refused.
use names::Name;

#[derive(Drop)]
pub enum Call {
    Put { name: Name, bytes: Vec<u8> },
    Get { name: Name },
    Drop { name: Name },
}

#[derive(Clone, Copy, Debug, PartialEq, Eq)]
pub enum Answer {
    // carried out
    Done,
    // the name has no record
    Nothing,
    // the record's length; its bytes are in the buffer
    Found(usize),
}
