use names::Name;

// A constant and its value.
#[derive(Clone, Copy, Debug, PartialEq, Eq)]
pub struct Known {
    pub name: Name,
    pub value: i32,
}
