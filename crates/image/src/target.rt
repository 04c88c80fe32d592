// Where a reference goes: the position of a unit in link order, from 0, and the number of an entry there.
#[derive(Clone, Copy, Debug, PartialEq, Eq)]
pub struct Target {
    pub unit: u8,
    pub entry: u8,
}
