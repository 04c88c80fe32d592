// The numbers of the layout.

// The bytes ahead of a record: a mark, the eight bytes of the name and two of the length.
pub const HEADER: usize = 11;

// Where the name begins in the header, behind the mark.
pub const NAME_AT: usize = 1;

// Where the length begins in the header, behind the name.
pub const LENGTH_AT: usize = 9;

// The longest record.
pub const LONGEST: usize = 1896;

// The longest record with its header.
pub const SLOT: usize = HEADER + LONGEST;

// The most rows of a store.
pub const ROWS: usize = 24;

// The mark of a record that is held.
pub const LIVE: u8 = 1;

// The mark of a record that is no longer held.
pub const DEAD: u8 = 0;
