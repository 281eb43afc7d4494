// The flags of a record; they add up.

// Of fields.
pub const REQUIRED: u32 = 1;

pub const OPTIONAL: u32 = 2;

// Of functions; the second where `throws` is written.
pub const ONEWAY: u32 = 4;

pub const THROWS: u32 = 8;

// Of a thrown field.
pub const THROWN: u32 = 16;
