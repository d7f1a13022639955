//! The values of a literal in a search. They are numbers, so that one table has those of all literals.

/// It has no value yet.
pub const FREE: u32 = 0;

pub const TRUE: u32 = 1;

pub const FALSE: u32 = 2;
