// The layout of an LTK file, version 1. Named here alone.
pub const VERSION: u64 = 1;

pub const VERSION_PLACE: usize = 3;

pub const COUNT_PLACE: usize = 5;

pub const HEADER_SIZE: usize = 9;

pub const RECORD_SIZE: usize = 9;

// Where a record's start and end stand in it, after its kind.
pub const START_PLACE: usize = 1;

pub const END_PLACE: usize = 5;

pub const LAST_KIND: u64 = 53;

// A count is below this.
pub const COUNT_LIMIT: usize = 4294967296;
