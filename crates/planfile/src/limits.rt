// How much a plan file may hold.

// The most bytes that a file may have to be looked at.
pub const MOST_BYTES: usize = 32_768;

// The most plan records of each sort, and the most closures.
pub const MOST_CHANNELS: usize = 8;

pub const MOST_ROWS: usize = 1_024;

pub const MOST_NODES: usize = 2_048;

pub const MOST_CLOSURES: usize = 64;
