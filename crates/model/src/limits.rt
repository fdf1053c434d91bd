// The limits of documents 01 and 02, as specs/Limits.antt has them, and the sizes that follow from them.

// "Limits: 128 nodes, 4,000 segment bits in all, 4 targets, 16,384 bytes of text."
pub const MAX_NODES: usize = 128;

pub const MAX_BITS: usize = 4000;

pub const MAX_TARGETS: usize = 4;

pub const MAX_NETWORK_BYTES: usize = 16384;

// document 02, Change 4: "LEN may be 64, and 65 is refused"
pub const MAX_LEN: usize = 64;

// "Plans: 16 operations, 64,080 bytes."; a line is `csu`, a tab, at most 4,000 bits and byte 10: 16 × 4,005.
pub const MAX_OPERATIONS: usize = 16;

pub const MAX_PLAN_BYTES: usize = MAX_OPERATIONS * (MAX_BITS + 5);

// "Planner: 6 distinct steering bits."
pub const MAX_STEERING_BITS: usize = 6;

// Settings of the steering bits, each 0, 1 or unknown: 3 to the power of 6.
pub const MAX_SETTINGS: usize = 729;

// "11,664 search entries": one for each setting after each count of operations.
pub const SEARCH_SIZE: usize = MAX_OPERATIONS * MAX_SETTINGS;
