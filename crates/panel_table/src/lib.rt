// The ticket panel's table of slacks, for at most 8 lots and 8 calls, and the words that its search goes by: for each lot and each other the calls at
// which the gap between them is least.
#![tactic(auto)]

pub mod filling;
pub mod gaps;

// How many lots, and how many calls, there is room for. A width of its own: one search for 32 and for 8 was much slower (docs/DECISIONS.md, 64).
pub const SIDE: usize = 8;

// How many pairs.
pub const PAIRS: usize = SIDE * SIDE;
