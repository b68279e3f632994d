// What ranks and the search for an order go by, a table of slacks: how far a pair's cost lies below one more than the limit, at `SIDE` times lot
// plus call, and 0 where the pair is not eligible. The search answers with the bytes of the pairs that it found.
#![tactic(auto)]

pub mod filling;

ghost use Rattle.std.specs.Prelude.{◌≡◌, ◌+◌, ◌*◌, ◌<◌, ◌≤◌, [], ◌∷◌, ◌++◌, length, take};

pub use book::inner::{PAIRS, SIDE};
use specification::{COST_LIMIT, Call, Lot};

// The slack of a cost of 0: one more than the limit, so that each eligible pair has some.
pub const SLACK_OF_ZERO: u32 = COST_LIMIT + 1;

// The highest slack, that of the lowest cost.
pub const SLACK_MOST: u32 = COST_LIMIT + SLACK_OF_ZERO;

// The pair becomes the next of the pairs, two bytes each, as an order's file has them.
pub fn put(pairs: &mut [u8], count: usize, lot: Lot, call: Call)
    requires { (lot.0 < 32) × (call.0 < 32) × (count < 1024) × (2048 ≤ length pairs.old) }
    ensures { take (2 * (count + 1)) pairs.new ≡ take (2 * count) pairs.old ++ (lot.0 ∷ call.0 ∷ []) }
{
    pairs[2 * count] = lot.0 as u8;
    pairs[2 * count + 1] = call.0 as u8;
}
