// Least gaps. The gap of a lot over another at a call is the difference of their costs there, raised by the highest slack so that it is above 0,
// and 0 where the other is not eligible for the call. For each lot and each other, a word has the calls left to the lot at which the gap is
// least. The calls left are passed once. At each, the numbers of all lots are worked out alike, with no test that leads elsewhere, so that a
// processor does several at a time.
ghost use Rattle.std.specs.Prelude.{◌≡◌, suc, ◌≤◌, ◌<◌, min};
ghost use Rattle.specification.specs.Costs.{cost_top};
ghost use Rattle.panel_table.specs.Gaps.{gap_out, gap_by, LowRow, WithCall, Joined, LeastRow, Renewed};

use super::filling::Table;
use super::{PAIRS, SIDE};
use signed::is_below;
use slacks::SLACK_MOST;
use specification::{Call, Lot};
use words::numbers::numbers_of;
use words::{below, including_if};

// Above all gaps.
const GAP_OUT: u32 = 2 * SLACK_MOST + 1;

// The lesser of two numbers, compared as signed ones, as `is_below` does.
fn lesser(a: u32, b: u32) -> u32
    requires { (a ≤ gap_out) × (b ≤ gap_out) }
    ensures { result ≡ min a b }
{
    a.cast_signed().min(b.cast_signed()).cast_unsigned()
}

// The gap by the slacks of the lot and of the other.
fn gap(own: u32, other: u32) -> u32
    requires { (own ≤ suc cost_top) × (other ≤ suc cost_top) }
    ensures { (result ≡ gap_by own other) × (result < gap_out) }
{
    if other == 0 {
        0
    } else {
        SLACK_MOST - own + other
    }
}

// Of the calls in the word, at which the gap is `low`, and of that of bit l, at which it is `new`, those at which it is the lesser of the two.
fn with_call(word: u32, low: u32, new: u32, l: usize) -> u32
    requires { (low ≤ gap_out) × (new < gap_out) × (l < 32) }
    ensures { WithCall word low new l result }
{
    let others = if is_below(new, low) { 0 } else { word };
    including_if(!is_below(low, new), others, l)
}

// Of a lot over each, the least gap at the calls that have joined, and the word of the calls at which it is reached.
#[derive(Clone, Copy)]
struct Least {
    gaps: [u32; SIDE],
    words: [u32; SIDE],
}

impl Least {
    // One call more joins.
    fn join(&mut self, table: &Table, lot: Lot, call: Call)
        requires { (lot.0 < 8) × (call.0 < 8) × LowRow self.old.gaps }
        ensures { Joined table.now.slacks lot.0 call.0 8 self.old.gaps self.old.words self.new.gaps self.new.words }
    {
        let own = table.slack_at(lot, call);
        for k in 0..SIDE {
            let new = gap(own, table.slack_at(Lot(k), call));
            self.words[k] = with_call(self.words[k], self.gaps[k], new, call.0);
            self.gaps[k] = lesser(self.gaps[k], new);
        }
    }
}

// For each lot, the calls in the word at which the gap over it is least.
fn least_row(table: &Table, lot: Lot, left: u32) -> [u32; SIDE]
    requires { lot.0 < 8 }
    ensures { LeastRow table.now.slacks left lot.0 result }
{
    let mut least = Least {
        gaps: [GAP_OUT; SIDE],
        words: [0; SIDE],
    };
    for l in numbers_of(below(left, SIDE)) {
        least.join(table, lot, Call(l));
    }
    least.words
}

// The lot's row of words, by the calls left to it.
pub fn renew(table: &Table, lot: Lot, left: u32, least: &mut [u32; PAIRS])
    requires { lot.0 < 8 }
    ensures { Renewed table.now.slacks lot.0 left 8 least.old least.new }
{
    let first = SIDE * lot.0;
    let words = least_row(table, lot, left);
    least[first..first + SIDE].copy_from_slice(&words);
}
