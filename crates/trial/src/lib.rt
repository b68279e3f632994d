// Whether a pair that is left is free. By ranks two corners decide. Else the lots that still have its call are asked, each by one pass over all
// calls; lots that let it pass once do so for good, and are not asked again.
#![tactic(auto)]

mod table;

ghost use Rattle.std.specs.Prelude.{◌≡◌, ℕ, suc, ◌+◌, ◌*◌, ◌≤◌, ◌<◌, get_or};
ghost use Rattle.specification.specs.Costs.{cost_top};
ghost use Rattle.slacks.specs.Slacks.{Capped};
ghost use Rattle.ranks.specs.Numbered.{Low, fits_by};
ghost use Rattle.trial.specs.Testing.{Misfits};
ghost use Rattle.trial.specs.Left.{corners_tell, Trying, TrialOf, Passed};

use book::inner::entry_at;
use lines::Left;
use ranks::fits;
use slacks::{PAIRS, SIDE, SLACK_MOST};
use specification::{Call, Lot};
pub use table::Given;
use words::numbers::numbers_of;
use words::{below, minus, without};

// Whether a pair is hindered in the low half, and in the high half. Each is handed to its own half of the marks.
#[derive(Clone, Copy)]
pub struct Hindered {
    pub low: bool,
    pub high: bool,
}

// How a pair is hindered without ranks.
const IN_LOW: Hindered = Hindered {
    low: true,
    high: false,
};

// Whether the pair does not fit with the other lot at a call left to its own. All calls are tried, so that there is no branch. The other lot's slack at
// the pair's call is taken off that of the pair, which is the same at all calls, and signed numbers are compared, which a processor does with several
// at a time.
fn misfits(slacks: &[u32; PAIRS], raised: &[u32; PAIRS], lot: Lot, call: Call, other: Lot) -> bool
    requires { (lot.0 < 32) × (call.0 < 32) × (other.0 < 32) × Capped slacks.now × ((x : ℕ) → get_or raised.now x 0 ≤ 2 * suc cost_top) }
    ensures { Misfits slacks.now raised.now lot.0 call.0 other.0 32 result }
{
    let own = entry_at(slacks, lot, call) + SLACK_MOST - entry_at(slacks, other, call);
    let mut found = false;
    for l in 0..SIDE {
        found = (entry_at(slacks, other, Call(l)) + own).cast_signed()
            < entry_at(raised, lot, Call(l)).cast_signed()
            || found;
    }
    found
}

// By ranks, in which halves the pair is hindered: whether it does not fit with the last lot of its call at the first call of its lot, and with the
// first lot at the last call. Or nothing, where it fits at both corners.
fn try_corners(costs: &[u32; PAIRS], left: &Left, lot: Lot, call: Call) -> Option<Hindered>
    requires low { (lot.0 < 32) × (call.0 < 32) × Low costs.now }
    requires ends { (get_or left.now.nears lot.0 0 < 32) × (get_or left.now.fars lot.0 0 < 32)
        × (get_or left.now.nears (32 + call.0) 0 < 32) × (get_or left.now.fars (32 + call.0) 0 < 32) }
    ensures { result ≡ corners_tell (fits_by costs.now lot.0 call.0 (get_or left.now.fars (32 + call.0) 0) (get_or left.now.nears lot.0 0))
        (fits_by costs.now lot.0 call.0 (get_or left.now.nears (32 + call.0) 0) (get_or left.now.fars lot.0 0)) }
{
    let i = lot.0;
    let j = call.0;
    let first = usize::from(left.nears[i]);
    let last = usize::from(left.fars[i]);
    let top = usize::from(left.nears[SIDE + j]);
    let bottom = usize::from(left.fars[SIDE + j]);
    let low = !fits(costs, lot, call, Lot(bottom), Call(first));
    let high = !fits(costs, lot, call, Lot(top), Call(last));
    if !low && !high {
        return None;
    }
    Some(Hindered { low, high })
}

// How the pair, which is left, is hindered, or nothing where it is free. By ranks two corners tell. Else it is free where it is the last of its lot,
// or no lot hinders it. The other lots of its call are asked by rank, from the one on that hindered it before. A lot hinders it that is not eligible
// for a call left to its lot, or with which it does not fit at one.
pub fn try_pair(
    given: &Given,
    left: &Left,
    compared: &[u32; PAIRS],
    lot: Lot,
    call: Call,
    passed: &mut [u8; PAIRS],
) -> Option<Hindered>
    requires trying { Trying given.now left.now compared.now lot.0 call.0 }
    requires passed { Passed given.now left.now.lefts passed.old }
    ensures trial_of { TrialOf given.now left.now lot.0 call.0 result }
    ensures passed { Passed given.now left.now.lefts passed.new }
{
    let i = lot.0;
    let j = call.0;
    if given.ranking.ranked {
        return try_corners(compared, left, lot, call);
    }
    if without(left.lefts[i], j) == 0 {
        return None;
    }
    let others = without(left.lines[SIDE + j], usize::from(given.ranking.ranks[i]));
    let lots = minus(
        others,
        below(others, usize::from(passed[SIDE * i + j]) % SIDE),
    );
    for p in numbers_of(lots) {
        let k = usize::from(given.ranking.names[p]);
        if 0 < minus(left.lefts[i], given.eligible[k])
            || misfits(given.slacks, compared, lot, call, Lot(k))
        {
            passed[SIDE * i + j] = p as u8;
            return Some(IN_LOW);
        }
    }
    None
}
