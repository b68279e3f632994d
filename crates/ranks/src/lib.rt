// Lots and calls numbered anew, by ranks by which the book is Monge, pairs missing or not: the numbers as they are, or ranks that are guessed. They are
// kept where the table of costs is Monge by them, its gaps filled with a number above any two costs. Else each lot and each call has its own number
// as its rank, and there are no ranks. The table that trials compare is filled for the one or the other.
#![tactic(auto)]

mod costs;

ghost use Rattle.std.specs.Prelude.{◌≡◌, ℕ, suc, ◌+◌, ◌<◌, ◌≤◌, true, false, length, slice_index};
ghost use Rattle.transport.proofs.Finder.Ranks.{Renames, Ranked};
ghost use Rattle.specification.specs.Costs.{cost_top};
ghost use Rattle.slacks.specs.Slacks.{by_slacks, Slacks};
ghost use Rattle.ranks.specs.Numbered.{Numbered, Plain, compared_of, Compared, Low, fits_by, AllFit};

use book::inner::entry_at;
use costs::Costs;
use slacks::{PAIRS, SIDE, SLACK_MOST};
use specification::{Call, Lot};

// A line is a lot or a call: line i is lot i, and line SIDE + j is call j.
pub const LINES: usize = 2 * SIDE;

// A number for each line.
pub type Lines = [u8; LINES];

// Lots and calls numbered by ranks: names has the lot of rank p at p and the call of rank q at SIDE + q, and ranks the rank of each line. Whether
// the book is Monge by the ranks; names and ranks are there in either case.
#[derive(Clone, Copy)]
pub struct Ranking {
    pub ranked: bool,
    pub names: Lines,
    pub ranks: Lines,
}

// The cost that a gap counts as, a pair that is not eligible: more than any two costs together.
pub const GAP_COST: u32 = 2 * SLACK_MOST;

// Whether the entry of x in a list leads, by another list, back to x.
fn leads_back(there: &[u8], back: &[u8], x: usize) -> bool
    requires { x < length there.now }
    ensures { result ≡ true → (slice_index there.now x < length back.now) × (slice_index back.now (slice_index there.now x) ≡ x) }
{
    let to = usize::from(there[x]);
    to < back.len() && usize::from(back[to]) == x
}

// Whether lots or calls are named anew: their names and their ranks lead back to each other.
fn renames(names: &[u8], ranks: &[u8]) -> bool
    requires { length ranks.now ≡ length names.now }
    ensures { result ≡ true → Renames (length names.now) (λ i. slice_index ranks.now i) (λ p. slice_index names.now p) }
{
    (0..names.len()).all(|x| leads_back(ranks, names, x) && leads_back(names, ranks, x))
}

// Whether a pair fits with a corner, another lot and another call, by their costs. A gap is dearer than two costs together, so none fits with it.
pub fn fits(costs: &[u32; PAIRS], lot: Lot, call: Call, other: Lot, corner: Call) -> bool
    requires { (lot.0 < 32) × (call.0 < 32) × (other.0 < 32) × (corner.0 < 32) × Low costs.now }
    ensures { result ≡ fits_by costs.now lot.0 call.0 other.0 corner.0 }
{
    entry_at(costs, lot, call) + entry_at(costs, other, corner)
        <= entry_at(costs, lot, corner) + entry_at(costs, other, call)
}

impl Ranking {
    // Whether lots and calls are named anew.
    fn is_numbered(&self, n: usize, m: usize) -> bool
        requires { (n ≤ 32) × (m ≤ 32) }
        ensures { result ≡ true → Numbered n m self.now.names self.now.ranks }
    {
        renames(&self.names[..n], &self.ranks[..n])
            && renames(&self.names[SIDE..SIDE + m], &self.ranks[SIDE..SIDE + m])
    }

    // Whether they are, and all neighbours by their ranks fit.
    fn passes(&self, costs: &Costs) -> bool
        ensures { result ≡ true → Numbered costs.now.lots costs.now.calls self.now.names self.now.ranks
            × AllFit costs.now.table.now self.now.names costs.now.lots costs.now.calls }
    {
        self.is_numbered(costs.lots, costs.calls) && costs.all_fit(&self.names)
    }
}

// Each lot and each call has its own number.
fn numbers() -> Lines
    ensures { (length result ≡ 64) × Plain result }
{
    let mut lines: Lines = [0; LINES];
    for (x, line) in lines.iter_mut().enumerate() {
        *line = (x % SIDE) as u8;
    }
    lines
}

// What trials compare of a pair with ranks, by its slack: its cost, or that of a gap.
fn cost_of(slack: u32) -> u32
    requires { slack ≤ suc cost_top }
    ensures { result ≡ compared_of true slack }
{
    if slack == 0 {
        GAP_COST
    } else {
        SLACK_MOST - slack
    }
}

// What they compare without ranks: its slack raised above all others, or 0.
fn raised(slack: u32) -> u32
    requires { slack ≤ suc cost_top }
    ensures { result ≡ compared_of false slack }
{
    if slack == 0 { 0 } else { slack + SLACK_MOST }
}

// The table of the one or of the other. Its entries are counted, since nothing is known of what is written through an `iter_mut` that is zipped.
fn fill<F: Fn(u32) -> u32>(of: F, slacks: &[u32; PAIRS], compared: &mut [u32; PAIRS])
    requires { (x : ℕ) → F.pre of (slice_index slacks.now x) }
    ensures { (x : ℕ) → x < 1024 → F.post of (slice_index slacks.now x) (slice_index compared.new x) }
{
    for (x, own) in compared.iter_mut().enumerate() {
        *own = of(slacks[x]);
    }
}

// Numbers the lots and the calls, of which `total` pairs are eligible. The table that trials compare is of the one kind or of the other. A book with more
// than `SIDE` gaps is not tried.
pub fn rank(
    slacks: &[u32; PAIRS],
    n: usize,
    m: usize,
    total: usize,
    compared: &mut [u32; PAIRS],
) -> Ranking
    requires { Slacks slacks.now n m × (total ≤ 1024) }
    ensures numbered { Numbered n m result.names result.ranks × Compared result.ranked slacks.now compared.new }
    ensures ranked { result.ranked ≡ true → Ranked (by_slacks slacks.now n m) (λ i. slice_index result.ranks i) (λ j. slice_index result.ranks (32 + j)) }
    ensures plain { result.ranked ≡ false → Plain result.ranks }
{
    let lines = numbers();
    let plain = Ranking {
        ranked: false,
        names: lines,
        ranks: lines,
    };
    if total + SIDE < n * m {
        fill(raised, slacks, compared);
        return plain;
    }
    fill(cost_of, slacks, compared);
    let costs = Costs {
        table: compared,
        lots: n,
        calls: m,
    };
    if costs.all_fit(&plain.names) {
        return Ranking {
            ranked: true,
            ..plain
        };
    }
    let guess = costs.guess();
    if guess.passes(&costs) {
        return guess;
    }
    fill(raised, slacks, compared);
    plain
}
