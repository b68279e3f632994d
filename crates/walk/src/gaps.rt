// The least gaps of each call over each other, lowered to those at one lot after another. An answer is a word: the calls over which the lot's
// gap is the least.
ghost use Rattle.std.specs.Prelude.{◌≡◌, ◌+◌, ◌*◌, ◌<◌, ◌≤◌, ltb, replicate};
ghost use Rattle.specification.specs.Book.{bit};
ghost use Rattle.book.specs.Table.{entry};
ghost use Rattle.walk.specs.Gaps.{gap_top, gap_over, Capped, CanLowerRow, CanLowerSet, GapLowered, Lowered};
ghost use Rattle.walk.specs.Walk.{CanEnter, PairEntered};

use super::costs::{Costs, RAISE};
use book::inner::{cost_of, entry_at};
use signed::is_below;
use specification::{COST_LIMIT, Call, Lot};
use words::numbers::numbers_of;

// The highest gap: of a cost at the limit over one as far below zero.
const GAP_TOP: u32 = 2 * COST_LIMIT + RAISE;

// By call, a row of 32 calls: the least gaps of the first over the second.
#[derive(Drop)]
pub struct Gaps {
    least: [u32; 1024],
    ghost capped: { Capped least },
}

impl Gaps {
    // Zeros, which `raise` turns into the highest gaps where they stand.
    pub fn new() -> Self {
        Gaps { least: [0; 1024] }
    }

    // Before any is lowered: all are the highest. A step of its own, so that the array is filled where it stands.
    pub fn raise(&mut self)
        ensures { self.new.least ≡ replicate 1024 gap_top }
    {
        self.least.fill(GAP_TOP);
    }

    // Lowers the least gap of call j over call l to one at a lot. The answer is 0 where it was lower already, and else the word of call l: answers are or-ed
    // together without a branch.
    fn lower(&mut self, j: Call, l: Call, gap: u32, single: u32) -> u32
        requires { (j.0 < 32) × (l.0 < 32) × (gap ≤ gap_top) }
        ensures { GapLowered single j.0 l.0 gap self.old.least result self.new.least }
    {
        let k = 32 * j.0 + l.0;
        let old = self.least[k];
        let over = is_below(old, gap);
        self.least[k] = if over { old } else { gap };
        if over { 0 } else { single }
    }

    // The same over each call, for a lot whose costs stand side by side from `start` on and which has for call j the cost `own`.
    fn lower_row(&mut self, costs: &Costs, own: u32, start: usize, j: Call) -> u32
        requires { CanLowerRow costs.now.book.now own start costs.now.calls j.0 }
        ensures { Lowered (λ l. gap_over costs.now.book.now own (start + 4 * l)) (λ l. ltb l costs.now.calls) j.0 self.old.least result
            self.new.least }
    {
        let mut fits = 0;
        for (l, single) in costs.singles[..costs.calls].iter().enumerate() {
            fits |= self.lower(j, Call(l), costs.gap(own, start + 4 * l), *single);
        }
        fits
    }

    // The same over each call of a word, for lot i: its costs may stand anywhere, so this is no straight pass.
    fn lower_set(&mut self, costs: &Costs, own: u32, word: u32, i: Lot, j: Call) -> u32
        requires { CanLowerSet costs.now.offsets.now own word i.0 j.0 }
        ensures { Lowered (λ l. gap_over costs.now.book.now own (entry costs.now.offsets.now i.0 l)) (bit word) j.0 self.old.least result
            self.new.least }
    {
        let mut fits = 0;
        for l in numbers_of(word) {
            let at = usize::from(entry_at(costs.offsets, i, Call(l)));
            fits |= self.lower(j, Call(l), costs.gap(own, at), 1 << l);
        }
        fits
    }

    // The turn of the pair (i, j): the least gaps of call j over the calls of its word, with which lot i is eligible, are lowered to those at
    // lot i. The calls of the word over which they are the least.
    pub fn enter(&mut self, costs: &Costs, i: Lot, j: Call, word: u32) -> u32
        requires { CanEnter costs.now.offsets.now costs.now.calls i.0 j.0 word }
        ensures { PairEntered costs.now.book.now costs.now.offsets.now costs.now.calls i.0 j.0 word self.old.least result self.new.least }
    {
        let own = cost_of(costs.book, costs.offsets, i, j);
        match costs.start_of(i) {
            Some(start) => word & self.lower_row(costs, own, start, j),
            None => self.lower_set(costs, own, word, i, j),
        }
    }
}
