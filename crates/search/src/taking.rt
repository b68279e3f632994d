// A pair taken. What hinders pairs in the low half may be gone, in the row of its lot where the pair was the near end, and in the column of its
// call where it was the far end; in the high half, near and far are exchanged; without ranks, always. These marks are taken back, and the lots
// that have none left with the call are to be asked again.
ghost use Rattle.std.specs.Prelude.{◌≡◌, true, cond, ◌+◌, ◌*◌, ◌<◌, set};
ghost use Rattle.words.specs.Lefts.{is_left};
ghost use Rattle.lines.specs.Lines.{Lined, Ended};
ghost use Rattle.search.specs.Marks.{Waiting};
ghost use Rattle.search.specs.Steps.{Taken};

use super::Search;
use super::marks::Ends;
use slacks::{PAIRS, SIDE};
use specification::{Call, Lot};
use trial::Given;
use words::either;

// The raised slack of a pair that is taken becomes 0; with ranks there is none.
fn lower(ranked: bool, lot: Lot, call: Call, compared: &mut [u32; PAIRS])
    requires { (lot.0 < 32) × (call.0 < 32) }
    ensures { compared.new ≡ cond ranked compared.old (set compared.old (32 * lot.0 + call.0) 0) }
{
    if !ranked {
        compared[SIDE * lot.0 + call.0] = 0;
    }
}

impl Search {
    // The pair is taken, and lots are to be asked for it.
    pub fn take_pair(&mut self, given: &Given, lot: Lot, call: Call, compared: &mut [u32; PAIRS])
        requires lined { Lined given.now.ranking.now self.old.left × Ended given.now.ranking.now self.old.left }
        requires is_left { (lot.0 < 32) × (call.0 < 32) × (is_left self.old.left.lefts lot.0 call.0 ≡ true) }
        requires waiting { Waiting self.old.low × Waiting self.old.high }
        ensures { Taken given.now.ranking.now lot.0 call.0 self.old self.new compared.old compared.new }
    {
        let i = lot.0;
        let j = call.0;
        let low_ends = Ends {
            row: self.left.nears[i],
            column: self.left.fars[SIDE + j],
        };
        let high_ends = Ends {
            row: self.left.fars[i],
            column: self.left.nears[SIDE + j],
        };
        let ranked = given.ranking.ranked;
        self.left.lose(given.ranking, lot, call);
        lower(ranked, lot, call, compared);
        self.taken[SIDE * i + j] = 1;
        let in_low = self
            .low
            .unmark(ranked, low_ends, lot, call, &self.taken, &self.high);
        let in_high = self
            .high
            .unmark(ranked, high_ends, lot, call, &self.taken, &self.low);
        self.to_ask = either(self.to_ask, either(in_low, in_high));
    }
}
