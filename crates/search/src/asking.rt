// The pair to take next: of the lots that are to be asked, the lowest that has a free pair, and its lowest call.
ghost use Rattle.std.specs.Prelude.{◌≡◌, ◌<◌};
ghost use Rattle.search.specs.Marks.{Asked, Standing, Unchanged};
ghost use Rattle.search.specs.Steps.{FirstIs, NextIs};

use super::Search;
use slacks::PAIRS;
use specification::{Call, Lot};
use trial::{Given, try_pair};
use words::numbers::numbers_of;
use words::{either, minus, without};

impl Search {
    // The lowest call whose pair with the lot is free. Only pairs without a mark are tried, and each that is hindered is marked.
    fn first_call(&mut self, given: &Given, compared: &[u32; PAIRS], lot: Lot) -> Option<Call>
        requires lot { lot.0 < 32 }
        requires standing { Standing given.now self.old compared.now }
        ensures first_is { FirstIs given.now lot.0 self.old self.new result }
        ensures standing { Standing given.now self.new compared.now }
        ensures unchanged { Unchanged self.old self.new }
        ensures to_ask { self.new.to_ask ≡ self.old.to_ask }
    {
        let i = lot.0;
        let asks = minus(
            self.left.lefts[i],
            either(self.low.marks[i], self.high.marks[i]),
        );
        for j in numbers_of(asks) {
            let answer = try_pair(given, &self.left, compared, lot, Call(j), &mut self.passed);
            let Some(hindered) = answer else {
                return Some(Call(j));
            };
            self.low.mark(hindered.low, lot, Call(j));
            self.high.mark(hindered.high, lot, Call(j));
        }
        None
    }

    // The pair to take next; the lots that are not to be asked have none.
    pub fn next_pair(&mut self, given: &Given, compared: &[u32; PAIRS]) -> Option<(Lot, Call)>
        requires asked { Asked self.old.left.lefts self.old.low self.old.high self.old.to_ask }
        requires standing { Standing given.now self.old compared.now }
        ensures next_is { NextIs given.now self.new result }
        ensures standing { Standing given.now self.new compared.now }
        ensures unchanged { Unchanged self.old self.new }
    {
        for i in numbers_of(self.to_ask) {
            let first = self.first_call(given, compared, Lot(i));
            if let Some(call) = first {
                return Some((Lot(i), call));
            }
            self.to_ask = without(self.to_ask, i);
        }
        None
    }
}
