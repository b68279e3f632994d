// The first quadruple of a pair that fails: 11 and 12.
ghost use Rattle.std.specs.Prelude.{◌≡◌, ℕ, ◌<◌};
ghost use Rattle.transport.specs.Problem.{Eligible};
ghost use Rattle.transport.specs.Greedy.{pair};
ghost use Rattle.specification.specs.Reply.{told};
ghost use Rattle.specification.specs.Book.{problem_of};
ghost use Rattle.specification.specs.Check.{in_turn};
ghost use Rattle.book.specs.Pairs.{offset_table};
ghost use Rattle.book.specs.Table.{entry};
ghost use Rattle.quadruples.specs.Scan.{call_at, quadruple_at};

use super::test_quadruple;
use book::Book;
use book::inner::entry_at;
use specification::{Call, Lot, Quadruple, Refusal};

// An eligible pair, which stands at a place, and what its scan reads: only eligible pairs have a place.
#[derive(Clone, Copy)]
pub struct Scan<'a> {
    pub book: &'a Book<'a>,
    pub offsets: &'a [u16; 1024],
    pub places: &'a [u16; 1024],
    pub place: usize,
    pub lot: Lot,
    pub call: Call,
    ghost tabled: { offsets.now ≡ offset_table book.now.bytes.now },
    ghost placed: { (k l : ℕ) → k < 32 → l < 32 → 0 < entry places.now k l → Eligible (problem_of book.now.bytes.now) k l },
    ghost few_pairs: { place < 65535 },
    ghost own: { Eligible (problem_of book.now.bytes.now) lot.0 call.0 },
}

impl<'a> Scan<'a> {
    // The quadruple with lot k and call l, tested where (i, l) stands later.
    fn call_failure(&self, k: Lot, l: Call) -> Result<(), Refusal>
        requires lot_in { Eligible (problem_of self.now.book.now.bytes.now) k.0 self.now.call.0 }
        requires call_in { l.0 < self.now.book.now.counts.calls }
        ensures { told result
            ≡ call_at (problem_of self.now.book.now.bytes.now) self.now.places.now self.now.place (pair self.now.lot.0 self.now.call.0) k.0 l.0 }
    {
        let i = self.lot;
        let j = self.call;
        if usize::from(entry_at(self.places, i, l)) <= self.place + 1 {
            return Ok(());
        }
        match test_quadruple(self.book.bytes, self.offsets, i, j, k, l) {
            Quadruple::Holds => Ok(()),
            Quadruple::NotEligible => Err(Refusal::CrossNotEligible(i, j, k, l)),
            Quadruple::TooHigh => Err(Refusal::CrossSumTooHigh(i, j, k, l)),
        }
    }

    // The quadruples with lot k, by call rising; where (k, j) does not stand later none is tested.
    fn lot_failure(&self, k: Lot) -> Result<(), Refusal>
        requires { k.0 < self.now.book.now.counts.lots }
        ensures { told result ≡ in_turn self.now.book.now.counts.calls 0
            (quadruple_at (problem_of self.now.book.now.bytes.now) self.now.places.now self.now.place (pair self.now.lot.0 self.now.call.0) k.0) }
    {
        if usize::from(entry_at(self.places, k, self.call)) <= self.place + 1 {
            return Ok(());
        }
        for l in 0..self.book.counts.calls {
            self.call_failure(k, Call(l))?;
        }
        Ok(())
    }

    // The quadruples of the pair, by lot rising.
    pub fn pair_failure(&self) -> Result<(), Refusal>
        ensures { told result ≡ in_turn self.now.book.now.counts.lots 0 (λ k. in_turn self.now.book.now.counts.calls 0
            (quadruple_at (problem_of self.now.book.now.bytes.now) self.now.places.now self.now.place (pair self.now.lot.0 self.now.call.0) k)) }
    {
        for k in 0..self.book.counts.lots {
            self.lot_failure(Lot(k))?;
        }
        Ok(())
    }
}
