// The pairs of an order by place: 9 and 10 at each, and the array of their places.
ghost use Rattle.std.specs.Prelude.{◌≡◌, [], ◌+◌, ◌*◌, ◌<◌, ltb, IfOk, set};
ghost use Rattle.transport.specs.Problem.{Eligible};
ghost use Rattle.specification.specs.Book.{problem_of};
ghost use Rattle.specification.specs.Check.{check_pairs};
ghost use Rattle.specification.specs.Reply.{told};
ghost use Rattle.book.specs.Table.{entry};
ghost use Rattle.walk.specs.Places.{rest};
ghost use Rattle.order.specs.Noted.{met_at, Shows};
ghost use Rattle.order.specs.Answers.{one_pair};

use super::pairs::Check;
use specification::{Call, Lot, Refusal};

impl<'a, 'o> Check<'a, 'o> {
    // One pair of an order, at a place: refused where it is not eligible or was met before, and else its place is noted, one more than it is.
    fn meet(&self, i: Lot, j: Call, place: usize, places: &mut [u16; 1024]) -> Result<(), Refusal>
        requires { place < 65535 }
        ensures says { told result ≡ one_pair (problem_of self.now.book.now.bytes.now) i.0 j.0 (ltb 0 (entry places.old i.0 j.0)) place }
        ensures eligible { IfOk result (λ _. Eligible (problem_of self.now.book.now.bytes.now) i.0 j.0) }
        ensures noted { IfOk result (λ _. places.new ≡ set places.old (32 * i.0 + j.0) (place + 1)) }
    {
        if !book::inner::eligible(self.offsets, self.book.counts, i, j) {
            return Err(Refusal::PairNotEligible(place));
        }
        let at = 32 * i.0 + j.0;
        if places[at] > 0 {
            return Err(Refusal::PairMetBefore(place));
        }
        places[at] = (place + 1) as u16;
        Ok(())
    }

    // The pairs of the order in turn by place, which a refusal tells, each as `meet` says; where none is refused, the array then holds each pair's place, one more than it is.
    pub fn fill_places(&self, places: &mut [u16; 1024]) -> Result<(), Refusal>
        requires { Shows 32 32 places.old (λ i j. 0) }
        ensures says { told result
            ≡ check_pairs (problem_of self.now.book.now.bytes.now) [] 0 (rest self.now.pairs.order.now self.now.pairs.count 0) }
        ensures shows { IfOk result (λ _. Shows 32 32 places.new (met_at self.now.pairs.order.now self.now.pairs.count)) }
    {
        for place in 0..self.pairs.count {
            let (i, j) = self.pairs.at(place);
            self.meet(i, j, place, places)?;
        }
        Ok(())
    }
}
