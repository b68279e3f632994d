// The check of an order's pairs: 9 and 10 at each, then 14, then 11 or 12.
ghost use Rattle.std.specs.Prelude.{◌≡◌, ℕ, ◌<◌, ◌≤◌, get_or};
ghost use Rattle.transport.specs.Order.{OrderOf};
ghost use Rattle.specification.specs.Book.{row_start, problem_of};
ghost use Rattle.specification.specs.Check.{check_monge};
ghost use Rattle.specification.specs.Reply.{told, told_as};
ghost use Rattle.book.specs.Pairs.{offset_table};
ghost use Rattle.walk.specs.Places.{rest};
ghost use Rattle.order.specs.Noted.{met_at, Shows};
ghost use Rattle.order.specs.Answers.{checked_pairs};

use book::Book;
use quadruples::scan::Scan;
use specification::Refusal;
use walk::places::Pairs;

// A book that was read, where it holds each pair's cost and where its rows start; and the pairs of an order file.
#[derive(Clone, Copy)]
pub struct Check<'a, 'o> {
    pub book: &'a Book<'a>,
    pub offsets: &'a [u16; 1024],
    pub starts: &'a [usize; 32],
    pub pairs: Pairs<'o>,
    ghost few_pairs: { pairs.count ≤ 65535 },
    ghost tabled: { offsets.now ≡ offset_table book.now.bytes.now },
    ghost rows: { (i : ℕ) → i < book.now.counts.lots → get_or starts.now i 0 ≡ row_start book.now.bytes.now i },
}

impl<'a, 'o> Check<'a, 'o> {
    // Whether an order of eligible pairs is a Monge sequence: the walk finds no place that fails, or the scan of the lowest names the failure.
    fn settle(&self, places: &[u16; 1024]) -> Result<(), Refusal>
        requires each_once { OrderOf (problem_of self.now.book.now.bytes.now) (rest self.now.pairs.order.now self.now.pairs.count 0) }
        requires shows { Shows 32 32 places.now (met_at self.now.pairs.order.now self.now.pairs.count) }
        ensures { told result ≡ check_monge (problem_of self.now.book.now.bytes.now) (rest self.now.pairs.order.now self.now.pairs.count 0) }
    {
        let Some(place) = walk::walk(
            self.book.bytes,
            self.offsets,
            self.starts,
            self.book.counts.calls,
            &self.pairs,
        ) else {
            return Ok(());
        };
        let (lot, call) = self.pairs.at(place);
        let scan = Scan {
            book: self.book,
            offsets: self.offsets,
            places,
            place,
            lot,
            call,
        };
        scan.pair_failure()
    }

    // The check of the pairs: 9 or 10 at each, 14, and 11 or 12.
    pub fn check_pairs(&self) -> Result<(), Refusal>
        ensures { told_as (λ _. self.now.pairs.count) result ≡ checked_pairs (problem_of self.now.book.now.bytes.now)
            (rest self.now.pairs.order.now self.now.pairs.count 0) self.now.pairs.count }
    {
        let mut places = [0; 1024];
        self.fill_places(&mut places)?;
        if self.pairs.count < self.book.pair_count() {
            return Err(Refusal::PairMissing);
        }
        self.settle(&places)
    }
}
