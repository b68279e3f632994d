// The table of slacks and the words of eligible calls, filled lot by lot from the rows of a book that was read.
ghost use Rattle.std.specs.Prelude.{◌≡◌, ◌+◌, ◌<◌};
ghost use Rattle.transport.specs.Finder.{size};
ghost use Rattle.specification.specs.Book.{book_lots, problem_of};
ghost use Rattle.slacks.specs.Slacks.{Capped};
ghost use Rattle.panel_table.specs.Filling.{Within, Filled, slack_at};

use super::{PAIRS, SIDE};
use book::Book;
use book::inner::{cost_at, cost_from};
use slacks::SLACK_MOST;
use specification::{COST_LIMIT, Call, Lot};
use words::numbers::numbers_of;

// Of so many lots and calls, of which `total` pairs are eligible. By call, a row of `SIDE` lots: the slack of each pair. By lot: the word of the
// calls that it is eligible for.
#[derive(Clone, Copy)]
pub struct Table {
    pub lots: usize,
    pub calls: usize,
    pub total: usize,
    pub slacks: [u32; PAIRS],
    pub eligible: [u32; SIDE],
    pub ghost capped: { Capped slacks },
}

impl Table {
    // The table of a book that was read.
    pub fn of(book: &Book) -> Table
        requires { Within book.now.bytes.now }
        ensures counts { (result.lots ≡ book.now.counts.lots) × (result.calls ≡ book.now.counts.calls) }
        ensures total { result.total ≡ size (problem_of book.now.bytes.now) }
        ensures filled { Filled book.now.bytes.now book.now.counts.lots result.slacks result.eligible }
    {
        let mut table = Table {
            lots: book.counts.lots,
            calls: book.counts.calls,
            total: book.pair_count(),
            slacks: [0; PAIRS],
            eligible: [0; SIDE],
        };
        for i in 0..table.lots {
            table.enter(book, Lot(i));
        }
        table
    }

    // The slack of a pair.
    pub fn slack_at(&self, lot: Lot, call: Call) -> u32
        requires { (lot.0 < 8) × (call.0 < 8) }
        ensures { result ≡ slack_at self.now.slacks lot.0 call.0 }
    {
        self.slacks[SIDE * call.0 + lot.0]
    }

    // Enters the slacks of a lot, and the word of its calls.
    fn enter(&mut self, book: &Book, lot: Lot)
        requires { Within book.now.bytes.now × (lot.0 < book_lots book.now.bytes.now)
            × Filled book.now.bytes.now lot.0 self.old.slacks self.old.eligible }
        ensures filled { Filled book.now.bytes.now (lot.0 + 1) self.new.slacks self.new.eligible }
        ensures same { (self.new.lots ≡ self.old.lots) × (self.new.calls ≡ self.old.calls) × (self.new.total ≡ self.old.total) }
    {
        let i = lot.0;
        let at = book.row_at(lot);
        let word = cost_at(book.bytes, at);
        for j in numbers_of(word) {
            self.slacks[SIDE * j + i] = SLACK_MOST - cost_from(book.bytes, at, Call(j), COST_LIMIT);
        }
        self.eligible[i] = word;
    }
}
