// The table of slacks and the lots' words of eligible calls, filled lot by lot from the rows of a book that was read, and those of an idle call.
ghost use Rattle.std.specs.Prelude.{◌≡◌, suc, ◌+◌, ◌-◌, ◌^◌, ◌<◌, ◌≤◌, replicate};
ghost use Rattle.std.specs.Int.Count.{ones};
ghost use Rattle.transport.specs.Finder.{size};
ghost use Rattle.transport.specs.Idle.{with_idle};
ghost use Rattle.transport.proofs.Finder.Same.{Same};
ghost use Rattle.specification.specs.Costs.{cost_limit, cost_top, lifted_cost};
ghost use Rattle.specification.specs.Book.{row_word, row_at, book_lots, problem_of};
ghost use Rattle.specification.specs.Idle.{enlarged};
ghost use Rattle.slacks.specs.Slacks.{by_slacks, Slacks, Eligible};
ghost use Rattle.slacks.specs.Filling.{Reached};

use super::{PAIRS, SIDE, SLACK_OF_ZERO};
use book::Book;
use book::inner::cost_at;
use rows::word::{count, reaches};
use specification::Lot;
use words::including;
use words::numbers::numbers_of;

// The slacks of the pairs of so many lots and calls, the word of each lot, and how many pairs are eligible.
#[derive(Drop)]
pub struct SlackTable {
    pub lots: usize,
    pub calls: usize,
    pub total: usize,
    pub slacks: [u32; PAIRS],
    pub words: [u32; SIDE],
    pub ghost are: { Slacks slacks lots calls },
    pub ghost eligible: { Eligible slacks lots calls words },
    pub ghost counted: { total ≡ size (by_slacks slacks lots calls) },
}

// The slack of a cost, of the 32 bits that a readable book of either version holds.
fn slack_of(held: u32) -> u32
    requires { lifted_cost cost_limit held ≤ cost_top }
    ensures { result ≡ suc cost_top - lifted_cost cost_limit held }
{
    SLACK_OF_ZERO.wrapping_sub(held)
}

// Enters the slacks of the lot whose row starts at a byte, set bit by set bit. The byte at which the next row starts.
fn enter_set(book: &[u8], at: usize, lot: Lot, word: u32, slacks: &mut [u32; PAIRS]) -> usize
    requires { Reached book.now lot.0 0 (at + 4) slacks.old × (lot.0 < book_lots book.now)
        × (word ≡ row_word (row_at book.now lot.0)) }
    ensures { Reached book.now (lot.0 + 1) 0 (result + 4) slacks.new }
{
    let mut next = at + 4;
    for j in numbers_of(word) {
        slacks[SIDE * lot.0 + j] = slack_of(cost_at(book, next));
        next += 4;
    }
    next
}

// The same where the lot is eligible for the first calls and no others: its set bits are the lowest, none is looked for, and this is straight code.
fn enter_first(book: &[u8], at: usize, lot: Lot, word: u32, slacks: &mut [u32; PAIRS]) -> usize
    requires reached { Reached book.now lot.0 0 (at + 4) slacks.old }
    requires lot_in { lot.0 < book_lots book.now }
    requires word_is { word ≡ row_word (row_at book.now lot.0) }
    requires first { word < 2 ^ ones word }
    ensures { Reached book.now (lot.0 + 1) 0 (result + 4) slacks.new }
{
    let i = lot.0;
    let mut next = at + 4;
    for j in 0..count(word) {
        slacks[SIDE * i + j] = slack_of(cost_at(book, next));
        next += 4;
    }
    next
}

// The same by whichever of the two fits the word.
fn enter_lot(book: &[u8], at: usize, lot: Lot, word: u32, slacks: &mut [u32; PAIRS]) -> usize
    requires { Reached book.now lot.0 0 (at + 4) slacks.old × (lot.0 < book_lots book.now)
        × (word ≡ row_word (row_at book.now lot.0)) }
    ensures { Reached book.now (lot.0 + 1) 0 (result + 4) slacks.new }
{
    if reaches(word, count(word)) {
        enter_set(book, at, lot, word, slacks)
    } else {
        enter_first(book, at, lot, word, slacks)
    }
}

// Enters the slacks of all pairs and the word of each lot, in arrays of zeros. They are lent by themselves, since what a table says of them does not
// hold between two lots.
fn fill_rows(book: &Book, slacks: &mut [u32; PAIRS], words: &mut [u32; SIDE])
    requires { (slacks.old ≡ replicate 1024 0) × (words.old ≡ replicate 32 0) }
    ensures same { Same (problem_of book.now.bytes.now) (by_slacks slacks.new book.now.counts.lots book.now.counts.calls) }
    ensures same_enlarged { Same (enlarged book.now.bytes.now)
        (with_idle cost_limit (by_slacks slacks.new book.now.counts.lots book.now.counts.calls)) }
    ensures are { Slacks slacks.new book.now.counts.lots book.now.counts.calls }
    ensures eligible { Eligible slacks.new book.now.counts.lots book.now.counts.calls words.new }
{
    let mut at = 7;
    for (i, own) in words[..book.counts.lots].iter_mut().enumerate() {
        *own = cost_at(book.bytes, at);
        at = enter_lot(book.bytes, at, Lot(i), *own, slacks);
    }
}

// Enters the idle call, the last, in the two arrays of a table: every lot has it at cost 0.
pub fn add_idle(slacks: &mut [u32; PAIRS], words: &mut [u32; SIDE], n: usize, m: usize)
    requires { Slacks slacks.old n m × Eligible slacks.old n m words.old × (m < 32) }
    ensures same { Same (with_idle cost_limit (by_slacks slacks.old n m)) (by_slacks slacks.new n (m + 1)) }
    ensures slacks { Slacks slacks.new n (m + 1) × Eligible slacks.new n (m + 1) words.new }
{
    for i in 0..n {
        slacks[SIDE * i + m] = SLACK_OF_ZERO;
        words[i] = including(words[i], m);
    }
}

impl SlackTable {
    // The table of no lots and no calls.
    pub fn empty() -> SlackTable
        ensures { (result.slacks ≡ replicate 1024 0) × (result.words ≡ replicate 32 0) }
    {
        SlackTable {
            lots: 0,
            calls: 0,
            total: 0,
            slacks: [0; PAIRS],
            words: [0; SIDE],
        }
    }

    // The table, empty before, becomes that of a book that was read. It is filled where it stands: it has over four thousand bytes.
    pub fn fill(&mut self, book: &Book)
        requires { (self.old.slacks ≡ replicate 1024 0) × (self.old.words ≡ replicate 32 0) }
        ensures counts { (self.new.lots ≡ book.now.counts.lots) × (self.new.calls ≡ book.now.counts.calls) }
        ensures same { Same (problem_of book.now.bytes.now) (by_slacks self.new.slacks self.new.lots self.new.calls) }
        ensures same_enlarged { Same (enlarged book.now.bytes.now) (with_idle cost_limit (by_slacks self.new.slacks self.new.lots self.new.calls)) }
    {
        fill_rows(book, &mut self.slacks, &mut self.words);
        self.lots = book.counts.lots;
        self.calls = book.counts.calls;
        self.total = book.pair_count();
    }

    // Adds the idle call, the last: every lot has it at cost 0.
    pub fn add_idle(&mut self)
        requires { self.old.calls < 32 }
        ensures counts { (self.new.lots ≡ self.old.lots) × (self.new.calls ≡ self.old.calls + 1) }
        ensures same { Same (with_idle cost_limit (by_slacks self.old.slacks self.old.lots self.old.calls))
            (by_slacks self.new.slacks self.new.lots self.new.calls) }
    {
        add_idle(&mut self.slacks, &mut self.words, self.lots, self.calls);
        self.calls += 1;
        self.total += self.lots;
    }
}
