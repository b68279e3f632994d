// Where a book that was read holds its costs: the byte at which each row starts, and a table of offsets by lot and call, made in one pass
// over the rows; and what the table says of a pair.
ghost use Rattle.std.specs.Prelude.{◌≡◌, ℕ, ◌+◌, ◌*◌, ◌-◌, ◌^◌, ◌<◌, ◌≤◌, length, take, drop, get_or};
ghost use Rattle.std.specs.Int.Count.{ones};
ghost use Rattle.transport.specs.Finder.{size};
ghost use Rattle.specification.specs.Bytes.{u32_at};
ghost use Rattle.specification.specs.Costs.{cost_base, lifted_cost};
ghost use Rattle.specification.specs.Book.{row_cost, book_version, row_start, lot_costs, problem_of};
ghost use Rattle.book.specs.Pairs.{offset_table};
ghost use Rattle.book.specs.Table.{entry, raised_at, admits_by, CanRead, WithRow};

use super::Book;
use specification::{COST_LIMIT, Call, Counts, Lot};
use std::ops::Range;
use words::numbers::numbers_of;

// How many lots, and how many calls, the tables have room for. A word of 32 bits holds a row, so it is at most 32.
pub const SIDE: usize = 32;

// How many pairs they have room for.
pub const PAIRS: usize = SIDE * SIDE;

impl<'a> Book<'a> {
    // The byte at which each row starts.
    pub fn row_starts(&self) -> [usize; 32]
        ensures { (i : ℕ) → i < self.now.counts.lots → get_or result i 0 ≡ row_start self.now.bytes.now i }
    {
        let mut starts = [0usize; 32];
        let mut at = 7;
        for start in starts[..self.counts.lots].iter_mut() {
            *start = at;
            at += rows::size(&self.bytes[at..]);
        }
        starts
    }

    // The byte at which a lot's row starts.
    pub fn row_at(&self, lot: Lot) -> usize
        requires { lot.0 < self.now.counts.lots }
        ensures { result ≡ row_start self.now.bytes.now lot.0 }
    {
        let mut at = 7;
        for _ in 0..lot.0 {
            at += rows::size(&self.bytes[at..]);
        }
        at
    }

    // How many pairs are eligible: past the opening the book has four bytes for each lot's word and four for each cost.
    pub fn pair_count(&self) -> usize
        ensures { result ≡ size (problem_of self.now.bytes.now) }
    {
        (self.bytes.len() - 7) / 4 - self.counts.lots
    }

    // How many pairs of a lot and a call there are.
    pub fn cells(&self) -> usize
        ensures { result ≡ self.now.counts.lots * self.now.counts.calls }
    {
        self.counts.lots * self.counts.calls
    }

    // The byte at which the book holds the cost of each pair, entry `SIDE` times lot plus call; 0 where the pair is not eligible.
    pub fn offsets(&self) -> [u16; PAIRS]
        ensures { result ≡ offset_table self.now.bytes.now }
    {
        let mut table = [0u16; PAIRS];
        let mut at = 7;
        for i in 0..self.counts.lots {
            let row = &self.bytes[at..];
            enter_row(&mut table, files::u32_at(row, 0), Lot(i), at + 4);
            at += rows::size(row);
        }
        table
    }
}

// Where the book holds a lot's costs: after the lot's word, up to the end of its row; no bytes of a refused book or of a lot outside it.
pub fn costs_range(book: &[u8], lot: Lot) -> Range<usize>
    ensures inside { (result.start ≤ result.end) × (result.end ≤ length book.now) }
    ensures costs { take (result.end - result.start) (drop result.start book.now) ≡ lot_costs book.now lot.0 }
    ensures start { result.start < result.end → result.start ≡ row_start book.now lot.0 + 4 }
{
    let Ok(read) = Book::read(book) else {
        return 0..0;
    };
    if read.counts.lots <= lot.0 {
        return 0..0;
    }
    let at = read.row_at(lot);
    at + 4..at + rows::size(&book[at..])
}

// The cost of a call, with a base added, in the row that starts at a byte of the book.
pub fn cost_from(book: &[u8], start: usize, call: Call, base: u32) -> u32
    requires { start ≤ length book.now }
    ensures { result ≡ lifted_cost base (row_cost (drop start book.now) call.0) }
{
    signed::lifted(rows::cost_in(&book[start..], call), base)
}

// Enters the offsets of one lot's costs, of which the first stands at `at`: set bit by set bit.
fn enter_set(table: &mut [u16; PAIRS], word: u32, lot: Lot, at: usize)
    requires { (lot.0 < 32) × (at < 65000) }
    ensures { WithRow table.old word lot.0 at table.new }
{
    let base = SIDE * lot.0;
    let mut next = at as u16;
    for j in numbers_of(word) {
        table[base + j] = next;
        next += 4;
    }
}

// The same where the lot is eligible for the first calls and no others: its set bits are the lowest, and this is straight code.
fn enter_first(table: &mut [u16; PAIRS], word: u32, lot: Lot, at: usize)
    requires { (lot.0 < 32) × (at < 65000) × (word < 2 ^ ones word) }
    ensures { WithRow table.old word lot.0 at table.new }
{
    let base = SIDE * lot.0;
    let mut next = at as u16;
    for entry in table[base..base + rows::word::count(word)].iter_mut() {
        *entry = next;
        next += 4;
    }
}

// The same by whichever of the two fits the word.
fn enter_row(table: &mut [u16; PAIRS], word: u32, lot: Lot, at: usize)
    requires { (lot.0 < 32) × (at < 65000) }
    ensures { WithRow table.old word lot.0 at table.new }
{
    if rows::word::reaches(word, rows::word::count(word)) {
        enter_set(table, word, lot, at);
    } else {
        enter_first(table, word, lot, at);
    }
}

// What a table of `SIDE` rows holds for a pair.
pub fn entry_at<T: Copy>(table: &[T; PAIRS], lot: Lot, call: Call) -> T
    requires { (lot.0 < 32) × (call.0 < 32) }
    ensures { (d : T) → result ≡ get_or table.now (32 * lot.0 + call.0) d }
{
    table[SIDE * lot.0 + call.0]
}

// The 32-bit number at an offset from which four bytes stand.
pub fn cost_at(book: &[u8], at: usize) -> u32
    requires { at + 4 ≤ length book.now }
    ensures { result ≡ u32_at book.now at }
{
    files::u32_in(book, at)
}

// The version of a book.
pub fn version_of(book: &[u8]) -> u16
    ensures { result ≡ book_version book.now }
{
    files::u16_at(book, 3)
}

// What is added to each cost of a book.
pub fn base_of(book: &[u8]) -> u32
    ensures { result ≡ cost_base (book_version book.now) }
{
    signed::cost_base(version_of(book))
}

// The cost of a pair with the limit added, in either version; of a pair that is not eligible it means nothing.
pub fn cost_of(book: &[u8], table: &[u16; PAIRS], lot: Lot, call: Call) -> u32
    requires { CanRead book.now table.now lot.0 call.0 }
    ensures { result ≡ raised_at book.now (entry table.now lot.0 call.0) }
{
    let at = usize::from(entry_at(table, lot, call));
    signed::lifted(cost_at(book, at), COST_LIMIT)
}

// Whether a pair is of these lots and calls and eligible.
pub fn eligible(table: &[u16; PAIRS], counts: Counts, lot: Lot, call: Call) -> bool
    requires { (counts.lots ≤ 32) × (counts.calls ≤ 32) }
    ensures { result ≡ admits_by table.now counts.lots counts.calls lot.0 call.0 }
{
    lot.0 < counts.lots && call.0 < counts.calls && entry_at(table, lot, call) != 0
}
