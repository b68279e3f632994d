// The book file: reading it, the costs of one lot, and the cost of a pair.
#![tactic(auto)]

pub mod inner;

ghost use Rattle.std.specs.Prelude.{◌≡◌, IfOk};
ghost use Rattle.specification.specs.Reply.{gives, told, told_as};
ghost use Rattle.specification.specs.Book.{read_rows, read_head, read_book, lot_costs, pair_cost};
ghost use Rattle.book.specs.Pairs.{stated_cost};

use specification::{Call, Counts, Lot, Refusal};

// A book that was read: its bytes, and its n and m.
#[derive(Clone, Copy)]
pub struct Book<'a> {
    pub bytes: &'a [u8],
    pub counts: Counts,
    pub ghost readable: { read_book bytes.now ≡ gives counts },
}

// What a book says of a lot and a call, in the three cases that the definition has (`PairCost`): the pair's cost, that the pair is not eligible, or that
// the lot or the call is not in the book.
#[derive(Clone, Copy, Debug, PartialEq, Eq)]
pub enum Cost {
    Of(i64),
    NotEligible,
    Outside,
}

// The rows of lots 0 to `counts.lots` - 1, in the part of the book that starts at the first one's word; no byte may follow them.
fn read_rows(rows: &[u8], version: u16, counts: Counts) -> Result<(), Refusal>
    ensures { told result ≡ read_rows rows.now version 0 counts.lots counts.calls }
{
    // The rows themselves tell where the next begins.
    let mut at = 0;
    for lot in 0..counts.lots {
        let row = &rows[at..];
        rows::read_row(row, version, Lot(lot), counts.calls)?;
        at += rows::size(row);
    }
    if at < rows.len() {
        return Err(Refusal::BytesAfter);
    }
    Ok(())
}

// n and m by the first seven bytes of a book, or the refusal of these: 1 to 4.
pub fn read_head(book: &[u8]) -> Result<Counts, Refusal>
    ensures { told result ≡ read_head book.now }
{
    files::read_opening(book, &files::BOOK_MARK, 2)?;
    let counts = files::counts_at(book);
    if 32 < counts.lots || 32 < counts.calls {
        return Err(Refusal::CountOutside);
    }
    Ok(counts)
}

// n and m of a readable book, or its refusal.
pub fn read_book(book: &[u8]) -> Result<Counts, Refusal>
    ensures { told result ≡ read_book book.now }
{
    let counts = read_head(book)?;
    read_rows(&book[7..], inner::version_of(book), counts)?;
    Ok(counts)
}

impl<'a> Book<'a> {
    // Reads a book.
    pub fn read(bytes: &'a [u8]) -> Result<Book<'a>, Refusal>
        ensures counts { told_as (λ book. book.counts) result ≡ read_book bytes.now }
        ensures bytes { IfOk result (λ book. book.bytes.now ≡ bytes.now) }
    {
        let counts = read_book(bytes)?;
        Ok(Book { bytes, counts })
    }
}

// The stretch of the book that holds a lot's costs; empty for a refused book and for a lot outside it.
pub fn lot_costs(book: &[u8], lot: Lot) -> &[u8]
    ensures { result.now ≡ lot_costs book.now lot.0 }
{
    &book[inner::costs_range(book, lot)]
}

// The cost of a pair, by lot number and call number.
pub fn pair_cost(book: &[u8], lot: Lot, call: Call) -> Result<Cost, Refusal>
    ensures { stated_cost result ≡ pair_cost book.now lot.0 call.0 }
{
    let answer = read_book(book);
    let Ok(counts) = answer else {
        return Err(answer.unwrap_err());
    };
    let read = Book {
        bytes: book,
        counts,
    };
    if read.counts.lots <= lot.0 || read.counts.calls <= call.0 {
        return Ok(Cost::Outside);
    }
    let at = read.row_at(lot);
    let row = &book[at..];
    if !rows::word::is_set(files::u32_at(row, 0), call.0) {
        return Ok(Cost::NotEligible);
    }
    let cost = signed::held_cost(rows::cost_in(row, call), inner::version_of(book));
    Ok(Cost::Of(cost))
}
