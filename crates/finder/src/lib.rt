// Finding an order (document 01, "Finding an order"): the free pair of lowest lot, then lowest call, is taken until none remains or none is
// free.
#![tactic(auto)]

mod by_slacks;
pub mod inner;
mod writing;

ghost use Rattle.std.specs.Prelude.{◌≡◌};
ghost use Rattle.specification.specs.Reply.{told};
ghost use Rattle.specification.specs.Find.{find_order, find_buffer};

use book::Book;
use specification::Refusal;

// Finds an order of a book's eligible pairs and writes its file into the buffer; the length of the file, or the refusal.
pub fn find_order(book: &[u8], order: &mut [u8]) -> Result<usize, Refusal>
    ensures result_value { told result ≡ find_order book.now order.old }
    ensures order_after { order.new ≡ find_buffer book.now order.old }
{
    let answer = book::read_book(book);
    let Ok(counts) = answer else {
        return Err(answer.unwrap_err());
    };
    let book = Book {
        bytes: book,
        counts,
    };
    let length = 7 + 2 * book.pair_count();
    if order.len() < length {
        return Err(Refusal::BufferTooShort);
    }
    inner::find_by(&book, false, order).ok_or(Refusal::NoOrder)?;
    Ok(length)
}
