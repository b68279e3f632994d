// Checking an order (document 01, "Checking an order"). The pairs are checked over the book's bytes and a table of where it holds each
// pair's cost. No cost is copied into a table: the crate `walk`, from the end of the order, keeps least differences of costs and finds the
// lowest place at which it fails, and the crate `quadruples`, by a scan of that pair's quadruples, names the first failure.
#![tactic(auto)]

pub mod inner;
mod pairs;
mod places;

ghost use Rattle.std.specs.Prelude.{◌≡◌};
ghost use Rattle.specification.specs.Check.{check_order};
ghost use Rattle.specification.specs.Reply.{told};

use book::Book;
use specification::Refusal;

// The check of an order: the refusals of the book, then of the order; the answer is its count of pairs.
#[tactic(auto, using(crate::proofs::Agreeing::book_refused))]
pub fn check_order(book: &[u8], order: &[u8]) -> Result<usize, Refusal>
    ensures { told result ≡ check_order book.now order.now }
{
    let answer = book::read_book(book);
    let Ok(counts) = answer else {
        return Err(answer.unwrap_err());
    };
    let read = Book {
        bytes: book,
        counts,
    };
    Ok(inner::check_by(&read, order)?.count)
}
