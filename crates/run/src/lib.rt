// Running an order (document 01, "Running an order"): `run_order` reads and checks its inputs; past the refusals the order is run.
#![tactic(auto)]

pub mod inner;

ghost use Rattle.std.specs.Prelude.{◌≡◌};
ghost use Rattle.specification.specs.Reply.{stated_placed};
ghost use Rattle.specification.specs.Run.{run_order, run_flow};

use book::Book;
use remaining::Remaining;
use specification::{Placed, Refusal};

// Running an order: the refusals of the book, of the order, of the amounts, then 17, and the run.
pub fn run_order(
    book: &[u8],
    order: &[u8],
    amounts: &[u8],
    flow: &mut [u32],
) -> Result<Placed, Refusal>
    ensures result_value { stated_placed result ≡ run_order book.now order.now amounts.now flow.old }
    ensures flow_after { flow.new ≡ run_flow book.now order.now amounts.now flow.old }
{
    let answer = book::read_book(book);
    let Ok(counts) = answer else {
        return Err(answer.unwrap_err());
    };
    let book = Book {
        bytes: book,
        counts,
    };
    let pairs = order::inner::check_by(&book, order)?;
    amounts::inner::read_of(book.counts, amounts)?;
    if flow.len() < book.cells() {
        return Err(Refusal::BufferTooShort);
    }
    let remaining = Remaining::load(amounts, book.counts);
    Ok(inner::run_by(&pairs, remaining, &book, flow))
}
