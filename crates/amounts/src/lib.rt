// The amounts file, read with its book.
#![tactic(auto)]

pub mod inner;

ghost use Rattle.std.specs.Prelude.{◌≡◌};
ghost use Rattle.specification.specs.Reply.{told};
ghost use Rattle.specification.specs.Amounts.{read_amounts};

use specification::{Counts, Refusal};

// n and m, or the refusal of the book or of the amounts.
#[tactic(auto, using(book::proofs::Readable::read_is), unfolding(specification::specs::Amounts::read_amounts))]
pub fn read_amounts(book: &[u8], amounts: &[u8]) -> Result<Counts, Refusal>
    ensures { told result ≡ read_amounts book.now amounts.now }
{
    // Document 01 names this form for a refused book, in place of `?`.
    let answer = book::read_book(book);
    let Ok(counts) = answer else {
        return answer;
    };
    inner::read_of(counts, amounts)
}
