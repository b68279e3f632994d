// The quadruples of a pair (i, j), each with a lot k and a call l: the test of one (document 02, request 3), and in `scan` the first that
// fails. They are lent the book and the table of where the book holds each pair's cost, read four costs there for a test, and keep none.
#![tactic(auto)]

pub mod scan;

ghost use Rattle.std.specs.Prelude.{◌≡◌};
ghost use Rattle.transport.specs.Greedy.{pair};
ghost use Rattle.specification.specs.Reply.{stated_quadruple};
ghost use Rattle.specification.specs.Book.{problem_of};
ghost use Rattle.specification.specs.Check.{check_quadruple};
ghost use Rattle.specification.specs.Requests.{ThreeEligible};
ghost use Rattle.book.specs.Pairs.{offset_table};

use book::inner::{cost_of, entry_at};
use specification::{Call, Lot, Quadruple};

// Of three eligible pairs (i, j), (i, l) and (k, j) of a readable book: whether (k, l) is eligible and the cost sums are as the check asks.
pub fn test_quadruple(
    book: &[u8],
    offsets: &[u16; 1024],
    i: Lot,
    j: Call,
    k: Lot,
    l: Call,
) -> Quadruple
    requires three_eligible { ThreeEligible book.now i.0 j.0 k.0 l.0 }
    requires offsets_value { offsets.now ≡ offset_table book.now }
    ensures { stated_quadruple i.0 j.0 k.0 l.0 result
        ≡ check_quadruple (problem_of book.now) (pair i.0 j.0) k.0 l.0 }
{
    if entry_at(offsets, k, l) == 0 {
        return Quadruple::NotEligible;
    }
    let own = u64::from(cost_of(book, offsets, i, j));
    let other = u64::from(cost_of(book, offsets, k, l));
    let by_lot = u64::from(cost_of(book, offsets, i, l));
    let by_call = u64::from(cost_of(book, offsets, k, j));
    if by_lot + by_call < own + other {
        return Quadruple::TooHigh;
    }
    Quadruple::Holds
}
