// The check of an order for a book that was read.
ghost use Rattle.std.specs.Prelude.{◌≡◌, IfOk};
ghost use Rattle.specification.specs.Check.{check_order};
ghost use Rattle.specification.specs.Reply.{told_as};

use super::pairs::Check;
use book::Book;
use specification::Refusal;
use walk::places::Pairs;

// The check of an order: the refusals of the order file's opening and length, then of its pairs; the answer is these.
pub fn check_by<'o>(book: &Book, order: &'o [u8]) -> Result<Pairs<'o>, Refusal>
    ensures count { told_as (λ pairs. pairs.count) result ≡ check_order book.now.bytes.now order.now }
    ensures order { IfOk result (λ pairs. pairs.order.now ≡ order.now) }
{
    files::read_opening(order, &files::ORDER_MARK, 1)?;
    let count = usize::from(files::u16_at(order, 5));
    let size = 7 + 2 * count;
    if order.len() < size {
        return Err(Refusal::EndsEarly);
    }
    if size < order.len() {
        return Err(Refusal::BytesAfter);
    }
    let pairs = Pairs { order, count };
    let check = Check {
        book,
        offsets: &book.offsets(),
        starts: &book.row_starts(),
        pairs,
    };
    check.check_pairs()?;
    Ok(pairs)
}
