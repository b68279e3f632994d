// Finding an order of the eligible pairs of a book that was read, or of the enlarged book, for the other crates.
ghost use Rattle.std.specs.Prelude.{◌≡◌, true, ◌+◌, ◌*◌, ◌≤◌, ◌<◌, length};
ghost use Rattle.transport.specs.Finder.{size, find};
ghost use Rattle.finder.specs.Searched.{searched};
ghost use Rattle.finder.specs.Writing.{Orders};

use super::by_slacks::find_by_slacks;
use book::Book;
use slacks::filling::SlackTable;

// The order file of the order that is found; where there is none, nothing, and the buffer as it was. With an idle call the enlarged book is
// searched: the idle call is the one after the book's own, and there is to be room for it.
pub fn find_by(book: &Book, idle: bool, buffer: &mut [u8]) -> Option<usize>
    requires room { idle ≡ true → book.now.counts.calls < 32 }
    requires long_enough { 7 + 2 * size (searched idle book.now.bytes.now) ≤ length buffer.old }
    ensures { Orders (find (searched idle book.now.bytes.now)) result buffer.old buffer.new }
{
    let mut table = SlackTable::empty();
    table.fill(book);
    // Two calls: where there is one, the compiler joins the functions and finding takes 2 to 3.5 % longer.
    if idle {
        table.add_idle();
        return find_by_slacks(&table, buffer);
    }
    find_by_slacks(&table, buffer)
}
