// The entry points for C (include/placer.h). Each takes slices as a pointer and a count of elements, calls the entry point of document 01,
// and hands its answer back as numbers.
#![tactic(auto)]

ghost use Rattle.std.specs.Prelude.{◌≡◌, take, drop};
ghost use Rattle.specification.specs.Book.{read_book, lot_costs, pair_cost};
ghost use Rattle.specification.specs.Amounts.{read_amounts};
ghost use Rattle.specification.specs.Check.{check_order};
ghost use Rattle.specification.specs.Run.{run_order, run_flow};
ghost use Rattle.specification.specs.Find.{find_order, find_buffer, find_and_run, find_and_run_flow};
ghost use Rattle.specification.specs.Idle.{find_and_run_idle, find_and_run_idle_flow};
ghost use Rattle.specification.specs.Panel.{find_and_run_panel, find_and_run_panel_flow};
ghost use Rattle.answers.specs.Answers.{answer_of, counts, cost_of, number, placed};
ghost use Rattle.placer_c.specs.Stretches.{stretch_of};
ghost use Rattle.placer_c.specs.Version.{version};

use answers::Answer;
use book::Book;
use specification::{Call, Lot};

// A stretch of the caller's book, in bytes.
#[repr(C)]
#[derive(Clone, Copy)]
pub struct Stretch {
    pub start: usize,
    pub len: usize,
}

// Reads a book: n and m.
#[unsafe(no_mangle)]
pub extern "C" fn placer_read_book(book: &[u8]) -> Answer
    ensures { result ≡ answer_of counts (read_book book.now) }
{
    Answer::from(book::read_book(book))
}

// The costs of a lot, four bytes each, as a stretch of the book; 0, 0 where it is empty.
#[unsafe(no_mangle)]
pub extern "C" fn placer_lot_costs(book: &[u8], lot: usize) -> Stretch
    ensures value { result ≡ stretch_of book.now lot }
    ensures book_value { take result.len (drop result.start book.now) ≡ lot_costs book.now lot }
{
    let costs = book::lot_costs(book, Lot(lot));
    let len = costs.len();
    if len == 0 {
        return Stretch { start: 0, len };
    }
    // Costs are of a lot of a readable book, so the book is not read again.
    let read = Book {
        bytes: book,
        counts: files::counts_at(book),
    };
    Stretch {
        start: read.row_at(Lot(lot)) + 4,
        len,
    }
}

// The cost of a pair: 1 and the cost where it is eligible; 0 and 0 where it is not, or where its lot or call is not in the book.
#[unsafe(no_mangle)]
pub extern "C" fn placer_pair_cost(book: &[u8], lot: usize, call: usize) -> Answer
    ensures { result ≡ answer_of cost_of (pair_cost book.now lot call) }
{
    Answer::from(book::pair_cost(book, Lot(lot), Call(call)))
}

// Reads amounts with their book: n and m.
#[unsafe(no_mangle)]
pub extern "C" fn placer_read_amounts(book: &[u8], amounts: &[u8]) -> Answer
    ensures { result ≡ answer_of counts (read_amounts book.now amounts.now) }
{
    Answer::from(amounts::read_amounts(book, amounts))
}

// Checks an order: its count of pairs.
#[unsafe(no_mangle)]
pub extern "C" fn placer_check_order(book: &[u8], order: &[u8]) -> Answer
    ensures { result ≡ answer_of number (check_order book.now order.now) }
{
    Answer::from(order::check_order(book, order))
}

// Runs an order that passes the check: units and cost, and the units of each pair in the flow.
#[unsafe(no_mangle)]
pub extern "C" fn placer_run_order(
    book: &[u8],
    order: &[u8],
    amounts: &[u8],
    flow: &mut [u32],
) -> Answer
    ensures value { result ≡ answer_of placed (run_order book.now order.now amounts.now flow.old) }
    ensures flow_after { flow.new ≡ run_flow book.now order.now amounts.now flow.old }
{
    Answer::from(run::run_order(book, order, amounts, flow))
}

// Finds an order and writes its file: the length of the file.
#[unsafe(no_mangle)]
pub extern "C" fn placer_find_order(book: &[u8], order: &mut [u8]) -> Answer
    ensures value { result ≡ answer_of number (find_order book.now order.old) }
    ensures order_after { order.new ≡ find_buffer book.now order.old }
{
    Answer::from(finder::find_order(book, order))
}

// Finds an order and runs it: units and cost, and the units of each pair in the flow.
#[unsafe(no_mangle)]
pub extern "C" fn placer_find_and_run(book: &[u8], amounts: &[u8], flow: &mut [u32]) -> Answer
    ensures value { result ≡ answer_of placed (find_and_run book.now amounts.now flow.old) }
    ensures flow_after { flow.new ≡ find_and_run_flow book.now amounts.now flow.old }
{
    Answer::from(placer::find_and_run(book, amounts, flow))
}

// The same with an idle call, whose amount is what the lots have more than the calls: units and cost of the book's own calls, and their flow.
#[unsafe(no_mangle)]
pub extern "C" fn placer_find_and_run_idle(book: &[u8], amounts: &[u8], flow: &mut [u32]) -> Answer
    ensures value { result ≡ answer_of placed (find_and_run_idle book.now amounts.now flow.old) }
    ensures flow_after { flow.new ≡ find_and_run_idle_flow book.now amounts.now flow.old }
{
    Answer::from(placer::find_and_run_idle(book, amounts, flow))
}

// The ticket panel's: at most 8 lots and 8 calls, and within these it answers and writes as `placer_find_and_run` does.
#[unsafe(no_mangle)]
pub extern "C" fn placer_find_and_run_panel(book: &[u8], amounts: &[u8], flow: &mut [u32]) -> Answer
    ensures value { result ≡ answer_of placed (find_and_run_panel book.now amounts.now flow.old) }
    ensures flow_after { flow.new ≡ find_and_run_panel_flow book.now amounts.now flow.old }
{
    Answer::from(placer::find_and_run_panel(book, amounts, flow))
}

// The version of the library, that of include/placer.h: major, minor and patch in one number.
#[unsafe(no_mangle)]
pub extern "C" fn placer_version() -> u32
    ensures { result ≡ version }
{
    1000000
}
