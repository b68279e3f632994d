// What a program calls: finding an order and running it in one call (document 01, "Finding an order"), also with an idle call (document 02,
// request 2) and for the ticket panel (request 6), and the text that is printed of a run ("The printing program").
#![tactic(auto)]

ghost use Rattle.std.specs.Prelude.{◌≡◌, ◌≤◌, IfOk};
ghost use Rattle.specification.specs.Reply.{told, told_as, stated_placed};
ghost use Rattle.specification.specs.Book.{book_lots, book_calls};
ghost use Rattle.specification.specs.Amounts.{read_amounts};
ghost use Rattle.specification.specs.Find.{find_and_run, find_and_run_flow};
ghost use Rattle.specification.specs.Idle.{find_and_run_idle, find_and_run_idle_flow};
ghost use Rattle.specification.specs.Panel.{read_panel, find_and_run_panel, find_and_run_panel_flow};
ghost use Rattle.specification.specs.Text.{printed};
ghost use Rattle.placer.specs.Placing.{Supplied, Places};

use book::Book;
use remaining::{Remaining, total};
use specification::{Counts, Placed, Refusal};
pub use text::{TEXT_MOST, Text};
use walk::places::Pairs;

// Finds an order, of the enlarged book where there is an idle call, and runs it: 17, then 13, then the run. The order stands in an array of
// its own; that it passes the check is a theorem, so it is not checked again.
fn find_then_run(
    book: &Book,
    idle: bool,
    remaining: Remaining<32>,
    flow: &mut [u32],
) -> Result<Placed, Refusal>
    requires { Supplied book.now.counts.lots book.now.counts.calls idle remaining }
    ensures { Places idle book.now.bytes.now remaining flow.old result flow.new }
{
    if flow.len() < book.cells() {
        return Err(Refusal::BufferTooShort);
    }
    let mut order = [0; files::ORDER_MOST];
    let count = finder::inner::find_by(book, idle, &mut order).ok_or(Refusal::NoOrder)?;
    let pairs = Pairs {
        order: &order[..7 + 2 * count],
        count,
    };
    Ok(run::inner::run_by(&pairs, remaining, book, flow))
}

// Reads a book and the amounts that go with it: the book, or the first refusal of the two.
fn read<'a>(book: &'a [u8], amounts: &[u8]) -> Result<Book<'a>, Refusal>
    ensures counts { told_as (λ book. book.counts) result ≡ read_amounts book.now amounts.now }
    ensures bytes { IfOk result (λ read. read.bytes.now ≡ book.now) }
{
    let answer = book::read_book(book);
    let Ok(counts) = answer else {
        return Err(answer.unwrap_err());
    };
    amounts::inner::read_of(counts, amounts)?;
    Ok(Book {
        bytes: book,
        counts,
    })
}

// Finds an order of the book's eligible pairs and runs it on the amounts: units and cost, with the units of each pair in the flow, or the
// refusal.
pub fn find_and_run(book: &[u8], amounts: &[u8], flow: &mut [u32]) -> Result<Placed, Refusal>
    ensures result_value { stated_placed result ≡ find_and_run book.now amounts.now flow.old }
    ensures flow_after { flow.new ≡ find_and_run_flow book.now amounts.now flow.old }
{
    let book = read(book, amounts)?;
    let remaining = Remaining::load(amounts, book.counts);
    find_then_run(&book, false, remaining, flow)
}

// The same with an idle call, the one after the book's own, whose amount is what the lots have more than the calls: the cheapest choice of the
// stock that stays idle. What that call lacks may be above 32 bits, and is carried in 64.
pub fn find_and_run_idle(book: &[u8], amounts: &[u8], flow: &mut [u32]) -> Result<Placed, Refusal>
    ensures result_value { stated_placed result ≡ find_and_run_idle book.now amounts.now flow.old }
    ensures flow_after { flow.new ≡ find_and_run_idle_flow book.now amounts.now flow.old }
{
    let book = read(book, amounts)?;
    let Counts { lots, calls } = book.counts;
    let real: Remaining<32> = Remaining::load(amounts, book.counts);
    let stock = total(&real.lots[..lots]);
    let wanted = total(&real.calls[..calls]);
    if stock < wanted {
        return Err(Refusal::CallsExceedLots);
    }
    if calls == 32 {
        return Err(Refusal::NoIdleCall);
    }
    let enlarged = real.with_idle(calls, stock - wanted);
    find_then_run(&book, true, enlarged, flow)
}

// n and m by the first seven bytes of a book, at most 8 each, or their refusal: 1 to 4, then 20.
fn read_panel(book: &[u8]) -> Result<Counts, Refusal>
    ensures { told result ≡ read_panel book.now }
{
    let head = book::read_head(book)?;
    if 8 < head.lots || 8 < head.calls {
        return Err(Refusal::AboveEight);
    }
    Ok(head)
}

// What `find_and_run` does, for a book of at most 8 lots and 8 calls: by the panel's own search.
fn find_and_run_within(book: &[u8], amounts: &[u8], flow: &mut [u32]) -> Result<Placed, Refusal>
    requires { (book_lots book.now ≤ 8) × (book_calls book.now ≤ 8) }
    ensures result_value { stated_placed result ≡ find_and_run book.now amounts.now flow.old }
    ensures flow_after { flow.new ≡ find_and_run_flow book.now amounts.now flow.old }
{
    let book = read(book, amounts)?;
    if flow.len() < book.cells() {
        return Err(Refusal::BufferTooShort);
    }
    panel::find_then_run(&book, amounts, flow)
}

// The ticket panel's find-and-run, of at most 8 lots and 8 calls: within these it replies and writes as `find_and_run` does.
pub fn find_and_run_panel(book: &[u8], amounts: &[u8], flow: &mut [u32]) -> Result<Placed, Refusal>
    ensures result_value { stated_placed result ≡ find_and_run_panel book.now amounts.now flow.old }
    ensures flow_after { flow.new ≡ find_and_run_panel_flow book.now amounts.now flow.old }
{
    read_panel(book)?;
    find_and_run_within(book, amounts, flow)
}

// How many bytes of each file are read at most, 4,232 and 392: one more than the largest has, so that a longer one is refused. The largest
// book has its opening and 32 rows of a word and 32 costs; the largest amounts have theirs, 64 amounts and 32 reserves.
pub const BOOK_MOST: usize = 7 + 32 * (4 + 4 * 32) + 1;

pub const AMOUNTS_MOST: usize = 7 + 4 * (32 + 32 + 32) + 1;

// The text that is printed of a book and its amounts, as far as they are read.
pub fn printed_text(book: &[u8], amounts: &[u8]) -> Text
    ensures { result ≡ printed book.now amounts.now }
{
    let book = &book[..BOOK_MOST.min(book.len())];
    let amounts = &amounts[..AMOUNTS_MOST.min(amounts.len())];
    let mut flow = [0u32; 1024];
    let answer = find_and_run(book, amounts, &mut flow);
    text::render(answer, files::counts_at(book), &flow)
}
