// Document 01's known examples, F1 to F14, run through the entry points, a few more inputs to a run that tempt to another answer, runs with
// an idle call (document 02, request 2), books with rebates (request 4), books with no lots or no calls (request 5), the ticket panel's runs
// (request 6), and amounts with reserves (request 7).
#![tactic(auto)]

mod given;
mod reserves;
mod show;
mod ticket_panel;
mod zero_counts;

use specification::{Placed, Refusal};
use std::io;

fn check(rt: &impl Print, label: &str, book: &[u8], order: &[u8]) -> io::Result<()> {
    show::checked(rt, label, order::check_order(book, order))
}

// Runs an order, with the flow that is lent.
fn run_in(
    rt: &impl Print,
    label: &str,
    book: &[u8],
    order: &[u8],
    amounts: &[u8],
    flow: &mut [u32],
) -> io::Result<()> {
    let answer = run::run_order(book, order, amounts, flow);
    show::placed(rt, label, "run_order", answer, flow)
}

// Finds and runs by the entry point of that name, with the flow that is lent.
fn find_and_run_by<F: FnOnce(&[u8], &[u8], &mut [u32]) -> Result<Placed, Refusal>>(
    rt: &impl Print,
    label: &str,
    name: &str,
    entry_point: F,
    book: &[u8],
    amounts: &[u8],
    flow: &mut [u32],
) -> io::Result<()>
    requires { F.IsAlwaysCallable entry_point }
{
    let answer = entry_point(book, amounts, flow);
    show::placed(rt, label, name, answer, flow)
}

// The same with a flow of five entries, and of seven with an idle call.
fn run(rt: &impl Print, label: &str, book: &[u8], order: &[u8], amounts: &[u8]) -> io::Result<()> {
    run_in(rt, label, book, order, amounts, &mut [7; 5])
}

fn find_and_run(rt: &impl Print, label: &str, book: &[u8], amounts: &[u8]) -> io::Result<()> {
    find_and_run_by(
        rt,
        label,
        "find_and_run",
        placer::find_and_run,
        book,
        amounts,
        &mut [7; 5],
    )
}

fn find_and_run_idle(rt: &impl Print, label: &str, book: &[u8], amounts: &[u8]) -> io::Result<()> {
    find_and_run_by(
        rt,
        label,
        "find_and_run_idle",
        placer::find_and_run_idle,
        book,
        amounts,
        &mut [7; 7],
    )
}

// Finds an order, runs the file that was written, and finds and runs in one call.
fn place(rt: &impl Print, label: &str, book: &[u8], amounts: &[u8]) -> io::Result<()> {
    let mut order = [255u8; 18];
    let answer = finder::find_order(book, &mut order);
    show::found(rt, label, answer, &order)?;
    if let Ok(length) = answer {
        let file = order.get(..length).unwrap_or(&order);
        run(rt, label, book, file, amounts)?;
    }
    find_and_run(rt, label, book, amounts)
}

fn f1(rt: &impl Print) -> io::Result<()> {
    show::counts(rt, "F1", "read_book", book::read_book(&given::F1_BOOK))?;
    show::counts(
        rt,
        "F1",
        "read_amounts",
        amounts::read_amounts(&given::F1_BOOK, &given::F1_AMOUNTS),
    )?;
    place(rt, "F1", &given::F1_BOOK, &given::F1_AMOUNTS)
}

fn f2_to_f4(rt: &impl Print) -> io::Result<()> {
    check(rt, "F2", &given::F1_BOOK, &given::F2_ORDER)?;
    check(rt, "F3", &given::F1_BOOK, &given::F3_ORDER)?;
    check(rt, "F4", &given::F1_BOOK, &given::F4_ORDER)
}

fn f5_to_f8(rt: &impl Print) -> io::Result<()> {
    check(rt, "F5", &given::F5_BOOK, &given::F2_ORDER)?;
    check(rt, "F6", &given::F6_BOOK, &given::F6_ORDER)?;
    place(rt, "F7", &given::F6_BOOK, &given::F7_AMOUNTS)?;
    place(rt, "F8", &given::F6_BOOK, &given::F8_AMOUNTS)
}

// No order exists. A buffer that is too short comes before that, and amounts that are refused before both.
fn f9(rt: &impl Print) -> io::Result<()> {
    let mut short = [255u8; 18];
    let answer = finder::find_order(&given::F9_BOOK, &mut short);
    show::found(rt, "F9, 18 bytes", answer, &short)?;
    let mut order = [255u8; 19];
    let answer = finder::find_order(&given::F9_BOOK, &mut order);
    show::found(rt, "F9", answer, &order)
}

fn f9_in_one_call(rt: &impl Print) -> io::Result<()> {
    find_and_run_by(
        rt,
        "F9",
        "find_and_run",
        placer::find_and_run,
        &given::F9_BOOK,
        &given::F9_AMOUNTS,
        &mut [7; 9],
    )?;
    find_and_run(rt, "F9, 5 entries", &given::F9_BOOK, &given::F9_AMOUNTS)?;
    find_and_run(rt, "F9, no amounts", &given::F9_BOOK, b"")
}

fn f10_to_f12(rt: &impl Print) -> io::Result<()> {
    place(rt, "F10", &given::F10_BOOK, &given::F10_AMOUNTS)?;
    place(rt, "F11", &given::F10_BOOK, &given::F11_AMOUNTS)?;
    place(rt, "F12", &given::F12_BOOK, &given::F12_AMOUNTS)
}

fn f13(rt: &impl Print) -> io::Result<()> {
    show::counts(rt, "F13", "read_book", book::read_book(&given::F13_BOOK))?;
    show::counts(
        rt,
        "F13",
        "read_amounts",
        amounts::read_amounts(&given::F12_BOOK, &given::F13_AMOUNTS),
    )?;
    place(rt, "F13", &given::F12_BOOK, &given::F13_AMOUNTS)
}

fn f14(rt: &impl Print) -> io::Result<()> {
    show::counts(rt, "F14", "read_book", book::read_book(&given::F14_CALLS))?;
    show::counts(rt, "F14", "read_book", book::read_book(&given::F14_BIT))
}

// The whole order is checked before the amounts are looked at. The file that is run ends at the length replied: what stands after it in
// the buffer is not part of it.
fn orders_refused(rt: &impl Print) -> io::Result<()> {
    run(
        rt,
        "F2",
        &given::F1_BOOK,
        &given::F2_ORDER,
        &given::F1_AMOUNTS,
    )?;
    run(rt, "F2, no amounts", &given::F1_BOOK, &given::F2_ORDER, b"")?;
    let mut order = [255u8; 18];
    let _ = finder::find_order(&given::F1_BOOK, &mut order);
    run(
        rt,
        "F1, all of the buffer",
        &given::F1_BOOK,
        &order,
        &given::F1_AMOUNTS,
    )
}

// A flow needs an entry for each lot with each call, eligible or not. A lot with no eligible pair is left over, and every call is met: Covered.
fn few_pairs(rt: &impl Print) -> io::Result<()> {
    find_and_run_by(
        rt,
        "F7, 3 entries",
        "find_and_run",
        placer::find_and_run,
        &given::F6_BOOK,
        &given::F7_AMOUNTS,
        &mut [7; 3],
    )?;
    place(
        rt,
        "Lot with no eligible pair",
        &given::LONE_BOOK,
        &given::LONE_AMOUNTS,
    )
}

// A call that lacks a unit is Short, also where a lot has one left that is not eligible for it. Stock that no call asks for is Covered.
fn left_and_lacking(rt: &impl Print) -> io::Result<()> {
    place(
        rt,
        "Lot left and call lacking",
        &given::F6_BOOK,
        &given::STRANDED_AMOUNTS,
    )?;
    place(rt, "Nothing asked", &given::F6_BOOK, &given::IDLE_AMOUNTS)
}

// The plain run leaves the cheap lot idle; with an idle call the dear one stays. Equal totals and no amounts at all are Full.
fn stock_to_spare(rt: &impl Print) -> io::Result<()> {
    find_and_run(rt, "Spare", &given::SPARE_BOOK, &given::SPARE_AMOUNTS)?;
    find_and_run_idle(rt, "Spare", &given::SPARE_BOOK, &given::SPARE_AMOUNTS)?;
    find_and_run_idle(rt, "F1", &given::F1_BOOK, &given::F1_AMOUNTS)?;
    find_and_run_idle(rt, "No amounts", &given::SPARE_BOOK, &given::NO_AMOUNTS)
}

// A lot with no eligible call may stay idle, and a call that it alone could meet still lacks. Of six lots the five with a cost stay idle, more units
// than 32 bits hold.
fn lots_that_stay(rt: &impl Print) -> io::Result<()> {
    find_and_run_idle(rt, "F8", &given::F6_BOOK, &given::F8_AMOUNTS)?;
    find_and_run_idle(rt, "F10", &given::F10_BOOK, &given::F10_AMOUNTS)?;
    find_and_run_idle(rt, "Dear lot", &given::DEAR_BOOK, &given::DEAR_AMOUNTS)?;
    find_and_run_idle(rt, "Six lots", &given::SIX_BOOK, &given::SIX_AMOUNTS)
}

// The book has an order, and the enlarged one has none. 17 is about the book's own m and comes before 13, 18 before 17, and 16 before 18.
fn idle_refused(rt: &impl Print) -> io::Result<()> {
    find_and_run_by(
        rt,
        "Corners",
        "find_and_run",
        placer::find_and_run,
        &given::CORNERS_BOOK,
        &given::CORNERS_AMOUNTS,
        &mut [7; 6],
    )?;
    find_and_run_idle(rt, "Corners", &given::CORNERS_BOOK, &given::CORNERS_AMOUNTS)?;
    find_and_run_by(
        rt,
        "Corners, 5 entries",
        "find_and_run_idle",
        placer::find_and_run_idle,
        &given::CORNERS_BOOK,
        &given::CORNERS_AMOUNTS,
        &mut [7; 5],
    )?;
    find_and_run_by(
        rt,
        "Corners, calls above lots",
        "find_and_run_idle",
        placer::find_and_run_idle,
        &given::CORNERS_BOOK,
        &given::CORNERS_LESS,
        &mut [7; 5],
    )?;
    find_and_run_idle(
        rt,
        "Call above the limit",
        &given::F12_BOOK,
        &given::HIGH_CALL,
    )
}

// With 31 calls the idle one is the last that fits; with 32 there is none, which is told after 18 and before 17.
fn many_calls(rt: &impl Print) -> io::Result<()> {
    let amounts = given::wide_amounts(31, 3);
    find_and_run_by(
        rt,
        "31 calls",
        "find_and_run_idle",
        placer::find_and_run_idle,
        &given::WIDE_BOOK,
        amounts.get(..135).unwrap_or(&amounts),
        &mut [7; 32],
    )?;
    find_and_run_idle(
        rt,
        "32 calls",
        &given::WIDEST_BOOK,
        &given::wide_amounts(32, 3),
    )?;
    find_and_run_idle(
        rt,
        "32 calls, above the lot",
        &given::WIDEST_BOOK,
        &given::wide_amounts(32, 1),
    )
}

// A least cost may be below zero. With an idle call, whose cost is 0, the lot with the rebate is placed and the dear one stays.
fn rebates(rt: &impl Print) -> io::Result<()> {
    place(rt, "Rebates", &given::REBATES_BOOK, &given::F1_AMOUNTS)?;
    place(rt, "Lowest cost", &given::LOWEST_BOOK, &given::F12_AMOUNTS)?;
    find_and_run(
        rt,
        "One rebate",
        &given::ONE_REBATE_BOOK,
        &given::ONE_REBATE_AMOUNTS,
    )?;
    find_and_run_idle(
        rt,
        "One rebate",
        &given::ONE_REBATE_BOOK,
        &given::ONE_REBATE_AMOUNTS,
    )
}

// A book has version 1 or 2; an order has version 1, with a book of version 2 too.
fn versions(rt: &impl Print) -> io::Result<()> {
    show::counts(
        rt,
        "Version 3 of a book",
        "read_book",
        book::read_book(&given::BOOK_3),
    )?;
    check(
        rt,
        "Version 2 of an order",
        &given::REBATES_BOOK,
        &given::ORDER_2,
    )?;
    run(
        rt,
        "Version 2 of an order",
        &given::REBATES_BOOK,
        &given::ORDER_2,
        &given::F1_AMOUNTS,
    )
}

fn main(rt: HostRuntime) -> io::Result<()> {
    f1(&rt)?;
    f2_to_f4(&rt)?;
    f5_to_f8(&rt)?;
    f9(&rt)?;
    f9_in_one_call(&rt)?;
    f10_to_f12(&rt)?;
    f13(&rt)?;
    f14(&rt)?;
    orders_refused(&rt)?;
    few_pairs(&rt)?;
    left_and_lacking(&rt)?;
    stock_to_spare(&rt)?;
    lots_that_stay(&rt)?;
    idle_refused(&rt)?;
    many_calls(&rt)?;
    rebates(&rt)?;
    versions(&rt)?;
    zero_counts::desks(&rt)?;
    ticket_panel::within_eight(&rt)?;
    ticket_panel::eight(&rt)?;
    ticket_panel::above_eight(&rt)?;
    reserves::runs(&rt)?;
    reserves::above_lots(&rt)?;
    reserves::several_refusals(&rt)?;
    reserves::versions(&rt)
}
