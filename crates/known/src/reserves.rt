// Amounts of version 2, with a reserve for each lot (document 02, request 7), given to the five entry points that read amounts. A lot's amount is
// what it holds less its reserve.
use std::io;

// lots 7 5, calls 3 6, reserves 2 1
const F1_RESERVED: [u8; 31] =
    *b"CLA\x02\0\x02\x02\x07\0\0\0\x05\0\0\0\x03\0\0\0\x06\0\0\0\x02\0\0\0\x01\0\0\0";

// 9 by 1, no units, and reserves 1 0 0 0 0 0 0 0 0
const NINE_RESERVED: [u8; 83] =
    *b"CLA\x02\0\x09\x01\0\0\0\0\0\0\0\0\0\0\0\0\0\0\0\0\0\0\0\0\0\0\0\0\0\0\0\0\0\0\0\0\0\0\0\0\0\0\0\0\x01\0\0\0\0\0\0\0\0\0\0\0\0\0\0\0\0\0\0\0\0\0\0\0\0\0\0\0\0\0\0\0\0\0\0\0";

// What the five answer to a book, an order of it, and amounts.
fn place(
    rt: &impl Print,
    label: &str,
    book: &[u8],
    order: &[u8],
    amounts: &[u8],
) -> io::Result<()> {
    super::show::counts(
        rt,
        label,
        "read_amounts",
        amounts::read_amounts(book, amounts),
    )?;
    super::run(rt, label, book, order, amounts)?;
    super::ticket_panel::both(rt, label, book, amounts, &mut [7; 5])?;
    super::find_and_run_idle(rt, label, book, amounts)
}

// The same for F1's book, with F4's order.
fn f1(rt: &impl Print, label: &str, amounts: &[u8]) -> io::Result<()> {
    place(
        rt,
        label,
        &super::given::F1_BOOK,
        &super::given::F4_ORDER,
        amounts,
    )
}

// And with amounts of a version: lots 7 5, calls 3 6, and these reserves.
fn f1_reserved(rt: &impl Print, label: &str, version: u8, lot_0: u8, lot_1: u8) -> io::Result<()> {
    let mut amounts = F1_RESERVED;
    amounts[3] = version;
    amounts[23] = lot_0;
    amounts[27] = lot_1;
    f1(rt, label, &amounts)
}

// Lots 7 5 less reserves 2 1 are F1's 5 4: Full. With less reserved it is Covered, with more Short, and 18 with an idle call. Reserves are not left
// over: a desk that reserves all and asks for nothing is Full. In the last the idle call takes one unit, two without the reserve.
pub fn runs(rt: &impl Print) -> io::Result<()> {
    f1_reserved(rt, "Reserves 2 1", 2, 2, 1)?;
    f1_reserved(rt, "Reserves 1 0", 2, 1, 0)?;
    f1_reserved(rt, "Reserves 2 2", 2, 2, 2)?;
    f1_reserved(rt, "Reserves 7 0", 2, 7, 0)?;
    f1(
        rt,
        "All reserved, nothing asked",
        b"CLA\x02\0\x02\x02\x07\0\0\0\x05\0\0\0\0\0\0\0\0\0\0\0\x07\0\0\0\x05\0\0\0",
    )?;
    place(
        rt,
        "Two lots alone, all reserved",
        b"CLB\x01\0\x02\0\0\0\0\0\0\0\0\0",
        b"CLO\x01\0\0\0",
        b"CLA\x02\0\x02\0\x04\0\0\0\0\0\0\0\x04\0\0\0\0\0\0\0",
    )?;
    place(
        rt,
        "Rebates, reserves 2 1",
        &super::given::REBATES_BOOK,
        &super::given::F4_ORDER,
        &F1_RESERVED,
    )?;
    place(
        rt,
        "Spare, reserves 0 1",
        &super::given::SPARE_BOOK,
        &super::given::F2_ORDER,
        b"CLA\x02\0\x02\x02\x03\0\0\0\x04\0\0\0\x03\0\0\0\x02\0\0\0\0\0\0\0\x01\0\0\0",
    )
}

// 21 of lot 0 and of lot 1, also where the reserve is the highest 32-bit number. 16 of a call comes before 21 of lot 0; and a lot that holds
// 1,000,000,001 is 16 with a reserve of 1 too.
pub fn above_lots(rt: &impl Print) -> io::Result<()> {
    f1_reserved(rt, "Reserves 8 1", 2, 8, 1)?;
    f1_reserved(rt, "Reserves 2 6", 2, 2, 6)?;
    f1(
        rt,
        "Reserves 4294967295 1",
        b"CLA\x02\0\x02\x02\x07\0\0\0\x05\0\0\0\x03\0\0\0\x06\0\0\0\xff\xff\xff\xff\x01\0\0\0",
    )?;
    f1(
        rt,
        "Reserves 8 1, call above the limit",
        b"CLA\x02\0\x02\x02\x07\0\0\0\x05\0\0\0\x03\0\0\0\x01\xca\x9a\x3b\x08\0\0\0\x01\0\0\0",
    )?;
    f1(
        rt,
        "Reserves 2 1, lot above the limit",
        b"CLA\x02\0\x02\x02\x07\0\0\0\x01\xca\x9a\x3b\x03\0\0\0\x06\0\0\0\x02\0\0\0\x01\0\0\0",
    )
}

// 21 comes before 17, and before 18: calls 3 60 exceed lots 7 5. For the panel 20 comes before it.
pub fn several_refusals(rt: &impl Print) -> io::Result<()> {
    let label = "Reserves 8 1, calls above lots, 3 entries";
    let amounts = b"CLA\x02\0\x02\x02\x07\0\0\0\x05\0\0\0\x03\0\0\0\x3c\0\0\0\x08\0\0\0\x01\0\0\0";
    let book = &super::given::F1_BOOK;
    let order = &super::given::F4_ORDER;
    super::run_in(rt, label, book, order, amounts, &mut [7; 3])?;
    super::find_and_run_by(
        rt,
        label,
        "find_and_run_idle",
        placer::find_and_run_idle,
        book,
        amounts,
        &mut [7; 3],
    )?;
    super::ticket_panel::both(rt, label, book, amounts, &mut [7; 3])?;
    super::ticket_panel::both(
        rt,
        "9 by 1, reserve of 1",
        &super::ticket_panel::NINE_BOOK,
        &NINE_RESERVED,
        &mut [7; 5],
    )
}

// 6 and 8 go by the version's length. Amounts have version 1 or 2.
pub fn versions(rt: &impl Print) -> io::Result<()> {
    f1(rt, "Version 2 of amounts, no reserves", &F1_RESERVED[..23])?;
    f1_reserved(rt, "Version 1 of amounts, with reserves", 1, 2, 1)?;
    f1_reserved(rt, "Version 0 of amounts", 0, 2, 1)?;
    f1_reserved(rt, "Version 3 of amounts", 3, 2, 1)
}
