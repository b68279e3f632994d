// The ticket panel's find-and-run, of at most 8 lots and 8 calls (document 02, request 6). Where `find_and_run` stands beside it both reply and
// write alike, but for 20, which is the panel's alone.
use std::io;

// lots 8 to 1, calls 1 to 8
const EIGHT_AMOUNTS: [u8; 71] =
    *b"CLA\x01\0\x08\x08\x08\0\0\0\x07\0\0\0\x06\0\0\0\x05\0\0\0\x04\0\0\0\x03\0\0\0\x02\0\0\0\x01\0\0\0\x01\0\0\0\x02\0\0\0\x03\0\0\0\x04\0\0\0\x05\0\0\0\x06\0\0\0\x07\0\0\0\x08\0\0\0";

// 9 by 1, costs 9 to 1
pub const NINE_BOOK: [u8; 79] =
    *b"CLB\x01\0\x09\x01\x01\0\0\0\x09\0\0\0\x01\0\0\0\x08\0\0\0\x01\0\0\0\x07\0\0\0\x01\0\0\0\x06\0\0\0\x01\0\0\0\x05\0\0\0\x01\0\0\0\x04\0\0\0\x01\0\0\0\x03\0\0\0\x01\0\0\0\x02\0\0\0\x01\0\0\0\x01\0\0\0";

// lots 1 each, call 9
const NINE_AMOUNTS: [u8; 47] =
    *b"CLA\x01\0\x09\x01\x01\0\0\0\x01\0\0\0\x01\0\0\0\x01\0\0\0\x01\0\0\0\x01\0\0\0\x01\0\0\0\x01\0\0\0\x01\0\0\0\x09\0\0\0";

// 8 by 0
const LOTS_ALONE: [u8; 39] =
    *b"CLB\x01\0\x08\0\0\0\0\0\0\0\0\0\0\0\0\0\0\0\0\0\0\0\0\0\0\0\0\0\0\0\0\0\0\0\0\0";

// lots 3 0 0 0 0 0 0 0
const LOTS_ALONE_AMOUNTS: [u8; 39] =
    *b"CLA\x01\0\x08\0\x03\0\0\0\0\0\0\0\0\0\0\0\0\0\0\0\0\0\0\0\0\0\0\0\0\0\0\0\0\0\0\0";

// calls 3 0 0 0 0 0 0 0
const CALLS_ALONE_AMOUNTS: [u8; 39] =
    *b"CLA\x01\0\0\x08\x03\0\0\0\0\0\0\0\0\0\0\0\0\0\0\0\0\0\0\0\0\0\0\0\0\0\0\0\0\0\0\0";

// The row of a lot that is eligible for all 8 calls, each at so many times its number.
fn fill_row(row: &mut [u8; 36], times: u8) {
    row[0] = 255;
    let (costs, _) = row[4..].as_chunks_mut::<4>();
    for (call, place) in (0..8u8).zip(costs) {
        let cost = u32::from(times) * u32::from(call);
        *place = cost.to_le_bytes();
    }
}

// 8 by 8, with all 64 pairs, lot i with call j at cost (7 - i) * j.
fn eight_by_eight() -> [u8; 295] {
    let mut book = [0u8; 295];
    files::write_opening(&mut book, &files::BOOK_MARK, u16::from_le_bytes([8, 8]));
    let (rows, _) = book[7..].as_chunks_mut::<36>();
    for (times, row) in (0..8).rev().zip(rows) {
        fill_row(row, times);
    }
    book
}

// The same book in version 2, with a rebate: (0, 7) at cost -1,000,000, the lowest there is.
fn with_rebate() -> [u8; 295] {
    let mut book = eight_by_eight();
    book[3] = 2;
    let (numbers, _) = book[7..].as_chunks_mut::<4>();
    numbers[8] = (-1_000_000i32).to_le_bytes();
    book
}

// The first book without its last pair, (7, 7), in the first 291 bytes.
fn with_gap() -> [u8; 295] {
    let mut book = eight_by_eight();
    let (rows, _) = book[7..].as_chunks_mut::<36>();
    // The word's lowest byte.
    rows[7][0] = 127;
    book
}

// Both entry points, each with a flow whose entries are 7.
pub fn both(
    rt: &impl Print,
    label: &str,
    book: &[u8],
    amounts: &[u8],
    flow: &mut [u32],
) -> io::Result<()> {
    super::find_and_run_by(
        rt,
        label,
        "find_and_run",
        placer::find_and_run,
        book,
        amounts,
        flow,
    )?;
    flow.fill(7);
    super::find_and_run_by(
        rt,
        label,
        "find_and_run_panel",
        placer::find_and_run_panel,
        book,
        amounts,
        flow,
    )
}

// F1, and F9, which has no order. A desk with 8 lots and no calls, and one with 8 calls and no lots, in version 2.
pub fn within_eight(rt: &impl Print) -> io::Result<()> {
    super::find_and_run_by(
        rt,
        "F1",
        "find_and_run_panel",
        placer::find_and_run_panel,
        &super::given::F1_BOOK,
        &super::given::F1_AMOUNTS,
        &mut [7; 5],
    )?;
    super::find_and_run_by(
        rt,
        "F9",
        "find_and_run_panel",
        placer::find_and_run_panel,
        &super::given::F9_BOOK,
        &super::given::F9_AMOUNTS,
        &mut [7; 9],
    )?;
    both(
        rt,
        "8 lots alone",
        &LOTS_ALONE,
        &LOTS_ALONE_AMOUNTS,
        &mut [7; 5],
    )?;
    both(
        rt,
        "8 calls alone",
        b"CLB\x02\0\0\x08",
        &CALLS_ALONE_AMOUNTS,
        &mut [7; 5],
    )
}

// A flow needs 64 entries: of 65 the last is kept, and 63 are too few. The order found begins at (0, 0), with the rebate at (0, 7), and without
// the last pair, (7, 7), at (6, 7).
pub fn eight(rt: &impl Print) -> io::Result<()> {
    let book = eight_by_eight();
    both(rt, "8 by 8", &book, &EIGHT_AMOUNTS, &mut [7; 65])?;
    super::find_and_run_by(
        rt,
        "8 by 8, 63 entries",
        "find_and_run_panel",
        placer::find_and_run_panel,
        &book,
        &EIGHT_AMOUNTS,
        &mut [7; 63],
    )?;
    both(
        rt,
        "8 by 8 with a rebate",
        &with_rebate(),
        &EIGHT_AMOUNTS,
        &mut [7; 65],
    )?;
    let gap = with_gap();
    let gap = gap.get(..291).unwrap_or(&gap);
    both(rt, "8 by 8 less a pair", gap, &EIGHT_AMOUNTS, &mut [7; 65])
}

// 20 comes after 3 and 4 and before 6. A whole book of 9 lots is 20 for the panel, and `find_and_run` runs it.
pub fn above_eight(rt: &impl Print) -> io::Result<()> {
    both(
        rt,
        "9 by 1, rows missing",
        b"CLB\x01\0\x09\x01",
        b"",
        &mut [7; 5],
    )?;
    both(
        rt,
        "1 by 9, rows missing",
        b"CLB\x01\0\x01\x09",
        b"",
        &mut [7; 5],
    )?;
    both(rt, "33 by 9", b"CLB\x01\0\x21\x09", b"", &mut [7; 5])?;
    both(rt, "9 by 33", b"CLB\x01\0\x09\x21", b"", &mut [7; 5])?;
    both(
        rt,
        "9 by 1 in version 3",
        b"CLB\x03\0\x09\x01",
        b"",
        &mut [7; 5],
    )?;
    both(rt, "9 by 1", &NINE_BOOK, &NINE_AMOUNTS, &mut [7; 9])
}
