// Checks the known examples of orders, F2 to F6 of document 01, and orders that tempt a check to err, and writes what each comes to.
#![tactic(auto)]

ghost use Rattle.std.specs.Prelude.{◌≤◌};

use std::io;

// One case: an order file checked against a book, and the count of pairs or the refusal.
fn show(rt: &impl Print, label: &str, book: &[u8], order: &[u8]) -> io::Result<()> {
    match order::check_order(book, order) {
        Ok(count) => println!(rt; "{label}: passes {count}"),
        Err(refusal) => println!(rt; "{label}: {refusal}"),
    }
}

// A book of n lots and m calls with these numbers, in a file of so many bytes.
fn book_of<const LENGTH: usize>(n: u8, m: u8, numbers: &[u32]) -> [u8; LENGTH]
    requires { 7 ≤ LENGTH }
{
    let mut file = [0u8; LENGTH];
    let bytes = &mut file[..];
    files::write_opening(bytes, &files::BOOK_MARK, u16::from_le_bytes([n, m]));
    let (places, _) = bytes[7..].as_chunks_mut::<4>();
    for (place, number) in places.iter_mut().zip(numbers) {
        *place = number.to_le_bytes();
    }
    file
}

// One case: the order's pairs as document 01 writes them, a digit for the lot and one for the call, as in "01 00 10"; at most 100.
fn show_pairs(rt: &impl Print, label: &str, book: &[u8], pairs: &str) -> io::Result<()> {
    let mut file = [0u8; 207];
    let digits = pairs.bytes().filter(|byte| *byte != b' ');
    for (place, digit) in file[7..].iter_mut().zip(digits) {
        *place = digit % 16;
    }
    let count = (pairs.len() / 3 + 1).min(100);
    files::write_opening(&mut file, &files::ORDER_MARK, count as u16);
    show(rt, label, book, &file[..7 + 2 * count])
}

// A book of two lots and two calls, all eligible.
fn square(a: u32, b: u32, c: u32, d: u32) -> [u8; 31] {
    book_of(2, 2, &[3, a, b, 3, c, d])
}

// The known examples.
fn show_examples(rt: &impl Print) -> io::Result<()> {
    let f1 = square(1, 2, 3, 5);
    show_pairs(rt, "F2", &f1, "00 01 10 11")?;
    show_pairs(rt, "F3", &f1, "11 00 01 10")?;
    show_pairs(rt, "F4", &f1, "01 10 00 11")?;
    let f5 = square(1, 2, 3, 4);
    show_pairs(rt, "F5", &f5, "00 01 10 11")?;
    let f6 =
        b"CLB\x01\x00\x02\x02\x03\x00\x00\x00\x00\x00\x00\x00\x00\x00\x00\x00\x01\x00\x00\x00\x00\x00\x00\x00";
    show_pairs(rt, "F6", f6, "00 01 10")
}

// The same orders by other books and turned round, and orders of one lot and of no pairs.
fn show_variations(rt: &impl Print) -> io::Result<()> {
    let f1 = square(1, 2, 3, 5);
    let f5 = square(1, 2, 3, 4);
    show_pairs(rt, "F3's order by F5's book", &f5, "11 00 01 10")?;
    show_pairs(rt, "F3 turned round", &f1, "00 11 01 10")?;
    show_pairs(
        rt,
        "one lot",
        b"CLB\x01\x00\x01\x02\x03\x00\x00\x00\x05\x00\x00\x00\x01\x00\x00\x00",
        "00 01",
    )?;
    show(
        rt,
        "no eligible pair",
        b"CLB\x01\x00\x01\x01\x00\x00\x00\x00",
        b"CLO\x01\x00\x00\x00",
    )
}

// One case: an order file of 65,535 pairs, the four of F4, then one whose lot and call are given, then (0, 0).
fn show_longest(rt: &impl Print, label: &str, book: &[u8], fifth: u8) -> io::Result<()> {
    let mut file = [0u8; 131077];
    files::write_opening(&mut file, &files::ORDER_MARK, 65535);
    file[7..17].copy_from_slice(&[0, 1, 1, 0, 0, 0, 1, 1, fifth, fifth]);
    show(rt, label, book, &file)
}

// A book of 15 lots and 20 calls, all eligible at cost 0.
fn book_of_300() -> [u8; 1267] {
    let mut numbers = [0u32; 315];
    let (rows, _) = numbers.as_chunks_mut::<21>();
    for row in rows {
        row[0] = 0xfffff;
    }
    book_of(15, 20, &numbers)
}

// The order of its 300 pairs lot by lot.
fn order_of_300() -> [u8; 607] {
    let mut order = [0u8; 607];
    files::write_opening(&mut order, &files::ORDER_MARK, 300);
    let (lots, _) = order[7..].as_chunks_mut::<40>();
    for (lot, pairs) in (0..15).zip(lots) {
        let (pairs, _) = pairs.as_chunks_mut::<2>();
        for (call, pair) in (0..20).zip(pairs) {
            *pair = [lot, call];
        }
    }
    order
}

// The bytes of the count of pairs: 300 is 44 and 1.
fn show_counts(rt: &impl Print) -> io::Result<()> {
    let book = book_of_300();
    let mut order = order_of_300();
    show(rt, "300 pairs", &book, &order)?;
    order[5] = 1;
    order[6] = 44;
    show(rt, "300 pairs, the count's bytes exchanged", &book, &order)
}

// A file's length against its count of pairs.
fn show_lengths(rt: &impl Print) -> io::Result<()> {
    let f1 = square(1, 2, 3, 5);
    show(
        rt,
        "a byte short, a pair outside",
        &f1,
        b"CLO\x01\x00\x02\x00\xff\xff\x00",
    )?;
    show(
        rt,
        "a byte more, a pair outside",
        &f1,
        b"CLO\x01\x00\x01\x00\xff\xff\x00",
    )?;
    show(rt, "65,535 pairs, none there", &f1, b"CLO\x01\x00\xff\xff")?;
    show_longest(rt, "65,535 pairs, (0, 0) after all four", &f1, 0)?;
    show_longest(rt, "65,535 pairs, (255, 255) after all four", &f1, 255)
}

// Openings, of the order and of the book before it.
fn show_openings(rt: &impl Print) -> io::Result<()> {
    let f1 = square(1, 2, 3, 5);
    show(rt, "under seven bytes", &f1, b"CLO\x01\x00\x00")?;
    show(rt, "a book's mark", &f1, b"CLB\x01\x00\x00\x00")?;
    show(rt, "version 256", &f1, b"CLO\x00\x01\x00\x00")?;
    show(
        rt,
        "a refused book, and an order under seven bytes",
        b"CLB\x01\x00\x21\x02",
        b"CLO",
    )
}

// Pairs outside the book.
fn show_pairs_outside(rt: &impl Print) -> io::Result<()> {
    let f1 = square(1, 2, 3, 5);
    show(rt, "call 2 of lot 0", &f1, b"CLO\x01\x00\x01\x00\x00\x02")?;
    show(rt, "call 32 of lot 0", &f1, b"CLO\x01\x00\x01\x00\x00\x20")?;
    show(
        rt,
        "call 255 of lot 31",
        &f1,
        b"CLO\x01\x00\x01\x00\x1f\xff",
    )
}

// Pairs met before, and pairs missing.
fn show_pairs_met(rt: &impl Print) -> io::Result<()> {
    let f1 = square(1, 2, 3, 5);
    show_pairs(rt, "met before, then outside", &f1, "00 00 99")?;
    show_pairs(rt, "met before, one between", &f1, "00 01 00")?;
    show_pairs(rt, "first pair twice", &f1, "00 00 01 10 11")?;
    show_pairs(rt, "F2 without its last pair", &f1, "00 01 10")?;
    show(rt, "no pairs", &f1, b"CLO\x01\x00\x00\x00")
}

// Two blocks of pairs: in lots 0 and 1 a cost sum is too high, in lots 2 and 3 a pair is not eligible.
fn show_blocks(rt: &impl Print) -> io::Result<()> {
    let book: [u8; 51] = book_of(4, 4, &[3, 1, 0, 3, 0, 1, 12, 0, 0, 4, 0]);
    show_pairs(
        rt,
        "sum too high at 0, not eligible at 1",
        &book,
        "00 22 01 10 11 23 32",
    )?;
    show_pairs(
        rt,
        "not eligible at 0, sum too high at 1",
        &book,
        "22 00 01 10 11 23 32",
    )
}

// Rows - 7 - 9 and 1 2 - 3, - not eligible: a cost's position in its row is not its call. The three answers to a quadruple (request 3).
fn show_gaps(rt: &impl Print) -> io::Result<()> {
    let book: [u8; 35] = book_of(2, 4, &[10, 7, 9, 11, 1, 2, 3]);
    show_pairs(rt, "gaps, 7 + 3 and 9 + 2", &book, "01 03 11 13 10")?;
    show_pairs(rt, "gaps, 9 + 2 and 7 + 3", &book, "03 01 11 13 10")?;
    show_pairs(rt, "gaps, (0, 0) not eligible", &book, "11 01 10 13 03")
}

// Version 2 of a book: sums are compared with their signs (request 4). Rows -9 - 3 and 2 9 8, - not eligible; and the lowest and highest
// costs.
fn show_rebates(rt: &impl Print) -> io::Result<()> {
    let gap =
        b"CLB\x02\x00\x02\x03\x05\x00\x00\x00\xf7\xff\xff\xff\x03\x00\x00\x00\x07\x00\x00\x00\x02\x00\x00\x00\x09\x00\x00\x00\x08\x00\x00\x00";
    show_pairs(rt, "rebate, -9 + 8 and 3 + 2", gap, "00 02 10 12 11")?;
    show_pairs(rt, "rebate, 3 + 2 and -9 + 8", gap, "02 00 10 12 11")?;
    let widest =
        b"CLB\x02\x00\x02\x02\x03\x00\x00\x00\xc0\xbd\xf0\xff\x40\x42\x0f\x00\x03\x00\x00\x00\x40\x42\x0f\x00\xc0\xbd\xf0\xff";
    show_pairs(rt, "lowest sum first", widest, "00 11 01 10")?;
    show_pairs(rt, "highest sum first", widest, "01 10 00 11")?;
    let alike =
        b"CLB\x02\x00\x02\x02\x03\x00\x00\x00\x40\x42\x0f\x00\xc0\xbd\xf0\xff\x03\x00\x00\x00\x40\x42\x0f\x00\xc0\xbd\xf0\xff";
    show_pairs(rt, "highest first in each lot", alike, "00 01 10 11")?;
    show_pairs(rt, "lowest first in each lot", alike, "01 00 11 10")?;
    show(rt, "version 2 of an order", widest, b"CLO\x02\x00\x00\x00")
}

// A book with no lots or no calls (request 5) has an order of no pairs, and any pair is outside.
fn show_zero_counts(rt: &impl Print) -> io::Result<()> {
    let no_pairs = b"CLO\x01\x00\x00\x00";
    let nothing = b"CLB\x01\x00\x00\x00";
    let no_lots = b"CLB\x02\x00\x00\x20";
    let no_calls = b"CLB\x01\x00\x02\x00\x00\x00\x00\x00\x00\x00\x00\x00";
    show(rt, "no lots and no calls", nothing, no_pairs)?;
    show_pairs(rt, "no lots and no calls, a pair", nothing, "00")?;
    show(rt, "no lots, 32 calls, version 2", no_lots, no_pairs)?;
    show_pairs(rt, "no lots, 32 calls, a pair", no_lots, "00 00")?;
    show(rt, "two lots, no calls", no_calls, no_pairs)?;
    show_pairs(rt, "two lots, no calls, a pair", no_calls, "10")?;
    show(
        rt,
        "two lots, no calls, a byte more",
        no_calls,
        b"CLO\x01\x00\x00\x00\x00",
    )
}

// 22 lots and 7 calls, eligible (0, 0), (0, 3), (10, 0), (10, 3), (10, 6) and (21, 3): (10, 3) fails with (0, 6) and with (21, 0).
fn show_far_failures(rt: &impl Print) -> io::Result<()> {
    let mut numbers = [0u32; 28];
    numbers[0] = 9;
    numbers[12] = 73;
    numbers[26] = 8;
    let book: [u8; 119] = book_of(22, 7, &numbers);
    show(
        rt,
        "lots before calls",
        &book,
        b"CLO\x01\x00\x06\x00\x0a\x03\x00\x00\x00\x03\x0a\x00\x0a\x06\x15\x03",
    )
}

fn main(rt: HostRuntime) -> io::Result<()> {
    show_examples(&rt)?;
    show_variations(&rt)?;
    show_counts(&rt)?;
    show_lengths(&rt)?;
    show_openings(&rt)?;
    show_pairs_outside(&rt)?;
    show_pairs_met(&rt)?;
    show_blocks(&rt)?;
    show_gaps(&rt)?;
    show_rebates(&rt)?;
    show_zero_counts(&rt)?;
    show_far_failures(&rt)
}
