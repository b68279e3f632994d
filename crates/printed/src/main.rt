// The text that is printed of several books and amounts: each refusal that can come, nothing placed, a few lines, costs below zero, no lots or
// no calls, reserves, the longest files, and the most lines that a text can have.
#![tactic(auto)]

use std::io;

// Prints a label, and then the text of two files.
fn print(rt: &impl Print, label: &str, book: &[u8], amounts: &[u8]) -> io::Result<()> {
    rt.println(label)?;
    let text = placer::printed_text(book, amounts);
    rt.write_all(text.as_bytes())
}

// 1 by 1, cost 1,000,000; lot 1, call 1.
const BOOK: [u8; 15] = *b"CLB\x01\0\x01\x01\x01\0\0\0\x40\x42\x0f\0";

const AMOUNTS: [u8; 15] = *b"CLA\x01\0\x01\x01\x01\0\0\0\x01\0\0\0";

fn print_book(rt: &impl Print, label: &str, book: &[u8]) -> io::Result<()> {
    print(rt, label, book, &AMOUNTS)
}

fn print_amounts(rt: &impl Print, label: &str, amounts: &[u8]) -> io::Result<()> {
    print(rt, label, &BOOK, amounts)
}

fn book_openings(rt: &impl Print) -> io::Result<()> {
    print(rt, "absent files", b"", b"")?;
    print_book(rt, "book of 6 bytes", b"CLB\x01\0\x01")?;
    print_book(rt, "book with another mark", b"CLA\x01\0\x01\x01")?;
    print_book(rt, "book of version 256", b"CLB\0\x01\x01\x01")?;
    print_book(rt, "book of 33 calls", b"CLB\x01\0\x01\x21")
}

fn book_rows(rt: &impl Print) -> io::Result<()> {
    print_book(
        rt,
        "book with bit 2 of 2 calls",
        b"CLB\x01\0\x01\x02\x04\0\0\0",
    )?;
    print_book(rt, "book that ends in a word", b"CLB\x01\0\x01\x02\x04\0\0")?;
    print_book(
        rt,
        "book with a cost of 1,000,001",
        b"CLB\x01\0\x01\x01\x01\0\0\0\x41\x42\x0f\0",
    )?;
    print_book(
        rt,
        "book with a byte more",
        b"CLB\x01\0\x01\x01\x01\0\0\0\x40\x42\x0f\0\0",
    )
}

fn amounts_openings(rt: &impl Print) -> io::Result<()> {
    print_amounts(rt, "amounts absent", b"")?;
    print_amounts(
        rt,
        "amounts with another mark",
        b"CLB\x01\0\x01\x01\x01\0\0\0\x01\0\0\0",
    )?;
    print_amounts(
        rt,
        "amounts of version 3",
        b"CLA\x03\0\x01\x01\x01\0\0\0\x01\0\0\0",
    )?;
    print_amounts(
        rt,
        "amounts of 2 calls",
        b"CLA\x01\0\x01\x02\x01\0\0\0\x01\0\0\0",
    )
}

fn amounts_lengths(rt: &impl Print) -> io::Result<()> {
    print_amounts(
        rt,
        "amounts a byte short",
        b"CLA\x01\0\x01\x01\x01\0\0\0\x01\0\0",
    )?;
    print_amounts(
        rt,
        "amounts with a byte more",
        b"CLA\x01\0\x01\x01\x01\0\0\0\x01\0\0\0\0",
    )?;
    print_amounts(
        rt,
        "amount of 1,000,000,001",
        b"CLA\x01\0\x01\x01\x01\0\0\0\x01\xca\x9a\x3b",
    )
}

// F9: no order exists; but where its amounts are refused, that is printed.
fn no_order(rt: &impl Print) -> io::Result<()> {
    let book =
        b"CLB\x01\0\x03\x03\x06\0\0\0\0\0\0\0\0\0\0\0\x05\0\0\0\0\0\0\0\0\0\0\0\x03\0\0\0\0\0\0\0\0\0\0\0";
    print(
        rt,
        "no order",
        book,
        b"CLA\x01\0\x03\x03\x01\0\0\0\x01\0\0\0\x01\0\0\0\x01\0\0\0\x01\0\0\0\x01\0\0\0",
    )?;
    print(rt, "no order, amounts absent", book, b"")
}

// 2 by 2, costs 1 2 / 3 5
const F1_BOOK: [u8; 31] =
    *b"CLB\x01\0\x02\x02\x03\0\0\0\x01\0\0\0\x02\0\0\0\x03\0\0\0\x03\0\0\0\x05\0\0\0";

fn two_by_two(rt: &impl Print) -> io::Result<()> {
    print(
        rt,
        "F1",
        &F1_BOOK,
        b"CLA\x01\0\x02\x02\x05\0\0\0\x04\0\0\0\x03\0\0\0\x06\0\0\0",
    )?;
    let book = b"CLB\x01\0\x02\x02\x03\0\0\0\0\0\0\0\0\0\0\0\x01\0\0\0\0\0\0\0";
    print(
        rt,
        "F7",
        book,
        b"CLA\x01\0\x02\x02\x01\0\0\0\x01\0\0\0\x01\0\0\0\x01\0\0\0",
    )?;
    print(
        rt,
        "F8",
        book,
        b"CLA\x01\0\x02\x02\x02\0\0\0\0\0\0\0\x01\0\0\0\0\0\0\0",
    )
}

fn one_by_one(rt: &impl Print) -> io::Result<()> {
    let none = b"CLB\x01\0\x01\x01\0\0\0\0";
    print(rt, "F10", none, b"CLA\x01\0\x01\x01\x01\0\0\0\x01\0\0\0")?;
    print(rt, "F11", none, b"CLA\x01\0\x01\x01\0\0\0\0\0\0\0\0")?;
    print(
        rt,
        "F12",
        &BOOK,
        b"CLA\x01\0\x01\x01\0\xca\x9a\x3b\0\xca\x9a\x3b",
    )
}

// A cost below zero has a minus, and 0 has none: F1 with rebates, and 1 by 2, costs -1 1. Other versions and a lower cost are refused.
fn rebates(rt: &impl Print) -> io::Result<()> {
    print(
        rt,
        "rebates",
        b"CLB\x02\0\x02\x02\x03\0\0\0\x01\0\0\0\xfe\xff\xff\xff\x03\0\0\0\xfd\xff\xff\xff\x05\0\0\0",
        b"CLA\x01\0\x02\x02\x05\0\0\0\x04\0\0\0\x03\0\0\0\x06\0\0\0",
    )?;
    print(
        rt,
        "rebate as high as a cost",
        b"CLB\x02\0\x01\x02\x03\0\0\0\xff\xff\xff\xff\x01\0\0\0",
        b"CLA\x01\0\x01\x02\x02\0\0\0\x01\0\0\0\x01\0\0\0",
    )?;
    print_book(rt, "book of version 3", b"CLB\x03\0\x01\x01")?;
    print_book(
        rt,
        "book with a cost of -1,000,001",
        b"CLB\x02\0\x01\x01\x01\0\0\0\xbf\xbd\xf0\xff",
    )
}

// With no lots or no calls (request 5) the first line stands alone.
fn zero_counts(rt: &impl Print) -> io::Result<()> {
    print(
        rt,
        "no lots and no calls",
        b"CLB\x01\0\0\0",
        b"CLA\x01\0\0\0",
    )?;
    print(
        rt,
        "no lots, calls 3 0",
        b"CLB\x02\0\0\x02",
        b"CLA\x01\0\0\x02\x03\0\0\0\0\0\0\0",
    )?;
    print(
        rt,
        "lots 0 4, no calls",
        b"CLB\x01\0\x02\0\0\0\0\0\0\0\0\0",
        b"CLA\x01\0\x02\0\0\0\0\0\x04\0\0\0",
    )?;
    print_book(
        rt,
        "book of no calls with bit 0",
        b"CLB\x01\0\x01\0\x01\0\0\0",
    )
}

// Amounts of version 2 (request 7): a lot's amount is what it holds less its reserve.
fn reserves(rt: &impl Print) -> io::Result<()> {
    print(
        rt,
        "F1, lots 7 5, reserves 2 1",
        &F1_BOOK,
        b"CLA\x02\0\x02\x02\x07\0\0\0\x05\0\0\0\x03\0\0\0\x06\0\0\0\x02\0\0\0\x01\0\0\0",
    )?;
    print(
        rt,
        "F1, lots 7 5, reserves 8 1",
        &F1_BOOK,
        b"CLA\x02\0\x02\x02\x07\0\0\0\x05\0\0\0\x03\0\0\0\x06\0\0\0\x08\0\0\0\x01\0\0\0",
    )?;
    print_amounts(
        rt,
        "amounts of version 2 without reserves",
        b"CLA\x02\0\x01\x01\x01\0\0\0\x01\0\0\0",
    )
}

// 32 by 32, all eligible at a cost, in a file of a version: each row is a word, and 32 costs.
fn book_of(version: u8, cost: i32) -> [u8; 4231] {
    let mut book = [0u8; 4231];
    files::write_opening(&mut book, &files::BOOK_MARK, u16::from_le_bytes([32, 32]));
    book[3] = version;
    let (numbers, _) = book[7..].as_chunks_mut::<4>();
    numbers.fill(cost.to_le_bytes());
    for word in numbers.iter_mut().step_by(33) {
        *word = [255; 4];
    }
    book
}

// All amounts are 1,000,000,000 but number `half`, which is half of it: lots go half to one call and half to the next.
fn print_63(rt: &impl Print, label: &str, version: u8, cost: i32, half: usize) -> io::Result<()> {
    let mut amounts = [0u8; 263];
    files::write_opening(
        &mut amounts,
        &files::AMOUNTS_MARK,
        u16::from_le_bytes([32, 32]),
    );
    let (places, _) = amounts[7..].as_chunks_mut::<4>();
    places.fill(1_000_000_000u32.to_le_bytes());
    if let Some(place) = places.get_mut(half) {
        *place = 500_000_000u32.to_le_bytes();
    }
    print(rt, label, &book_of(version, cost), &amounts)
}

// At 1,000,000, with lot 0 halved; and at -1,000,000, with call 0 halved, which makes the longest first line.
fn most_lines(rt: &impl Print) -> io::Result<()> {
    print_63(rt, "63 lines", 1, 1_000_000, 0)?;
    print_63(rt, "63 lines, and the longest first", 2, -1_000_000, 32)
}

// A file that is longer than any book, and than what is read of it.
fn too_long(rt: &impl Print) -> io::Result<()> {
    let mut book = [0u8; 5000];
    book[..4231].copy_from_slice(&book_of(1, 1_000_000));
    print_book(rt, "book of 5,000 bytes", &book)
}

// Amounts of 32 by 32 in a version: 1,000 for each lot, call and reserve, but 995 for the last reserve; then bytes of 0.
fn amounts_of(version: u8) -> [u8; 500] {
    let mut amounts = [0u8; 500];
    files::write_opening(
        &mut amounts,
        &files::AMOUNTS_MARK,
        u16::from_le_bytes([32, 32]),
    );
    amounts[3] = version;
    let (numbers, _) = amounts[7..391].as_chunks_mut::<4>();
    numbers.fill(1000u32.to_le_bytes());
    numbers[95] = 995u32.to_le_bytes();
    amounts
}

// So many bytes of these, at most 500, by a book whose costs are 7.
fn print_32(rt: &impl Print, label: &str, version: u8, length: usize) -> io::Result<()> {
    let amounts = amounts_of(version);
    let amounts = amounts.get(..length).unwrap_or(&amounts);
    print(rt, label, &book_of(1, 7), amounts)
}

// The largest amounts have 391 bytes, and 392 are read; version 1 has 263.
fn longest_amounts(rt: &impl Print) -> io::Result<()> {
    print_32(rt, "amounts of 391 bytes", 2, 391)?;
    print_32(rt, "amounts of 392 bytes", 2, 392)?;
    print_32(rt, "amounts of 500 bytes", 2, 500)?;
    print_32(rt, "amounts of 264 bytes in version 1", 1, 264)?;
    print_32(rt, "amounts of 391 bytes in version 1", 1, 391)?;
    print_32(rt, "amounts of 392 bytes in version 1", 1, 392)
}

fn main(rt: HostRuntime) -> io::Result<()> {
    book_openings(&rt)?;
    book_rows(&rt)?;
    amounts_openings(&rt)?;
    amounts_lengths(&rt)?;
    no_order(&rt)?;
    two_by_two(&rt)?;
    one_by_one(&rt)?;
    rebates(&rt)?;
    zero_counts(&rt)?;
    reserves(&rt)?;
    most_lines(&rt)?;
    too_long(&rt)?;
    longest_amounts(&rt)
}
