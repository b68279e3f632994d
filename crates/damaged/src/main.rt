// Reads F13 and F14 of document 01, damaged books and amounts, books of version 2 (document 02, request 4), books and amounts with no lots or no
// calls (request 5), and amounts of version 2 (request 7), and writes what each reading answers: one line a case, with the name of the example
// or the label of docs/TRAPS.md.
#![tactic(auto)]

mod reserves;
mod zero_counts;

use book::Cost;
use specification::{Call, Counts, Lot, Refusal};
use std::io;

// 1 by 1, cost 7; and with a byte after the last field.
const SINGLE: [u8; 15] = *b"CLB\x01\x00\x01\x01\x01\x00\x00\x00\x07\x00\x00\x00";

const SINGLE_AND_A_BYTE: [u8; 16] = *b"CLB\x01\x00\x01\x01\x01\x00\x00\x00\x07\x00\x00\x00\x00";

// 2 by 3: lot 0 is eligible for calls 0 and 2, at costs 10 and 12, and lot 1 for none.
const TWO_BY_THREE: [u8; 23] =
    *b"CLB\x01\x00\x02\x03\x05\x00\x00\x00\x0a\x00\x00\x00\x0c\x00\x00\x00\x00\x00\x00\x00";

// 1 by 3 in version 2, costs -3, 0 and 7.
const REBATE: [u8; 23] =
    *b"CLB\x02\x00\x01\x03\x07\x00\x00\x00\xfd\xff\xff\xff\x00\x00\x00\x00\x07\x00\x00\x00";

// Writes a file of a version over bytes of 0: the opening with n and m, then these numbers.
fn write_file(
    file: &mut [u8; 4300],
    mark: &[u8; 3],
    version: u16,
    counts: [u8; 2],
    numbers: &[u32],
) {
    files::write_opening(file, mark, u16::from_le_bytes(counts));
    file[3..5].copy_from_slice(&version.to_le_bytes());
    let (places, _) = file[7..].as_chunks_mut::<4>();
    for (place, number) in places.iter_mut().zip(numbers) {
        *place = number.to_le_bytes();
    }
}

// The numbers of the largest book: each of 32 lots is eligible for each of 32 calls, at cost 0.
fn largest() -> [u32; 1056] {
    let mut numbers = [0u32; 1056];
    let (rows, _) = numbers.as_chunks_mut::<33>();
    for row in rows {
        row[0] = u32::MAX;
    }
    numbers
}

// A case of a reading: its label, and n and m or the refusal.
fn case(rt: &impl Print, label: &str, answer: Result<Counts, Refusal>) -> io::Result<()> {
    match answer {
        Ok(Counts { lots, calls }) => println!(rt; "{label} {lots} {calls}"),
        Err(refusal) => println!(rt; "{label} REFUSED {refusal}"),
    }
}

// The first `len` bytes of a book of a version.
fn book(
    rt: &impl Print,
    label: &str,
    version: u16,
    counts: [u8; 2],
    len: usize,
    numbers: &[u32],
) -> io::Result<()> {
    let mut file = [0u8; 4300];
    write_file(&mut file, &files::BOOK_MARK, version, counts, numbers);
    let file = file.get(..len).unwrap_or(&file);
    case(rt, label, book::read_book(file))
}

// The same in version 1 and in version 2.
fn both_versions(
    rt: &impl Print,
    label: &str,
    counts: [u8; 2],
    len: usize,
    numbers: &[u32],
) -> io::Result<()> {
    book(rt, label, 1, counts, len, numbers)?;
    book(rt, label, 2, counts, len, numbers)
}

// The first `len` bytes of amounts of a version, with a book.
fn amounts(
    rt: &impl Print,
    label: &str,
    book: &[u8],
    version: u16,
    counts: [u8; 2],
    len: usize,
    numbers: &[u32],
) -> io::Result<()> {
    let mut file = [0u8; 4300];
    write_file(&mut file, &files::AMOUNTS_MARK, version, counts, numbers);
    let file = file.get(..len).unwrap_or(&file);
    case(rt, label, amounts::read_amounts(book, file))
}

// The stretch of a lot's costs: how many bytes it has, and its first cost.
fn costs(rt: &impl Print, label: &str, book: &[u8], lot: Lot) -> io::Result<()> {
    let stretch = book::lot_costs(book, lot);
    println!(rt;
        "{label} COSTS {} {}",
        stretch.len(),
        files::u32_at(stretch, 0)
    )
}

fn pair(rt: &impl Print, label: &str, book: &[u8], lot: Lot, call: Call) -> io::Result<()> {
    match book::pair_cost(book, lot, call) {
        Ok(Cost::Of(cost)) => println!(rt; "{label} COST {cost}"),
        Ok(Cost::NotEligible) => println!(rt; "{label} NOT ELIGIBLE"),
        Ok(Cost::Outside) => println!(rt; "{label} OUTSIDE"),
        Err(refusal) => println!(rt; "{label} REFUSED {refusal}"),
    }
}

// An amount of a file of 1 lot and 1 call with the largest amounts.
fn amount(rt: &impl Print, label: &str, k: usize) -> io::Result<()> {
    let mut file = [0u8; 4300];
    write_file(
        &mut file,
        &files::AMOUNTS_MARK,
        1,
        [1, 1],
        &[1000000000, 1000000000],
    );
    println!(rt;
        "{label} AMOUNT {}",
        amounts::inner::amount_at(&file[..15], k)
    )
}

fn openings(rt: &impl Print) -> io::Result<()> {
    case(rt, "P2", book::read_book(b""))?;
    case(rt, "P2", book::read_book(b"CLO\x01\x00\x01"))?;
    case(rt, "P2", book::read_book(b"CLO\x01\x00\x01\x01"))?;
    case(rt, "P3", book::read_book(b"CLB\x00\x01\x01\x01"))?;
    case(rt, "P3", book::read_book(b"CLB\x01\x01\x01\x01"))
}

fn rows(rt: &impl Print) -> io::Result<()> {
    book(rt, "F14", 1, [1, 33], 7, &[])?;
    book(rt, "P4", 1, [0, 33], 7, &[])?;
    book(rt, "P4", 1, [33, 1], 7, &[])?;
    book(rt, "P4", 1, [255, 0], 7, &[])?;
    book(rt, "F14", 1, [1, 2], 11, &[4])?;
    book(rt, "P5", 1, [1, 2], 15, &[3, 0xffffffff])?;
    book(rt, "P6", 1, [2, 1], 15, &[1, 0xffffffff])?;
    book(rt, "P6", 1, [2, 1], 19, &[1, 0xffffffff, 2])?;
    book(rt, "P7", 1, [1, 2], 10, &[4])?;
    book(rt, "P8", 1, [2, 2], 15, &[0, 0x80000000])?;
    book(rt, "P9", 1, [1, 32], 139, &[0xffffffff])?;
    book(rt, "P10", 1, [1, 4], 19, &[10, 0, 1000001])
}

fn limits(rt: &impl Print) -> io::Result<()> {
    book(rt, "F13", 1, [1, 1], 15, &[1, 1000001])?;
    book(rt, "P11", 1, [1, 1], 15, &[1, 1000000])?;
    book(rt, "P11", 1, [1, 1], 15, &[1, 0xffffffff])?;
    book(rt, "P12", 1, [32, 32], 4231, &largest())?;
    book(rt, "P12", 1, [32, 32], 4232, &largest())?;
    book(rt, "P13", 1, [1, 1], 7, &[1])?;
    book(rt, "P13", 1, [1, 1], 11, &[1])?;
    book(rt, "P13", 1, [1, 1], 14, &[1])
}

fn lots_and_pairs(rt: &impl Print) -> io::Result<()> {
    costs(rt, "P15", &SINGLE_AND_A_BYTE, Lot(0))?;
    costs(rt, "P16", &TWO_BY_THREE, Lot(1))?;
    costs(rt, "P17", &SINGLE, Lot(256))?;
    costs(rt, "P17", &SINGLE, Lot(18446744073709551615))?;
    costs(rt, "P18", &TWO_BY_THREE, Lot(0))?;
    pair(rt, "P18", &TWO_BY_THREE, Lot(0), Call(2))?;
    pair(rt, "P18", &TWO_BY_THREE, Lot(0), Call(1))?;
    pair(rt, "P17", &TWO_BY_THREE, Lot(256), Call(0))?;
    pair(rt, "P15", &SINGLE_AND_A_BYTE, Lot(0), Call(0))
}

fn amounts_files(rt: &impl Print) -> io::Result<()> {
    amounts(rt, "F13", &SINGLE, 1, [1, 1], 15, &[1000000001])?;
    amounts(rt, "P34", &SINGLE, 1, [7, 7], 7, &[])?;
    amounts(rt, "P34", &TWO_BY_THREE, 1, [3, 2], 27, &[])?;
    amounts(rt, "P35", &SINGLE, 1, [1, 1], 14, &[])?;
    amounts(rt, "P35", &SINGLE, 1, [1, 1], 16, &[0xffffffff, 0xffffffff])?;
    amounts(rt, "P36", &SINGLE, 1, [1, 1], 15, &[1000000000, 1000000000])?;
    amounts(rt, "P36", &SINGLE, 1, [1, 1], 15, &[0, 1000000001])?;
    amount(rt, "P36", 1)?;
    amount(rt, "P36", 18446744073709551615)?;
    amounts(rt, "P37", &SINGLE_AND_A_BYTE, 1, [0, 0], 7, &[])?;
    amounts(
        rt,
        "P37",
        b"CLB\x01\x00\x01\x01\x02\x00\x00\x00",
        1,
        [0, 0],
        7,
        &[],
    )
}

// The same bits as a cost in version 1 and in version 2.
fn signed_costs(rt: &impl Print) -> io::Result<()> {
    both_versions(rt, "P86", [1, 1], 15, &[1, 1000000])?;
    both_versions(rt, "P86", [1, 1], 15, &[1, 1000001])?;
    both_versions(rt, "P86", [1, 1], 15, &[1, 0x80000000])?;
    both_versions(rt, "P86", [1, 1], 15, &[1, 0xfff0bdbf])?;
    both_versions(rt, "P86", [1, 1], 15, &[1, 0xfff0bdc0])?;
    both_versions(rt, "P86", [1, 1], 15, &[1, 0xffffffff])
}

fn versions(rt: &impl Print) -> io::Result<()> {
    book(rt, "P87", 0, [1, 1], 15, &[1, 0])?;
    book(rt, "P87", 2, [1, 1], 15, &[1, 0])?;
    book(rt, "P87", 3, [1, 1], 15, &[1, 0])?;
    book(rt, "P87", 258, [1, 1], 15, &[1, 0])
}

fn rebates(rt: &impl Print) -> io::Result<()> {
    pair(rt, "P88", &REBATE, Lot(0), Call(0))?;
    pair(rt, "P88", &REBATE, Lot(0), Call(1))?;
    pair(rt, "P88", &REBATE, Lot(0), Call(2))?;
    costs(rt, "P89", &REBATE, Lot(0))
}

fn main(rt: HostRuntime) -> io::Result<()> {
    openings(&rt)?;
    rows(&rt)?;
    limits(&rt)?;
    lots_and_pairs(&rt)?;
    amounts_files(&rt)?;
    signed_costs(&rt)?;
    versions(&rt)?;
    rebates(&rt)?;
    zero_counts::books(&rt)?;
    zero_counts::words(&rt)?;
    zero_counts::lots_and_pairs(&rt)?;
    zero_counts::amounts_files(&rt)?;
    reserves::lengths(&rt)?;
    reserves::largest(&rt)?;
    reserves::above_lots(&rt)?;
    reserves::versions(&rt)?;
    reserves::zero_counts(&rt)
}
