// Finds orders of known examples and of books on which a finder goes wrong easily, one line a case. After the label (docs/TRAPS.md): the
// length, mark, version and count of the file that was written with its first seven pairs, or the refusal; then how many bytes after it
// kept their contents.
#![tactic(auto)]

ghost use Rattle.std.specs.Prelude.{◌≤◌};

use std::{fmt, io};

// The mark, the version and the count of an order file, and its first seven pairs.
#[derive(Clone, Copy)]
struct Opening<'a>(&'a [u8]);

impl fmt::Display for Opening<'_> {
    fn fmt<W: fmt::Write>(&self, f: &mut fmt::Formatter<W>) -> fmt::Result {
        let file = self.0;
        let (opening, pairs) = file.split_at(file.len().min(7));
        for byte in opening.iter().take(3) {
            write!(f, "{byte} ")?;
        }
        let count = files::u16_at(file, 5);
        write!(f, "{} {count}", files::u16_at(file, 3))?;
        let (pairs, _) = pairs.as_chunks::<2>();
        for [lot, call] in pairs.iter().take(usize::from(count).min(7)) {
            write!(f, " {lot},{call}")?;
        }
        Ok(())
    }
}

// How many bytes are as at first, 170.
fn kept(order: &[u8]) -> usize {
    order.iter().filter(|byte| **byte == 170).count()
}

// A search with a buffer all of whose bytes are 170.
fn show(rt: &impl Print, label: &str, book: &[u8], order: &mut [u8]) -> io::Result<()> {
    match finder::find_order(book, order) {
        Ok(length) => {
            let (file, rest) = order.split_at(length.min(order.len()));
            println!(rt; "{label} {length} {} kept {}", Opening(file), kept(rest))
        }
        Err(refusal) => println!(rt; "{label} REFUSED {refusal} kept {}", kept(order)),
    }
}

// The same with a buffer of so many bytes, at most 40.
fn show_in(rt: &impl Print, label: &str, book: &[u8], length: usize) -> io::Result<()>
    requires { length ≤ 40 }
{
    let mut order = [170u8; 40];
    show(rt, label, book, &mut order[..length])
}

// A cost of the book below.
fn cost(lot: usize, call: usize) -> u8 {
    if call < 31 {
        100
    } else if lot < 17 {
        2
    } else if lot < 31 {
        1
    } else {
        7
    }
}

// The row of a lot with all calls eligible.
fn fill_row(row: &mut [u8; 132], lot: usize) {
    row[..4].fill(255);
    let (costs, _) = row[4..].as_chunks_mut::<4>();
    for (call, place) in costs.iter_mut().enumerate() {
        place[0] = cost(lot, call);
    }
}

// 32 by 32: the pairs of lots 0 to 16 are not free, by the very last test of each, until lots 17 to 30 are used up. A finder that starts
// again from the first pair at each turn makes 184 million tests. The first lots, so many, have no pairs. Written over bytes of 0.
fn fill_long_search(book: &mut [u8; 4231], first: usize)
    requires { first ≤ 32 }
{
    files::write_opening(book, &files::BOOK_MARK, u16::from_le_bytes([32, 32]));
    let (rows, _) = book[7 + 4 * first..].as_chunks_mut::<132>();
    for (row, lot) in rows.iter_mut().zip(first..32) {
        fill_row(row, lot);
    }
}

// Takes the last pair, (31, 31), from a book of all 32 lots, which is then its first 4,227 bytes: corners decide here too.
fn make_gap(book: &mut [u8; 4231]) {
    let (rows, _) = book[7..].as_chunks_mut::<132>();
    // The highest byte of the last lot's word.
    rows[31][3] = 127;
}

// costs 1 2 / 3 5
const F1: [u8; 31] =
    *b"CLB\x01\0\x02\x02\x03\0\0\0\x01\0\0\0\x02\0\0\0\x03\0\0\0\x03\0\0\0\x05\0\0\0";

// costs 0, (1, 1) not eligible
const F7: [u8; 27] = *b"CLB\x01\0\x02\x02\x03\0\0\0\0\0\0\0\0\0\0\0\x01\0\0\0\0\0\0\0";

// 3 by 3, costs 0, the diagonal not eligible
const F9: [u8; 43] =
    *b"CLB\x01\0\x03\x03\x06\0\0\0\0\0\0\0\0\0\0\0\x05\0\0\0\0\0\0\0\0\0\0\0\x03\0\0\0\0\0\0\0\0\0\0\0";

// 1 by 1, not eligible
const F10: [u8; 11] = *b"CLB\x01\0\x01\x01\0\0\0\0";

// 0 0 0 / 0 1 1 / - - 0: (1, 0) is free with (0, 1) taken, since the fourth pair has only to be eligible
const FOURTH_TAKEN: [u8; 47] =
    *b"CLB\x01\0\x03\x03\x07\0\0\0\0\0\0\0\0\0\0\0\0\0\0\0\x07\0\0\0\0\0\0\0\x01\0\0\0\x01\0\0\0\x04\0\0\0\0\0\0\0";

// one pair, tested against itself
const ONE_PAIR: [u8; 15] = *b"CLB\x01\0\x01\x01\x01\0\0\0\x05\0\0\0";

// 1 0 / 0 0 / 2 0: (0, 0) becomes free by the taking of (1, 0)
const FREED: [u8; 43] =
    *b"CLB\x01\0\x03\x02\x03\0\0\0\x01\0\0\0\0\0\0\0\x03\0\0\0\0\0\0\0\0\0\0\0\x03\0\0\0\x02\0\0\0\0\0\0\0";

const NO_PAIRS: [u8; 15] = *b"CLB\x01\0\x02\x03\0\0\0\0\0\0\0\0";

// in version 2, costs 1 -2 / -3 5
const REBATES: [u8; 31] =
    *b"CLB\x02\0\x02\x02\x03\0\0\0\x01\0\0\0\xfe\xff\xff\xff\x03\0\0\0\xfd\xff\xff\xff\x05\0\0\0";

// in version 2, 3 - -9 / 8 9 2
const REBATE_WITH_GAP: [u8; 35] =
    *b"CLB\x02\0\x02\x03\x05\0\0\0\x03\0\0\0\xf7\xff\xff\xff\x07\0\0\0\x08\0\0\0\x09\0\0\0\x02\0\0\0";

// in version 2, the lowest costs beside the highest
const WIDEST: [u8; 31] =
    *b"CLB\x02\0\x02\x02\x03\0\0\0\x40\x42\x0f\0\xc0\xbd\xf0\xff\x03\0\0\0\xc0\xbd\xf0\xff\x40\x42\x0f\0";

fn show_examples(rt: &impl Print) -> io::Result<()> {
    show_in(rt, "F1", &F1, 40)?;
    show_in(rt, "F7", &F7, 40)?;
    show_in(rt, "F9", &F9, 19)?;
    show_in(rt, "F10", &F10, 7)
}

// Too short comes before no order, and nothing is written where there is no order.
fn show_no_order(rt: &impl Print) -> io::Result<()> {
    show_in(rt, "P48", &F9, 18)?;
    show_in(rt, "P48", &F9, 19)?;
    show_in(rt, "P49", &F9, 40)
}

fn show_free_pairs(rt: &impl Print) -> io::Result<()> {
    show_in(rt, "P50", &FOURTH_TAKEN, 40)?;
    show_in(rt, "P51", &ONE_PAIR, 40)?;
    show_in(rt, "P52", &FREED, 40)
}

// The reply is the length; a buffer of that length is long enough, one byte less is not.
fn show_lengths(rt: &impl Print) -> io::Result<()> {
    show_in(rt, "P53", &F1, 15)?;
    show_in(rt, "P53", &F1, 14)?;
    show_in(rt, "P54", &NO_PAIRS, 40)
}

// No lots, no calls, or neither (request 5): the file has 7 bytes, and a buffer of 6 is too short.
fn show_zero_counts(rt: &impl Print) -> io::Result<()> {
    show_in(rt, "P92", b"CLB\x01\0\0\0", 7)?;
    show_in(rt, "P92", b"CLB\x01\0\0\0", 6)?;
    show_in(rt, "P92", b"CLB\x02\0\0\x20", 40)?;
    show_in(rt, "P92", b"CLB\x01\0\x02\0\0\0\0\0\0\0\0\0", 7)?;
    show_in(rt, "P92", b"CLB\x01\0\x02\0\0\0\0\0\0\0\0\0", 6)
}

// Each search starts anew.
fn show_anew(rt: &impl Print) -> io::Result<()> {
    show_in(rt, "P56", &F9, 40)?;
    show_in(rt, "P56", &F1, 40)?;
    show_in(rt, "P56", &F7, 40)
}

// Sums with their signs: with all pairs eligible, with a gap, and the widest apart.
fn show_signed(rt: &impl Print) -> io::Result<()> {
    show_in(rt, "P141", &REBATES, 40)?;
    show_in(rt, "P141", &REBATE_WITH_GAP, 40)?;
    show_in(rt, "P141", &WIDEST, 40)
}

// A search that is long for a plain scan: by so many bytes of a book, at most 4,231.
fn show_long(rt: &impl Print, book: &[u8; 4231], length: usize) -> io::Result<()> {
    let mut order = [170u8; 2060];
    show(rt, "P57", book.get(..length).unwrap_or(book), &mut order)
}

// By corners, without and with a gap; and where more pairs are missing than ranks are tried with, so that lots are asked: the first two
// lots have none.
fn show_long_searches(rt: &impl Print) -> io::Result<()> {
    let mut book = [0u8; 4231];
    fill_long_search(&mut book, 0);
    show_long(rt, &book, 4231)?;
    make_gap(&mut book);
    show_long(rt, &book, 4227)?;
    book = [0u8; 4231];
    fill_long_search(&mut book, 2);
    show_long(rt, &book, 3975)
}

fn main(rt: HostRuntime) -> io::Result<()> {
    show_examples(&rt)?;
    show_no_order(&rt)?;
    show_free_pairs(&rt)?;
    show_lengths(&rt)?;
    show_anew(&rt)?;
    show_signed(&rt)?;
    show_zero_counts(&rt)?;
    show_long_searches(&rt)
}
