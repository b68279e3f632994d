// Amounts of version 2, with a reserve for each lot (document 02, request 7).
use super::zero_counts::{NO_CALLS, NO_LOTS, NOTHING};
use super::{REBATE, SINGLE, TWO_BY_THREE, amounts};
use std::io;

// 1 by 1: what the lot holds, what the call asks for, and the reserve.
fn single(rt: &impl Print, lot: u32, call: u32, reserve: u32) -> io::Result<()> {
    amounts(rt, "P100", &SINGLE, 2, [1, 1], 19, &[lot, call, reserve])
}

// 2 by 3, lots 0 4, calls 0 0 0, and these reserves.
fn two_by_three(rt: &impl Print, lot_0: u32, lot_1: u32) -> io::Result<()> {
    amounts(
        rt,
        "P100",
        &TWO_BY_THREE,
        2,
        [2, 3],
        35,
        &[0, 4, 0, 0, 0, lot_0, lot_1],
    )
}

// 1 by 1, with numbers that are all too high: that is told after 6 and 8.
fn of_length(rt: &impl Print, version: u16, len: usize) -> io::Result<()> {
    amounts(
        rt,
        "P99",
        &SINGLE,
        version,
        [1, 1],
        len,
        &[0xffffffff, 0xffffffff, 0xffffffff],
    )
}

pub fn lengths(rt: &impl Print) -> io::Result<()> {
    of_length(rt, 2, 7)?;
    of_length(rt, 2, 14)?;
    of_length(rt, 2, 15)?;
    of_length(rt, 2, 16)?;
    of_length(rt, 2, 18)?;
    of_length(rt, 2, 19)?;
    of_length(rt, 2, 20)?;
    of_length(rt, 1, 15)?;
    of_length(rt, 1, 19)
}

pub fn largest(rt: &impl Print) -> io::Result<()> {
    let mut file = [0u8; 4300];
    super::write_file(&mut file, &files::BOOK_MARK, 1, [32, 32], &super::largest());
    let book = file.get(..4231).unwrap_or(&file);
    amounts(rt, "P99", book, 2, [32, 32], 263, &[])?;
    amounts(rt, "P99", book, 2, [32, 32], 390, &[])?;
    amounts(rt, "P99", book, 2, [32, 32], 391, &[])?;
    amounts(rt, "P99", book, 2, [32, 32], 392, &[])?;
    amounts(rt, "P158", book, 1, [32, 32], 263, &[])?;
    amounts(rt, "P158", book, 1, [32, 32], 264, &[])?;
    amounts(rt, "P158", book, 1, [32, 32], 391, &[])?;
    amounts(rt, "P158", book, 1, [32, 32], 392, &[])
}

pub fn above_lots(rt: &impl Print) -> io::Result<()> {
    single(rt, 5, 0, 5)?;
    single(rt, 5, 9, 6)?;
    single(rt, 0, 0, 1)?;
    single(rt, 1000000000, 1000000000, 1000000000)?;
    single(rt, 1000000000, 0, 1000000001)?;
    single(rt, 1000000000, 0, 0xffffffff)?;
    single(rt, 1000000001, 0, 1)?;
    single(rt, 0, 1000000001, 1)?;
    two_by_three(rt, 0, 4)?;
    two_by_three(rt, 0, 5)?;
    two_by_three(rt, 4, 0)
}

pub fn versions(rt: &impl Print) -> io::Result<()> {
    amounts(rt, "P102", &SINGLE, 0, [1, 1], 19, &[])?;
    amounts(rt, "P102", &SINGLE, 3, [1, 1], 19, &[])?;
    amounts(rt, "P102", &SINGLE, 258, [1, 1], 19, &[])?;
    amounts(rt, "P102", &SINGLE, 512, [1, 1], 19, &[])?;
    amounts(rt, "P102", &REBATE, 1, [1, 3], 23, &[])?;
    amounts(rt, "P102", &REBATE, 2, [1, 3], 27, &[])?;
    amounts(rt, "P102", &SINGLE, 3, [1, 2], 7, &[])?;
    amounts(rt, "P34", &SINGLE, 2, [1, 2], 7, &[])
}

// Without lots both versions have one length.
pub fn zero_counts(rt: &impl Print) -> io::Result<()> {
    amounts(rt, "P99", &NOTHING, 2, [0, 0], 7, &[])?;
    amounts(rt, "P99", &NOTHING, 2, [0, 0], 8, &[])?;
    amounts(rt, "P99", &NO_LOTS, 2, [0, 2], 14, &[])?;
    amounts(
        rt,
        "P99",
        &NO_LOTS,
        2,
        [0, 2],
        15,
        &[1000000000, 1000000000],
    )?;
    amounts(rt, "P99", &NO_LOTS, 2, [0, 2], 16, &[])?;
    amounts(rt, "P100", &NO_LOTS, 2, [0, 2], 15, &[0, 1000000001])?;
    amounts(rt, "P99", &NO_CALLS, 2, [2, 0], 15, &[4])?;
    amounts(rt, "P99", &NO_CALLS, 2, [2, 0], 22, &[4])?;
    amounts(rt, "P99", &NO_CALLS, 2, [2, 0], 24, &[4])?;
    amounts(rt, "P99", &NO_CALLS, 1, [2, 0], 23, &[4])?;
    amounts(rt, "P100", &NO_CALLS, 2, [2, 0], 23, &[4, 0, 4])?;
    amounts(rt, "P100", &NO_CALLS, 2, [2, 0], 23, &[4, 0, 5])
}
