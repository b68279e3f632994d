// Books and amounts with no lots or no calls (document 02, request 5).
use super::{SINGLE, amounts, both_versions, costs, pair};
use specification::{Call, Lot};
use std::io;

pub const NOTHING: [u8; 7] = *b"CLB\x01\x00\x00\x00";

// 0 by 2, in version 2.
pub const NO_LOTS: [u8; 7] = *b"CLB\x02\x00\x00\x02";

// 2 by 0; and with a bit in the word of lot 1.
pub const NO_CALLS: [u8; 15] = *b"CLB\x01\x00\x02\x00\x00\x00\x00\x00\x00\x00\x00\x00";

const A_BIT: [u8; 15] = *b"CLB\x01\x00\x02\x00\x00\x00\x00\x00\x01\x00\x00\x00";

pub fn books(rt: &impl Print) -> io::Result<()> {
    both_versions(rt, "P91", [0, 0], 7, &[])?;
    both_versions(rt, "P91", [0, 32], 7, &[])?;
    both_versions(rt, "P91", [2, 0], 15, &[])?;
    both_versions(rt, "P91", [32, 0], 135, &[])?;
    both_versions(rt, "P91", [0, 0], 8, &[])?;
    both_versions(rt, "P91", [2, 0], 16, &[])
}

pub fn words(rt: &impl Print) -> io::Result<()> {
    both_versions(rt, "P91", [2, 0], 15, &[0, 1])?;
    both_versions(rt, "P91", [2, 0], 15, &[0x80000000, 1])?;
    both_versions(rt, "P91", [2, 0], 14, &[0, 1])?;
    both_versions(rt, "P91", [2, 0], 14, &[1])
}

pub fn lots_and_pairs(rt: &impl Print) -> io::Result<()> {
    costs(rt, "P91", &NO_CALLS, Lot(1))?;
    costs(rt, "P91", &NO_LOTS, Lot(0))?;
    pair(rt, "P91", &NO_CALLS, Lot(1), Call(0))?;
    pair(rt, "P91", &NO_LOTS, Lot(0), Call(1))
}

pub fn amounts_files(rt: &impl Print) -> io::Result<()> {
    amounts(rt, "P91", &NOTHING, 1, [0, 0], 7, &[])?;
    amounts(
        rt,
        "P91",
        &NO_LOTS,
        1,
        [0, 2],
        15,
        &[1000000000, 1000000000],
    )?;
    amounts(
        rt,
        "P91",
        &NO_CALLS,
        1,
        [2, 0],
        15,
        &[1000000000, 1000000000],
    )?;
    amounts(rt, "P34", &NO_CALLS, 1, [0, 2], 15, &[])?;
    amounts(rt, "P34", &SINGLE, 1, [0, 0], 7, &[])?;
    amounts(rt, "P34", &NOTHING, 1, [0, 33], 7, &[])?;
    amounts(rt, "P35", &NO_LOTS, 1, [0, 2], 14, &[])?;
    amounts(rt, "P35", &NOTHING, 1, [0, 0], 8, &[])?;
    amounts(rt, "P36", &NO_LOTS, 1, [0, 2], 15, &[0, 1000000001])?;
    amounts(rt, "P37", &A_BIT, 1, [2, 0], 15, &[])
}
