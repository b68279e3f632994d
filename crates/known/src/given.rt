// The files of document 01's known examples, F1 to F14, of a lot that is eligible for no call, amounts with stock to spare, the files of the
// runs with an idle call (document 02, request 2), and books with rebates (request 4).

// 2 by 2, costs 1 2 / 3 5
pub const F1_BOOK: [u8; 31] =
    *b"CLB\x01\0\x02\x02\x03\0\0\0\x01\0\0\0\x02\0\0\0\x03\0\0\0\x03\0\0\0\x05\0\0\0";

// lots 5 4, calls 3 6
pub const F1_AMOUNTS: [u8; 23] = *b"CLA\x01\0\x02\x02\x05\0\0\0\x04\0\0\0\x03\0\0\0\x06\0\0\0";

// 00 01 10 11
pub const F2_ORDER: [u8; 15] = *b"CLO\x01\0\x04\0\0\0\0\x01\x01\0\x01\x01";

// 11 00 01 10
pub const F3_ORDER: [u8; 15] = *b"CLO\x01\0\x04\0\x01\x01\0\0\0\x01\x01\0";

// 01 10 00 11
pub const F4_ORDER: [u8; 15] = *b"CLO\x01\0\x04\0\0\x01\x01\0\0\0\x01\x01";

// 2 by 2, costs 1 2 / 3 4
pub const F5_BOOK: [u8; 31] =
    *b"CLB\x01\0\x02\x02\x03\0\0\0\x01\0\0\0\x02\0\0\0\x03\0\0\0\x03\0\0\0\x04\0\0\0";

// 2 by 2, (1, 1) not eligible, costs 0
pub const F6_BOOK: [u8; 27] = *b"CLB\x01\0\x02\x02\x03\0\0\0\0\0\0\0\0\0\0\0\x01\0\0\0\0\0\0\0";

// 00 01 10
pub const F6_ORDER: [u8; 13] = *b"CLO\x01\0\x03\0\0\0\0\x01\x01\0";

// lots 1 1, calls 1 1
pub const F7_AMOUNTS: [u8; 23] = *b"CLA\x01\0\x02\x02\x01\0\0\0\x01\0\0\0\x01\0\0\0\x01\0\0\0";

// lots 2 0, calls 1 0
pub const F8_AMOUNTS: [u8; 23] = *b"CLA\x01\0\x02\x02\x02\0\0\0\0\0\0\0\x01\0\0\0\0\0\0\0";

// 3 by 3, diagonal not eligible, costs 0
pub const F9_BOOK: [u8; 43] =
    *b"CLB\x01\0\x03\x03\x06\0\0\0\0\0\0\0\0\0\0\0\x05\0\0\0\0\0\0\0\0\0\0\0\x03\0\0\0\0\0\0\0\0\0\0\0";

// lots 1 1 1, calls 1 1 1
pub const F9_AMOUNTS: [u8; 31] =
    *b"CLA\x01\0\x03\x03\x01\0\0\0\x01\0\0\0\x01\0\0\0\x01\0\0\0\x01\0\0\0\x01\0\0\0";

// 1 by 1, not eligible
pub const F10_BOOK: [u8; 11] = *b"CLB\x01\0\x01\x01\0\0\0\0";

// lot 1, call 1
pub const F10_AMOUNTS: [u8; 15] = *b"CLA\x01\0\x01\x01\x01\0\0\0\x01\0\0\0";

// lot 0, call 0
pub const F11_AMOUNTS: [u8; 15] = *b"CLA\x01\0\x01\x01\0\0\0\0\0\0\0\0";

// 1 by 1, cost 1,000,000
pub const F12_BOOK: [u8; 15] = *b"CLB\x01\0\x01\x01\x01\0\0\0\x40\x42\x0f\0";

// lot 1,000,000,000, call 1,000,000,000
pub const F12_AMOUNTS: [u8; 15] = *b"CLA\x01\0\x01\x01\0\xca\x9a\x3b\0\xca\x9a\x3b";

// 1 by 1, cost 1,000,001
pub const F13_BOOK: [u8; 15] = *b"CLB\x01\0\x01\x01\x01\0\0\0\x41\x42\x0f\0";

// lot 1,000,000,001, call 1,000,000,000
pub const F13_AMOUNTS: [u8; 15] = *b"CLA\x01\0\x01\x01\x01\xca\x9a\x3b\0\xca\x9a\x3b";

// 1 by 33
pub const F14_CALLS: [u8; 7] = *b"CLB\x01\0\x01\x21";

// 1 by 2, bit 2 set
pub const F14_BIT: [u8; 11] = *b"CLB\x01\0\x01\x02\x04\0\0\0";

// 2 by 1, lot 0 not eligible for call 0, cost 0
pub const LONE_BOOK: [u8; 19] = *b"CLB\x01\0\x02\x01\0\0\0\0\x01\0\0\0\0\0\0\0";

// lots 1 1, call 1
pub const LONE_AMOUNTS: [u8; 19] = *b"CLA\x01\0\x02\x01\x01\0\0\0\x01\0\0\0\x01\0\0\0";

// lots 1 2, calls 1 2, for F6's book: lot 1 has a unit left, and call 1 lacks one
pub const STRANDED_AMOUNTS: [u8; 23] =
    *b"CLA\x01\0\x02\x02\x01\0\0\0\x02\0\0\0\x01\0\0\0\x02\0\0\0";

// lots 0 2, calls 0 0
pub const IDLE_AMOUNTS: [u8; 23] = *b"CLA\x01\0\x02\x02\0\0\0\0\x02\0\0\0\0\0\0\0\0\0\0\0";

// 2 by 2, costs 3 5 / 1 2
pub const SPARE_BOOK: [u8; 31] =
    *b"CLB\x01\0\x02\x02\x03\0\0\0\x03\0\0\0\x05\0\0\0\x03\0\0\0\x01\0\0\0\x02\0\0\0";

// lots 3 4, calls 3 2
pub const SPARE_AMOUNTS: [u8; 23] = *b"CLA\x01\0\x02\x02\x03\0\0\0\x04\0\0\0\x03\0\0\0\x02\0\0\0";

// lots 0 0, calls 0 0
pub const NO_AMOUNTS: [u8; 23] = *b"CLA\x01\0\x02\x02\0\0\0\0\0\0\0\0\0\0\0\0\0\0\0\0";

// 3 by 2, (0, 0) and (2, 1) not eligible, costs - 1 / 0 0 / 1 -
pub const CORNERS_BOOK: [u8; 35] =
    *b"CLB\x01\0\x03\x02\x02\0\0\0\x01\0\0\0\x03\0\0\0\0\0\0\0\0\0\0\0\x01\0\0\0\x01\0\0\0";

// lots 1 1 1, calls 1 1
pub const CORNERS_AMOUNTS: [u8; 27] =
    *b"CLA\x01\0\x03\x02\x01\0\0\0\x01\0\0\0\x01\0\0\0\x01\0\0\0\x01\0\0\0";

// lots 1 0 0, calls 1 1
pub const CORNERS_LESS: [u8; 27] =
    *b"CLA\x01\0\x03\x02\x01\0\0\0\0\0\0\0\0\0\0\0\x01\0\0\0\x01\0\0\0";

// lot 0, call 1,000,000,001
pub const HIGH_CALL: [u8; 15] = *b"CLA\x01\0\x01\x01\0\0\0\0\x01\xca\x9a\x3b";

// 3 by 1, (2, 0) not eligible, costs 5 / 1 / -
pub const DEAR_BOOK: [u8; 27] =
    *b"CLB\x01\0\x03\x01\x01\0\0\0\x05\0\0\0\x01\0\0\0\x01\0\0\0\0\0\0\0";

// lots 3 3 4, call 5
pub const DEAR_AMOUNTS: [u8; 23] = *b"CLA\x01\0\x03\x01\x03\0\0\0\x03\0\0\0\x04\0\0\0\x05\0\0\0";

// 6 by 1, costs 1 1 1 1 1 0
pub const SIX_BOOK: [u8; 55] =
    *b"CLB\x01\0\x06\x01\x01\0\0\0\x01\0\0\0\x01\0\0\0\x01\0\0\0\x01\0\0\0\x01\0\0\0\x01\0\0\0\x01\0\0\0\x01\0\0\0\x01\0\0\0\x01\0\0\0\0\0\0\0";

// lots 1,000,000,000 each, call 1,000,000,000
pub const SIX_AMOUNTS: [u8; 35] =
    *b"CLA\x01\0\x06\x01\0\xca\x9a\x3b\0\xca\x9a\x3b\0\xca\x9a\x3b\0\xca\x9a\x3b\0\xca\x9a\x3b\0\xca\x9a\x3b\0\xca\x9a\x3b";

// 1 by 31, the lot eligible for call 30 alone, at cost 5
pub const WIDE_BOOK: [u8; 15] = *b"CLB\x01\0\x01\x1f\0\0\0\x40\x05\0\0\0";

// and 1 by 32
pub const WIDEST_BOOK: [u8; 15] = *b"CLB\x01\0\x01\x20\0\0\0\x40\x05\0\0\0";

// F1's book in version 2, costs 1 -2 / -3 5
pub const REBATES_BOOK: [u8; 31] =
    *b"CLB\x02\0\x02\x02\x03\0\0\0\x01\0\0\0\xfe\xff\xff\xff\x03\0\0\0\xfd\xff\xff\xff\x05\0\0\0";

// 2 by 1, in version 2, costs 5 / -3
pub const ONE_REBATE_BOOK: [u8; 23] =
    *b"CLB\x02\0\x02\x01\x01\0\0\0\x05\0\0\0\x01\0\0\0\xfd\xff\xff\xff";

// lots 2 2, call 2
pub const ONE_REBATE_AMOUNTS: [u8; 19] = *b"CLA\x01\0\x02\x01\x02\0\0\0\x02\0\0\0\x02\0\0\0";

// 1 by 1, in version 2, cost -1,000,000
pub const LOWEST_BOOK: [u8; 15] = *b"CLB\x02\0\x01\x01\x01\0\0\0\xc0\xbd\xf0\xff";

// F10's book in version 3
pub const BOOK_3: [u8; 11] = *b"CLB\x03\0\x01\x01\0\0\0\0";

// F1's order in version 2
pub const ORDER_2: [u8; 15] = *b"CLO\x02\0\x04\0\0\x01\0\0\x01\0\x01\x01";

// of one lot and up to 32 calls: the lot's amount, call 30 wants 2, and the others nothing; it ends after the call amounts
pub fn wide_amounts(calls: u8, lot: u8) -> [u8; 139] {
    let mut file = [0u8; 139];
    file[..6].copy_from_slice(b"CLA\x01\0\x01");
    file[6] = calls;
    file[7] = lot;
    file[7 + 4 * 31] = 2;
    file
}
