// The words of document 01 as types: lot and call numbers, the refusals, and what the entry points answer where they refuse nothing. An entry
// point's answer is a `Result` of that and the refusal.
#![tactic(auto)]

ghost use Rattle.std.specs.Prelude.{◌≡◌};
ghost use Rattle.specification.specs.Reply.{stated};

use std::error::Error;
use std::fmt;

// "Costs are .. 0 to 1,000,000" and "Amounts are .. 0 to 1,000,000,000" (Words): the highest of each. In version 2 of a book costs are
// "from -1,000,000 to 1,000,000" (document 02, request 4).
pub const COST_LIMIT: u32 = 1_000_000;

pub const AMOUNT_LIMIT: u32 = 1_000_000_000;

// "A lot is known by its lot number .. counted from 0" (Words).
#[derive(Clone, Copy, Debug, PartialEq, Eq)]
pub struct Lot(pub usize);

// "and a call by its call number" (Words).
#[derive(Clone, Copy, Debug, PartialEq, Eq)]
pub struct Call(pub usize);

// By their numbers.
impl fmt::Display for Lot {
    ghost use Rattle.std.specs.Prelude.{Some};
    ghost use Rattle.std.specs.Fmt.{decimal};

    ghost output = { λ lot. Some (decimal lot.0) };

    fn fmt<W: fmt::Write>(&self, f: &mut fmt::Formatter<W>) -> fmt::Result {
        let lot = self.0;
        write!(f, "{lot}")
    }
}

impl fmt::Display for Call {
    ghost use Rattle.std.specs.Prelude.{Some};
    ghost use Rattle.std.specs.Fmt.{decimal};

    ghost output = { λ call. Some (decimal call.0) };

    fn fmt<W: fmt::Write>(&self, f: &mut fmt::Formatter<W>) -> fmt::Result {
        let call = self.0;
        write!(f, "{call}")
    }
}

// The causes of the table under "Refused", in its order, with the values that it returns beside the number; "These and all later new numbers
// join 01's table, return the number alone" (document 02, request 2).
#[derive(Clone, Copy, Debug, PartialEq, Eq, Drop)]
pub enum Refusal {
    // 1: file under 7 bytes
    UnderSeven,
    // 2: mark differs
    MarkDiffers,
    // 3: version not 1; of a book and of amounts, another than 1 or 2 (document 02, requests 4 and 7)
    VersionNotOne,
    // 4: book's n or m is above 32 (document 02, request 5: 0 is read)
    CountOutside,
    // 5: eligibility bit m or higher set; lot
    BitOutside(Lot),
    // 6: file ends before its last field
    EndsEarly,
    // 7: cost above 1,000,000; in version 2 of a book outside -1,000,000 to 1,000,000; lot, call
    CostTooHigh(Lot, Call),
    // 8: bytes after the last field
    BytesAfter,
    // 9: order's pair not in the book or not eligible; place in order
    PairNotEligible(usize),
    // 10: pair met before in the order; its second place
    PairMetBefore(usize),
    // 11: (k, l) not eligible; i, j, k, l
    CrossNotEligible(Lot, Call, Lot, Call),
    // 12: cost sum too high; i, j, k, l
    CrossSumTooHigh(Lot, Call, Lot, Call),
    // 13: no order exists
    NoOrder,
    // 14: an eligible pair missing from the order
    PairMissing,
    // 15: amounts' n or m differ from the book's
    CountsDiffer,
    // 16: amount above 1,000,000,000, of a lot or call as the file holds it
    AmountTooHigh,
    // 17: lent buffer too short
    BufferTooShort,
    // 18: run with an idle call: the calls' total exceeds the lots' total
    CallsExceedLots,
    // 19: run with an idle call: the book already has 32 calls
    NoIdleCall,
    // 20: ticket panel: n or m is above 8
    AboveEight,
    // 21: a reserve exceeds its lot
    ReserveExceedsLot,
}

impl Refusal {
    // The number that the table under "Refused" gives a cause.
    pub fn number(self) -> u32
        ensures { result ≡ (stated self).number }
    {
        match self {
            Refusal::UnderSeven => 1,
            Refusal::MarkDiffers => 2,
            Refusal::VersionNotOne => 3,
            Refusal::CountOutside => 4,
            Refusal::BitOutside(_) => 5,
            Refusal::EndsEarly => 6,
            Refusal::CostTooHigh(_, _) => 7,
            Refusal::BytesAfter => 8,
            Refusal::PairNotEligible(_) => 9,
            Refusal::PairMetBefore(_) => 10,
            Refusal::CrossNotEligible(_, _, _, _) => 11,
            Refusal::CrossSumTooHigh(_, _, _, _) => 12,
            Refusal::NoOrder => 13,
            Refusal::PairMissing => 14,
            Refusal::CountsDiffer => 15,
            Refusal::AmountTooHigh => 16,
            Refusal::BufferTooShort => 17,
            Refusal::CallsExceedLots => 18,
            Refusal::NoIdleCall => 19,
            Refusal::AboveEight => 20,
            Refusal::ReserveExceedsLot => 21,
        }
    }
}

// The number, and the values that the table returns with it.
impl fmt::Display for Refusal {
    ghost use Rattle.std.specs.Prelude.{Some};
    ghost use Rattle.specification.specs.Reply.{cause_text};

    ghost output = { λ cause. Some (cause_text cause) };

    fn fmt<W: fmt::Write>(&self, f: &mut fmt::Formatter<W>) -> fmt::Result {
        let number = self.number();
        match *self {
            Refusal::BitOutside(i) => write!(f, "{number} {i}"),
            Refusal::CostTooHigh(i, j) => write!(f, "{number} {i} {j}"),
            Refusal::PairNotEligible(place) | Refusal::PairMetBefore(place) => {
                write!(f, "{number} {place}")
            }
            Refusal::CrossNotEligible(i, j, k, l) | Refusal::CrossSumTooHigh(i, j, k, l) => {
                write!(f, "{number} {i} {j} {k} {l}")
            }
            _ => write!(f, "{number}"),
        }
    }
}

impl Error for Refusal {}

// "Reading a book, or amounts with their book, replies n and m" (The three files).
#[derive(Clone, Copy, Debug, PartialEq, Eq)]
pub struct Counts {
    pub lots: usize,
    pub calls: usize,
}

// "The answer is Full (units, cost) if nothing is left in any lot or call" (Running an order), "Covered (units, cost) when every call is met
// and some lot has units left; Short when a call still lacks units" (document 02, request 1). "The cost of one pair and the cost of a run
// become signed for every caller" (request 4).
#[derive(Clone, Copy, Debug, PartialEq, Eq)]
pub enum Placed {
    Full(u64, i64),
    Covered(u64, i64),
    Short(u64, i64),
}

// What the test of one quadruple answers: "whether (k, l) is eligible and the cost sums are as the check asks" (document 02, request 3).
// An enum of its own: the request's promise names its three answers.
#[derive(Clone, Copy, Debug, PartialEq, Eq)]
pub enum Quadruple {
    Holds,
    NotEligible,
    TooHigh,
}
