// One lot's row of a book. Each function of it is given the part of the book that starts at the lot's word, wherever in the file that is;
// `all_within` serves the amounts too.
#![tactic(auto)]

pub mod word;

ghost use Rattle.std.specs.Prelude.{◌≡◌, ◌+◌, ◌*◌, ◌≤◌, leb, length};
ghost use Rattle.transport.specs.Finder.{every};
ghost use Rattle.specification.specs.Reply.{told};
ghost use Rattle.specification.specs.Bytes.{u32_at};
ghost use Rattle.specification.specs.Costs.{cost_limit, cost_base, lifted_cost};
ghost use Rattle.specification.specs.Book.{row_size, row_cost, read_costs, read_row};

use specification::{COST_LIMIT, Call, Lot, Refusal};

// The word, and four bytes for each cost.
pub fn size(row: &[u8]) -> usize
    ensures { result ≡ row_size row.now }
{
    4 + 4 * word::count(files::u32_at(row, 0))
}

// The 32 bits of the cost of a call: the costs of the lower set bits stand between the word and it.
pub fn cost_in(row: &[u8], call: Call) -> u32
    ensures { result ≡ row_cost row.now call.0 }
{
    let word = files::u32_at(row, 0);
    files::u32_at(row, 4 + 4 * word::count_below(word, call.0))
}

// Whether none of the `count` 32-bit numbers from byte `start` on, with the base added, is above the limit. It does not stop at the first
// that is: the pass is straight code.
pub fn all_within(s: &[u8], start: usize, count: usize, base: u32, limit: u32) -> bool
    requires { start + 4 * count ≤ length s.now }
    ensures { result ≡ every count (λ k. leb (lifted_cost base (u32_at s.now (start + 4 * k))) limit) }
{
    let mut within = true;
    for k in 0..count {
        within &= signed::lifted(files::u32_in(s, start + 4 * k), base) <= limit;
    }
    within
}

// The first cost outside the range of a version, lowest bit first, of a row that stands whole in the book.
fn first_outside(row: &[u8], version: u16, lot: Lot, calls: usize) -> Result<(), Refusal>
    requires { row_size row.now ≤ length row.now }
    ensures { told result ≡ read_costs row.now version lot.0 calls 0 }
{
    let word = files::u32_at(row, 0);
    let mut at = 4;
    for j in 0..calls {
        if word::is_set(word, j) {
            if signed::outside(files::u32_in(row, at), version) {
                return Err(Refusal::CostTooHigh(lot, Call(j)));
            }
            at += 4;
        }
    }
    Ok(())
}

// Whether the first `count` costs of a row are within the range of a version. The base is a constant in each call, so that the compiler has
// a loop for each.
fn within(row: &[u8], version: u16, count: usize) -> bool
    requires { 4 + 4 * count ≤ length row.now }
    ensures { result ≡ every count (λ k. leb (lifted_cost (cost_base version) (u32_at row.now (4 + 4 * k))) (cost_limit + cost_base version)) }
{
    if version == 2 {
        return all_within(row, 4, count, COST_LIMIT, COST_LIMIT + COST_LIMIT);
    }
    all_within(row, 4, count, 0, COST_LIMIT)
}

// The costs of a row that stands whole in the book: none may be outside the range. Only where one is, they are gone through by call.
fn read_costs(row: &[u8], version: u16, lot: Lot, calls: usize) -> Result<(), Refusal>
    requires { row_size row.now ≤ length row.now }
    ensures { told result ≡ read_costs row.now version lot.0 calls 0 }
{
    if within(row, version, word::count(files::u32_at(row, 0))) {
        return Ok(());
    }
    first_outside(row, version, lot, calls)
}

// The row of a lot: its word, with no bit from the number of calls on, and then its costs.
pub fn read_row(row: &[u8], version: u16, lot: Lot, calls: usize) -> Result<(), Refusal>
    ensures { told result ≡ read_row row.now version lot.0 calls }
{
    if row.len() < 4 {
        return Err(Refusal::EndsEarly);
    }
    if word::reaches(files::u32_at(row, 0), calls) {
        return Err(Refusal::BitOutside(lot));
    }
    if row.len() < size(row) {
        return Err(Refusal::EndsEarly);
    }
    read_costs(row, version, lot, calls)
}
