// Amounts as numbers, and the reading of the file once its book's n and m are known. In version 2 n reserves follow the call amounts.
ghost use Rattle.std.specs.Prelude.{◌≡◌, true, ℕ, ◌+◌, ◌<◌, ◌≤◌, leb, length, get_or};
ghost use Rattle.transport.specs.Finder.{every};
ghost use Rattle.specification.specs.Reply.{told};
ghost use Rattle.specification.specs.Bytes.{byte_at};
ghost use Rattle.specification.specs.Amounts.{amount_at, amounts_length, carries_reserves, reserve_at, lot_amount, read_amounts_of};

use specification::{AMOUNT_LIMIT, Counts, Refusal};

// Number k of the file, counted from 0: the lots' amounts come first, then the calls', then the reserves. Bytes past the end count as 0.
#[tactic(auto, using(specification::proofs::Numbers::u32_past))]
pub fn amount_at(amounts: &[u8], k: usize) -> u32
    ensures { result ≡ amount_at amounts.now k }
{
    if amounts.len() < 7 {
        return 0;
    }
    if (amounts.len() - 7) / 4 < k {
        return 0;
    }
    files::u32_at(amounts, 7 + 4 * k)
}

// Whether the file carries reserves.
fn has_reserves(amounts: &[u8]) -> bool
    ensures { result ≡ carries_reserves amounts.now }
{
    files::u16_at(amounts, 3) == 2
}

// Which number of the file is the reserve of lot 0, where it carries reserves.
fn first_reserve(amounts: &[u8]) -> usize
    ensures { (result ≡ byte_at amounts.now 5 + byte_at amounts.now 6) × (result < 512) }
{
    let own = files::counts_at(amounts);
    own.lots + own.calls
}

// The bytes that a file with these counts has, by whether it carries reserves.
fn length_of(amounts: &[u8], counts: Counts) -> usize
    requires { (counts.lots ≤ 32) × (counts.calls ≤ 32) }
    ensures { result ≡ amounts_length counts amounts.now }
{
    let reserves = if has_reserves(amounts) {
        counts.lots
    } else {
        0
    };
    7 + 4 * (counts.lots + counts.calls + reserves)
}

// Whether no reserve exceeds what its lot holds.
fn within_lots(amounts: &[u8], lots: usize) -> bool
    requires { lots ≤ 32 }
    ensures { result ≡ every lots (λ i. leb (reserve_at amounts.now i) (amount_at amounts.now i)) }
{
    if !has_reserves(amounts) {
        return true;
    }
    let first = first_reserve(amounts);
    (0..lots).all(|i| amount_at(amounts, first + i) <= amount_at(amounts, i))
}

// n and m again, or the refusal of the amounts.
#[tactic(auto, using(crate::proofs::Reading::amounts_within), unfolding(specification::specs::Amounts::read_amounts_of))]
pub fn read_of(counts: Counts, amounts: &[u8]) -> Result<Counts, Refusal>
    requires { (counts.lots ≤ 32) × (counts.calls ≤ 32) }
    ensures { told result ≡ read_amounts_of counts amounts.now }
{
    files::read_opening(amounts, &files::AMOUNTS_MARK, 2)?;
    let own = files::counts_at(amounts);
    if own != counts {
        return Err(Refusal::CountsDiffer);
    }
    let size = length_of(amounts, counts);
    if amounts.len() < size {
        return Err(Refusal::EndsEarly);
    }
    if size < amounts.len() {
        return Err(Refusal::BytesAfter);
    }
    if !rows::all_within(amounts, 7, counts.lots + counts.calls, 0, AMOUNT_LIMIT) {
        return Err(Refusal::AmountTooHigh);
    }
    if !within_lots(amounts, counts.lots) {
        return Err(Refusal::ReserveExceedsLot);
    }
    Ok(counts)
}

// The amounts of the file from number `first` on, as many as `out` has room for.
pub fn amounts_into(amounts: &[u8], first: usize, out: &mut [u64])
    requires { first ≤ 32 }
    ensures { (k : ℕ) → k < length out.old → get_or out.new k 0 ≡ amount_at amounts.now (first + k) }
{
    for (k, units) in out.iter_mut().enumerate() {
        *units = u64::from(amount_at(amounts, first + k));
    }
}

// Takes the reserves off what the first lots hold, in a file that carries reserves.
fn hold_back(amounts: &[u8], out: &mut [u64])
    requires carries { carries_reserves amounts.now ≡ true }
    requires holds { (i : ℕ) → i < length out.old → get_or out.old i 0 ≡ amount_at amounts.now i }
    requires within { (i : ℕ) → i < length out.old → reserve_at amounts.now i ≤ amount_at amounts.now i }
    ensures { (i : ℕ) → i < length out.old → get_or out.new i 0 ≡ lot_amount amounts.now i }
{
    let first = first_reserve(amounts);
    for (i, units) in out.iter_mut().enumerate() {
        *units -= u64::from(amount_at(amounts, first + i));
    }
}

// What the first lots hold less their reserves, of as many as `out` has room for.
pub fn lots_into(amounts: &[u8], out: &mut [u64])
    requires { (i : ℕ) → i < length out.old → reserve_at amounts.now i ≤ amount_at amounts.now i }
    ensures { (i : ℕ) → i < length out.old → get_or out.new i 0 ≡ lot_amount amounts.now i }
{
    amounts_into(amounts, 0, out);
    if has_reserves(amounts) {
        hold_back(amounts, out);
    }
}
