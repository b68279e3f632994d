// Costs with a sign (document 02, request 4). Inside a cost is a natural number, lifted by a base; it gets its sign where it is told.
#![tactic(auto)]

ghost use Rattle.std.specs.Prelude.{◌≡◌, ◌<◌, false, nat_lt, pos, ◌-ℤ◌};
ghost use Rattle.specification.specs.Costs.{held_cost, cost_base, cost_outside, lifted_cost};

use specification::COST_LIMIT;

// What is added to each cost of a book of this version, so that none is below zero. A version is the file's number: these functions answer for any.
pub fn cost_base(version: u16) -> u32
    ensures { result ≡ cost_base version }
{
    if version == 2 { COST_LIMIT } else { 0 }
}

// A cost with a base added, of the 32 bits that a book holds.
pub fn lifted(held: u32, base: u32) -> u32
    ensures { result ≡ lifted_cost base held }
{
    held.wrapping_add(base)
}

// Whether a cost is outside the range of a version.
pub fn outside(held: u32, version: u16) -> bool
    ensures { result ≡ cost_outside version held }
{
    let base = cost_base(version);
    COST_LIMIT + base < lifted(held, base)
}

// Whether a number is below another. They are compared as signed numbers, which a processor does with several at a time.
pub fn is_below(a: u32, b: u32) -> bool
    requires { (a < 2147483648) × (b < 2147483648) }
    ensures { result ≡ nat_lt a b }
{
    a.cast_signed() < b.cast_signed()
}

// A difference with its sign.
pub fn difference(a: u64, b: u64) -> i64
    requires { (a < 9223372036854775808) × (b < 9223372036854775808) }
    ensures { result ≡ pos a -ℤ pos b }
{
    a.cast_signed() - b.cast_signed()
}

// A cost with its sign, of the 32 bits that a readable book holds.
pub fn held_cost(held: u32, version: u16) -> i64
    requires { cost_outside version held ≡ false }
    ensures { result ≡ held_cost version held }
{
    let base = cost_base(version);
    i64::from(lifted(held, base)) - i64::from(base)
}
