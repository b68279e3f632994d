// The answers of document 01's entry points, told in the six numbers that C is handed.
#![tactic(auto)]

ghost use Rattle.std.specs.Prelude.{◌≡◌, [], ◌∷◌, ℕ};
ghost use Rattle.specification.specs.Reply.{stated, told_as, Size, Outcome, outcome_of};
ghost use Rattle.specification.specs.Book.{PairCost};
ghost use Rattle.book.specs.Pairs.{pair_cost_of};
ghost use Rattle.answers.specs.Answers.{four_of, answer, answer_of, counts, cost_of, number, placed};

use book::Cost;
use specification::{Counts, Placed, Refusal};

// A reply: 0 or the refusal's number; 1 for Full, 2 for Short, 3 for Covered, else 0; and up to four values, the others 0. A cost is a
// 64-bit two's complement number.
#[repr(C)]
#[derive(Clone, Copy)]
pub struct Answer {
    pub number: u32,
    pub verdict: u32,
    pub values: [u64; 4],
}

// The values that the table under "Refused" returns with a cause, the unused ones 0: four numbers, as C has them.
fn values_of(cause: Refusal) -> [u64; 4]
    ensures { result ≡ four_of (stated cause).values }
{
    match cause {
        Refusal::BitOutside(i) => [i.0 as u64, 0, 0, 0],
        Refusal::CostTooHigh(i, j) => [i.0 as u64, j.0 as u64, 0, 0],
        Refusal::PairNotEligible(place) | Refusal::PairMetBefore(place) => [place as u64, 0, 0, 0],
        Refusal::CrossNotEligible(i, j, k, l) | Refusal::CrossSumTooHigh(i, j, k, l) => {
            [i.0 as u64, j.0 as u64, k.0 as u64, l.0 as u64]
        }
        _ => [0; 4],
    }
}

// A cause: its number, and its values.
fn refused(cause: Refusal) -> Answer
    ensures { result ≡ answer (stated cause).number 0 (stated cause).values }
{
    Answer {
        number: cause.number(),
        verdict: 0,
        values: values_of(cause),
    }
}

// What is accepted: a verdict's number, or 0, and two values.
fn accepted(verdict: u32, first: u64, second: u64) -> Answer
    ensures { result ≡ answer 0 verdict (first ∷ second ∷ []) }
{
    Answer {
        number: 0,
        verdict,
        values: [first, second, 0, 0],
    }
}

// What an entry point gives where it does not refuse: what it means, and how that is told.
pub trait Told {
    ghost use Rattle.answers.specs.declared.Answer.{Answer};

    ghost Meaning: { Type 0 };

    ghost means: { Self → Meaning };

    ghost told: { Meaning → Answer };

    fn told(self) -> Answer
        ensures { result ≡ told (means self) };
}

// n and m.
impl Told for Counts {
    ghost Meaning = { Size };

    ghost means = { λ size. size };

    ghost told = { counts };

    fn told(self) -> Answer {
        accepted(0, self.lots as u64, self.calls as u64)
    }
}

// A count of pairs, or a file's length.
impl Told for usize {
    ghost Meaning = { ℕ };

    ghost means = { λ n. n };

    ghost told = { number };

    fn told(self) -> Answer {
        accepted(0, self as u64, 0)
    }
}

// 1 and the cost of an eligible pair; 0 and 0 of one that is not eligible or not in the book.
impl Told for Cost {
    ghost Meaning = { PairCost };

    ghost means = { pair_cost_of };

    ghost told = { cost_of };

    fn told(self) -> Answer {
        match self {
            Cost::Of(cost) => accepted(0, 1, cost.cast_unsigned()),
            Cost::NotEligible | Cost::Outside => accepted(0, 0, 0),
        }
    }
}

// The verdict's number, units and cost.
impl Told for Placed {
    ghost Meaning = { Outcome };

    ghost means = { outcome_of };

    ghost told = { placed };

    fn told(self) -> Answer {
        let (verdict, units, cost) = match self {
            Placed::Full(units, cost) => (1, units, cost),
            Placed::Short(units, cost) => (2, units, cost),
            Placed::Covered(units, cost) => (3, units, cost),
        };
        accepted(verdict, units, cost.cast_unsigned())
    }
}

// An entry point's answer: what it gives, or its refusal.
impl<T: Told> From<Result<T, Refusal>> for Answer {
    ghost from_gives = { λ reply told. told ≡ answer_of T.told (told_as T.means reply) };

    #[tactic(auto, unfolding(crate::specs::Answers::answer_of))]
    fn from(reply: Result<T, Refusal>) -> Answer {
        match reply {
            Ok(given) => given.told(),
            Err(cause) => refused(cause),
        }
    }
}
