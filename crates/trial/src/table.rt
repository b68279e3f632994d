// What is searched.
ghost use Rattle.trial.specs.Tables.{Tabled};

use ranks::Ranking;
use slacks::{PAIRS, SIDE};

// No `SlackTable`, which also says of how many lots and calls it is, and how many pairs there are: a trial does not ask that. The slacks, the words of
// the eligible calls, and the ranks.
#[derive(Clone, Copy)]
pub struct Given<'a> {
    pub slacks: &'a [u32; PAIRS],
    pub eligible: &'a [u32; SIDE],
    pub ranking: &'a Ranking,
    pub ghost tabled: { ∥ Tabled slacks.now eligible.now ranking.now ∥₁ },
}
