// The search for an order over a table of slacks: the next pair is taken until none remains or none is free. Pairs that are known to be hindered
// are marked, and are not tried again until what hinders them may be gone.
#![tactic(auto)]

mod asking;
mod marks;
mod taking;

ghost use Rattle.std.specs.Prelude.{◌≡◌, ◌≤◌, length};
ghost use Rattle.transport.specs.Finder.{size, find};
ghost use Rattle.slacks.specs.Slacks.{by_slacks};
ghost use Rattle.slacks.specs.Found.{Finds};
ghost use Rattle.ranks.specs.Numbered.{Compared};
ghost use Rattle.trial.specs.Tables.{Table};

use lines::Left;
use marks::Half;
use slacks::{PAIRS, SIDE, put};
use trial::Given;
use words::below;

// What is searched, with how many lots and calls it has. A trial does not ask these.
#[derive(Clone, Copy)]
pub struct Searched<'a> {
    pub given: Given<'a>,
    pub lots: usize,
    pub calls: usize,
    pub ghost table: { Table given.slacks.now lots calls given.eligible.now given.ranking.now },
}

// All that a search keeps: what is left; by pair: below which rank all lots let it pass, and 1 where it is taken; the marks of either half; and the
// lots that are to be asked.
#[derive(Clone, Copy)]
struct Search {
    left: Left,
    passed: [u8; PAIRS],
    taken: [u8; PAIRS],
    low: Half,
    high: Half,
    to_ask: u32,
}

// An order of the eligible pairs: the count of its pairs, with two bytes a pair, lot and call, at the start of the array; or nothing where
// there is none. With ranks the slacks are Monge by them, and `compared`, the table that trials compare, holds the costs, gaps filled.
pub fn find_pairs(
    searched: &Searched,
    total: usize,
    compared: &mut [u32; PAIRS],
    pairs: &mut [u8],
) -> Option<usize>
    requires compared { Compared searched.now.given.ranking.now.ranked searched.now.given.slacks.now compared.old }
    requires total { (total ≡ size (by_slacks searched.now.given.slacks.now searched.now.lots searched.now.calls)) × (2048 ≤ length pairs.old) }
    ensures { Finds (find (by_slacks searched.now.given.slacks.now searched.now.lots searched.now.calls)) result pairs.new }
{
    let given = &searched.given;
    let unmarked = Half {
        waits: [0; SIDE],
        marks: [0; SIDE],
    };
    let mut search = Search {
        left: Left::none(),
        passed: [0; PAIRS],
        taken: [0; PAIRS],
        low: unmarked,
        high: unmarked,
        to_ask: below(u32::MAX, searched.lots),
    };
    search.left.fill(given.ranking, given.eligible, searched.lots, searched.calls);
    for count in 0..total {
        let (lot, call) = search.next_pair(given, compared)?;
        search.take_pair(given, lot, call, compared);
        put(pairs, count, lot, call);
    }
    Some(total)
}
