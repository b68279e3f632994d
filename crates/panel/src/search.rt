// The search: the lowest free pair is taken and given its room, until none remains or none is free. A pair is free exactly where, for each lot
// that still has its call, the gap over that lot at the call is least.
ghost use Rattle.std.specs.Prelude.{◌≡◌, ◌≤◌, ◌<◌, replicate};
ghost use Rattle.words.specs.Words.{Begins};
ghost use Rattle.panel.specs.Search.{FreeCalls, NextIs, AllWait, CanTake, Took, is_taken, OwnCalls, Searching, TakenAll};

use panel_table::filling::Table;
use panel_table::gaps::renew;
use panel_table::{PAIRS, SIDE};
use remaining::{Remaining, Sums};
use slacks::SLACK_MOST;
use specification::{Call, Lot};
use words::{either, lowest, minus};

// The pairs that are not taken, and the words by which the next is found.
#[derive(Clone, Copy)]
struct Waiting {
    // By lot, a row of `SIDE` calls: the mark of a pair that is taken, the word of its call, else 0.
    taken: [u8; PAIRS],
    // By lot: the calls left to it, those that are eligible and not taken.
    lefts: [u32; SIDE],
    // By lot, a row of `SIDE` lots: the calls left to it at which its gap over that lot is least.
    least: [u32; PAIRS],
}

impl Waiting {
    // All pairs wait.
    fn all(table: &Table) -> Waiting
        requires { table.now.lots ≤ 8 }
        ensures { AllWait table.now table.now.lots result }
    {
        let mut waiting = Waiting {
            taken: [0; PAIRS],
            lefts: table.eligible,
            least: [0; PAIRS],
        };
        for (i, calls) in table.eligible[..table.lots].iter().enumerate() {
            renew(table, Lot(i), *calls, &mut waiting.least);
        }
        waiting
    }

    // The calls whose pairs with the lot are free. A straight pass over two arrays by one number.
    fn free_calls(&self, lot: Lot) -> u32
        requires { lot.0 < 8 }
        ensures { FreeCalls self.now.lefts self.now.least lot.0 8 result }
    {
        let i = lot.0;
        let mut free = self.lefts[i];
        for k in 0..SIDE {
            free = minus(free, minus(self.lefts[k], self.least[SIDE * i + k]));
        }
        free
    }

    // The lowest lot's lowest free pair.
    fn next(&self, n: usize) -> Option<(Lot, Call)>
        requires { n ≤ 8 }
        ensures { NextIs self.now.lefts self.now.least n result }
    {
        for i in 0..n {
            let free = self.free_calls(Lot(i));
            if 0 < free {
                return Some((Lot(i), Call(lowest(free))));
            }
        }
        None
    }

    // The calls whose pairs with the lot are marked as taken.
    fn taken_calls(&self, lot: Lot) -> u32
        requires { (lot.0 < 8) × OwnCalls self.now.taken lot.0 }
        ensures { Begins (is_taken self.now.taken lot.0) 8 result }
    {
        let first = SIDE * lot.0;
        let mut calls: u32 = 0;
        for mark in &self.taken[first..first + SIDE] {
            calls = either(calls, u32::from(*mark));
        }
        calls
    }

    // The pair is marked as taken, and its lot's words are worked out again.
    fn take(&mut self, table: &Table, lot: Lot, call: Call)
        requires { CanTake table.now self.old lot.0 call.0 }
        ensures { Took table.now self.old lot.0 call.0 self.new }
    {
        let i = lot.0;
        let j = call.0;
        self.taken[SIDE * i + j] = 1u8 << j;
        let left = minus(table.eligible[i], self.taken_calls(lot));
        self.lefts[i] = left;
        renew(table, lot, left, &mut self.least);
    }
}

// What remains, and the sums of what was given, the limit being added to the cost of each unit.
#[derive(Clone, Copy)]
pub struct Taken {
    pub remaining: Remaining<SIDE>,
    pub sums: Sums,
}

// Takes all pairs, as the plain rule does, and gives each its room at once: its units, by lot a row of calls. Nothing where none is free before that.
// At most as many pairs as there are lots and calls have room, and only for these a new state is made.
pub fn take_all(
    table: &Table,
    remaining: Remaining<SIDE>,
    units: &mut [u32; PAIRS],
) -> Option<Taken>
    requires { Searching table.now table.now.lots table.now.calls table.now.total remaining × (units.old ≡ replicate 64 0) }
    ensures { TakenAll table.now.slacks table.now.lots table.now.calls remaining result units.new }
{
    let mut waiting = Waiting::all(table);
    let mut state = Taken {
        remaining,
        sums: Sums::default(),
    };
    // The proof counts the pairs taken by `turn`.
    for turn in 0..table.total {
        let (lot, call) = waiting.next(table.lots)?;
        waiting.take(table, lot, call);
        let room = state.remaining.room(lot, call);
        if room > 0 {
            units[lot.0 * table.calls + call.0] = room as u32;
            let cost = SLACK_MOST - table.slack_at(lot, call);
            state.sums.units += room;
            state.sums.lifted += room * u64::from(cost);
            state.remaining = state.remaining.give(lot, call, room);
        }
    }
    Some(state)
}
