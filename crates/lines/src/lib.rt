// What is left, by ranks: line i is lot i, with the ranks of the calls left to it, and line `SIDE` + j is call j, with the ranks of the lots that
// still have it. For each line it is kept which number its lowest and its highest rank name.
#![tactic(auto)]

ghost use Rattle.std.specs.Prelude.{◌≡◌, true, false, ℕ, ◌≤◌, ◌<◌, replicate};
ghost use Rattle.specification.specs.Book.{bit};
ghost use Rattle.words.specs.Lefts.{is_left, TakenFrom};
ghost use Rattle.ranks.specs.Numbered.{Numbered, Plain};
ghost use Rattle.lines.specs.Lines.{Lined, Ended, EndsKept, RanksFrom, ByRank, LineSet};

use ranks::{LINES, Lines, Ranking};
use rows::word::is_set;
use slacks::SIDE;
use specification::{Call, Lot};
use words::numbers::numbers_of;
use words::{below, highest, including, including_if, lowest, without};

// What is left: by lot the word of its calls; by line the word of its ranks, and the names of the lowest and the highest. The ends stand in lists of their own,
// since what is kept of them is said of either list alone, and the halves of the marks take them exchanged.
#[derive(Clone, Copy)]
pub struct Left {
    pub lefts: [u32; SIDE],
    pub lines: [u32; LINES],
    pub nears: Lines,
    pub fars: Lines,
}

// The lots that have a call, of a list of their words.
fn column_of(lefts: &[u32; SIDE], call: Call) -> u32
    ensures { (i : ℕ) → bit result i ≡ is_left lefts.now i call.0 }
{
    let mut word = 0;
    for (i, calls) in lefts.iter().enumerate() {
        word = including_if(is_set(*calls, call.0), word, i);
    }
    word
}

// The lots or the calls of a word, by their ranks, which are counted from a line on. Without ranks, and in a word of all, these are the same numbers.
fn by_rank(ranking: &Ranking, from: usize, count: usize, word: u32) -> u32
    requires { (from ≤ 32) × RanksFrom ranking.now from count × ((x : ℕ) → bit word x ≡ true → x < count) }
    ensures { ByRank ranking.now from count (bit word) result }
{
    if !ranking.ranked || word == below(u32::MAX, count) {
        return word;
    }
    let mut line = 0;
    for x in numbers_of(word) {
        line = including(line, usize::from(ranking.ranks[from + x]));
    }
    line
}

impl Left {
    // A line, a lot's or a call's, gets a word, and its ends with it: the names of the lowest and the highest rank, which are counted from `across` on.
    fn set(&mut self, ranking: &Ranking, word: u32, line: usize, across: usize)
        requires { (line < 64) × (across ≤ 32) }
        ensures { LineSet ranking.now word line across self.old self.new }
    {
        self.lines[line] = word;
        if word == 0 {
            return;
        }
        self.nears[line] = ranking.names[across + lowest(word)];
        self.fars[line] = ranking.names[across + highest(word)];
    }

    // Nothing is left.
    pub fn none() -> Left
        ensures { result.lefts ≡ replicate 32 0 }
    {
        Left {
            lefts: [0; SIDE],
            lines: [0; LINES],
            nears: [0; LINES],
            fars: [0; LINES],
        }
    }

    // All eligible pairs are left. It is filled where it stands.
    pub fn fill(&mut self, ranking: &Ranking, eligible: &[u32; SIDE], n: usize, m: usize)
        requires numbered { Numbered n m ranking.now.names ranking.now.ranks × (ranking.now.ranked ≡ false → Plain ranking.now.ranks) }
        requires inside { (i j : ℕ) → is_left eligible.now i j ≡ true → (i < n) × (j < m) }
        ensures lefts { self.new.lefts ≡ eligible.now }
        ensures lined { Lined ranking.now self.new }
        ensures ended { Ended ranking.now self.new }
    {
        self.lefts = *eligible;
        for (x, calls) in eligible.iter().enumerate() {
            let row = by_rank(ranking, SIDE, m, *calls);
            self.set(ranking, row, x, SIDE);
            let column = by_rank(ranking, 0, n, column_of(eligible, Call(x)));
            self.set(ranking, column, SIDE + x, 0);
        }
    }

    // The pair is lost: its call leaves what is left to its lot, and both lines lose it.
    pub fn lose(&mut self, ranking: &Ranking, lot: Lot, call: Call)
        requires lined { Lined ranking.now self.old × Ended ranking.now self.old }
        requires is_left { (lot.0 < 32) × (call.0 < 32) × (is_left self.old.lefts lot.0 call.0 ≡ true) }
        ensures taken_from { TakenFrom lot.0 call.0 self.old.lefts self.new.lefts }
        ensures lined { Lined ranking.now self.new }
        ensures ended { Ended ranking.now self.new }
        ensures nears_kept { EndsKept lot.0 call.0 self.new.lefts self.old.nears self.new.nears }
        ensures fars_kept { EndsKept lot.0 call.0 self.new.lefts self.old.fars self.new.fars }
    {
        let i = lot.0;
        let j = call.0;
        self.lefts[i] = without(self.lefts[i], j);
        let row = without(self.lines[i], usize::from(ranking.ranks[SIDE + j]));
        self.set(ranking, row, i, SIDE);
        let column = without(self.lines[SIDE + j], usize::from(ranking.ranks[i]));
        self.set(ranking, column, SIDE + j, 0);
    }
}
