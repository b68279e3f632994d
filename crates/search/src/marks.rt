// The marks of the pairs that are hindered in a half. They are put where a trial tells so, and those that may be gone with a pair are taken back.
ghost use Rattle.std.specs.Prelude.{◌≡◌, cond, ◌<◌};
ghost use Rattle.specification.specs.Book.{bit};
ghost use Rattle.search.specs.Marks.{Waiting};
ghost use Rattle.search.specs.Steps.{PutIf, MayGo, Released, Unmarked};

use rows::word::is_set;
use slacks::{PAIRS, SIDE};
use specification::{Call, Lot};
use words::numbers::numbers_of;
use words::{including_if, without};

// By lot: the calls whose pairs are marked. By call: the lots that wait at it, all whose pairs with it are marked and maybe others.
#[derive(Clone, Copy)]
pub struct Half {
    pub waits: [u32; SIDE],
    pub marks: [u32; SIDE],
}

// The ends of a pair's lines at which a half is hindered: a call, and a lot.
#[derive(Clone, Copy)]
pub struct Ends {
    pub row: u8,
    pub column: u8,
}

// Whether what hinders pairs at the end of a line may be gone with x, a call where it is a lot's line, and a lot where it is a call's: it is
// that end, or there are no ranks.
fn may_go(ranked: bool, end: u8, x: usize) -> bool
    ensures { MayGo ranked end x result }
{
    !ranked || usize::from(end) == x
}

// The word, or none of it where it is gone.
fn unless(gone: bool, word: u32) -> u32
    ensures { result ≡ cond gone 0 word }
{
    if gone { 0 } else { word }
}

impl Half {
    // The pair is marked, where it is told to be hindered in this half, and its lot waits at its call.
    pub fn mark(&mut self, told: bool, lot: Lot, call: Call)
        requires { (lot.0 < 32) × (call.0 < 32) }
        ensures marks { PutIf told lot.0 call.0 self.old.marks self.new.marks }
        ensures waits { PutIf told call.0 lot.0 self.old.waits self.new.waits }
    {
        let i = lot.0;
        let j = call.0;
        self.marks[i] = including_if(told, self.marks[i], j);
        self.waits[j] = including_if(told, self.waits[j], i);
    }

    // The marks with the call of the lots in the word are taken back. The lots that have none with it in the other half, and whose pair is not taken.
    fn release(&mut self, lots: u32, call: Call, taken: &[u8; PAIRS], other: &Half) -> u32
        requires { call.0 < 32 }
        ensures released { Released call.0 (bit lots) taken.now other.now.marks self.old.marks self.new.marks result }
        ensures waits { self.new.waits ≡ self.old.waits }
    {
        let j = call.0;
        let mut again = 0;
        for k in numbers_of(lots) {
            self.marks[k] = without(self.marks[k], j);
            again = including_if(
                !is_set(other.marks[k], j) && taken[SIDE * k + j] == 0,
                again,
                k,
            );
        }
        again
    }

    // The marks that may be gone with the pair are taken back: those of its lot, by the end of its row, and those with its call, by the end of its
    // column. The lots to be asked again for the latter.
    pub fn unmark(
        &mut self,
        ranked: bool,
        ends: Ends,
        lot: Lot,
        call: Call,
        taken: &[u8; PAIRS],
        other: &Half,
    ) -> u32
        requires { (lot.0 < 32) × (call.0 < 32) × Waiting self.old }
        ensures { Unmarked ranked lot.0 call.0 ends.row ends.column taken.now other.now self.old self.new result }
    {
        let i = lot.0;
        let j = call.0;
        self.marks[i] = unless(may_go(ranked, ends.row, j), self.marks[i]);
        let gone = may_go(ranked, ends.column, i);
        let lots = unless(!gone, self.waits[j]);
        self.waits[j] = unless(gone, self.waits[j]);
        self.release(lots, call, taken, other)
    }
}
