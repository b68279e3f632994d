// What the turns of a walk read of a book that was read: its bytes, its table of offsets and its count of calls.
ghost use Rattle.std.specs.Prelude.{◌≡◌, ◌<◌, ◌≤◌, IfSome};
ghost use Rattle.specification.specs.Costs.{cost_top};
ghost use Rattle.book.specs.Table.{Tabled, Packed};
ghost use Rattle.walk.specs.Gaps.{gap_over, Singles, CostStands, SideBySide};

use book::inner::{cost_at, entry_at};
use specification::{COST_LIMIT, Call, Lot};

// What a difference of two costs is raised by, so that it is above 0.
pub const RAISE: u32 = 2 * COST_LIMIT + 1;

// What a cost with the limit added is raised by before another, as the book holds it, is taken from it.
const RAISE_OF_RAISED: u32 = RAISE - COST_LIMIT;

#[derive(Drop)]
pub struct Costs<'a> {
    pub book: &'a [u8],
    pub offsets: &'a [u16; 1024],
    pub calls: usize,
    // For each call, the word that has it alone.
    pub singles: [u32; 32],
    ghost tabled: { Tabled book.now offsets.now },
    ghost packed: { Packed offsets.now calls },
    ghost few_calls: { calls ≤ 32 },
    ghost singled: { Singles singles },
}

impl<'a> Costs<'a> {
    pub fn new(book: &'a [u8], offsets: &'a [u16; 1024], calls: usize) -> Self
        requires { Tabled book.now offsets.now × Packed offsets.now calls × (calls ≤ 32) }
        ensures { (result.book.now ≡ book.now) × (result.offsets.now ≡ offsets.now) × (result.calls ≡ calls) }
    {
        Costs {
            book,
            offsets,
            calls,
            singles: singles(),
        }
    }

    // The gap of a call over another at a lot: the difference of its costs for the two, raised. The first has the cost `own`, with the limit
    // added, and the second that at a byte of the book.
    pub fn gap(&self, own: u32, at: usize) -> u32
        requires { CostStands self.now.book.now at × (own ≤ cost_top) }
        ensures { result ≡ gap_over self.now.book.now own at }
    {
        (own + RAISE_OF_RAISED).wrapping_sub(cost_at(self.book, at))
    }

    // The byte of a lot's first cost, where it has all calls and so its costs stand side by side.
    pub fn start_of(&self, lot: Lot) -> Option<usize>
        requires { (0 < self.now.calls) × (lot.0 < 32) }
        ensures { IfSome result (SideBySide self.now.offsets.now self.now.calls lot.0) }
    {
        let first = usize::from(entry_at(self.offsets, lot, Call(0)));
        let last = usize::from(entry_at(self.offsets, lot, Call(self.calls - 1)));
        if first > 0 && first + 4 * (self.calls - 1) == last {
            Some(first)
        } else {
            None
        }
    }
}

// For each call, the word that has it alone.
fn singles() -> [u32; 32]
    ensures { Singles result }
{
    let mut words = [0; 32];
    for (call, word) in words.iter_mut().enumerate() {
        *word = 1 << call;
    }
    words
}
