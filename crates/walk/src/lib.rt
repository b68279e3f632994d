// Where an order of eligible pairs first fails to be a Monge sequence, by a walk from its end. Kept are, for each lot, the word of the calls
// that it has later pairs with; and for each call j the word of the calls that all lots with a later pair at j are eligible for, with the
// least gap of j over each of these calls at those lots. A pair (i, j) fails where lot i has a later pair with a call that is not in the word
// of j, since then a pair (k, l) is not eligible, or with one over which its own gap is not the least. Costs are read where the book holds
// them; only the least gaps are kept.
#![tactic(auto)]

mod costs;
mod gaps;
pub mod places;

ghost use Rattle.walk.specs.Walk.{Walkable, Walked};

use book::inner::cost_at;
use costs::Costs;
use gaps::Gaps;
use places::Pairs;

// The lowest place of an order whose pair is not free against those at or after it: from the last pair to the first, each is put into the
// words, its gaps are entered and it is tested.
pub fn walk(
    book: &[u8],
    offsets: &[u16; 1024],
    starts: &[usize; 32],
    m: usize,
    pairs: &Pairs,
) -> Option<usize>
    requires { Walkable book.now offsets.now starts.now pairs.now.order.now pairs.now.count m }
    ensures { Walked book.now offsets.now pairs.now.order.now pairs.now.count m result }
{
    let costs = Costs::new(book, offsets, m);
    let mut gaps = Gaps::new();
    gaps.raise();
    // By call: the calls that every lot with a later pair at it is eligible for.
    let mut common = [u32::MAX; 32];
    // By lot: the calls that it has later pairs with.
    let mut later = [0; 32];
    let mut lowest = None;
    for place in (0..pairs.count).rev() {
        let (i, j) = pairs.at(place);
        let shared = common[j.0] & cost_at(book, starts[i.0]);
        let marked = later[i.0] | costs.singles[j.0];
        common[j.0] = shared;
        later[i.0] = marked;
        let fits = gaps.enter(&costs, i, j, shared);
        if marked & fits != marked {
            lowest = Some(place);
        }
    }
    lowest
}
