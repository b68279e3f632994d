// The search of a table of slacks, by ranks where there are some, and the order file of what is found.
ghost use Rattle.std.specs.Prelude.{◌+◌, ◌*◌, ◌≤◌, length};
ghost use Rattle.transport.specs.Finder.{find};
ghost use Rattle.slacks.specs.Slacks.{by_slacks};
ghost use Rattle.finder.specs.Writing.{Orders};

use super::writing::write_order;
use ranks::rank;
use search::{Searched, find_pairs};
use slacks::PAIRS;
use slacks::filling::SlackTable;
use trial::Given;

// The order file of the order that is found; where there is none, nothing, and the buffer as it was.
pub fn find_by_slacks(table: &SlackTable, buffer: &mut [u8]) -> Option<usize>
    requires { 7 + 2 * table.now.total ≤ length buffer.old }
    ensures { Orders (find (by_slacks table.now.slacks table.now.lots table.now.calls)) result buffer.old buffer.new }
{
    // By lot, a row of `SIDE` calls, what trials compare: with ranks the costs, gaps filled; without, the raised slacks of the pairs left.
    let mut compared = [0; PAIRS];
    let ranking = rank(
        &table.slacks,
        table.lots,
        table.calls,
        table.total,
        &mut compared,
    );
    let searched = Searched {
        given: Given {
            slacks: &table.slacks,
            eligible: &table.words,
            ranking: &ranking,
        },
        lots: table.lots,
        calls: table.calls,
    };
    // By place in the order, two bytes for each of at most `PAIRS` pairs.
    let mut pairs = [0; 2 * PAIRS];
    let count = find_pairs(&searched, table.total, &mut compared, &mut pairs)?;
    write_order(buffer, &pairs, count);
    Some(count)
}
