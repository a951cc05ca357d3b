// Queries: the rank of the left, and whether what holds of a left of that rank includes the right.
#![tactic(auto)]

ghost use Rattle.std.specs.Prelude.{◌<◌, ◌≤◌, length};
ghost use Rattle.results.specs.Found.{found_rank, found_root};
ghost use Rattle.ranks.specs.Rank.{Askable};
ghost use Rattle.queries.specs.Steps.{Replied, QueriesAnswered};

use index::Index;
use ranks::rank_of;
use results::{RankedRoot, replied_result};
use roots::Settling;
use rows::{RowKind, is_kind, left_of};
use sets::ConceptSet;

// Every query with the left a gets its result, every other row keeps its own. Only the rows that the index has for a are looked at.
fn reply_to(index: Index, results: &mut [u16], a: usize, found: Option<RankedRoot>)
    requires { (a < index.n) × (length index.rows.now ≤ length results.old) }
    ensures { Replied index.entry.rows.now a (found_rank found) (found_root found) results.old results.new }
{
    for i in index.readers(a) {
        results[i] = replied_result(index.rows[i], results[i], a, found);
    }
}

// Every query gets its result, every other row keeps its own. The first query with a left has that left's rank found, and all of its queries answered.
pub fn answer_queries(settling: Settling, results: &mut [u16], k: u16)
    requires { Askable settling k × (length settling.index.rows.now ≤ length results.old) }
    ensures { QueriesAnswered settling.entry.index.rows.now settling.entry.levels.now k results.old results.new }
{
    let mut done = ConceptSet::empty();
    for &w in settling.index.rows {
        let a = left_of(w);
        if is_kind(w, RowKind::Query) && !done.test(a) {
            let found = rank_of(settling, a, k);
            reply_to(settling.index, results, a, found);
            done = done.add(a);
        }
    }
}
