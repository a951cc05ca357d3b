// The results of the rows: strict queries, defeasible rows, queries; and the count of yes.
#![tactic(auto)]

mod count;
mod defeasible;
mod strict;

ghost use Rattle.std.specs.Prelude.{◌≡◌, ◌≤◌, length};
ghost use Rattle.answers.specs.Answers.{RankedReady, StrictAnswered, Answered};

pub use count::count_yes;
use defeasible::answer_defeasible;
use queries::answer_queries;
use roots::Settling;
pub use strict::answer_strict;

// Once the passes are over, every defeasible row and every query gets its result; a strict query keeps its own, and a strict row its 0.
// Only the contract reads the count of passes.
pub fn answer_rest(settling: Settling, results: &mut [u16], k: u16, passes: usize)
    requires { RankedReady settling k passes × (length settling.index.rows.now ≤ length results.old) × StrictAnswered settling.index.rows.now results.old }
    ensures { Answered settling.entry.index.n settling.entry.index.rows.now settling.entry.levels.now settling.entry.table.now k passes results.new
        × (length results.new ≡ length results.old) }
{
    answer_defeasible(settling.index.rows, settling.levels, results);
    answer_queries(settling, results, k);
}
