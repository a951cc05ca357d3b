// One pass: level after level, until none is left or a set repeats.
#![tactic(auto)]

mod end;
mod exceptional;

ghost use Rattle.roots.specs.Root.{Ready};
ghost use Rattle.pass.specs.Passes.{Fresh, PassRan};
ghost use Rattle.pass.specs.End.{end_level, is_stuck};

pub use end::PassEnd;
use exceptional::exceptional_lefts;
use index::Index;
use levels::{lefts_from, raise};
use picking::{included, is_empty, meet};
use roots::Settling;

// The pass from these levels, each a lower bound of its row's; it leaves the rows at those that it found.
// Stays a `while` with the level beside it: a `for` over levels would end at one that no pass comes to, and have an answer to make up there.
pub fn run_pass(table: &[u64], levels: &mut [u16], index: Index) -> PassEnd
    requires { Ready index.n index.rows.now levels.old table.now index.heads.now index.links.now × Fresh index.rows.now levels.old }
    ensures { PassRan index.entry.rows.now levels.old levels.new (end_level result) (is_stuck result) }
{
    let mut k: u16 = 0;
    let mut lefts = lefts_from(index.rows, levels, index.n, 0);
    while !is_empty(lefts) {
        let settling = Settling {
            table,
            levels,
            index,
        };
        let set = exceptional_lefts(settling, k, lefts);
        raise(index.rows, levels, index.n, k, set);
        if included(lefts, set) {
            return PassEnd::Stuck(k);
        }
        lefts = meet(lefts, set);
        k += 1;
    }
    PassEnd::Settled(k)
}
