// All passes, and with them the rank of each defeasible row: each stuck row's left is nothing from the next pass on.
#![tactic(auto)]

ghost use Rattle.std.specs.Prelude.{◌+◌};
ghost use Rattle.ranking.specs.AllPasses.{Rankable, PassesRan};

use emptying::empty_stuck;
use index::Index;
use levels::mark_stuck;
use pass::{PassEnd, run_pass};

// The levels of the last pass, and how many passes there were.
#[derive(Clone, Copy)]
pub struct Ranking {
    pub levels: u16,
    pub passes: usize,
}

// Runs passes until nothing is stuck. The columns and the table are those of the rows at the start; at the end the table is that of T*.
// Stays a `loop` with its count: a `for` over passes would have an end that none comes to.
pub fn run_passes(
    columns: &mut [u64],
    table: &mut [u64],
    levels: &mut [u16],
    index: Index,
) -> Ranking
    requires { Rankable index.n index.rows.now levels.old columns.old table.old index.heads.now index.links.now }
    ensures { PassesRan index.entry.n index.entry.rows.now levels.old levels.new columns.old columns.new
        table.old table.new result.levels result.passes }
{
    let mut stuck = 0;
    loop {
        match run_pass(table, levels, index) {
            PassEnd::Settled(level) => {
                return Ranking {
                    levels: level,
                    passes: stuck + 1,
                };
            }
            PassEnd::Stuck(level) => mark_stuck(index.rows, levels, level),
        }
        empty_stuck(columns, table, index.rows, levels, index.n);
        stuck += 1;
    }
}
