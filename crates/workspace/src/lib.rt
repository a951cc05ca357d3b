// An accepted deck is worked out on local state.
#![tactic(auto)]

ghost use Rattle.normal.specs.Rules.{Deck};
ghost use Rattle.workspace.specs.Steps.{Blank, Clear, StrictKnown, WorkedOut};

use answers::{answer_rest, answer_strict, count_yes};
use columns::{start, transpose_columns};
use index::{Index, build};
use ranking::run_passes;
use roots::Settling;
use saturation::saturate_columns;

// What is counted of a settled deck.
#[derive(Clone, Copy)]
pub struct Counts {
    pub levels: u16,
    pub passes: usize,
    pub yes: usize,
}

// The columns and the strict table of the written rows, and the answers to the strict queries, which read no others.
fn begin(columns: &mut [u64], strict: &mut [u64], answers: &mut [u16], index: Index)
    requires { Clear index.n index.rows.now columns.old strict.old answers.old }
    ensures { StrictKnown index.entry.n index.entry.rows.now columns.old columns.new strict.old strict.new answers.old answers.new }
{
    start(columns, index.n);
    saturate_columns(columns, index);
    transpose_columns(columns, strict, index.n);
    answer_strict(strict, index.rows, answers, index.n);
}

// Everything that is to be known, on blank state: the levels, the strict table over T*, and the answer to each row.
// The state stays eight parameters, slice by slice: one struct of it would have a lifetime for each, since no proof is found where a reference is used while another of
// its lifetime is lent, here to the index and to what is ranked.
pub fn work_out(
    columns: &mut [u64],
    strict: &mut [u64],
    levels: &mut [u16],
    heads: &mut [u16],
    links: &mut [u16],
    answers: &mut [u16],
    rows: &[u64],
    n: usize,
) -> Counts
    requires { Deck n rows.now × Blank n rows.now columns.old strict.old levels.old heads.old links.old answers.old }
    ensures { WorkedOut n rows.now
        strict.old strict.new levels.old levels.new answers.old answers.new result }
{
    build(rows, heads, links);
    let index = Index {
        rows,
        heads,
        links,
        n,
    };
    begin(columns, strict, answers, index);
    let ranking = run_passes(columns, strict, levels, index);
    let settling = Settling {
        table: strict,
        levels,
        index,
    };
    answer_rest(settling, answers, ranking.levels, ranking.passes);
    Counts {
        levels: ranking.levels,
        passes: ranking.passes,
        yes: count_yes(rows, answers),
    }
}
