// What stuck rows add to exact columns, and to the table of these.
#![tactic(auto)]

mod emptied;

ghost use Rattle.std.specs.Prelude.{◌≡◌, cond, ◌*◌, ◌≤◌, length};
ghost use Rattle.semantics.specs.Limits.{number_limit, set_words};
ghost use Rattle.semantics.specs.Saturated.{strict_rows};
ghost use Rattle.semantics.specs.Set.{has, cell};
ghost use Rattle.normal.specs.Rules.{grown};
ghost use Rattle.columns.specs.Columns.{Columns, Transposed};
ghost use Rattle.columns.specs.Steps.{RowsBecome};
ghost use Rattle.emptying.specs.Emptiable.{Emptiable};

use crate::emptied::emptied_numbers;
use columns::join_columns;
use picking::minus;
use sets::ConceptSet;

// Row a of the table becomes `all`, for each a of the set.
fn fill_rows(table: &mut [u64], n: usize, set: ConceptSet, all: ConceptSet)
    requires { (n ≤ number_limit) × (set_words * n ≤ length table.old) }
    ensures { RowsBecome n (λ a b. cond (has set.words a) (has all.words b) (cell set_words table.old a b)) table.old table.new }
{
    for a in 0..n {
        if set.test(a) {
            tables::put_row(table, a, all);
        }
    }
}

// What stuck rows add: their lefts are nothing, and so is what leads to nothing by a role. Nothing else follows newly: what is nothing is within every number.
pub fn empty_stuck(columns: &mut [u64], table: &mut [u64], rows: &[u64], levels: &[u16], n: usize)
    requires { Emptiable n rows.now levels.now columns.old table.old }
    ensures { Columns n (strict_rows (grown rows.now levels.now)) columns.new × Transposed n columns.new table.new
        × (length columns.new ≡ length columns.old) × (length table.new ≡ length table.old) }
{
    let set = emptied_numbers(columns, rows, levels, n);
    let old = tables::row(columns, 1);
    let all = tables::row(columns, 0);
    let newly = minus(set, old);
    fill_rows(table, n, newly, all);
    join_columns(columns, n, set);
}
