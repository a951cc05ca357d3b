// The rows are applied by a worklist: as long as a column is dirty, the rows that read it are. What is nothing is spread at the end.
ghost use Rattle.std.specs.Prelude.{◌*◌, ◌≤◌, ◌≡◌, map, length};
ghost use Rattle.semantics.specs.Limits.{set_words};
ghost use Rattle.semantics.specs.Saturated.{strict_rows};
ghost use Rattle.normal.specs.Rules.{row_of};
ghost use Rattle.columns.specs.Columns.{Columns, Seeded};
ghost use Rattle.saturation.specs.Worklist.{Closed};

use crate::apply::apply_readers;
use columns::{Worklist, join_columns};
use index::Index;
use picking::{pick, remove};

// From every column dirty to none. Column 0 has every number, so it is the set that all are in.
fn drain(columns: &mut [u64], index: Index)
    requires { (set_words * index.n ≤ length columns.old) × Seeded index.n (map row_of index.rows.now) columns.old }
    ensures { Seeded index.entry.n (map row_of index.entry.rows.now) columns.new × Closed index.entry.rows.now columns.new ×
        (length columns.new ≡ length columns.old) }
{
    let dirty = tables::row(columns, 0);
    let mut work = Worklist { columns, dirty };
    let mut from = 0;
    while let Some(b) = pick(work.dirty, from) {
        work.dirty = remove(work.dirty, b);
        apply_readers(&mut work, index, b);
        from = b;
    }
}

// The consequences of the strict rows. What is nothing is within every number.
pub fn saturate_columns(columns: &mut [u64], index: Index)
    requires { (set_words * index.n ≤ length columns.old) × Seeded index.n (map row_of index.rows.now) columns.old }
    ensures { Columns index.entry.n (strict_rows (map row_of index.entry.rows.now)) columns.new × (length columns.new ≡ length columns.old) }
{
    drain(columns, index);
    let bottom = tables::row(columns, 1);
    join_columns(columns, index.n, bottom);
}
