// Strict queries: what every model of the written strict rows has.
ghost use Rattle.std.specs.Prelude.{◌≡◌, ◌≤◌, length};
ghost use Rattle.answers.specs.Answers.{StrictReady, StrictAnswered};

use results::strict_result;

// Every strict query gets its reply, every other row 0. The table is that of the written strict rows.
// Only the contract reads n: the table is exact for n numbers, and no less is asked of it.
// Stays results[i]: no invariant reads what a zipped `iter_mut` has written so far.
pub fn answer_strict(table: &[u64], rows: &[u64], results: &mut [u16], n: usize)
    requires { StrictReady n rows.now table.now × (length rows.now ≤ length results.old) }
    ensures { StrictAnswered rows.now results.new × (length results.new ≡ length results.old) }
{
    for (i, &w) in rows.iter().enumerate() {
        results[i] = strict_result(table, w);
    }
}
