// How many questions got a yes.
ghost use Rattle.std.specs.Prelude.{◌≡◌, map, ◌≤◌, length, take};
ghost use Rattle.semantics.specs.Closure.{yes_count};
ghost use Rattle.semantics.specs.Row.{line_of};
ghost use Rattle.normal.specs.Rules.{row_of};

use results::is_yes;

// The count of yes over all rows.
pub fn count_yes(rows: &[u64], results: &[u16]) -> usize
    requires { length rows.now ≤ length results.now }
    ensures { result ≡ yes_count (map line_of (map row_of rows.now)) (take (length rows.now) results.now) }
{
    let mut count = 0;
    for (&w, &r) in rows.iter().zip(results) {
        if is_yes(w, r) {
            count += 1;
        }
    }
    count
}
