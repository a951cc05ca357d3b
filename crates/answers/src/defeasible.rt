// Defeasible rows: each has the yes bit and the rank of its left, which is its level.
ghost use Rattle.std.specs.Prelude.{◌≤◌, length};
ghost use Rattle.pass.specs.Passes.{Bounded};
ghost use Rattle.answers.specs.Steps.{ranked_at, Rewritten};

use results::ranked_result;

// Every defeasible row gets its level, with the yes bit; every other row keeps its result.
// Stays results[i]: no invariant reads what a zipped `iter_mut` has written so far.
pub fn answer_defeasible(rows: &[u64], levels: &[u16], results: &mut [u16])
    requires { (length rows.now ≤ length levels.now) × (length rows.now ≤ length results.old) × Bounded rows.now levels.now }
    ensures { Rewritten (ranked_at rows.now levels.now) (length rows.now) results.old results.new }
{
    for (i, &w) in rows.iter().enumerate() {
        results[i] = ranked_result(w, levels[i], results[i]);
    }
}
