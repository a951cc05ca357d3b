// Every column, one after the other.
ghost use Rattle.std.specs.Prelude.{◌≡◌, ◌||◌, ℕ, ◌*◌, ◌≤◌, length, get_or};
ghost use Rattle.semantics.specs.Limits.{number_limit, set_words};
ghost use Rattle.semantics.specs.Set.{has, cell};
ghost use Rattle.columns.specs.Columns.{Started};
ghost use Rattle.columns.specs.Steps.{RowsBecome};

use sets::ConceptSet;

// The columns before anything has followed: column b gets b, and column 0 every number below n.
pub fn start(columns: &mut [u64], n: usize)
    requires { (n ≤ number_limit) × (set_words * n ≤ length columns.old) × ((j : ℕ) → get_or columns.old j 0 ≡ 0) }
    ensures { Started n columns.new × (length columns.new ≡ length columns.old) }
{
    for a in 0..n {
        tables::add_to_row(columns, a, a);
        tables::add_to_row(columns, 0, a);
    }
}

// Every column takes the set.
pub fn join_columns(columns: &mut [u64], n: usize, set: ConceptSet)
    requires { set_words * n ≤ length columns.old }
    ensures { RowsBecome n (λ b x. cell set_words columns.old b x || has set.words x) columns.old columns.new }
{
    for b in 0..n {
        tables::join_row(columns, b, set);
    }
}
