// The table of the columns, by rows.
ghost use Rattle.std.specs.Prelude.{◌≡◌, false, ◌||◌, ◌*◌, ◌<◌, ◌≤◌, length};
ghost use Rattle.semantics.specs.Limits.{number_limit, set_words};
ghost use Rattle.semantics.specs.Set.{cell};
ghost use Rattle.columns.specs.Columns.{Transposed};
ghost use Rattle.columns.specs.Steps.{RowsBecome, in_word};

use sets::ConceptSet;

// The first n rows of the table become empty.
fn clear_rows(table: &mut [u64], n: usize)
    requires { set_words * n ≤ length table.old }
    ensures { RowsBecome n (λ a c. false) table.old table.new }
{
    table[..ConceptSet::SET_WORDS * n].fill(0);
}

// The word w stands at i in the columns: each row below n whose number it has gets the number of its column. The last number of the word is its lowest bit.
fn add_to_rows(table: &mut [u64], n: usize, i: usize, w: u64)
    requires { (set_words * n ≤ length table.old) × (i < set_words * number_limit) }
    ensures { RowsBecome n (λ a c. cell set_words table.old a c || in_word i w a c) table.old table.new }
{
    let b = i / ConceptSet::SET_WORDS;
    let last = 64 * (i % ConceptSet::SET_WORDS) + 63;
    let mut rest = w;
    // No index is counted: each turn takes the lowest bit.
    while rest != 0 {
        let a = last - rest.trailing_zeros() as usize;
        if a < n {
            tables::add_to_row(table, a, b);
        }
        rest &= rest - 1;
    }
}

// Row a of the table becomes those numbers whose columns have a. A word of the columns costs no more than the numbers that it has.
pub fn transpose_columns(columns: &[u64], table: &mut [u64], n: usize)
    requires { (n ≤ number_limit) × (set_words * n ≤ length columns.now) × (set_words * n ≤ length table.old) }
    ensures { Transposed n columns.now table.new × (length table.new ≡ length table.old) }
{
    clear_rows(table, n);
    for (i, &w) in columns[..ConceptSet::SET_WORDS * n].iter().enumerate() {
        add_to_rows(table, n, i, w);
    }
}
