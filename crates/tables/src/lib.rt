// A table of sets in a lent slice: row a is the words SET_WORDS * a to SET_WORDS * a + SET_WORDS - 1. The slice stays a slice: a struct of a `&mut` slice asks each
// function for the clause that it still lends the same one.
#![tactic(auto)]

ghost use Rattle.std.specs.Prelude.{◌≡◌, ◌||◌, ◌<◌, eqb};
ghost use Rattle.semantics.specs.Limits.{number_limit, set_words};
ghost use Rattle.semantics.specs.Set.{has, cell};
ghost use Rattle.tables.specs.Table.{HasRow, row_words, RowBecomes};

use sets::ConceptSet;

// Row a as a set.
pub fn row(table: &[u64], a: usize) -> ConceptSet
    requires { HasRow set_words table.now a }
    ensures { result.words ≡ row_words set_words table.now a }
{
    let at = ConceptSet::SET_WORDS * a;
    let mut s = ConceptSet::empty();
    // Word by word: copied as a slice, and so through memory, saturation took up to 3.5 times as long.
    for i in 0..ConceptSet::SET_WORDS {
        s.words[i] = table[at + i];
    }
    s
}

// Whether row a has b.
pub fn test_row(table: &[u64], a: usize, b: usize) -> bool
    requires { HasRow set_words table.now a × (b < number_limit) }
    ensures { result ≡ cell set_words table.now a b }
{
    let k = ConceptSet::SET_WORDS * a + b / 64;
    (table[k] >> (63 - b % 64)) % 2 == 1
}

// Row a becomes the set, and nothing else changes.
pub fn put_row(table: &mut [u64], a: usize, set: ConceptSet)
    requires { HasRow set_words table.old a }
    ensures { RowBecomes set_words a (has set.words) table.old table.new }
{
    let at = ConceptSet::SET_WORDS * a;
    table[at..at + ConceptSet::SET_WORDS].copy_from_slice(&set.words);
}

// Row a gets the members of the set, and nothing else changes.
pub fn join_row(table: &mut [u64], a: usize, set: ConceptSet)
    requires { HasRow set_words table.old a }
    ensures { RowBecomes set_words a (λ c. cell set_words table.old a c || has set.words c)
        table.old table.new }
{
    let old = row(table, a);
    let joined = old.union(set);
    put_row(table, a, joined);
}

// Row a gets b, and nothing else changes.
pub fn add_to_row(table: &mut [u64], a: usize, b: usize)
    requires { HasRow set_words table.old a × (b < number_limit) }
    ensures { RowBecomes set_words a (λ c. cell set_words table.old a c || eqb b c)
        table.old table.new }
{
    let k = ConceptSet::SET_WORDS * a + b / 64;
    table[k] |= 1 << (63 - b % 64);
}
