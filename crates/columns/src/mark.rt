// One column takes numbers, and is dirty where that adds anything.
ghost use Rattle.std.specs.Prelude.{◌≡◌, ℕ, ◌*◌, ◌<◌};
ghost use Rattle.semantics.specs.Limits.{number_limit, set_words};
ghost use Rattle.semantics.specs.Set.{has, cell};
ghost use Rattle.tables.specs.Table.{HasRow, row_words};
ghost use Rattle.columns.specs.Steps.{Marks, in_set, in_apart};

use picking::{included, minus};
use sets::ConceptSet;

// Columns on the way, and which of them are dirty: changed, and what reads them not looked at since.
#[derive(Drop)]
pub struct Worklist<'a> {
    pub columns: &'a mut [u64],
    pub dirty: ConceptSet,
}

impl Worklist<'_> {
    // Column a as a set.
    pub fn column(&self, a: usize) -> ConceptSet
        requires { HasRow set_words self.now.columns.now a }
        ensures { result.words ≡ row_words set_words self.now.columns.now a }
    {
        tables::row(self.columns, a)
    }

    // Whether column a has b.
    pub fn test(&self, a: usize, b: usize) -> bool
        requires { HasRow set_words self.now.columns.now a × (b < number_limit) }
        ensures { result ≡ cell set_words self.now.columns.now a b }
    {
        tables::test_row(self.columns, a, b)
    }

    // What column a has and column 1 lacks.
    pub fn apart(&self, a: usize) -> ConceptSet
        requires { HasRow set_words self.now.columns.now 1 × HasRow set_words self.now.columns.now a }
        ensures { (x : ℕ) → x < 64 * set_words → has result.words x ≡ in_apart a self.now.columns.now x }
    {
        minus(self.column(a), self.column(1))
    }

    // Column c takes the set.
    pub fn mark_set(&mut self, c: usize, set: ConceptSet)
        requires { HasRow set_words self.old.columns.now c × (c < number_limit) }
        ensures same_reference { self.new.columns.ghost_name ≡ self.old.columns.ghost_name }
        ensures marks { Marks c (in_set set.words) self.old.columns.now self.new.columns.now self.old.dirty.words self.new.dirty.words }
    {
        if included(set, self.column(c)) {
            return;
        }
        tables::join_row(self.columns, c, set);
        self.dirty = self.dirty.add(c);
    }

    // Column c takes column a, less what is nothing.
    pub fn mark_column(&mut self, a: usize, c: usize)
        requires { HasRow set_words self.old.columns.now 1 × HasRow set_words self.old.columns.now a × HasRow set_words self.old.columns.now c × (c < number_limit) }
        ensures same_reference { self.new.columns.ghost_name ≡ self.old.columns.ghost_name }
        ensures marks { Marks c (in_apart a) self.old.columns.now self.new.columns.now self.old.dirty.words self.new.dirty.words }
    {
        let set = self.apart(a);
        self.mark_set(c, set);
    }
}
