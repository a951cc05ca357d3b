// A deck on its way: what roots are computed from.
ghost use Rattle.std.specs.Prelude.{◌+◌, ◌*◌, ◌≤◌, length};
ghost use Rattle.semantics.specs.Limits.{set_words};

use index::Index;
use levels::Lefts;
use sets::ConceptSet;

// The rows with their index, the levels so far, and a table of the strict rows with what stuck rows have added.
// That the table is exact (`Exact`) stays a clause: it is over all interpretations, no proposition, and so no ghost field. So does that a number is below
// index.n: it is of the call.
#[derive(Clone, Copy)]
pub struct Settling<'a> {
    pub table: &'a [u64],
    pub levels: &'a [u16],
    pub index: Index<'a>,
    ghost levels_room: { length index.rows.now ≤ length levels.now },
    ghost room: { set_words * index.n ≤ length table.now },
}

impl Settling<'_> {
    ghost use Rattle.levels.specs.Relevelled.{LeftsFrom};

    // The lefts of the rows active at level k.
    pub fn lefts_from(self, k: u16) -> ConceptSet
        ensures { LeftsFrom self.entry.index.n k self.entry.index.rows.now self.entry.levels.now result.words }
    {
        levels::lefts_from(self.index.rows, self.levels, self.index.n, k)
    }

    // The lefts of the rows active at level k, and of those active above it.
    pub fn lefts_at(self, k: u16) -> Lefts
        ensures active { LeftsFrom self.entry.index.n k self.entry.index.rows.now self.entry.levels.now result.active.words }
        ensures above { LeftsFrom self.entry.index.n (k + 1) self.entry.index.rows.now self.entry.levels.now result.above.words }
    {
        levels::lefts_at(self.index.rows, self.levels, self.index.n, k)
    }
}
