// The buffers that are lent for settling are written in one step, once everything is known.
#![tactic(auto)]

ghost use Rattle.std.specs.Prelude.{◌≡◌, ◌||◌, ltb, length};
ghost use Rattle.semantics.specs.Limits.{row_limit, table_limit};
ghost use Rattle.buffers.specs.Held.{held, SameLent};
ghost use Rattle.buffers.specs.Writing.{Lent, Finished, WrittenOut};

use copying::copy_first;
use order::write_order;
use sets::ConceptSet;

// What is lent for settling: the subsumption table, the results and the rank order.
#[derive(Drop)]
pub struct LentBuffers<'a> {
    pub table: &'a mut [u64],
    pub results: &'a mut [u16],
    pub order: &'a mut [u16],
}

impl LentBuffers<'_> {
    // Whether a buffer is shorter than any compiled text may need.
    pub fn is_short(&self) -> bool
        ensures { result ≡ (ltb (length self.now.table.now) table_limit || (ltb (length self.now.results.now) row_limit || ltb (length self.now.order.now) row_limit)) }
    {
        self.table.len() < ConceptSet::TABLE
            || self.results.len() < ConceptSet::ROWS
            || self.order.len() < ConceptSet::ROWS
    }
}

// The table, the results and the order of a deck that is worked out; k is the count of its levels.
// The parameters stay apart: they travel together through this one call only.
pub fn write_out(
    strict: &[u64],
    levels: &[u16],
    answers: &[u16],
    rows: &[u64],
    n: usize,
    k: u16,
    lent: &mut LentBuffers,
)
    requires { Lent n rows.now (held lent.old) × Finished n k rows.now strict.now levels.now answers.now }
    ensures same { SameLent lent.old lent.new }
    ensures written { WrittenOut n rows.now strict.now levels.now answers.now (held lent.old) (held lent.new) }
{
    copy_first(strict, lent.table, ConceptSet::SET_WORDS * n);
    copy_first(answers, lent.results, rows.len());
    write_order(rows, levels, lent.order, k);
}
