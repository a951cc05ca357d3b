// An accepted deck is settled on local state; the lent buffers are written at the end.
ghost use Rattle.std.specs.Prelude.{map, length};
ghost use Rattle.normal.specs.Rules.{row_of};
ghost use Rattle.buffers.specs.Held.{held, SameLent};
ghost use Rattle.buffers.specs.Writing.{Lent};
ghost use Rattle.closure.specs.Contract.{ClosureReport};

use buffers::{LentBuffers, write_out};
use index::{KEYS, SLOTS};
use sets::ConceptSet;
use workspace::{Counts, work_out};

// The counts of an accepted deck; everything else that is known of it goes to the lent buffers.
pub fn classify_rows(rows: &[u64], n: usize, lent: &mut LentBuffers) -> Counts
    requires { Lent n rows.now (held lent.old) }
    ensures same { SameLent lent.old lent.new }
    ensures reported { ClosureReport (map row_of rows.now) n (length rows.now) (held lent.old) (held lent.new) result }
{
    let mut columns = [0u64; ConceptSet::TABLE];
    let mut strict = [0u64; ConceptSet::TABLE];
    let mut levels = [0u16; ConceptSet::ROWS];
    let mut heads = [0u16; KEYS];
    let mut links = [0u16; SLOTS];
    let mut answers = [0u16; ConceptSet::ROWS];
    let counts = work_out(
        &mut columns,
        &mut strict,
        &mut levels,
        &mut heads,
        &mut links,
        &mut answers,
        rows,
        n,
    );
    write_out(&strict, &levels, &answers, rows, n, counts.levels, lent);
    counts
}
