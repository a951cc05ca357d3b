// Classification (the scope's settling): `classify` refuses a deck, or settles it to the end and reports.
#![tactic(auto)]

mod accepted;

ghost use Rattle.buffers.specs.Held.{held, SameLent};
ghost use Rattle.closure.specs.Contract.{Classified};

use accepted::classify_rows;
use buffers::LentBuffers;
use checking::check;
use refusal::Refused;
use workspace::Counts;

// Settles the rows over n numbers and r roles. The buffers are lent.
// The answer is a Result, which is the scope's enum over a struct of counts or what names the refusal, with its place: so is that of each operation above.
pub fn classify(rows: &[u64], n: usize, r: usize, lent: &mut LentBuffers) -> Result<Counts, Refused>
    ensures same { SameLent lent.old lent.new }
    ensures classified { Classified rows.now n r (held lent.old) (held lent.new) result }
{
    check(
        rows,
        n,
        r,
        lent.table.len(),
        lent.results.len(),
        lent.order.len(),
    )?;
    Ok(classify_rows(rows, n, lent))
}
