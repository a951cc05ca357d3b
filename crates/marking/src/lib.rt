// Marking: `mark` runs a sitting, and scores a class of sheets by its replies.
#![tactic(auto)]

mod lent;

ghost use Rattle.buffers.specs.Held.{held, SameLent};
ghost use Rattle.keys.specs.Key.{key_of};
ghost use Rattle.marking.specs.Contract.{Marked};
ghost use Rattle.marking.specs.Steps.{Ready, MarkedByKey};

use buffers::LentBuffers;
use evaluator::evaluate;
use keys::write_key;
use lent::{copy_buffers, is_short};
use refusal::{Refusal, Refused};
use sets::ConceptSet;
use sheets::{Totals, check_sheets, score_sheets};

// The sheets are checked against the key of a settled text. Where none is refused, everything that is lent is written: what the sitting left, and the report.
// The deck stays beside the buffers, since the contracts take the two apart.
fn mark_settled(
    sheets: &[u8],
    lines: usize,
    rows: &[u64],
    settled: &LentBuffers,
    deck: &mut [u64],
    lent: &mut LentBuffers,
    report: &mut [u16],
) -> Result<Totals, Refused>
    requires { Ready lines rows.now (held settled.now) deck.old (held lent.old) }
    ensures same { SameLent lent.old lent.new }
    ensures marked { MarkedByKey (key_of lines rows.now settled.now.results.now) sheets.now
        rows.now (held settled.now)
        deck.old deck.new
        (held lent.old) (held lent.new)
        report.old report.new result }
{
    let mut key = [0u8; ConceptSet::ROWS];
    let questions = write_key(rows, settled.results, lines, &mut key);
    let count = check_sheets(sheets, questions, report.len())?;
    copy_buffers(rows, settled, deck, lent);
    Ok(score_sheets(&key[..questions], sheets, count, report))
}

// Marks a class on one text: what all sheets come to, or a refusal with its place. The deck, the buffers and the report are lent.
// The sitting works on copies of what is lent for it, since the sheets may still be refused.
pub fn mark(
    text: &[u8],
    sheets: &[u8],
    deck: &mut [u64],
    lent: &mut LentBuffers,
    report: &mut [u16],
) -> Result<Totals, Refused>
    ensures same { SameLent lent.old lent.new }
    ensures marked { Marked text.now sheets.now deck.old deck.new
        (held lent.old) (held lent.new)
        report.old report.new result }
{
    if ConceptSet::TEXT < text.len() {
        return Err(Refusal::TextTooLong.at(0));
    }
    if is_short(deck, lent) {
        return Err(Refusal::BufferTooShort.at(0));
    }
    let mut rows = [0u64; ConceptSet::ROWS];
    let mut table = [0u64; ConceptSet::TABLE];
    let mut results = [0u16; ConceptSet::ROWS];
    let mut order = [0u16; ConceptSet::ROWS];
    let mut copies = LentBuffers {
        table: &mut table,
        results: &mut results,
        order: &mut order,
    };
    copy_buffers(deck, lent, &mut rows, &mut copies);
    let sitting = evaluate(text, &mut rows, &mut copies)?;
    mark_settled(
        sheets,
        sitting.sizes.lines,
        &rows,
        &copies,
        deck,
        lent,
        report,
    )
}
