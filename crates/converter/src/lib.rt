// Converting: a run of SubClassOf axioms in OWL 2 functional-style syntax becomes the book of their lines.
#![tactic(auto)]

ghost use Rattle.axioms.specs.Track.{compact};
ghost use Rattle.converter.specs.Contract.{Converted};
ghost use Rattle.converter.specs.Steps.{BookOut};

use axioms::{count_bytes, write_bytes};
use refusal::{Refusal, Refused};
use runs::{LEVEL_BYTES, read_run};
use sets::ConceptSet;

// How many expressions may stand around each other in an input.
const LEVELS: usize = ConceptSet::TEXT / LEVEL_BYTES;

// What reading an input may write: 3 bytes for each of its bytes, and what one more token does.
const OUTPUT: usize = 3 * ConceptSet::TEXT + (ConceptSet::WORD_BYTES + 3);

// The bytes of the output that are not 0 go to the text, if it has room for them.
fn write_book(written: &[u8], text: &mut [u8]) -> Result<usize, Refused>
    ensures { BookOut (compact written.now) text.old text.new result }
{
    if text.len() < count_bytes(written) {
        return Err(Refusal::BookRoom.at(0));
    }
    Ok(write_bytes(written, text))
}

// Converts the input: how long the book is, or a refusal with its place. The text is lent. The book is written to an array of its own first, since only at its
// end is it known whether the input is a run: 50 KB of stack with what else is kept.
pub fn convert(input: &[u8], text: &mut [u8]) -> Result<usize, Refused>
    ensures { Converted input.now text.old text.new result }
{
    if ConceptSet::TEXT < input.len() {
        return Err(Refusal::NoRun.at(ConceptSet::TEXT));
    }
    let mut stack = [0u16; LEVELS];
    let mut out = [0u8; OUTPUT];
    let size = read_run(input, &mut stack, &mut out).map_err(|place| Refusal::NoRun.at(place))?;
    write_book(&out[..size], text)
}
