// Compiling: `compile` refuses a text, or writes its normal form (the scope's deck) and gives its counts.
#![tactic(auto)]

ghost use Rattle.names.specs.Lent.{state_of};
ghost use Rattle.compiler.specs.Contract.{Compiled};
ghost use Rattle.compiler.specs.Steps.{ReadyToWrite, RowsWritten};

use copying::copy_first;
use definitions::write_definitions;
use names::{LINKS, ReaderState};
use refusal::{Refusal, Refused};
use sets::ConceptSet;
use source::read_text;

// What is counted of a compiled text.
#[derive(Clone, Copy, PartialEq, Eq)]
pub struct Sizes {
    pub lines: usize,
    pub rows: usize,
    pub numbers: usize,
    pub roles: usize,
}

// The definition rows go behind the lines' own, and then all of them to the deck: the one writing step. Six parameters, for this one call.
fn write_rows(
    text: &[u8],
    names: ReaderState,
    links: &[u16],
    lines: usize,
    rows: &mut [u64],
    deck: &mut [u64],
) -> Sizes
    requires { ReadyToWrite text.now (state_of names links.now) lines rows.old deck.old }
    ensures { RowsWritten text.now (state_of names links.now) lines rows.old deck.old deck.new result }
{
    let count = write_definitions(text, names, links, rows, lines);
    copy_first(rows, deck, count);
    Sizes {
        lines,
        rows: count,
        numbers: names.concepts.used as usize,
        roles: names.roles.used as usize,
    }
}

// Compiles the text: its counts, or a refusal with its place. The deck is lent. Stays `unwrap_err`: the scope names `let .. else`, and not `?`.
pub fn compile(text: &[u8], deck: &mut [u64]) -> Result<Sizes, Refused>
    ensures { Compiled text.now deck.old deck.new result }
{
    if ConceptSet::TEXT < text.len() {
        return Err(Refusal::TextTooLong.at(0));
    }
    if deck.len() < ConceptSet::ROWS {
        return Err(Refusal::BufferTooShort.at(0));
    }
    let mut links = [0u16; LINKS];
    let mut rows = [0u64; ConceptSet::ROWS];
    let read = read_text(text, &mut links, &mut rows);
    let Ok((lines, _)) = read.step else {
        return Err(read.step.unwrap_err());
    };
    Ok(write_rows(text, read.names, &links, lines as usize, &mut rows, deck))
}
