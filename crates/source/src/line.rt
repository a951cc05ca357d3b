// Reading a line: a letter, a space, a left, a space, a right, a line feed.
ghost use Rattle.std.specs.Prelude.{◌≡◌, ◌<◌, ◌≤◌, length};
ghost use Rattle.chains.specs.Chains.{word_links};
ghost use Rattle.chains.specs.declared.Sort.{Sort};
ghost use Rattle.names.specs.Names.{ended};
ghost use Rattle.names.specs.Lent.{SortArrays, HeldNames, state_lent, ending_lent, state_of};
ghost use Rattle.source.specs.Lines.{read_letter, read_line};
ghost use Rattle.source.specs.Steps.{kind_step};

use chains::{LentStarts, Sort, put_used, used_in};
use concepts::read_sides;
use names::{Names, ReaderState, past_space};
use refusal::{Refusal, Refused};
use rows::RowKind;
use sets::ConceptSet;
use words::{Book, Text};

// What is found of a line: the kind of its own row and where the next line starts, or its refusal.
pub type LineStep = Result<(RowKind, usize), Refused>;

// That, and where the numbers given out when the line ended began.
#[derive(Clone, Copy)]
pub struct LineReading {
    pub names: ReaderState,
    pub step: LineStep,
}

// The letter of a line: the kind of the line's own row, and where the letter ends.
fn read_letter(text: &Text, at: usize) -> LineStep
    requires { at < length text.now.bytes.now }
    ensures { kind_step result ≡ read_letter text.now.bytes.now at }
{
    let kind = match text.byte_at(at) {
        b'S' => RowKind::Strict,
        b'U' => RowKind::Defeasible,
        b'Q' => RowKind::Query,
        b'K' => RowKind::StrictQuery,
        _ => return Err(Refusal::SyntaxError.at(at)),
    };
    Ok((kind, at + 1))
}

// The line at `at`: the kind of its row, and where the next line starts. Its sides are the left and the right of number 0.
// Stays `unwrap_err` where a step is of another type: the scope names `let .. else`, and not `?`.
fn read_fields(book: &Book, names: &mut Names, at: usize) -> LineStep
    requires { at < length book.now.text.bytes.now }
    ensures held { HeldNames names.old names.new }
    ensures reads { (rest : Sort → SortArrays) →
        ending_lent rest names.new (kind_step result) ≡ read_line book.now.text.bytes.now (state_lent rest names.old) at }
{
    let step = read_letter(&book.text, at);
    let Ok((kind, next)) = step else {
        return step;
    };
    let step = past_space(&book.text, next);
    let Ok((_, start)) = step else {
        return Err(step.unwrap_err());
    };
    let step = read_sides(book, names, start, ConceptSet::DEPTH, 0);
    let Ok((_, end)) = step else {
        return Err(step.unwrap_err());
    };
    if book.text.is_line_end(end) {
        return Ok((kind, end + 1));
    }
    Err(Refusal::SyntaxError.at(end))
}

// The same, with the state by value: it is lent while the line is read, and how many numbers are given out is a link.
pub fn read_line(book: &Book, links: &mut [u16], names: ReaderState, at: usize) -> LineReading
    requires { (at < length book.now.text.bytes.now) × (word_links ≤ length links.old) }
    ensures { ended (state_of result.names links.new) (kind_step result.step) ≡ read_line book.now.text.bytes.now (state_of names links.old) at }
{
    let mut names = names;
    put_used(links, Sort::Concepts, names.concepts.used);
    put_used(links, Sort::Roles, names.roles.used);
    let mut concepts = LentStarts {
        starts: &mut names.concepts.starts,
        lengths: &mut names.concepts.lengths,
    };
    let mut roles = LentStarts {
        starts: &mut names.roles.starts,
        lengths: &mut names.roles.lengths,
    };
    let mut lent = Names {
        concepts: &mut concepts,
        roles: &mut roles,
        links,
    };
    let step = read_fields(book, &mut lent, at);
    names.concepts.used = used_in(links, Sort::Concepts);
    names.roles.used = used_in(links, Sort::Roles);
    LineReading { names, step }
}
