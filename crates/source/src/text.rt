// Reading a text: all its lines, and how many rows they have.
ghost use Rattle.std.specs.Prelude.{◌≡◌, List, map, ℕ, ◌≤◌, length};
ghost use Rattle.semantics.specs.Limits.{number_limit, text_limit, row_limit};
ghost use Rattle.semantics.specs.Row.{pack};
ghost use Rattle.names.specs.Names.{no_numbers};
ghost use Rattle.names.specs.Lent.{no_links, state_of, ending_of};
ghost use Rattle.source.specs.Lines.{read_lines, form_rows, definitions, overlaid, TextRead};

use crate::line::read_line;
use chains::put_entry;
use forms::{Form, number_form};
use names::{ReaderState, Reading, left_at, right_at};
use refusal::Refusal;
use rows::pack;
use sets::ConceptSet;
use words::{Book, Text, class_table};

// All lines: how many there are, and where they end. The first of their own rows go to `rows`, as many as have room there.
// Stays `unwrap_err` at the step of a line, which is of another type: the scope names `let .. else`, and not `?`.
fn read_lines(text: &[u8], links: &mut [u16], rows: &mut [u64]) -> Reading
    requires { (length text.now ≤ text_limit) × (links.old ≡ no_links) }
    ensures { (ending_of result links.new ≡ (read_lines (length text.now) text.now no_numbers 0 0).reading) ×
        (rows.new ≡ overlaid (map pack (read_lines (length text.now) text.now no_numbers 0 0).rows) rows.old) }
{
    let classes = class_table();
    let book = Book {
        text: Text {
            bytes: text,
            classes: &classes,
        },
    };
    let mut names = ReaderState::new();
    let mut at = 0;
    let mut lines: u16 = 0;
    // Stays a `while`: where the next line starts is found by reading this one.
    while at < text.len() {
        let reading = read_line(&book, links, names, at);
        names = reading.names;
        let step = reading.step;
        let Ok((kind, next)) = step else {
            return names.with_step(Err(step.unwrap_err()));
        };
        let left = left_at(links, 0);
        let right = right_at(links, 0);
        put_entry(rows, lines as usize, pack(kind, 0, left, 0, right));
        lines += 1;
        at = next;
    }
    names.with_step(Ok((lines, at)))
}

// How many definition rows a number has, by what it stands for: three for an `&`, two for a `/`, none for a word.
// It stays a match: a table, and no conversion.
fn count_rows(form: Option<Form>) -> usize
    ensures { (x left right : ℕ) → result ≡ length (form_rows form x left right) }
{
    match form {
        Some(Form::Conjunction) => 3,
        Some(Form::Existential) => 2,
        _ => 0,
    }
}

// How many definition rows all numbers have, whatever the links are: at most three each, which are no more than a text may have rows.
// Stays beside `write_definitions` (crate `definitions`): each is its step at a number, and the loop round it is two lines.
// That there is no number too many stays a clause of both: as a fact of the state it would be asked of whoever only hands a state on.
pub fn count_definitions(text: &[u8], names: ReaderState) -> usize
    requires { names.concepts.used ≤ number_limit }
    ensures { ((links : List ℕ) → result ≡ length (definitions text.now (state_of names links))) × (result ≤ row_limit) }
{
    let classes = class_table();
    let text = Text {
        bytes: text,
        classes: &classes,
    };
    let concepts = &names.concepts;
    let used = concepts.used as usize;
    let mut count = 0;
    for x in ConceptSet::LEAST..used {
        count += count_rows(number_form(&text, &concepts.starts, &concepts.lengths, x));
    }
    count
}

// Reads a text: how many lines it has, and where it ends, or a refusal. The links are lent, all of them 0. The first of the lines' own rows go to `rows`,
// a caller's local state, also those before a refusal.
pub fn read_text(text: &[u8], links: &mut [u16], rows: &mut [u64]) -> Reading
    requires { links.old ≡ no_links }
    ensures { TextRead text.now rows.old rows.new (ending_of result links.new) }
{
    if ConceptSet::TEXT < text.len() {
        return ReaderState::new().with_step(Err(Refusal::TextTooLong.at(0)));
    }
    let read = read_lines(text, links, rows);
    let Ok((lines, end)) = read.step else {
        return read;
    };
    if ConceptSet::ROWS < lines as usize + count_definitions(text, read.names) {
        return read.names.with_step(Err(Refusal::TooManyRows.at(end)));
    }
    read
}
