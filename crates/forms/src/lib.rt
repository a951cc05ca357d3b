// What a concept (the scope's description) starts with, and the reading of an `&` or a `/` up to its first side.
#![tactic(auto)]

ghost use Rattle.std.specs.Prelude.{◌≡◌, ◌<◌, ◌≤◌, length, get_or};
ghost use Rattle.chains.specs.Chains.{word_links, Held};
ghost use Rattle.chains.specs.declared.Sort.{Sort};
ghost use Rattle.chains.specs.declared.Sort.TheVariants.{Concepts};
ghost use Rattle.names.specs.Names.{ended, Small};
ghost use Rattle.names.specs.Lent.{SortArrays, state_with, state_lent, ending_lent, HeldNames};
ghost use Rattle.forms.specs.Forms.{sign_form, form_at};
ghost use Rattle.forms.specs.Opened.{open_conjunction, open_existential, number_form};

use chains::{LentStarts, Sort};
use names::{Names, Step, past_space, put_left, read_word, take_number};
use words::{Book, ByteClass, Text};

// What a concept that starts with a byte is.
#[derive(Clone, Copy, PartialEq, Eq)]
pub enum Form {
    Top,
    Bottom,
    Name,
    Conjunction,
    Existential,
}

// What a concept that starts with a sign is.
// It stays a match: a table, and no conversion.
#[tactic(auto, unfolding(crate::specs::Forms::sign_form))]
fn sign_form(b: u8) -> Form
    ensures { result ≡ sign_form b }
{
    match b {
        b'*' => Form::Top,
        b'-' => Form::Bottom,
        b'&' => Form::Conjunction,
        _ => Form::Existential,
    }
}

// What the concept at the offset is, if one starts so.
pub fn form_at(text: &Text, at: usize) -> Option<Form>
    ensures { result ≡ form_at text.now.bytes.now at }
{
    match text.class_at(at) {
        ByteClass::Word => Some(Form::Name),
        ByteClass::Sign => Some(sign_form(text.byte_at(at))),
        ByteClass::Space | ByteClass::LineEnd | ByteClass::Other => None,
    }
}

// What a number stands for: a name where its word has bytes, and otherwise what stands at its start. The two arrays stay apart: a `WordStarts` would ask more
// of callers than their lengths.
#[tactic(auto, unfolding(crate::specs::Opened::number_form))]
pub fn number_form(text: &Text, starts: &[u16], lengths: &[u8], number: usize) -> Option<Form>
    requires { (number < length starts.now) × (number < length lengths.now) }
    ensures { result ≡ number_form text.now.bytes.now (get_or starts.now number 0) (get_or lengths.now number 0) }
{
    if lengths[number] != 0 {
        return Some(Form::Name);
    }
    form_at(text, starts[number] as usize)
}

// An `&` and the space behind it: its number, and where its first side starts.
// That `at` lies in the text stays a clause: the offset is of the call, and the text is not.
pub fn open_conjunction(book: &Book, lent: &mut LentStarts, links: &mut [u16], at: usize) -> Step
    requires { (at < length book.now.text.bytes.now) × (word_links ≤ length links.old) }
    ensures held { Held lent.old lent.new }
    ensures opened { (rest : Sort → SortArrays) →
        ended (state_with rest Concepts lent.new.starts.now lent.new.lengths.now links.new) result ≡
        open_conjunction book.now.text.bytes.now (state_with rest Concepts lent.old.starts.now lent.old.lengths.now links.old) at }
    ensures small { Small result }
{
    let step = take_number(lent, links, at);
    let Ok((number, next)) = step else {
        return step;
    };
    let step = past_space(&book.text, next);
    let Ok((_, first)) = step else {
        return step;
    };
    Ok((number, first))
}

// A `/`, the role's word and the space behind it: its number, with the role as its left, and where its side starts.
pub fn open_existential(book: &Book, names: &mut Names, at: usize) -> Step
    requires { at < length book.now.text.bytes.now }
    ensures held { HeldNames names.old names.new }
    ensures opened { (rest : Sort → SortArrays) →
        ending_lent rest names.new result ≡ open_existential book.now.text.bytes.now (state_lent rest names.old) at }
    ensures small { Small result }
{
    let step = take_number(names.concepts, names.links, at);
    let Ok((number, next)) = step else {
        return step;
    };
    let step = read_word(book, names.roles, names.links, Sort::Roles, next);
    let Ok((role, end)) = step else {
        return step;
    };
    let step = past_space(&book.text, end);
    let Ok((_, start)) = step else {
        return step;
    };
    put_left(names.links, number, role);
    Ok((number, start))
}
