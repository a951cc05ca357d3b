// Reading a concept (the scope's description): `*`, `-`, a word, `& C D` or `/word C`.
#![tactic(auto)]

ghost use Rattle.std.specs.Prelude.{◌≡◌, ◌<◌, length};
ghost use Rattle.semantics.specs.Limits.{number_limit};
ghost use Rattle.chains.specs.declared.Sort.{Sort};
ghost use Rattle.names.specs.Lent.{SortArrays, state_lent, ending_lent, HeldNames};
ghost use Rattle.concepts.specs.Reader.{read_conjunction, read_existential, read_sides, read_concept};

use chains::Sort;
use forms::{Form, form_at, open_conjunction, open_existential};
use names::{Names, Step, past_space, put_left, put_right, read_word};
use refusal::Refusal;
use words::Book;

// The concept at `at`, with so much depth left as the allowance says. Where none is left, whatever can start a concept is too deep. The `match` is what a
// parser is: what stands in the text says what is read next.
#[cycle(reader)]
fn read_concept(book: &Book, names: &mut Names, at: usize, allowance: usize) -> Step
    ensures held { HeldNames names.old names.new }
    ensures reads { (rest : Sort → SortArrays) →
        ending_lent rest names.new result ≡ read_concept allowance book.now.text.bytes.now (state_lent rest names.old) at }
{
    let Some(form) = form_at(&book.text, at) else {
        return Err(Refusal::SyntaxError.at(at));
    };
    if allowance == 0 {
        return Err(Refusal::TooDeep.at(at));
    }
    match form {
        Form::Top => Ok((0, at + 1)),
        Form::Bottom => Ok((1, at + 1)),
        Form::Name => read_word(book, names.concepts, names.links, Sort::Concepts, at),
        Form::Conjunction => read_conjunction(book, names, at, allowance - 1),
        Form::Existential => read_existential(book, names, at, allowance - 1),
    }
}

// The `&` at `at` and its two sides, each with the allowance.
#[cycle(reader)]
fn read_conjunction(book: &Book, names: &mut Names, at: usize, allowance: usize) -> Step
    requires { at < length book.now.text.bytes.now }
    ensures held { HeldNames names.old names.new }
    ensures reads { (rest : Sort → SortArrays) →
        ending_lent rest names.new result ≡
        read_conjunction (read_concept allowance book.now.text.bytes.now) book.now.text.bytes.now (state_lent rest names.old) at }
{
    let step = open_conjunction(book, names.concepts, names.links, at);
    let Ok((number, next)) = step else {
        return step;
    };
    read_sides(book, names, next, allowance, number)
}

// The `/` at `at` and its side, with the allowance.
#[cycle(reader)]
fn read_existential(book: &Book, names: &mut Names, at: usize, allowance: usize) -> Step
    requires { at < length book.now.text.bytes.now }
    ensures held { HeldNames names.old names.new }
    ensures reads { (rest : Sort → SortArrays) →
        ending_lent rest names.new result ≡
        read_existential (read_concept allowance book.now.text.bytes.now) book.now.text.bytes.now (state_lent rest names.old) at }
{
    let step = open_existential(book, names, at);
    let Ok((number, next)) = step else {
        return step;
    };
    let step = read_concept(book, names, next, allowance);
    let Ok((right, end)) = step else {
        return step;
    };
    put_right(names.links, number, right);
    Ok((number, end))
}

// Two concepts with a space between, as the left and the right of `number`.
// That the number is below the limit stays a clause: it is of the call.
#[cycle(reader)]
pub fn read_sides(book: &Book, names: &mut Names, at: usize, allowance: usize, number: u16) -> Step
    requires { number < number_limit }
    ensures held { HeldNames names.old names.new }
    ensures reads { (rest : Sort → SortArrays) →
        ending_lent rest names.new result ≡
        read_sides (read_concept allowance book.now.text.bytes.now) book.now.text.bytes.now (state_lent rest names.old) at number }
{
    let step = read_concept(book, names, at, allowance);
    let Ok((left, next)) = step else {
        return step;
    };
    let step = past_space(&book.text, next);
    let Ok((_, start)) = step else {
        return step;
    };
    put_left(names.links, number, left);
    let step = read_concept(book, names, start, allowance);
    let Ok((right, end)) = step else {
        return step;
    };
    put_right(names.links, number, right);
    Ok((number, end))
}
