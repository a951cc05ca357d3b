// The numbers that a reading gives out, and how a step of reading ends.
#![tactic(auto)]

mod lent;
mod sides;

ghost use Rattle.std.specs.Prelude.{◌≡◌, ◌<◌, ◌≤◌, length};
ghost use Rattle.words.specs.Bytes.{offset_limit};
ghost use Rattle.chains.specs.Chains.{word_links, Held};
ghost use Rattle.chains.specs.declared.Sort.{Sort};
ghost use Rattle.chains.specs.declared.Sort.TheVariants.{Concepts};
ghost use Rattle.names.specs.Names.{ended, past_space, sought_step, take_number, Small, read_word};
ghost use Rattle.names.specs.Lent.{new_reader, SortArrays, state_with, with_step};

use chains::{LentStarts, Sort, Sought, WordStarts, chain_word, give_number, used_in};
pub use lent::Names;
use refusal::{Refusal, Refused};
use sets::ConceptSet;
pub use sides::{LINKS, left_at, put_left, put_right, right_at};
use words::{Book, ByteClass, Text, Word};

// Where the numbers given out so far began, those of each sort: an `&` and a `/` take the next number of concepts, with the length 0. It goes by value from
// line to line, and is lent inside a line (`Names`).
#[derive(Clone, Copy)]
pub struct ReaderState {
    pub concepts: WordStarts,
    pub roles: WordStarts,
}

// What a reading step finds: a number (a concept's, a role's, how many lines, or 0 behind a space) and the offset behind what was read, or its refusal.
// It is taken apart by `let .. else`, whose other branch returns the refusal: the scope names that form, and not `?` (docs/DECISIONS.md, D29).
pub type Step = Result<(u16, usize), Refused>;

// A step, and where the numbers given out when it ended began.
#[derive(Clone, Copy)]
pub struct Reading {
    pub names: ReaderState,
    pub step: Step,
}

impl ReaderState {
    // No number is given out but 0 and 1.
    pub fn new() -> ReaderState
        ensures { result ≡ new_reader }
    {
        ReaderState {
            concepts: WordStarts::new(Sort::Concepts),
            roles: WordStarts::new(Sort::Roles),
        }
    }

    // A reading that ends with the step, a refusal unchanged.
    pub fn with_step(self, step: Step) -> Reading
        ensures { result ≡ with_step self step }
    {
        Reading { names: self, step }
    }
}

// What is due between two fields, one space: where the next one starts. It has no number, so the number is 0: the steps of the concept readers, which hand
// each other's refusals up as they are, stay of one type (docs/DECISIONS.md, D29).
pub fn past_space(text: &Text, at: usize) -> Step
    ensures { result ≡ past_space text.now.bytes.now at }
{
    if text.class_at(at) == ByteClass::Space {
        Ok((0, at + 1))
    } else {
        Err(Refusal::SyntaxError.at(at))
    }
}

// An `&` or a `/` at `at` takes the next number; one too many is refused. How many links there are stays a clause where the arrays of one sort are lent:
// `Names`, which says it of itself, holds those of both, and would ask for more.
pub fn take_number(lent: &mut LentStarts, links: &mut [u16], at: usize) -> Step
    requires { (at < offset_limit) × (word_links ≤ length links.old) }
    ensures held { Held lent.old lent.new }
    ensures taken { (rest : Sort → SortArrays) →
        ended (state_with rest Concepts lent.new.starts.now lent.new.lengths.now links.new) result ≡
        take_number (state_with rest Concepts lent.old.starts.now lent.old.lengths.now links.old) at }
    ensures small { Small result }
{
    let number = used_in(links, Sort::Concepts);
    if ConceptSet::NUMBERS <= number as usize {
        return Err(Refusal::TooManyNumbers.at(at));
    }
    give_number(lent, links, Sort::Concepts, at, 0);
    Ok((number, at + 1))
}

// How the step over a word at `at` ends, by what is known of it.
fn sought_step(found: Result<Sought, Refusal>, at: usize) -> Step
    ensures { result ≡ sought_step found at }
{
    match found {
        Ok(Sought::Known(number, end)) => Ok((number, end)),
        Ok(Sought::New(number, _, end)) => Ok((number, end)),
        Err(why) => Err(why.at(at)),
    }
}

// The word of the sort at `at`: the number of one that stood before, or the next; one too many is refused. Starts and lengths are those of the sort.
pub fn read_word(
    book: &Book,
    lent: &mut LentStarts,
    links: &mut [u16],
    sort: Sort,
    at: usize,
) -> Step
    requires { (at ≤ length book.now.text.bytes.now) × (word_links ≤ length links.old) }
    ensures held { Held lent.old lent.new }
    ensures reads { (rest : Sort → SortArrays) →
        ended (state_with rest sort lent.new.starts.now lent.new.lengths.now links.new) result ≡
        read_word sort book.now.text.bytes.now (state_with rest sort lent.old.starts.now lent.old.lengths.now links.old) at }
{
    let found = lent.list(links, sort).seek(book, at);
    let step = sought_step(found, at);
    let Ok(Sought::New(_, size, _)) = found else {
        return step;
    };
    let word = Word {
        text: book.text.bytes,
        at,
        size: size as usize,
    };
    chain_word(links, sort, &word);
    give_number(lent, links, sort, at, size);
    step
}
