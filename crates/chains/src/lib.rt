// The words that have numbers: the search for one, and a new one's place among them.
//
// The words of one hash are a chain, from the last of their numbers down: it ends where its links no longer fall. 0 is of length 0 if no word has it.
// Links stay one lent slice, as `read_text` takes it: a map needs a heap.
#![tactic(auto)]

mod entries;
mod layout;
mod lookup;

ghost use Rattle.std.specs.Prelude.{◌≡◌, ◌<◌, set};
ghost use Rattle.words.specs.Bytes.{offset_limit, word_hash};
ghost use Rattle.chains.specs.Sorts.{limit_of};
ghost use Rattle.chains.specs.Chains.{no_starts, links_at, used_in, chained_in, Given, Held};

pub use entries::{entry_at, put_entry};
pub use layout::WORD_LINKS;
use layout::{heads_at, least_of, links_at, nexts_at};
pub use lookup::LentList;
use sets::ConceptSet;
use words::Word;

// The sorts of words, each with numbers of its own. The links of each lie behind those of the sorts before it.
#[derive(Clone, Copy, PartialEq, Eq)]
pub enum Sort {
    Concepts = 0,
    Roles = 1,
}

// Where the numbers of one sort began: how many are given out, and the start and the length of each; the length is 0 where it is for no word.
// Stays a count beside two arrays: the scope names such arrays, which go by value from line to line (docs/DECISIONS.md, D59).
#[derive(Clone, Copy)]
pub struct WordStarts {
    pub used: u16,
    pub starts: [u16; ConceptSet::NUMBERS],
    pub lengths: [u8; ConceptSet::NUMBERS],
}

impl WordStarts {
    // No number has a word yet.
    pub fn new(sort: Sort) -> WordStarts
        ensures { result ≡ no_starts sort }
    {
        WordStarts {
            used: least_of(sort),
            starts: [0; ConceptSet::NUMBERS],
            lengths: [0; ConceptSet::NUMBERS],
        }
    }
}

// The arrays of one sort, lent to write to: how many numbers are given out is one of the links. Two arrays, as `WordStarts` has them.
#[derive(Drop)]
pub struct LentStarts<'a> {
    pub starts: &'a mut [u16],
    pub lengths: &'a mut [u8],
}

// What is known of a word that can have a number.
#[derive(Clone, Copy, PartialEq, Eq)]
pub enum Sought {
    // It stood before: its number, and where it ends.
    Known(u16, usize),
    // It is new: the number that is due to it, its size, and where it ends.
    New(u16, u8, usize),
}

// How many numbers of the sort are given out: the number that it gives out next.
pub fn used_in(links: &[u16], sort: Sort) -> u16
    ensures { result ≡ used_in sort links.now }
{
    entry_at(links, links_at(sort), 0)
}

// So many numbers of the sort are given out.
pub fn put_used(links: &mut [u16], sort: Sort, used: u16)
    ensures { links.new ≡ set links.old (links_at sort) used }
{
    put_entry(links, links_at(sort), used);
}

// The next number becomes the head of the chain of the word's hash.
pub fn chain_word(links: &mut [u16], sort: Sort, word: &Word)
    requires { used_in sort links.old < limit_of sort }
    ensures { links.new ≡ chained_in sort (word_hash word.now.text.now word.now.at word.now.size) links.old }
{
    let number = used_in(links, sort);
    let head = heads_at(sort) + word.word_hash();
    let old = entry_at(links, head, 0);
    put_entry(links, nexts_at(sort) + number as usize, old);
    put_entry(links, head, number);
}

// The next number of the sort goes to the `size` bytes at `at`.
pub fn give_number(lent: &mut LentStarts, links: &mut [u16], sort: Sort, at: usize, size: u8)
    requires { (used_in sort links.old < limit_of sort) × (at < offset_limit) }
    ensures held { Held lent.old lent.new }
    ensures given { Given sort at size lent.old.starts.now lent.new.starts.now lent.old.lengths.now lent.new.lengths.now links.old links.new }
{
    let number = used_in(links, sort);
    put_entry(lent.starts, number as usize, at as u16);
    put_entry(lent.lengths, number as usize, size);
    put_used(links, sort, number + 1);
}
