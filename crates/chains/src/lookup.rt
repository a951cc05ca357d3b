// The search for a word among those that have numbers.
ghost use Rattle.std.specs.Prelude.{◌≡◌, ◌≤◌, length, IfOk};
ghost use Rattle.words.specs.Bytes.{word_hash};
ghost use Rattle.chains.specs.Sorts.{limit_of, full_of};
ghost use Rattle.chains.specs.WordList.{find_below, find_word, seek};
ghost use Rattle.chains.specs.Chains.{nexts_at, part, list_in, Fitting};

use crate::entries::entry_at;
use crate::layout::{full_of, heads_at, limit_of, nexts_at};
use crate::{LentStarts, Sort, Sought, used_in};
use refusal::Refusal;
use sets::ConceptSet;
use words::{Book, Word};

// The words of one sort that have numbers, lent to look at: two arrays, as `WordStarts` has them.
#[derive(Clone, Copy)]
pub struct LentList<'a> {
    pub sort: Sort,
    pub starts: &'a [u16],
    pub lengths: &'a [u8],
    pub links: &'a [u16],
}

impl LentStarts<'_> {
    // The words of the sort whose arrays these are, to look at.
    pub fn list<'a>(&'a self, links: &'a [u16], sort: Sort) -> LentList<'a>
        ensures { (result.sort ≡ sort) × (result.starts.now ≡ self.now.starts.now) × (result.lengths.now ≡ self.now.lengths.now) ×
            (result.links.now ≡ links.now) }
    {
        LentList {
            sort,
            starts: self.starts,
            lengths: self.lengths,
            links,
        }
    }
}

impl LentList<'_> {
    // The number below the limit, from the head on down its chain, whose word is this one. Stays a `while`: it follows the links, and counts nothing.
    fn find_below(&self, head: u16, word: &Word) -> Option<u16>
        ensures { result ≡ find_below word.now.text.now (part 0 (limit_of self.now.sort) self.now.starts.now) (part 0 (limit_of self.now.sort) self.now.lengths.now)
            (part (nexts_at self.now.sort) (limit_of self.now.sort) self.now.links.now) word.now.at word.now.size (limit_of self.now.sort) (limit_of self.now.sort) head }
    {
        let nexts = nexts_at(self.sort);
        let mut bound = limit_of(self.sort);
        let mut n = head as usize;
        while n < bound {
            let start = entry_at(self.starts, n, 0);
            let long = entry_at(self.lengths, n, 0) as usize;
            if word.same_word_at(start, long) {
                return Some(n as u16);
            }
            bound = n;
            n = entry_at(self.links, nexts + n, 0) as usize;
        }
        None
    }

    // The number, in the chain of its hash, whose word is this one.
    fn find_word(&self, word: &Word) -> Option<u16>
        ensures { result ≡ find_word word.now.text.now (list_in self.now.sort self.now.starts.now self.now.lengths.now self.now.links.now)
            word.now.at word.now.size (limit_of self.now.sort) }
    {
        let head = entry_at(self.links, heads_at(self.sort) + word.word_hash(), 0);
        self.find_below(head, word)
    }

    // What is known of the word at `at`, or how it is refused: no word, too long, or, from the sort's limit on, one too many.
    pub fn seek(&self, book: &Book, at: usize) -> Result<Sought, Refusal>
        requires { at ≤ length book.now.text.bytes.now }
        ensures { (result ≡ seek (limit_of self.now.sort) (full_of self.now.sort) book.now.text.bytes.now
            (list_in self.now.sort self.now.starts.now self.now.lengths.now self.now.links.now) at) ×
            IfOk result (Fitting self.now.sort book.now.text.bytes.now self.now.links.now at) }
    {
        let size = book.text.word_length(at);
        if size == 0 {
            return Err(Refusal::SyntaxError);
        }
        if ConceptSet::WORD_BYTES < size {
            return Err(Refusal::WordTooLong);
        }
        let word = Word {
            text: book.text.bytes,
            at,
            size,
        };
        if let Some(number) = self.find_word(&word) {
            return Ok(Sought::Known(number, at + size));
        }
        let number = used_in(self.links, self.sort);
        if limit_of(self.sort) <= number as usize {
            return Err(full_of(self.sort));
        }
        Ok(Sought::New(number, size as u8, at + size))
    }
}
