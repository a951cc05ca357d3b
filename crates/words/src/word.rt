// A word of a text: whether it is another one, and its hash.
ghost use Rattle.std.specs.Prelude.{◌≡◌, ◌+◌, ◌<◌, ◌≤◌, length};
ghost use Rattle.words.specs.Bytes.{same_bytes, same_word_at, hashes, word_hash};

use crate::HASHES;
use crate::text::byte_at;

// The `size` bytes at `at`, which lie in the text. Stays a place in the text and is no slice: where a word stands is what the reader remembers of it, and what
// the contracts speak of.
#[derive(Clone, Copy)]
pub struct Word<'a> {
    pub text: &'a [u8],
    pub at: usize,
    pub size: usize,
    pub ghost inside: { at + size ≤ length text.now },
}

impl Word<'_> {
    // Whether the word of `long` bytes at `start` is this one. It need not lie in the text.
    pub fn same_word_at(&self, start: u16, long: usize) -> bool
        ensures { result ≡ same_word_at self.now.text.now start long self.now.at self.now.size }
    {
        long == self.size && self.same_bytes(start)
    }

    // Whether the bytes from `start` on are those of the word.
    fn same_bytes(&self, start: u16) -> bool
        ensures { result ≡ same_bytes self.now.text.now start self.now.at self.now.size }
    {
        for (i, &b) in self.text[self.at..self.at + self.size].iter().enumerate() {
            if byte_at(self.text, start as usize + i) != b {
                return false;
            }
        }
        true
    }

    // The hash of the word.
    pub fn word_hash(&self) -> usize
        ensures { (result ≡ word_hash self.now.text.now self.now.at self.now.size) × (result < hashes) }
    {
        let mut hash = 0;
        for &b in &self.text[self.at..self.at + self.size] {
            hash = (9 * hash + b as usize) % HASHES;
        }
        hash
    }
}
