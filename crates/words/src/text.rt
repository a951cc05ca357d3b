// A text with the classes of its bytes: what stands at an offset.
ghost use Rattle.std.specs.Prelude.{◌≡◌, ◌<◌, length, get_or};
ghost use Rattle.words.specs.Bytes.{offset_limit, class_of, is_word_byte, is_line_end, word_length};
ghost use Rattle.std.specs.List.{prefix_len};
ghost use Rattle.words.specs.Table.{ClassTable};

use crate::ByteClass;
use crate::classes::class_of;

// A text, and the table of classes, by which its bytes are looked up.
#[derive(Clone, Copy)]
pub struct Text<'a> {
    pub bytes: &'a [u8],
    pub classes: &'a [u8],
    pub ghost table: { ClassTable classes.now },
}

// A text whose offsets are remembered.
#[derive(Clone, Copy)]
pub struct Book<'a> {
    pub text: Text<'a>,
    pub ghost short: { length text.bytes.now < offset_limit },
}

// The byte at an offset; past the end 0, which is of class Other. It stays that 0, and no Option: `get_or .. 0` is what the contracts of all readers say.
pub fn byte_at(bytes: &[u8], at: usize) -> u8
    ensures { result ≡ get_or bytes.now at 0 }
{
    bytes.get(at).copied().unwrap_or(0)
}

impl Text<'_> {
    // The byte at an offset, as above.
    pub fn byte_at(&self, at: usize) -> u8
        ensures { result ≡ get_or self.now.bytes.now at 0 }
    {
        byte_at(self.bytes, at)
    }

    // The class of the byte at an offset.
    pub fn class_at(&self, at: usize) -> ByteClass
        ensures { result ≡ class_of (get_or self.now.bytes.now at 0) }
    {
        class_of(self.classes, self.byte_at(at))
    }

    // Whether a line ends at an offset.
    pub fn is_line_end(&self, at: usize) -> bool
        ensures { result ≡ is_line_end (get_or self.now.bytes.now at 0) }
    {
        self.class_at(at) == ByteClass::LineEnd
    }

    // How many word bytes stand in a row from the offset on.
    pub fn word_length(&self, at: usize) -> usize
        ensures { result ≡ word_length self.now.bytes.now at }
    {
        self.word_run(&self.bytes[at.min(self.bytes.len())..])
    }

    // How many word bytes stand in a row at the front of some bytes.
    fn word_run(&self, bytes: &[u8]) -> usize
        ensures { result ≡ prefix_len (λ b. is_word_byte b) bytes.now }
    {
        bytes.iter().take_while(|b| self.is_word_byte(**b)).count()
    }

    // Whether the byte is a word byte.
    fn is_word_byte(&self, b: u8) -> bool
        ensures { result ≡ is_word_byte b }
    {
        class_of(self.classes, b) == ByteClass::Word
    }
}
