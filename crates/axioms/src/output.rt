// What tokens write, and the output without its zeros.
ghost use Rattle.std.specs.Prelude.{◌≡◌, [], ◌∷◌, ◌+◌, ◌<◌, ◌≤◌, length};
ghost use Rattle.semantics.specs.Source.{space_byte};
ghost use Rattle.copying.specs.Written.{Appended};
ghost use Rattle.axioms.specs.Track.{compact};

use copying::append;

// The first `size` bytes are written. The array is lent to the public `read_run` as a slice, and what is written may be overwritten with zeros in place.
#[derive(Drop)]
pub struct Output<'a> {
    pub bytes: &'a mut [u8],
    pub size: usize,
}

impl Output<'_> {
    // One byte behind the others.
    pub fn put(&mut self, b: u8)
        requires { self.old.size < length self.old.bytes.now }
        ensures written { Appended (b ∷ []) self.old.size self.old.bytes.now self.new.bytes.now self.new.size }
        ensures held { self.new.bytes.ghost_name ≡ self.old.bytes.ghost_name }
    {
        self.size = append(self.bytes, self.size, b);
    }

    // A space and a sign.
    pub fn put_sign(&mut self, sign: u8)
        requires { self.old.size + 2 ≤ length self.old.bytes.now }
        ensures written { Appended (space_byte ∷ sign ∷ []) self.old.size self.old.bytes.now self.new.bytes.now self.new.size }
        ensures held { self.new.bytes.ghost_name ≡ self.old.bytes.ghost_name }
    {
        self.put(b' ');
        self.put(sign);
    }

    // The bytes of a name.
    pub fn put_name(&mut self, name: &[u8])
        requires { self.old.size + length name.now ≤ length self.old.bytes.now }
        ensures written { Appended name.now self.old.size self.old.bytes.now self.new.bytes.now self.new.size }
        ensures held { self.new.bytes.ghost_name ≡ self.old.bytes.ghost_name }
    {
        for &b in name {
            self.put(b);
        }
    }

    // A space and the name.
    pub fn put_word(&mut self, name: &[u8])
        requires { self.old.size + 1 + length name.now ≤ length self.old.bytes.now }
        ensures written { Appended (space_byte ∷ name.now) self.old.size self.old.bytes.now self.new.bytes.now self.new.size }
        ensures held { self.new.bytes.ghost_name ≡ self.old.bytes.ghost_name }
    {
        self.put(b' ');
        self.put_name(name);
    }
}

// How many of the bytes are not 0.
#[tactic(auto, using(crate::proofs::Compact::compact_count))]
pub fn count_bytes(written: &[u8]) -> usize
    ensures { result ≡ length (compact written.now) }
{
    written.iter().filter(|&&b| b != 0).count()
}

// Those of the bytes that are not 0 go to the text. The result is how many.
pub fn write_bytes(written: &[u8], text: &mut [u8]) -> usize
    requires { length (compact written.now) ≤ length text.old }
    ensures { Appended (compact written.now) 0 text.old text.new result }
{
    let mut count = 0;
    for &b in written {
        if b != 0 {
            count = append(text, count, b);
        }
    }
    count
}
