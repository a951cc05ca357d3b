// A set of concept numbers (the scope's trait set), by value, and the limits of the engine beside it.
ghost use Rattle.std.specs.Prelude.{◌≡◌, false, ◌||◌, ℕ, ◌<◌, eqb, get_or, replicate};
ghost use Rattle.semantics.specs.Limits.{number_limit, set_words};
ghost use Rattle.semantics.specs.Set.{has};

// Number b is bit 63 - (b mod 64), counted from the least, of word b div 64.
// The bit is written out where it is read or set, here, in `picking` and in `tables`: one expression, which a call would only hide.
// That b is below number_limit stays a clause: a u8 would say it only as long as a set has four words.
#[derive(Clone, Copy)]
pub struct ConceptSet {
    pub words: [u64; ConceptSet::SET_WORDS],
}

impl ConceptSet {
    // The limits of the engine. `Limits::all` says that they are the specification's.

    // 64-bit words of a set
    pub const SET_WORDS: usize = 4;
    // concept numbers, 0 and 1 among them: as many as a set can hold
    pub const NUMBERS: usize = 64 * ConceptSet::SET_WORDS;
    // and at least those two
    pub const LEAST: usize = 2;
    // bytes of a text
    pub const TEXT: usize = 16_384;
    // bytes of a word
    pub const WORD_BYTES: usize = 12;
    // how deep a concept may be
    pub const DEPTH: usize = 16;
    // roles
    pub const ROLES: usize = 64;
    // rows of a normal form
    pub const ROWS: usize = 1_024;
    // 64-bit words of the subsumption table that a sitting lends: a set for each number
    pub const TABLE: usize = ConceptSet::SET_WORDS * ConceptSet::NUMBERS;
    // 64-bit numbers of the slice that takes an answer
    pub const ANSWER: usize = 32;
    // score sheets of a class
    pub const SHEETS: usize = 64;
    // 16-bit numbers of the report for each sheet
    pub const SCORE: usize = 3;

    // The set with no member.
    pub fn empty() -> ConceptSet
        ensures { (result.words ≡ replicate set_words 0) × ((c : ℕ) → has result.words c ≡ false) }
    {
        ConceptSet {
            words: [0; ConceptSet::SET_WORDS],
        }
    }

    // Whether b is a member.
    pub fn test(self, b: usize) -> bool
        requires { b < number_limit }
        ensures { result ≡ has self.words b }
    {
        let k = b / 64;
        (self.words[k] >> (63 - b % 64)) % 2 == 1
    }

    // b becomes one more member, in place: whoever gathers a set row by row would wait for a copy of it at each.
    pub fn insert(&mut self, b: usize)
        requires { b < number_limit }
        ensures { (c : ℕ) → has self.new.words c ≡ (has self.old.words c || eqb b c) }
    {
        let k = b / 64;
        self.words[k] |= 1 << (63 - b % 64);
    }

    // The set with b as one more member.
    pub fn add(self, b: usize) -> ConceptSet
        requires { b < number_limit }
        ensures { (c : ℕ) → has result.words c ≡ (has self.words c || eqb b c) }
    {
        let mut s = self;
        s.insert(b);
        s
    }

    // What is in one of the two sets.
    pub fn union(self, other: ConceptSet) -> ConceptSet
        ensures { (c : ℕ) → has result.words c ≡ (has self.words c || has other.words c) }
    {
        self.wordwise(other, |v, w| v | w)
    }

    // Each word is made of the two sets' words in its place.
    pub fn wordwise<F: Fn(u64, u64) -> u64>(self, other: ConceptSet, f: F) -> ConceptSet
        requires { F.IsAlwaysCallable f }
        ensures { (k : ℕ) → k < set_words → F.post f (get_or self.words k 0) (get_or other.words k 0) (get_or result.words k 0) }
    {
        let mut s = self;
        for k in 0..ConceptSet::SET_WORDS {
            s.words[k] = f(self.words[k], other.words[k]);
        }
        s
    }
}
