// The tokens of axioms in a text: which one begins at an offset, and how many of its bytes stand there.
#![tactic(auto)]

ghost use Rattle.std.specs.Prelude.{◌≡◌, [], ◌+◌, ◌<◌, ◌≤◌, ◌==◌, length, drop};
ghost use Rattle.std.specs.List.{zip, prefix_len};
ghost use Rattle.ontology.specs.Text.{token_bytes, gap_byte, bracket_byte};
ghost use Rattle.ontology.specs.Points.{token_of};
ghost use Rattle.tokens.specs.Seen.{gap_length, seen_as, seen_either, seen_name, seen_at};

use ontology::TokenKind;
use sets::ConceptSet;
use words::Text;

// What stands of a token at an offset.
#[derive(Clone, Copy, PartialEq, Eq)]
pub enum Seen {
    // a whole token, and of how many bytes
    Whole(TokenKind, usize),
    // so many first bytes of a token, and then another byte, or the end
    Cut(TokenKind, usize),
}

// A space or a line feed. What parts the tokens of axioms is their own (`gap_byte`), apart from the classes of a book's bytes.
pub fn is_gap(b: u8) -> bool
    ensures { result ≡ gap_byte b }
{
    matches!(b, b' ' | b'\n')
}

// How many gap bytes stand in a row at the front.
fn gap_length(bytes: &[u8]) -> usize
    ensures { result ≡ prefix_len gap_byte bytes.now }
{
    bytes.iter().take_while(|&&b| is_gap(b)).count()
}

// The offset behind the gap that begins at the offset, if one does.
pub fn past_gap(input: &[u8], at: usize) -> usize
    requires { at ≤ length input.now }
    ensures { result ≡ at + gap_length (drop at input.now) }
{
    at + gap_length(&input[at..])
}

pub fn is_bracket(b: u8) -> bool
    ensures { result ≡ bracket_byte b }
{
    matches!(b, b'(' | b')')
}

// How a token of the kind is spelled; of a name that is its colon.
// It stays a match: a table, and no conversion.
#[tactic(auto, unfolding(ontology::specs::Text::token_bytes))]
fn spelling(kind: TokenKind) -> &'static [u8]
    ensures { result.now ≡ token_bytes (token_of kind []) }
{
    match kind {
        TokenKind::SubClassOf => b"SubClassOf",
        TokenKind::Annotation => b"Annotation",
        TokenKind::Comment => b"rdfs:comment",
        TokenKind::Usual => b"\"usual\"",
        TokenKind::Opening => b"(",
        TokenKind::Closing => b")",
        TokenKind::Thing => b"owl:Thing",
        TokenKind::Nothing => b"owl:Nothing",
        TokenKind::Intersection => b"ObjectIntersectionOf",
        TokenKind::SomeValues => b"ObjectSomeValuesFrom",
        TokenKind::Name => b":",
    }
}

// How many first bytes two texts have in common.
fn matched(bytes: &[u8], word: &[u8]) -> usize
    ensures { result ≡ prefix_len (λ p. p.0 == p.1) (zip bytes.now word.now) }
{
    bytes.iter().zip(word).take_while(|(a, b)| a == b).count()
}

// The token of this kind, at the front of the bytes.
fn see_as(bytes: &[u8], kind: TokenKind) -> Seen
    ensures { result ≡ seen_as kind (token_bytes (token_of kind [])) bytes.now }
{
    let word = spelling(kind);
    let size = matched(bytes, word);
    if size == word.len() {
        return Seen::Whole(kind, size);
    }
    Seen::Cut(kind, size)
}

// One of two tokens that begin alike: the one that goes on further.
fn see_either(bytes: &[u8], kind: TokenKind, other: TokenKind) -> Seen
    ensures { result ≡ seen_either kind (token_bytes (token_of kind [])) other (token_bytes (token_of other [])) bytes.now }
{
    if matched(bytes, spelling(kind)) < matched(bytes, spelling(other)) {
        return see_as(bytes, other);
    }
    see_as(bytes, kind)
}

// A name, whose colon stands at the offset: of a longer word no more bytes than a name has.
fn see_name(text: &Text, at: usize) -> Seen
    requires { at < length text.now.bytes.now }
    ensures { result ≡ seen_name (drop at text.now.bytes.now) }
{
    match text.word_length(at + 1) {
        0 => Seen::Cut(TokenKind::Name, 1),
        size => Seen::Whole(TokenKind::Name, size.min(ConceptSet::WORD_BYTES) + 1),
    }
}

// The token at the offset, by its first byte. Past the end no token begins. Stays a match over bytes: it is data, and no step of the program.
pub fn token_at(text: &Text, at: usize) -> Option<Seen>
    requires { at ≤ length text.now.bytes.now }
    ensures { result ≡ seen_at (drop at text.now.bytes.now) }
{
    let rest = &text.bytes[at..];
    let seen = match text.byte_at(at) {
        b'(' => Seen::Whole(TokenKind::Opening, 1),
        b')' => Seen::Whole(TokenKind::Closing, 1),
        b':' => see_name(text, at),
        b'S' => see_as(rest, TokenKind::SubClassOf),
        b'O' => see_either(rest, TokenKind::Intersection, TokenKind::SomeValues),
        b'o' => see_either(rest, TokenKind::Thing, TokenKind::Nothing),
        b'A' => see_as(rest, TokenKind::Annotation),
        b'r' => see_as(rest, TokenKind::Comment),
        b'"' => see_as(rest, TokenKind::Usual),
        _ => return None,
    };
    Some(seen)
}
