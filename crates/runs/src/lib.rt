// A run of axioms, read token by token to its end, or to the first byte that can't stand there. What is written on the way is the book, with zeros in it.
#![tactic(auto)]

ghost use Rattle.std.specs.Prelude.{◌≡◌, ◌+◌, ◌<◌, ◌≤◌, false, length};
ghost use Rattle.axioms.specs.declared.Due.TheVariants.{NextAxiom};
ghost use Rattle.axioms.specs.Steps.{kept, kept_of, HeldReading};
ghost use Rattle.axioms.specs.TrackReader.{may_end, halted, track_axioms};
ghost use Rattle.runs.specs.Steps.{stands_free, is_parted, name_start, Ready, WholeThere, CutThere, run_of, Going, Room, RunAs};

use axioms::{AxiomReading, Due, Output, TokenText};
use ontology::TokenKind;
use tokens::{Seen, is_bracket, is_gap, past_gap, token_at};
use words::{Text, class_table};

// An expression around another took more bytes of the input than this, for its keyword.
pub const LEVEL_BYTES: usize = 16;

// Whether anything may follow a token of the kind at once.
fn stands_free(kind: TokenKind) -> bool
    ensures { result ≡ stands_free kind }
{
    !matches!(
        kind,
        TokenKind::Thing | TokenKind::Nothing | TokenKind::Name
    )
}

// Whether the byte may follow the token: behind a name or an owl: class a gap or a bracket must.
fn is_parted(kind: TokenKind, b: u8) -> bool
    ensures { result ≡ is_parted kind b }
{
    stands_free(kind) || is_gap(b) || is_bracket(b)
}

// Where a token's word begins: behind its colon, or, where it has none, at its end.
fn name_start(kind: TokenKind, at: usize, end: usize) -> usize
    requires { at < end }
    ensures { result ≡ name_start kind at end }
{
    if kind == TokenKind::Name { at + 1 } else { end }
}

// A whole token, up to `end`, where reading goes on, or the offset where it stops. Where the token can't stand, its first byte can't.
fn read_whole(
    text: &Text,
    at: usize,
    end: usize,
    kind: TokenKind,
    reading: &mut AxiomReading,
) -> Result<usize, usize>
    requires { WholeThere text.now.bytes.now at end kind (kept_of reading.old) reading.old.stack.now reading.old.out.now.bytes.now }
    ensures goes { Going text.now.bytes.now at reading.old reading.new result }
    ensures held { HeldReading reading.old reading.new }
{
    let name = &text.bytes[name_start(kind, at, end)..end];
    if !reading.take_token(TokenText { kind, name }) {
        return Err(at);
    }
    if !is_parted(kind, text.byte_at(end)) {
        return Err(end);
    }
    Ok(end)
}

// Only the first bytes of a token, up to `end`: reading stops behind them, or, where no such token can stand, at the first. Reading is over then, so it is no
// matter what the token writes. The text is there for the contract only, which says what stands there.
fn read_cut(
    text: &Text,
    at: usize,
    end: usize,
    kind: TokenKind,
    reading: &mut AxiomReading,
) -> usize
    requires { CutThere text.now.bytes.now at end kind (kept_of reading.old) reading.old.stack.now reading.old.out.now.bytes.now }
    ensures stops { run_of text.now.bytes.now at reading.old ≡ halted result }
    ensures held { HeldReading reading.old reading.new }
{
    if reading.take_token(TokenText { kind, name: &[] }) {
        end
    } else {
        at
    }
}

// One gap, or one token: where reading goes on, or where it stops, since no run has the byte there.
fn read_next(text: &Text, at: usize, reading: &mut AxiomReading) -> Result<usize, usize>
    requires { Ready text.now.bytes.now at (kept_of reading.old) reading.old.stack.now reading.old.out.now.bytes.now }
    ensures goes { Going text.now.bytes.now at reading.old reading.new result }
    ensures held { HeldReading reading.old reading.new }
{
    if is_gap(text.byte_at(at)) {
        return Ok(past_gap(text.bytes, at));
    }
    match token_at(text, at) {
        Some(Seen::Whole(kind, size)) => read_whole(text, at, at + size, kind, reading),
        Some(Seen::Cut(kind, size)) => Err(read_cut(text, at, at + size, kind, reading)),
        None => Err(at),
    }
}

// Whether a run may end where this is due.
fn may_end(due: Due) -> bool
    ensures { result ≡ may_end due }
{
    due == Due::NextAxiom
}

// Reads on from the start of the input to its end: so many bytes of output, or the offset where no run has the byte, or where the input ends too early. Stays
// a `while`: a step goes on by as many bytes as its token has.
fn read_on(text: &Text, reading: &mut AxiomReading) -> Result<usize, usize>
    requires start { kept_of reading.old ≡ kept NextAxiom false 0 0 }
    requires room { Room (length text.now.bytes.now) (length reading.old.stack.now) (length reading.old.out.now.bytes.now) }
    ensures read { RunAs (track_axioms text.now.bytes.now) reading.new.out.now.bytes.now result }
    ensures held { HeldReading reading.old reading.new }
{
    let mut at = 0;
    while at < text.bytes.len() {
        at = read_next(text, at, reading)?;
    }
    if may_end(reading.due) {
        return Ok(reading.out.size);
    }
    Err(at)
}

// Reads a whole input. The stack takes at most one number for 16 bytes of it, and the output 3 bytes for each.
pub fn read_run(input: &[u8], stack: &mut [u16], out: &mut [u8]) -> Result<usize, usize>
    requires { Room (length input.now) (length stack.old) (length out.old) }
    ensures { RunAs (track_axioms input.now) out.new result }
{
    let classes = class_table();
    let text = Text {
        bytes: input,
        classes: &classes,
    };
    let mut lines = Output {
        bytes: out,
        size: 0,
    };
    let mut reading = AxiomReading {
        due: Due::NextAxiom,
        right: false,
        stack,
        depth: 0,
        out: &mut lines,
    };
    read_on(&text, &mut reading)
}
