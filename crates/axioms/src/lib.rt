// Axioms as they are read, token by token: what is due, and the lines that are written.
#![tactic(auto)]

mod output;
mod take;

ghost use Rattle.std.specs.Prelude.{◌≤◌, length};
ghost use Rattle.semantics.specs.Limits.{word_limit};

use ontology::TokenKind;
pub use output::{Output, count_bytes, write_bytes};

// What may stand next.
#[derive(Clone, Copy, PartialEq, Eq)]
pub enum Due {
    // an axiom, or the end of the run
    NextAxiom,
    // the bracket that opens an axiom
    OpenAxiom,
    // the annotation, or the left side
    AnnotationOrClass,
    // the bracket that opens the annotation
    OpenAnnotation,
    // rdfs:comment
    Property,
    // "usual"
    Value,
    // the bracket that closes the annotation
    CloseAnnotation,
    // a class
    NextClass,
    // the bracket that opens the parts of an intersection
    OpenParts,
    // the bracket that stands before a role
    OpenSome,
    // a role
    NextRole,
    // what follows a class: another, or a bracket that closes
    BehindClass,
}

// A token as it is handed in: its kind, and the bytes of a name. Of another token nobody reads them.
#[derive(Clone, Copy)]
pub struct TokenText<'a> {
    pub kind: TokenKind,
    pub name: &'a [u8],
    pub ghost short: { length name.now ≤ word_limit },
}

// A state of reading. The output is lent to it: what a struct by value lends inside another is not known once it is given back. That there is room for a token
// (`HasRoom`) stays a clause: between two tokens a state need not have the room.
#[derive(Drop)]
pub struct AxiomReading<'a, 'b> {
    pub due: Due,
    // whether the right side of the axiom is read: a fact of its own, on which no value hangs
    pub right: bool,
    // the expressions around, a number for each: the first `depth` of the stack, which is lent to the public `read_run` as a slice
    pub stack: &'b mut [u16],
    pub depth: usize,
    // the lines
    pub out: &'b mut Output<'a>,
}
