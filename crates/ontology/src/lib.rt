// SubClassOf axioms in OWL 2 functional-style syntax: their texts, their meaning and the book of lines that they become. Definitions and theorems, and
// the kinds of tokens by name.
#![tactic(auto)]

#[derive(Clone, Copy, PartialEq, Eq)]
pub enum TokenKind {
    SubClassOf,
    Annotation,
    // rdfs:comment
    Comment,
    // "usual"
    Usual,
    // (
    Opening,
    // )
    Closing,
    // owl:Thing
    Thing,
    // owl:Nothing
    Nothing,
    // ObjectIntersectionOf
    Intersection,
    // ObjectSomeValuesFrom
    SomeValues,
    // a colon and a word
    Name,
}
