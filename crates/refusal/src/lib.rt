// The refusals, one enum for every layer, each with the scope's number. The author of a text or of axioms causes 1, 3 to 8, 21 and 24, the caller 2, 11 to 14,
// 22 and 25, whoever stored the rows 15 to 18, whoever handed a sheet in 23.
#![tactic(auto)]

ghost use Rattle.std.specs.Prelude.{◌≡◌};
ghost use Rattle.refusal.specs.Refusal.{refusal_number};

use std::fmt;

#[derive(Clone, Copy, PartialEq, Eq)]
pub enum Refusal {
    // the text is too long.
    TextTooLong = 1,
    // a buffer that takes any compiled text, or the answer, is too short for it.
    BufferTooShort = 2,
    // a byte, or the text's end, that the grammar can't have there.
    SyntaxError = 3,
    // a word is too long.
    WordTooLong = 4,
    // a concept is below the last level.
    TooDeep = 5,
    // one concept number too many.
    TooManyNumbers = 6,
    // one role too many.
    TooManyRoles = 7,
    // the text has too many rows.
    TooManyRows = 8,
    // the count of numbers is under 2 or too large.
    NumberCount = 11,
    // the count of roles is too large.
    RoleCount = 12,
    // there are too many rows.
    RowCount = 13,
    // the table is too short for the numbers, or the results or the order for the rows.
    BufferLength = 14,
    // a row of no kind.
    UnknownKind = 15,
    // a field that the row's kind doesn't use is not 0.
    UnusedField = 16,
    // a concept number that is not below the count of numbers.
    NumberOutOfRange = 17,
    // a role that is not below the count of roles.
    RoleOutOfRange = 18,
    // the text has no question.
    NoQuestion = 21,
    // there are too many sheets, or more than the report has room for.
    TooManySheets = 22,
    // a sheet that doesn't say y or n to each question and then end.
    WrongSheet = 23,
    // the input is no run of axioms, or too long.
    NoRun = 24,
    // the lent text is too short for the book of the axioms.
    BookRoom = 25,
}

impl From<Refusal> for u64 {
    ghost from_gives = { λ refusal number. number ≡ refusal_number refusal };

    fn from(refusal: Refusal) -> u64 {
        refusal as u64
    }
}

// A refusal with its place: the error of whatever is refused.
#[derive(Clone, Copy, PartialEq, Eq)]
pub struct Refused {
    pub why: Refusal,
    pub place: usize,
}

impl Refusal {
    // This refusal, at the place.
    pub fn at(self, place: usize) -> Refused
        ensures { result ≡ record { why = self; place = place } }
    {
        Refused { why: self, place }
    }
}

// As the programs print it.
impl fmt::Display for Refused {
    fn fmt<W: fmt::Write>(&self, f: &mut fmt::Formatter<W>) -> fmt::Result {
        write!(f, "refused {} {}", u64::from(self.why), self.place)
    }
}
