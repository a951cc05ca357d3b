// Score sheets: a text of them is checked against the number of questions, and each sheet is scored against the key.
#![tactic(auto)]

mod score;
mod split;

ghost use Rattle.sheets.specs.Sheets.{sheets_of};
ghost use Rattle.sheets.specs.Steps.{ClassChecked};

use refusal::{Refusal, Refused};
pub use score::score_sheets;
use sets::ConceptSet;
use split::{count_sheets, lowest_wrong};

// What all sheets come to.
#[derive(Clone, Copy)]
pub struct Totals {
    pub right: u64,
    pub wrong: u64,
}

// The number of sheets, or refusals 21, 22 and 23, in this order. `room` is the length of the report.
pub fn check_sheets(text: &[u8], questions: usize, room: usize) -> Result<usize, Refused>
    ensures { ClassChecked questions (sheets_of text.now) room result }
{
    let count = count_sheets(text);
    if questions == 0 {
        return Err(Refusal::NoQuestion.at(0));
    }
    if ConceptSet::SHEETS < count || room / ConceptSet::SCORE < count {
        return Err(Refusal::TooManySheets.at(0));
    }
    match lowest_wrong(text, questions, count) {
        Some(wrong) => Err(Refusal::WrongSheet.at(wrong)),
        None => Ok(count),
    }
}
