// The score of each sheet, and the totals.
ghost use Rattle.std.specs.Prelude.{◌≡◌, ◌==◌, ◌+◌, ◌<◌, ◌≤◌, length, count_by};
ghost use Rattle.std.specs.List.{zip};
ghost use Rattle.semantics.specs.Limits.{row_limit, score_size};
ghost use Rattle.sheets.specs.Sheets.{sheets_of, percent as percent_of, Scored};
ghost use Rattle.sheets.specs.Steps.{SheetScored, Scorable};

use crate::Totals;
use sets::ConceptSet;

// How many bytes of the sheet are the key's.
fn count_right(key: &[u8], sheet: &[u8]) -> usize
    ensures counted { result ≡ count_by (λ p. p.0 == p.1) (zip key.now sheet.now) }
    ensures few { result ≤ length key.now }
{
    let mut right = 0;
    // Adds 1 or 0: a filter that is counted branches at each byte, and marking took 1.6 times as long.
    for (&reply, &said) in key.iter().zip(sheet) {
        right += if reply == said { 1 } else { 0 };
    }
    right
}

// Right of so many questions, as a whole percent; an exact half goes up.
fn percent(right: usize, questions: usize) -> usize
    requires { (0 < questions) × (questions ≤ row_limit) × (right ≤ questions) }
    ensures { (result ≡ percent_of right questions) × (result ≤ 100) }
{
    (200 * right + questions) / (2 * questions)
}

// Scores a sheet: its three numbers go to the report, at the place `at`, which is counted from the sheet's own. The result is the right ones.
// The place stays beside the report, as at copying's `append`.
fn score_sheet(key: &[u8], sheet: &[u8], report: &mut [u16], at: usize) -> usize
    requires { (0 < length key.now) × (length key.now ≤ row_limit) × (length sheet.now ≡ length key.now) × (at + score_size ≤ length report.old) }
    ensures { SheetScored key.now sheet.now at report.old report.new result }
{
    let questions = key.len();
    let right = count_right(key, sheet);
    report[at] = right as u16;
    report[at + 1] = (questions - right) as u16;
    report[at + 2] = percent(right, questions) as u16;
    right
}

// Scores an accepted class, sheet after sheet.
pub fn score_sheets(key: &[u8], text: &[u8], count: usize, report: &mut [u16]) -> Totals
    requires { Scorable key.now text.now count report.old }
    ensures { Scored key.now (sheets_of text.now) report.old report.new result }
{
    let questions = key.len();
    let mut right = 0;
    let mut wrong = 0;
    let mut rest = text;
    for i in 0..count {
        let found = score_sheet(key, &rest[..questions], report, ConceptSet::SCORE * i);
        right += found as u64;
        wrong += (questions - found) as u64;
        rest = &rest[questions + 1..];
    }
    Totals { right, wrong }
}
