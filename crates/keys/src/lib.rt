// The key: what a sheet that is all right says, from the results of a settled text.
#![tactic(auto)]

ghost use Rattle.std.specs.Prelude.{◌<◌, ◌≤◌, ◌≡◌, true, leb, length};
ghost use Rattle.semantics.specs.Closure.{yes_bit};
ghost use Rattle.semantics.specs.Row.{kind_of};
ghost use Rattle.copying.specs.Written.{Appended};
ghost use Rattle.sheets.specs.Sheets.{answer_byte};
ghost use Rattle.keys.specs.Key.{reply_to, key_of};

use copying::append;
use results::YES;
use rows::{RowKind, is_kind};

// The reply of a question's result: its highest bit.
fn reply_byte(answer: u16) -> u8
    ensures { result ≡ answer_byte (leb (yes_bit true) answer) }
{
    if YES <= answer { b'y' } else { b'n' }
}

// A question's reply goes to the place `at`; another line's row has none. The result is the next place.
fn write_reply(row: u64, answer: u16, key: &mut [u8], at: usize) -> usize
    requires { at < length key.old }
    ensures { Appended (reply_to (kind_of row) answer) at key.old key.new result }
{
    if is_kind(row, RowKind::Query) || is_kind(row, RowKind::StrictQuery) {
        return append(key, at, reply_byte(answer));
    }
    at
}

// The replies of the lines' rows, in order. The result is how many questions there are.
pub fn write_key(rows: &[u64], answers: &[u16], lines: usize, key: &mut [u8]) -> usize
    requires { (lines ≤ length rows.now) × (lines ≤ length answers.now) × (lines ≤ length key.old) }
    ensures { Appended (key_of lines rows.now answers.now) 0 key.old key.new result }
{
    let mut count = 0;
    for (&row, &answer) in rows[..lines].iter().zip(answers) {
        count = write_reply(row, answer, key, count);
    }
    count
}
