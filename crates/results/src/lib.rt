// The result of one row, by its kind (the scope's results): a yes bit, and below it a rank.
#![tactic(auto)]

mod ranked_root;

ghost use Rattle.std.specs.Prelude.{◌≡◌, ◌<◌, ◌≤◌, cond};
ghost use Rattle.semantics.specs.Limits.{number_limit};
ghost use Rattle.semantics.specs.Row.{c_of};
ghost use Rattle.normal.specs.Rules.{infinite};
ghost use Rattle.results.specs.Results.{Readable, strict_result, ranked_result, replied_result, yes_of_row};
ghost use Rattle.results.specs.Found.{found_rank, found_root};

use normal::INFINITE;
pub use ranked_root::RankedRoot;
use rows::{RowKind, is_kind, known_kind, left_of, right_of};

// The yes bit of a result. Results stay such words, and no enum: as lent u16 they are the C interface's.
pub const YES: u16 = 32_768;

// The result of the row w where it is a strict query: yes where the row of its left, in the table, has its right. 0 for any other row.
pub fn strict_result(table: &[u64], w: u64) -> u16
    requires { Readable table.now w }
    ensures { result ≡ strict_result table.now w }
{
    if is_kind(w, RowKind::StrictQuery) && tables::test_row(table, left_of(w), right_of(w)) {
        return YES;
    }
    0
}

// The result of the row w of level l, where it is a defeasible one; else the result r that it has.
pub fn ranked_result(w: u64, l: u16, r: u16) -> u16
    requires { l ≤ infinite }
    ensures { result ≡ ranked_result w l r }
{
    if is_kind(w, RowKind::Defeasible) {
        return YES + l;
    }
    r
}

// The result of the row w where it is a query with the left a: the rank of a, and the yes bit where that is infinite or the root has the right.
// Any other row keeps the result r that it has. What is found of a is none where its rank is infinite.
// That w's right is a number stays a clause: w may be any word.
pub fn replied_result(w: u64, r: u16, a: usize, found: Option<RankedRoot>) -> u16
    requires { c_of w < number_limit }
    ensures { result ≡ replied_result a (found_rank found) (found_root found) w r }
{
    if !(is_kind(w, RowKind::Query) && left_of(w) == a) {
        return r;
    }
    match found {
        None => YES + INFINITE,
        Some(ranked) if ranked.root.test(right_of(w)) => YES + ranked.rank,
        Some(ranked) => ranked.rank,
    }
}

// Whether the row w is a query, or a strict one, whose result r has the yes bit. The clause has the 1 or 0 that the count of yes adds up.
pub fn is_yes(w: u64, r: u16) -> bool
    ensures { cond result 1 0 ≡ yes_of_row w r }
{
    match known_kind(w) {
        Some(RowKind::Query | RowKind::StrictQuery) => YES <= r,
        _ => false,
    }
}
