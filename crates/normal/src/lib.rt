// Rows of the normal form (the scope's deck) as packed words: the defeasible ones by their levels so far, and the level that a row gets.
#![tactic(auto)]

ghost use Rattle.std.specs.Prelude.{◌≡◌, ◌<◌};
ghost use Rattle.semantics.specs.Limits.{number_limit};
ghost use Rattle.semantics.specs.Row.{a_of};
ghost use Rattle.normal.specs.Rules.{infinite, is_active, is_at, is_stuck, raised_level, marked_level};

use rows::{RowKind, is_kind, kind_of, left_of};
use sets::ConceptSet;

// The level of a stuck row. It stays a number: a level becomes the rank in a result word, which is the C interface's.
pub const INFINITE: u16 = 32_767;

// How many levels a u16 can tell apart.
const LEVEL_SIZE: u64 = 65_536;

// Whether the row w of level l is a defeasible one that is not stuck, of level k or above. By kind and then by level such rows stand next to each other, so one
// comparison tells them from all others: the distance from the first wraps round where the row stands before it, and none is active from the infinite level on.
// A comparison of the kind and two of the level are three branches, which a processor doesn't foretell where the kinds stand in no order: decks of mostly usual
// rules then took 2.5 times as long (docs/LOOK-BACK.md, d3).
pub fn is_active(w: u64, l: u16, k: u16) -> bool
    ensures { result ≡ is_active k w l }
{
    let place = kind_of(w) * LEVEL_SIZE + l as u64;
    let first = RowKind::Defeasible as u64 * LEVEL_SIZE + k as u64;
    place.wrapping_sub(first) < INFINITE.saturating_sub(k) as u64
}

// Whether the row w of level l is a defeasible one of level k. The tests from here on and in crate `roots` stay whole, by & and |: lazy ones, with a zip where the
// lefts are gathered, made settling the largest books 1.5 to 1.8 times as long.
pub fn is_at(w: u64, l: u16, k: u16) -> bool
    ensures { result ≡ is_at k w l }
{
    is_kind(w, RowKind::Defeasible) & (l == k)
}

// Whether the row w of level l is a defeasible one that is stuck.
pub fn is_stuck(w: u64, l: u16) -> bool
    ensures { result ≡ is_stuck w l }
{
    is_kind(w, RowKind::Defeasible) & (l == INFINITE)
}

// The level of the row w, raised from k where its left is in the set.
// That k is a level and w's left a number stay clauses: each is of one call, and w may be any word.
pub fn raised_level(w: u64, l: u16, k: u16, set: ConceptSet) -> u16
    requires { (k < infinite) × (a_of w < number_limit) }
    ensures { result ≡ raised_level k set.words w l }
{
    if is_at(w, l, k) & set.test(left_of(w)) {
        return k + 1;
    }
    l
}

// The level of the row w after a pass that got stuck at level k.
pub fn marked_level(w: u64, l: u16, k: u16) -> u16
    requires { k < infinite }
    ensures { result ≡ marked_level k w l }
{
    if is_active(w, l, k + 1) {
        return INFINITE;
    }
    l
}
