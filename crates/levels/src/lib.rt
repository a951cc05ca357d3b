// Loops over the levels of the rows. n is the count of numbers, which only the contracts of `lefts_from`, `lefts_at` and `raise` read: a deck is one over n numbers.
// `raise` and `mark_stuck` stay two functions: over one that took what is computed as a closure, each would be as long as its loop. They read and write
// levels[i], and don't zip: no invariant reads what a zipped `iter_mut` has written so far. The other two don't either, for their speed (crate `normal`).
// That the rows have levels, and that k is below the infinite one, stay clauses: of slices that are lent one by one, and of one call.
#![tactic(auto)]

ghost use Rattle.std.specs.Prelude.{◌+◌, ◌<◌, ◌≤◌, length};
ghost use Rattle.normal.specs.Rules.{Deck, infinite, raised_level, marked_level};
ghost use Rattle.levels.specs.Relevelled.{Relevelled, LeftsFrom};

use normal::{is_active, marked_level, raised_level};
use rows::left_of;
use sets::ConceptSet;

// The lefts of the rows active at level k.
// Settling spends most of its time here and in `lefts_at` where rules are usual ones: the sets grow in place, and the back end keeps the loops apart, with the
// registers for themselves.
#[inline(never)]
pub fn lefts_from(rows: &[u64], levels: &[u16], n: usize, k: u16) -> ConceptSet
    requires { Deck n rows.now × (length rows.now ≤ length levels.now) }
    ensures { LeftsFrom n k rows.now levels.now result.words }
{
    let mut set = ConceptSet::empty();
    for (i, &w) in rows.iter().enumerate() {
        if is_active(w, levels[i], k) {
            set.insert(left_of(w));
        }
    }
    set
}

// The lefts of the rows active at a level, and of those active above it.
#[derive(Clone, Copy)]
pub struct Lefts {
    pub active: ConceptSet,
    pub above: ConceptSet,
}

// Both for level k, in one walk over the rows in the place of two (`root_at` in crate `ranks` asks for both).
#[inline(never)]
pub fn lefts_at(rows: &[u64], levels: &[u16], n: usize, k: u16) -> Lefts
    requires { Deck n rows.now × (length rows.now ≤ length levels.now) }
    ensures active { LeftsFrom n k rows.now levels.now result.active.words }
    ensures above { LeftsFrom n (k + 1) rows.now levels.now result.above.words }
{
    let mut active = ConceptSet::empty();
    let mut above = ConceptSet::empty();
    for (i, &w) in rows.iter().enumerate() {
        if is_active(w, levels[i], k) {
            let a = left_of(w);
            active.insert(a);
            if k < levels[i] {
                above.insert(a);
            }
        }
    }
    Lefts { active, above }
}

// Rows of level k whose left is in the set go one level up.
pub fn raise(rows: &[u64], levels: &mut [u16], n: usize, k: u16, set: ConceptSet)
    requires { Deck n rows.now × (length rows.now ≤ length levels.old) × (k < infinite) }
    ensures { Relevelled (raised_level k set.words) rows.now levels.old levels.new }
{
    for (i, &w) in rows.iter().enumerate() {
        levels[i] = raised_level(w, levels[i], k, set);
    }
}

// After a pass that got stuck at level k the rows above it are stuck; all others keep their level, which can only rise in the next pass.
pub fn mark_stuck(rows: &[u64], levels: &mut [u16], k: u16)
    requires { (length rows.now ≤ length levels.old) × (k < infinite) }
    ensures { Relevelled (marked_level k) rows.now levels.old levels.new }
{
    for (i, &w) in rows.iter().enumerate() {
        levels[i] = marked_level(w, levels[i], k);
    }
}
