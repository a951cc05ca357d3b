// The root of a number at a level (the scope: what holds of an a that obeys the rules of that level).
#![tactic(auto)]

mod settling;

ghost use Rattle.std.specs.Prelude.{◌≡◌, ◌&&◌, not, ◌<◌};
ghost use Rattle.semantics.specs.Limits.{number_limit};
ghost use Rattle.semantics.specs.Row.{a_of, b_of, c_of};
ghost use Rattle.semantics.specs.Set.{has};
ghost use Rattle.normal.specs.Rules.{HasLefts};
ghost use Rattle.roots.specs.Root.{KnownExceptional, Root};
ghost use Rattle.roots.specs.Found.{strict_of, rules_from, Exact, found_set, is_exceptional};
ghost use Rattle.roots.specs.Steps.{asks, FollowStep, FollowedRows};

use normal::is_active;
use picking::{is_empty, meet, minus, pick, remove};
use rows::{RowKind, is_kind, left_of, right_of, second_of};
use sets::ConceptSet;
pub use settling::Settling;

// A root on the way: what it has so far, which of these numbers are still to be followed, and where to look for the next.
#[derive(Clone, Copy)]
struct Following {
    set: ConceptSet,
    dirty: ConceptSet,
    from: usize,
}

// Whether the right of the row w, of level l, is due and missing: a row of kind 2 with both lefts in the set, or an active one with its left in it.
// That w's fields are numbers stays a clause: w may be any word.
fn lacks_right(set: ConceptSet, w: u64, l: u16, k: u16) -> bool
    requires { (a_of w < number_limit) × (b_of w < number_limit) × (c_of w < number_limit) }
    ensures { result ≡ (asks k w l set.words && not (has set.words (c_of w))) }
{
    if set.test(right_of(w)) {
        return false;
    }
    let obeyed = is_active(w, l, k);
    if !(obeyed | is_kind(w, RowKind::ConjSubsumed)) {
        return false;
    }
    set.test(left_of(w)) & (obeyed | set.test(second_of(w)))
}

// The rows that read b: the set takes the table row of each right that is due and missing, and what is new in it is to be followed.
fn follow_number(settling: Settling, k: u16, start: Following, b: usize) -> Following
    requires { Exact settling × (b < number_limit) }
    ensures { FollowStep settling.entry.index.n k settling.entry.index.rows.now settling.entry.levels.now settling.entry.table.now
        start.set.words start.dirty.words result.set.words result.dirty.words
        × FollowedRows k settling.entry.index.rows.now settling.entry.levels.now b result.set.words result.dirty.words × (result.from < number_limit) }
{
    let mut root = start;
    root.from = b;
    for i in settling.index.readers(b) {
        let w = settling.index.rows[i];
        if lacks_right(root.set, w, settling.levels[i], k) {
            root.from = right_of(w);
            let row = tables::row(settling.table, root.from);
            root.dirty = root.dirty.union(minus(row, root.set));
            root.set = root.set.union(row);
        }
    }
    root
}

// The root of a at level k: row a of the table, and what the rows of kind 2 and the rules of level k or above add to it, each right with its
// whole table row. What the role rows add is in those rows. lefts has the lefts of the rules of level k or above: no other number of row a is to
// be followed. None where it meets a number that is known to be exceptional at this level, for so is a.
pub fn find_root(
    settling: Settling,
    a: usize,
    k: u16,
    lefts: ConceptSet,
    known: ConceptSet,
) -> Option<ConceptSet>
    requires { Exact settling × (a < settling.index.n) × HasLefts k settling.index.rows.now settling.levels.now lefts.words
        × KnownExceptional settling.index.n (strict_of settling) (rules_from settling k) known.words }
    ensures { Root settling.entry.index.n (strict_of settling.entry) (rules_from settling.entry k) a (found_set result) (is_exceptional result) }
{
    let row = tables::row(settling.table, a);
    let mut root = Following {
        set: row,
        dirty: meet(row, lefts),
        from: a,
    };
    while is_empty(meet(root.set, known)) {
        let Some(b) = pick(root.dirty, root.from) else {
            return Some(root.set);
        };
        root.dirty = remove(root.dirty, b);
        root = follow_number(settling, k, root, b);
    }
    None
}
