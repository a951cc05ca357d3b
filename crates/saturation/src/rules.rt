// What one row asks of the columns, or a pair of rows: it is met, and a column that takes anything is dirty. That a row's numbers have columns (`InColumns`) stays a
// clause: it is of one row, and of columns that are lent to be written.
ghost use Rattle.std.specs.Prelude.{◌≡◌};
ghost use Rattle.semantics.specs.Row.{a_of, c_of};
ghost use Rattle.columns.specs.Steps.{Marks, in_apart_where};
ghost use Rattle.saturation.specs.Applying.{InColumns, is_emptied, Plain, MarksPair};

use columns::Worklist;
use picking::meet;
use rows::{RowKind, is_kind, known_kind, left_of, right_of, second_of};

// Whether the row w is of kind 3 and its right is nothing: then so is its left.
pub fn is_emptied(work: &Worklist, w: u64) -> bool
    requires { InColumns work.now.columns.now w }
    ensures { result ≡ is_emptied w work.now.columns.now }
{
    is_kind(w, RowKind::InExist) && work.test(1, right_of(w))
}

// The row w, where it is of kind 1 or 2. Usual rules and queries ask nothing of the columns.
pub fn apply_plain(work: &mut Worklist, w: u64)
    requires { InColumns work.old.columns.now w }
    ensures same_reference { work.new.columns.ghost_name ≡ work.old.columns.ghost_name }
    ensures does { Plain w work.old.columns.now work.new.columns.now work.old.dirty.words work.new.dirty.words }
{
    match known_kind(w) {
        Some(RowKind::Strict) => work.mark_column(left_of(w), right_of(w)),
        Some(RowKind::ConjSubsumed) => {
            let shared = meet(work.apart(left_of(w)), work.column(second_of(w)));
            work.mark_set(right_of(w), shared);
        }
        _ => {}
    }
}

// The row w says that its left is within some r right, the row v that some r of its left is within its right: where w's right is within v's left,
// w's left is within v's right.
fn mark_pair(work: &mut Worklist, w: u64, v: u64)
    requires { InColumns work.old.columns.now w × InColumns work.old.columns.now v }
    ensures same_reference { work.new.columns.ghost_name ≡ work.old.columns.ghost_name }
    ensures marks { Marks (c_of v) (in_apart_where (a_of v) (c_of w) (a_of w)) work.old.columns.now work.new.columns.now work.old.dirty.words work.new.dirty.words }
{
    if work.test(left_of(v), right_of(w)) {
        work.mark_column(left_of(w), right_of(v));
    }
}

// The same of a pair in either order: w is of kind 3 and v of kind 4, or the other way round.
pub fn mark_either(work: &mut Worklist, w: u64, v: u64)
    requires { InColumns work.old.columns.now w × InColumns work.old.columns.now v }
    ensures same_reference { work.new.columns.ghost_name ≡ work.old.columns.ghost_name }
    ensures marks { MarksPair w v work.old.columns.now work.new.columns.now work.old.dirty.words work.new.dirty.words }
{
    if is_kind(w, RowKind::InExist) {
        mark_pair(work, w, v);
    } else {
        mark_pair(work, v, w);
    }
}
