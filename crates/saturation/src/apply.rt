// The rows that read a column: what they ask is met, or is asked again since a column that they read is dirty.
ghost use Rattle.std.specs.Prelude.{◌*◌, ◌<◌, ◌≤◌, ◌≡◌, ◌⊎◌, length};
ghost use Rattle.semantics.specs.Limits.{number_limit, set_words};
ghost use Rattle.semantics.specs.Row.{in_exist_kind, exist_in_kind, kind_of};
ghost use Rattle.saturation.specs.Applying.{RowIn};
ghost use Rattle.saturation.specs.Worklist.{TakesPart, Paired, ReadingOf, Draws};

use crate::rules::{apply_plain, is_emptied, mark_either};
use columns::Worklist;
use index::{Index, pair_key};
use rows::{RowKind, is_kind, left_of};

// The row w, of kind 3 or 4, with each row of the other kind that has its role.
fn apply_pairs(work: &mut Worklist, index: Index, w: u64)
    requires { (set_words * index.n ≤ length work.old.columns.now) × RowIn index.rows.now w × ((kind_of w ≡ in_exist_kind) ⊎ (kind_of w ≡ exist_in_kind)) }
    ensures same_reference { work.new.columns.ghost_name ≡ work.old.columns.ghost_name }
    ensures draws { Draws index.entry.n index.entry.rows.now (Paired index.entry.rows.now w)
        work.old.columns.now work.new.columns.now work.old.dirty.words work.new.dirty.words }
{
    for i in index.readers(pair_key(w)) {
        mark_either(work, w, index.rows[i]);
    }
}

// The row w, by its kind. Where the right of a row of kind 3 is nothing, so is its left, and no row of kind 4 asks more of it.
fn apply_row(work: &mut Worklist, index: Index, w: u64)
    requires { (set_words * index.n ≤ length work.old.columns.now) × RowIn index.rows.now w }
    ensures same_reference { work.new.columns.ghost_name ≡ work.old.columns.ghost_name }
    ensures draws { Draws index.entry.n index.entry.rows.now (TakesPart index.entry.rows.now w)
        work.old.columns.now work.new.columns.now work.old.dirty.words work.new.dirty.words }
{
    if is_emptied(work, w) {
        work.mark_column(left_of(w), 1);
    } else if is_kind(w, RowKind::InExist) || is_kind(w, RowKind::ExistIn) {
        apply_pairs(work, index, w);
    } else {
        apply_plain(work, w);
    }
}

// The rows that ask anything of column 1: those of kind 3 whose right is nothing.
fn empty_lefts(work: &mut Worklist, index: Index)
    requires { set_words * index.n ≤ length work.old.columns.now }
    ensures same_reference { work.new.columns.ghost_name ≡ work.old.columns.ghost_name }
    ensures draws { Draws index.entry.n index.entry.rows.now (ReadingOf index.entry.rows.now 1)
        work.old.columns.now work.new.columns.now work.old.dirty.words work.new.dirty.words }
{
    for &w in index.rows {
        if is_emptied(work, w) {
            work.mark_column(left_of(w), 1);
        }
    }
}

// Each row that reads column b.
pub fn apply_readers(work: &mut Worklist, index: Index, b: usize)
    requires { (set_words * index.n ≤ length work.old.columns.now) × (b < number_limit) }
    ensures same_reference { work.new.columns.ghost_name ≡ work.old.columns.ghost_name }
    ensures draws { Draws index.entry.n index.entry.rows.now (ReadingOf index.entry.rows.now b)
        work.old.columns.now work.new.columns.now work.old.dirty.words work.new.dirty.words }
{
    if b == 1 {
        return empty_lefts(work, index);
    }
    for i in index.readers(b) {
        apply_row(work, index, index.rows[i]);
    }
}
