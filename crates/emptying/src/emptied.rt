// The numbers that are nothing once the lefts of the stuck rows are. `ColumnOrder` stays a clause of three functions: it is of columns that one call lends them.
// n is the count of numbers; the functions have it for their contracts. They take the rows and n, and no `Index`: they read none, and it would ask more of callers.
ghost use Rattle.std.specs.Prelude.{◌≡◌, ◌<◌, ◌≤◌, length};
ghost use Rattle.semantics.specs.Limits.{number_limit};
ghost use Rattle.semantics.specs.Row.{a_of, c_of};
ghost use Rattle.emptying.specs.Steps.{ColumnOrder, leads, StuckIn, Followed, EmptiedSet};

use normal::is_stuck;
use picking::included;
use rows::{RowKind, is_kind, left_of, right_of};
use sets::ConceptSet;

// Column 1, and the column of each stuck row's left.
fn stuck_lefts(columns: &[u64], rows: &[u64], levels: &[u16], n: usize) -> ConceptSet
    requires { ColumnOrder n rows.now columns.now × (length rows.now ≤ length levels.now) }
    ensures { StuckIn n rows.now levels.now columns.now (length rows.now) result.words }
{
    let mut nothing = tables::row(columns, 1);
    for (&w, &level) in rows.iter().zip(levels) {
        if is_stuck(w, level) {
            let column = tables::row(columns, left_of(w));
            nothing = nothing.union(column);
        }
    }
    nothing
}

// Whether the row w, of kind 3, leads from a number that the set lacks to one that it has.
// That w's fields are numbers stays a clause: w may be any word.
fn leads_in(set: ConceptSet, w: u64) -> bool
    requires { (a_of w < number_limit) × (c_of w < number_limit) }
    ensures { result ≡ leads w set.words }
{
    is_kind(w, RowKind::InExist) && set.test(right_of(w)) && !set.test(left_of(w))
}

// A round over all rows: the set takes the left's column of each row that leads into it. It stays beside `stuck_lefts`, whose test reads the levels and no set.
fn follow_roles(columns: &[u64], rows: &[u64], n: usize, start: ConceptSet) -> ConceptSet
    requires { ColumnOrder n rows.now columns.now }
    ensures { Followed n rows.now columns.now (length rows.now) start.words result.words }
{
    let mut set = start;
    for &w in rows {
        if leads_in(set, w) {
            let column = tables::row(columns, left_of(w));
            set = set.union(column);
        }
    }
    set
}

// Rounds until one adds nothing. Over all calls of a run there are few: each but a call's last adds a number.
pub fn emptied_numbers(columns: &[u64], rows: &[u64], levels: &[u16], n: usize) -> ConceptSet
    requires { ColumnOrder n rows.now columns.now × (length rows.now ≤ length levels.now) }
    ensures { EmptiedSet n rows.now levels.now columns.now result.words }
{
    let mut set = stuck_lefts(columns, rows, levels, n);
    loop {
        let next = follow_roles(columns, rows, n, set);
        if included(next, set) {
            return set;
        }
        set = next;
    }
}
