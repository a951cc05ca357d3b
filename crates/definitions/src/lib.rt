// The definition rows: those of each `&` and `/`, in the order of their numbers, which is that of their first bytes.
#![tactic(auto)]

ghost use Rattle.std.specs.Prelude.{[], ◌∷◌, map, ◌+◌, ◌<◌, ◌≤◌, length, get_or};
ghost use Rattle.semantics.specs.Limits.{number_limit, role_limit};
ghost use Rattle.semantics.specs.Closure.{strict};
ghost use Rattle.semantics.specs.Row.{pack, simple, conj_subsumed, in_exist, exist_in};
ghost use Rattle.names.specs.Lent.{lefts_in, rights_in, state_of};
ghost use Rattle.source.specs.Lines.{form_rows, definitions};
ghost use Rattle.copying.specs.Written.{Appended};
ghost use Rattle.definitions.specs.Steps.{Writable};

use copying::append;
use forms::{Form, number_form};
use names::{ReaderState, left_at, right_at};
use rows::{RowKind, pack};
use sets::ConceptSet;
use words::{Text, class_table};

// The rows of the `&` numbered x: x within y, x within z, y and z within x.
fn write_conjunction(rows: &mut [u64], at: usize, x: u16, y: u16, z: u16) -> usize
    requires { at + 3 ≤ length rows.old }
    ensures { Appended (pack (simple strict x y) ∷ pack (simple strict x z) ∷ pack (conj_subsumed y z x) ∷ []) at rows.old rows.new result }
{
    let second = append(rows, at, pack(RowKind::Strict, 0, x, 0, y));
    let third = append(rows, second, pack(RowKind::Strict, 0, x, 0, z));
    append(rows, third, pack(RowKind::ConjSubsumed, 0, y, z, x))
}

// The rows of the `/` numbered x: x within some role y, some role y within x.
fn write_existential(rows: &mut [u64], at: usize, x: u16, role: u16, y: u16) -> usize
    requires { (at + 2 ≤ length rows.old) × (role < role_limit) }
    ensures { Appended (pack (in_exist x role y) ∷ pack (exist_in role y x) ∷ []) at rows.old rows.new result }
{
    let second = append(rows, at, pack(RowKind::InExist, role, x, 0, y));
    append(rows, second, pack(RowKind::ExistIn, role, y, 0, x))
}

// The rows of number x, by what it stands for, go to the place `at` and those behind it. The result is the next place.
fn write_definition(
    form: Option<Form>,
    links: &[u16],
    rows: &mut [u64],
    at: usize,
    x: usize,
) -> usize
    requires { (x < number_limit) × Writable (form_rows form x (get_or (lefts_in links.now) x 0) (get_or (rights_in links.now) x 0)) at rows.old }
    ensures { Appended (map pack (form_rows form x (get_or (lefts_in links.now) x 0) (get_or (rights_in links.now) x 0)))
        at rows.old rows.new result }
{
    let left = left_at(links, x);
    let right = right_at(links, x);
    match form {
        Some(Form::Conjunction) => write_conjunction(rows, at, x as u16, left, right),
        Some(Form::Existential) => write_existential(rows, at, x as u16, left, right),
        _ => at,
    }
}

// The rows of all numbers go to the place `at` and those behind it. The result is the next place. Stays beside `count_definitions` (crate `source`): each is
// its step at a number, and the loop round it is two lines.
pub fn write_definitions(
    text: &[u8],
    names: ReaderState,
    links: &[u16],
    rows: &mut [u64],
    at: usize,
) -> usize
    requires { (names.concepts.used ≤ number_limit) × Writable (definitions text.now (state_of names links.now)) at rows.old }
    ensures { Appended (map pack (definitions text.now (state_of names links.now))) at rows.old rows.new result }
{
    let classes = class_table();
    let text = Text {
        bytes: text,
        classes: &classes,
    };
    let concepts = &names.concepts;
    let used = concepts.used as usize;
    let mut next = at;
    for x in ConceptSet::LEAST..used {
        let form = number_form(&text, &concepts.starts, &concepts.lengths, x);
        next = write_definition(form, links, rows, next, x);
    }
    next
}
