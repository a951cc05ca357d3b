// What `classify` refuses before it begins, in the scope's order: the refusals 11 to 18.
#![tactic(auto)]

ghost use Rattle.std.specs.Prelude.{◌≡◌};
ghost use Rattle.std.proofs.Math.Option.{none};
ghost use Rattle.semantics.specs.Refusals.{row_refusal, rows_refusal, refusal, refused_at};
ghost use Rattle.checking.specs.Checked.{refused_by};

use refusal::{Refusal, Refused};
use rows::{RowKind, is_kind, known_kind, left_of, right_of, role_of, second_of};
use sets::ConceptSet;

// The refusal of the row w, which stands at the place i.
#[tactic(auto, unfolding(semantics::specs::Refusals::fields_refusal))]
fn check_row(w: u64, n: usize, r: usize, i: usize) -> Result<(), Refused>
    ensures { refused_by result ≡ refused_at i (row_refusal n r w) none }
{
    let role = role_of(w);
    let second = second_of(w);
    let with_role = is_kind(w, RowKind::InExist) || is_kind(w, RowKind::ExistIn);
    if known_kind(w).is_none() {
        return Err(Refusal::UnknownKind.at(i));
    }
    if (!with_role && role != 0) || (!is_kind(w, RowKind::ConjSubsumed) && second != 0) {
        return Err(Refusal::UnusedField.at(i));
    }
    if n <= left_of(w) || n <= second || n <= right_of(w) {
        return Err(Refusal::NumberOutOfRange.at(i));
    }
    if with_role && role >= r {
        return Err(Refusal::RoleOutOfRange.at(i));
    }
    Ok(())
}

// The first row that is refused.
fn check_rows(rows: &[u64], n: usize, r: usize) -> Result<(), Refused>
    ensures { refused_by result ≡ rows_refusal n r 0 rows.now }
{
    for (i, &w) in rows.iter().enumerate() {
        check_row(w, n, r, i)?;
    }
    Ok(())
}

// The counts and the lengths of the lent buffers, then the rows. The lengths stay three numbers, as the definition `refusal` has them.
#[tactic(auto, unfolding(semantics::specs::Refusals::refusal))]
pub fn check(
    rows: &[u64],
    n: usize,
    r: usize,
    table: usize,
    results: usize,
    order: usize,
) -> Result<(), Refused>
    ensures { refused_by result ≡ refusal n r table results order rows.now }
{
    if n < ConceptSet::LEAST || ConceptSet::NUMBERS < n {
        return Err(Refusal::NumberCount.at(0));
    }
    if ConceptSet::ROLES < r {
        return Err(Refusal::RoleCount.at(0));
    }
    if ConceptSet::ROWS < rows.len() {
        return Err(Refusal::RowCount.at(0));
    }
    if table < ConceptSet::SET_WORDS * n || results < rows.len() || order < rows.len() {
        return Err(Refusal::BufferLength.at(0));
    }
    check_rows(rows, n, r)
}
