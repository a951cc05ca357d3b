// The rows by what they read: a list of rows for each number and each role, as linked slots in two lent slices.
#![tactic(auto)]

mod readers;

ghost use Rattle.std.specs.Prelude.{◌≡◌, cond, ℕ, ◌*◌, ◌<◌, ◌≤◌, length, get_or};
ghost use Rattle.index.specs.Index.{AnyDeck, key_of, key_count, pair_key, slot_place, next_slot, Indexed};

pub use readers::{Index, Readers};
use rows::{RowKind, is_kind, known_kind, left_of, role_of, second_of};
use sets::ConceptSet;

// The sizes of the index. A list for each number, and for each role one of the rows of kind 3 and one of those of kind 4.
pub const KEYS: usize = ConceptSet::NUMBERS + 2 * ConceptSet::ROLES;
// Two slots for each row.
pub const SLOTS: usize = 2 * ConceptSet::ROWS;

// Where the keys of the rows of kind 3 begin, one for each role, and those of kind 4.
const IN_EXIST_KEYS: usize = ConceptSet::NUMBERS;

const EXIST_IN_KEYS: usize = ConceptSet::NUMBERS + ConceptSet::ROLES;

// The key of a row's slot: its left, or in its second slot what else it reads; where that is nothing, 0, so that the rows of 0 are more than those that read it.
#[tactic(auto, unfolding(crate::specs::Index::key_of))]
fn key_of(w: u64, second: bool) -> usize
    ensures { result ≡ key_of w (cond second 1 0) }
{
    if !second {
        return left_of(w);
    }
    match known_kind(w) {
        Some(RowKind::InExist) => IN_EXIST_KEYS + role_of(w),
        Some(RowKind::ExistIn) => EXIST_IN_KEYS + role_of(w),
        _ => second_of(w),
    }
}

// The key of the rows that the row w, of kind 3 or 4, makes a pair with: those of the other kind with its role.
#[tactic(auto, unfolding(crate::specs::Index::pair_key))]
pub fn pair_key(w: u64) -> usize
    ensures { result ≡ pair_key w }
{
    if is_kind(w, RowKind::InExist) {
        return EXIST_IN_KEYS + role_of(w);
    }
    IN_EXIST_KEYS + role_of(w)
}

// The index of the rows. heads has one more than the last slot of each key, links one more than the slot before; 0 is none: an Option would double both slices.
// It goes slot by slot and not row by row, two slots at a time: what is linked so far is said of the slots below s.
pub fn build(rows: &[u64], heads: &mut [u16], links: &mut [u16])
    requires { AnyDeck rows.now × (key_count ≤ length heads.old) × (2 * length rows.now ≤ length links.old) × ((x : ℕ) → get_or heads.old x 0 ≡ 0) }
    ensures { Indexed rows.now heads.new links.new }
{
    for s in 0..2 * rows.len() {
        let key = key_of(rows[s / 2], s % 2 == 1);
        links[s] = heads[key];
        heads[key] = (s + 1) as u16;
    }
}

// A visit of the slots of one key goes from the last one down. s is one more than a slot, or 0 where there is none: the first s of the key,
pub fn first_slot(heads: &[u16], key: usize) -> usize
    requires { key < length heads.now }
    ensures { result ≡ get_or heads.now key 0 }
{
    heads[key] as usize
}

// the next one,
pub fn next_slot(links: &[u16], s: usize) -> usize
    requires { (0 < s) × (s ≤ length links.now) }
    ensures { result ≡ next_slot links.now s }
{
    links[s - 1] as usize
}

// the place of the row that has the slot,
pub fn slot_place(s: usize) -> usize
    requires { 0 < s }
    ensures { result ≡ slot_place s }
{
    (s - 1) / 2
}

// and that row. The iterator `Readers` gives places, so that only callers without an `Index` ask for it.
pub fn slot_row(rows: &[u64], s: usize) -> u64
    requires { (0 < s) × (s ≤ 2 * length rows.now) }
    ensures { result ≡ get_or rows.now (slot_place s) 0 }
{
    rows[slot_place(s)]
}
