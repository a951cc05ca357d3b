// Where the links of each sort lie, those of a sort one behind the other: inside a line how many numbers are given out, the heads of its chains, what stands
// behind each number.
ghost use Rattle.std.specs.Prelude.{◌≡◌};
ghost use Rattle.chains.specs.Sorts.{limit_of, least_of, full_of};
ghost use Rattle.chains.specs.Chains.{links_at, heads_at, nexts_at};

use crate::Sort;
use refusal::Refusal;
use sets::ConceptSet;
use words::HASHES;

// How many sorts there are.
const SORTS: usize = 2;

// How many links each has.
const SORT_LINKS: usize = 1 + HASHES + ConceptSet::NUMBERS;

// How many links the words of all sorts have. Behind them lie the left and the right of each number (crate `names`).
pub const WORD_LINKS: usize = SORTS * SORT_LINKS;

// How many numbers the sort may have.
// This, `least_of` and `full_of` stay a match each: tables by sort, of two types, and no conversions.
pub fn limit_of(sort: Sort) -> usize
    ensures { result ≡ limit_of sort }
{
    match sort {
        Sort::Concepts => ConceptSet::NUMBERS,
        Sort::Roles => ConceptSet::ROLES,
    }
}

// How many of them are for no word.
pub fn least_of(sort: Sort) -> u16
    ensures { result ≡ least_of sort }
{
    match sort {
        Sort::Concepts => ConceptSet::LEAST as u16,
        Sort::Roles => 0,
    }
}

// How one too many is refused.
pub fn full_of(sort: Sort) -> Refusal
    ensures { result ≡ full_of sort }
{
    match sort {
        Sort::Concepts => Refusal::TooManyNumbers,
        Sort::Roles => Refusal::TooManyRoles,
    }
}

// Where its links start: behind those of the sorts before it.
pub fn links_at(sort: Sort) -> usize
    ensures { result ≡ links_at sort }
{
    sort as usize * SORT_LINKS
}

// Where the heads of its chains start, and what stands behind each number.
pub fn heads_at(sort: Sort) -> usize
    ensures { result ≡ heads_at sort }
{
    links_at(sort) + 1
}

pub fn nexts_at(sort: Sort) -> usize
    ensures { result ≡ nexts_at sort }
{
    links_at(sort) + 1 + HASHES
}
