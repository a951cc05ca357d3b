// The left and the right of each number: links behind those of the words.
ghost use Rattle.std.specs.Prelude.{◌≡◌, ◌<◌, get_or};
ghost use Rattle.semantics.specs.Limits.{number_limit};
ghost use Rattle.names.specs.Names.{with_left, with_right};
ghost use Rattle.chains.specs.declared.Sort.{Sort};
ghost use Rattle.names.specs.Lent.{lefts_in, rights_in, SortArrays, state_by};

use chains::{WORD_LINKS, entry_at, put_entry};
use sets::ConceptSet;

const LEFTS: usize = WORD_LINKS;

const RIGHTS: usize = LEFTS + ConceptSet::NUMBERS;

// How many links there are.
pub const LINKS: usize = RIGHTS + ConceptSet::NUMBERS;

// The left of a number, and its right: 0 where none was put. They stay two, as do what puts them: a side as a parameter would be a constant at every call.
// That the number is below the limit stays a clause: it is of the call.
#[tactic(auto, using(crate::proofs::Parts::left_link))]
pub fn left_at(links: &[u16], number: usize) -> u16
    requires { number < number_limit }
    ensures { result ≡ get_or (lefts_in links.now) number 0 }
{
    entry_at(links, LEFTS + number, 0)
}

#[tactic(auto, using(crate::proofs::Parts::right_link))]
pub fn right_at(links: &[u16], number: usize) -> u16
    requires { number < number_limit }
    ensures { result ≡ get_or (rights_in links.now) number 0 }
{
    entry_at(links, RIGHTS + number, 0)
}

pub fn put_left(links: &mut [u16], number: u16, left: u16)
    requires { number < number_limit }
    ensures { (words : Sort → SortArrays) → state_by words links.new ≡ with_left (state_by words links.old) number left }
{
    put_entry(links, LEFTS + number as usize, left);
}

pub fn put_right(links: &mut [u16], number: u16, right: u16)
    requires { number < number_limit }
    ensures { (words : Sort → SortArrays) → state_by words links.new ≡ with_right (state_by words links.old) number right }
{
    put_entry(links, RIGHTS + number as usize, right);
}
