// What is left of a set: one of its members, and the set without some of them.
// These are functions and no methods of the set: a type's methods stand in its own crate, and this is a crate of its own for its proofs.
#![tactic(auto)]

ghost use Rattle.std.specs.Prelude.{◌≡◌, false, not, ◌&&◌, ℕ, ◌<◌, eqb};
ghost use Rattle.semantics.specs.Closure.{Replies};
ghost use Rattle.semantics.specs.Limits.{number_limit};
ghost use Rattle.semantics.specs.Set.{has};
ghost use Rattle.sets.specs.Members.{Included};
ghost use Rattle.picking.specs.Search.{MemberFrom, Picked};

use sets::ConceptSet;

// The first member from `from` on. Its contract says a member, and not which: loops rest on no more.
fn member_from(set: ConceptSet, from: usize) -> Option<usize>
    requires { from < number_limit }
    ensures { MemberFrom number_limit set.words from result }
{
    let mut mask = u64::MAX >> (from % 64);
    for k in from / 64..ConceptSet::SET_WORDS {
        let w = set.words[k] & mask;
        if w != 0 {
            return Some(64 * k + w.leading_zeros() as usize);
        }
        mask = u64::MAX;
    }
    None
}

// A member, the first from `from` on where there is one.
pub fn pick(set: ConceptSet, from: usize) -> Option<usize>
    requires { from < number_limit }
    ensures { Picked number_limit set.words result }
{
    member_from(set, from).or_else(|| member_from(set, 0))
}

// Whether there is no member.
pub fn is_empty(set: ConceptSet) -> bool
    ensures { Replies result ((c : ℕ) → has set.words c ≡ false) }
{
    member_from(set, 0).is_none()
}

// The set without b.
pub fn remove(set: ConceptSet, b: usize) -> ConceptSet
    requires { b < number_limit }
    ensures { (c : ℕ) → has result.words c ≡ (has set.words c && not (eqb b c)) }
{
    let k = b / 64;
    let bit = 1 << (63 - b % 64);
    let mut s = set;
    // As `&= !bit`, for the same laws as in `minus`.
    s.words[k] = (s.words[k] | bit) ^ bit;
    s
}

// What is in the set and not in the other.
pub fn minus(set: ConceptSet, other: ConceptSet) -> ConceptSet
    ensures { (c : ℕ) → has result.words c ≡ (has set.words c && not (has other.words c)) }
{
    // As `v & !w`: the laws of bits are those of these two.
    set.wordwise(other, |v, w| (v | w) ^ w)
}

// What is in both sets.
pub fn meet(set: ConceptSet, other: ConceptSet) -> ConceptSet
    ensures { (c : ℕ) → has result.words c ≡ (has set.words c && has other.words c) }
{
    set.wordwise(other, |v, w| v & w)
}

// Whether each member is one of other's.
pub fn included(set: ConceptSet, other: ConceptSet) -> bool
    ensures { Replies result (Included set.words other.words) }
{
    is_empty(minus(set, other))
}
