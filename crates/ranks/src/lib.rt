// The rank of a number, by halves: where it is exceptional at a level, it is so at each level below.
#![tactic(auto)]

ghost use Rattle.std.specs.Prelude.{◌<◌};
ghost use Rattle.normal.specs.Rules.{infinite};
ghost use Rattle.roots.specs.Root.{Root};
ghost use Rattle.roots.specs.Found.{strict_of, rules_from, Exact, found_set, is_exceptional};
ghost use Rattle.pass.specs.Levels.{Levelled};
ghost use Rattle.results.specs.Found.{found_rank, found_root};
ghost use Rattle.ranks.specs.Rank.{Askable, RankFound};

use results::RankedRoot;
use roots::{Settling, find_root};
use sets::ConceptSet;

// The root of a at level j. The lefts of the rows above level j are exceptional there, and so is 1.
fn root_at(settling: Settling, a: usize, j: u16) -> Option<ConceptSet>
    requires { Exact settling × Levelled (strict_of settling) settling.index.rows.now settling.levels.now j × (a < settling.index.n) × (j < infinite) }
    ensures { Root settling.entry.index.n (strict_of settling.entry) (rules_from settling.entry j) a (found_set result) (is_exceptional result) }
{
    let lefts = settling.lefts_at(j);
    find_root(settling, a, j, lefts.active, lefts.above.add(1))
}

// The rank of a and its root there: at the first of the levels up to k at which a is not exceptional, none where there is none. It is exceptional at
// each level below low, and not at high, where that is one of them.
// Stays a search by halves in the open: there is no slice to search, each step computes a root.
pub fn rank_of(settling: Settling, a: usize, k: u16) -> Option<RankedRoot>
    requires { Askable settling k × (a < settling.index.n) }
    ensures { RankFound settling.entry.index.n settling.entry.index.rows.now settling.entry.levels.now k a (found_rank result) (found_root result) }
{
    let mut found = None;
    let mut low = 0;
    let mut high = k + 1;
    while low < high {
        let mid = low + (high - low) / 2;
        match root_at(settling, a, mid) {
            None => low = mid + 1,
            Some(root) => {
                high = mid;
                found = Some(RankedRoot { rank: mid, root });
            }
        }
    }
    found
}
