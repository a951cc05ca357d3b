// Which lefts are exceptional at a level. Those of rows whose level is above it are known to be; each other one is looked at once.
ghost use Rattle.std.specs.Prelude.{◌<◌};
ghost use Rattle.normal.specs.Rules.{infinite};
ghost use Rattle.levels.specs.Relevelled.{LeftsFrom};
ghost use Rattle.roots.specs.Found.{strict_of, Exact};
ghost use Rattle.pass.specs.Levels.{Levelled};
ghost use Rattle.pass.specs.Lefts.{ExceptionalLefts};

use picking::{minus, pick, remove};
use roots::{Settling, find_root};
use sets::ConceptSet;

// Of the lefts of the rows active at level k, the exceptional ones; and 1.
pub fn exceptional_lefts(settling: Settling, k: u16, lefts: ConceptSet) -> ConceptSet
    requires { Exact settling × LeftsFrom settling.index.n k settling.index.rows.now settling.levels.now lefts.words
        × Levelled (strict_of settling) settling.index.rows.now settling.levels.now k × (k < infinite) }
    ensures { ExceptionalLefts (strict_of settling.entry) settling.entry.index.rows.now settling.entry.levels.now k result.words }
{
    let mut known = settling.lefts_from(k + 1).add(1);
    let mut unknown = minus(lefts, known);
    let mut from = 0;
    while let Some(a) = pick(unknown, from) {
        unknown = remove(unknown, a);
        if find_root(settling, a, k, lefts, known).is_none() {
            known = known.add(a);
        }
        from = a;
    }
    known
}
