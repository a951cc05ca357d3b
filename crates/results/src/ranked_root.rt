// The rank of a number that has a finite one.
ghost use Rattle.std.specs.Prelude.{◌<◌};
ghost use Rattle.normal.specs.Rules.{infinite};

use sets::ConceptSet;

// The rank, and the number's root at that level.
#[derive(Clone, Copy)]
pub struct RankedRoot {
    pub rank: u16,
    pub root: ConceptSet,
    pub ghost finite: { rank < infinite },
}
