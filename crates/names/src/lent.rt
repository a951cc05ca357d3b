// The reader's state inside a line, where it is lent.
ghost use Rattle.std.specs.Prelude.{◌≤◌, length};
ghost use Rattle.chains.specs.Chains.{word_links};

use chains::LentStarts;

// The arrays of each sort, and the links: the chains of the words, and behind them the left and the right of each number: an `&`'s sides, a `/`'s role and
// side, for 0 the line's sides. Each reference has a lifetime of its own: what was written is seen by each.
#[derive(Drop)]
pub struct Names<'a, 'b, 'c, 'd, 'e> {
    pub concepts: &'a mut LentStarts<'b>,
    pub roles: &'c mut LentStarts<'d>,
    pub links: &'e mut [u16],
    pub ghost linked: { word_links ≤ length links.now },
}
