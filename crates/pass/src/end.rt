// How a pass ends.

// How it ended, with the level at which it did.
#[derive(Clone, Copy)]
pub enum PassEnd {
    // Nothing is left there.
    Settled(u16),
    // All that is there goes on to the next level: the pass is stuck.
    Stuck(u16),
}
