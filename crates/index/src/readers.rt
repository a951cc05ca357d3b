// The index with its rows, and the visit of the rows with one key.
ghost use Rattle.std.specs.Prelude.{◌≡◌, ◌*◌, ◌<◌, length, get_or, MatchOption};
ghost use Rattle.std.specs.Iterator.{at_most};
ghost use Rattle.normal.specs.Rules.{Deck};
ghost use Rattle.index.specs.Index.{key_count, slot_key, slot_place, next_slot, Indexed, Visit};

use crate::{first_slot, next_slot, slot_place};

// The rows of an accepted deck over n numbers, and their index. n is for what goes over the numbers with it, and for contracts.
// Heads and links stay lent slices: a list for each key would need a heap.
#[derive(Clone, Copy)]
pub struct Index<'a> {
    pub rows: &'a [u64],
    pub heads: &'a [u16],
    pub links: &'a [u16],
    pub n: usize,
    ghost deck: { Deck n rows.now },
    ghost indexed: { Indexed rows.now heads.now links.now },
}

impl<'a> Index<'a> {
    // The places of the rows with this key, from the last one down.
    pub fn readers(self, key: usize) -> Readers<'a>
        requires { key < key_count }
        ensures { (result.index ≡ self.entry) × (result.key ≡ key) × (result.slot ≡ get_or self.entry.heads.now key 0) }
    {
        Readers {
            index: self,
            key,
            slot: first_slot(self.heads, key),
        }
    }
}

// A visit of the slots of one key: `slot` is one more than the slot that comes next, 0 where there is none.
#[derive(Drop)]
pub struct Readers<'a> {
    index: Index<'a>,
    key: usize,
    slot: usize,
    ghost visit: { Visit (slot_key index.rows.now) key (2 * length index.rows.now) slot },
}

impl<'a> Iterator for Readers<'a> {
    type Item = usize;

    // The place of the slot's row, and then the slot before it; nothing where there is none.
    ghost next_gives = { λ s r t. MatchOption r ((s.slot ≡ 0) × (t ≡ s)) (λ place. (0 < s.slot) × (place ≡ slot_place s.slot) × (place < length s.index.rows.now) × (t.index ≡ s.index) × (t.key ≡ s.key) × (t.slot ≡ next_slot s.index.links.now s.slot)) };

    ghost remaining = { λ s. at_most s.slot };

    fn next(&mut self) -> Option<usize> {
        if self.slot == 0 {
            return None;
        }
        let slot = self.slot;
        self.slot = next_slot(self.index.links, slot);
        Some(slot_place(slot))
    }
}
