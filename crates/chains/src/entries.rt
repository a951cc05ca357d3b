// Starts, lengths and links are entries of slices; a place beyond a slice is as one with the entry 0.
ghost use Rattle.std.specs.Prelude.{◌≡◌, get_or, set};

// The entry at place i; where there is none, the one that is given. Stays beside `byte_at`, which crate `words`
// needs below this one: what stands for none is given, as a generic has no 0.
pub fn entry_at<T: Copy>(entries: &[T], i: usize, none: T) -> T
    ensures { result ≡ get_or entries.now i none }
{
    entries.get(i).copied().unwrap_or(none)
}

// The entry goes to place i, where there is one.
pub fn put_entry<T: Copy>(entries: &mut [T], i: usize, value: T)
    ensures { entries.new ≡ set entries.old i value }
{
    if i < entries.len() {
        entries[i] = value;
    }
}
