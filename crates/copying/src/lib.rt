// Writing in place: the first elements of a buffer become those of another, and an element is put behind others.
#![tactic(auto)]

ghost use Rattle.std.specs.Prelude.{[], ◌∷◌, ◌<◌, ◌≤◌, length};
ghost use Rattle.copying.specs.Written.{Copied, Appended};

// The first n elements.
pub fn copy_first<T: Copy>(source: &[T], target: &mut [T], n: usize)
    requires { (n ≤ length source.now) × (n ≤ length target.old) }
    ensures { Copied n source.now target.old target.new }
{
    // One by one: `copy_from_slice` copies through pointers, and where the two might overlap the archive would ask C for `memmove`.
    for i in 0..n {
        target[i] = source[i];
    }
}

// The element goes to the place `at`. The result is the next place: it is no field beside the slice, since a struct of a `&mut` slice asks each function for
// the clause that it still lends the same one.
pub fn append<T: Copy>(target: &mut [T], at: usize, item: T) -> usize
    requires { at < length target.old }
    ensures { Appended (item ∷ []) at target.old target.new result }
{
    target[at] = item;
    at + 1
}
