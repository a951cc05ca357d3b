// The bytes of a text: their classes, and its words.
#![tactic(auto)]

mod classes;
mod text;
mod word;

pub use classes::{class_of, class_table};
pub use text::{Book, Text, byte_at};
pub use word::Word;

// A word's hash is one of so many.
pub const HASHES: usize = 256;

// What a byte is.
#[derive(Clone, Copy, PartialEq, Eq)]
pub enum ByteClass {
    // a-z, 0-9
    Word,
    // `*`, `-`, `&`, `/`
    Sign,
    Space,
    // the line feed
    LineEnd,
    Other,
}
