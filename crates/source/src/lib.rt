// Reading a source text (the scope's book): from bytes to numbered lines, with every refusal of its author.
#![tactic(auto)]

mod line;
mod text;

pub use text::{count_definitions, read_text};
