// The class of a byte, from a table.
ghost use Rattle.std.specs.Prelude.{◌≡◌};
ghost use Rattle.words.specs.Bytes.{class_of};
ghost use Rattle.words.specs.Table.{entry_class, ClassTable};

use crate::ByteClass;

// The class of each byte, 16 by 16, as docs/FORMAT.md prints it: 0 for a word byte, 1 for a sign, 2 for a space, 3 for a line end, 4 for none of these.
// Stays numbers, which `entry_class` tells apart: an array of 256 values of the enum takes the prover minutes and 8 GB (docs/DECISIONS.md, D58).
const CLASSES: [u8; 256] = *b"\
\x04\x04\x04\x04\x04\x04\x04\x04\x04\x04\x03\x04\x04\x04\x04\x04\
\x04\x04\x04\x04\x04\x04\x04\x04\x04\x04\x04\x04\x04\x04\x04\x04\
\x02\x04\x04\x04\x04\x04\x01\x04\x04\x04\x01\x04\x04\x01\x04\x01\
\x00\x00\x00\x00\x00\x00\x00\x00\x00\x00\x04\x04\x04\x04\x04\x04\
\x04\x04\x04\x04\x04\x04\x04\x04\x04\x04\x04\x04\x04\x04\x04\x04\
\x04\x04\x04\x04\x04\x04\x04\x04\x04\x04\x04\x04\x04\x04\x04\x04\
\x04\x00\x00\x00\x00\x00\x00\x00\x00\x00\x00\x00\x00\x00\x00\x00\
\x00\x00\x00\x00\x00\x00\x00\x00\x00\x00\x00\x04\x04\x04\x04\x04\
\x04\x04\x04\x04\x04\x04\x04\x04\x04\x04\x04\x04\x04\x04\x04\x04\
\x04\x04\x04\x04\x04\x04\x04\x04\x04\x04\x04\x04\x04\x04\x04\x04\
\x04\x04\x04\x04\x04\x04\x04\x04\x04\x04\x04\x04\x04\x04\x04\x04\
\x04\x04\x04\x04\x04\x04\x04\x04\x04\x04\x04\x04\x04\x04\x04\x04\
\x04\x04\x04\x04\x04\x04\x04\x04\x04\x04\x04\x04\x04\x04\x04\x04\
\x04\x04\x04\x04\x04\x04\x04\x04\x04\x04\x04\x04\x04\x04\x04\x04\
\x04\x04\x04\x04\x04\x04\x04\x04\x04\x04\x04\x04\x04\x04\x04\x04\
\x04\x04\x04\x04\x04\x04\x04\x04\x04\x04\x04\x04\x04\x04\x04\x04";

// The table, which agrees with the formula at every byte. It is written anew at each call: whoever goes through a text calls it once, and lends it to those who
// look a byte up.
pub fn class_table() -> [u8; 256]
    ensures { ClassTable result }
{
    CLASSES
}

// The class that an entry stands for.
#[tactic(auto, unfolding(crate::specs::Table::entry_class))]
fn entry_class(entry: u8) -> ByteClass
    ensures { result ≡ entry_class entry }
{
    match entry {
        0 => ByteClass::Word,
        1 => ByteClass::Sign,
        2 => ByteClass::Space,
        3 => ByteClass::LineEnd,
        _ => ByteClass::Other,
    }
}

// The class of a byte, by the table: one look-up. It stays a function of the table alone, which a `Text` has beside its bytes (docs/DECISIONS.md, D58).
#[tactic(auto, using(crate::proofs::Table::table_length, crate::proofs::Table::table_class))]
pub fn class_of(classes: &[u8], b: u8) -> ByteClass
    requires { ClassTable classes.now }
    ensures { result ≡ class_of b }
{
    entry_class(classes[b as usize])
}
