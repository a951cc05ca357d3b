// A packed row: its fields, from the most significant kind 4 bits, role 12, then left, second left and right 16 each, and the kinds.
#![tactic(auto)]

ghost use Rattle.std.specs.Prelude.{◌≡◌, ◌==◌, ◌⊎◌, ◌<◌, IfSome, IsNone};
ghost use Rattle.semantics.specs.Row.{role_size, packed, kind_of, role_of, a_of, b_of, c_of};
ghost use Rattle.rows.specs.RowKind.{row_kind_number, KindOf};

// The kinds, by their numbers.
#[derive(Clone, Copy, PartialEq, Eq)]
pub enum RowKind {
    // A line of its kind over two numbers, this one and the last three.
    Strict = 1,
    // left and second left within right
    ConjSubsumed = 2,
    // left within some role right
    InExist = 3,
    // some role left within right
    ExistIn = 4,
    Defeasible = 5,
    Query = 6,
    StrictQuery = 7,
}

// A number that is no kind's.
#[derive(Clone, Copy)]
pub struct NoKind(pub u64);

impl TryFrom<u64> for RowKind {
    type Error = NoKind;

    ghost try_from_gives = { KindOf };

    fn try_from(number: u64) -> Result<RowKind, NoKind> {
        match number {
            1 => Ok(RowKind::Strict),
            2 => Ok(RowKind::ConjSubsumed),
            3 => Ok(RowKind::InExist),
            4 => Ok(RowKind::ExistIn),
            5 => Ok(RowKind::Defeasible),
            6 => Ok(RowKind::Query),
            7 => Ok(RowKind::StrictQuery),
            _ => Err(NoKind(number)),
        }
    }
}

// How many roles a field can tell apart,
const ROLE_SIZE: u64 = 4096;
// and how many numbers
const NUMBER_SIZE: u64 = 65536;

// The number in the kind's field: 0 and those from 8 on are no kind's.
pub fn kind_of(w: u64) -> u64
    ensures { result ≡ kind_of w }
{
    w / 0x1000_0000_0000_0000
}

// The kind, where it is one.
pub fn known_kind(w: u64) -> Option<RowKind>
    ensures known { IfSome result (λ kind. row_kind_number kind ≡ kind_of w) }
    ensures unknown { IsNone result → (kind_of w < 1) ⊎ (7 < kind_of w) }
{
    RowKind::try_from(kind_of(w)).ok()
}

// Whether the row is of this kind.
pub fn is_kind(w: u64, kind: RowKind) -> bool
    ensures { result ≡ (kind_of w == row_kind_number kind) }
{
    kind_of(w) == kind as u64
}

// The other fields, each one expression: what it divides by is what it says.
pub fn role_of(w: u64) -> usize
    ensures { result ≡ role_of w }
{
    (w / 0x1_0000_0000_0000 % ROLE_SIZE) as usize
}

pub fn left_of(w: u64) -> usize
    ensures { result ≡ a_of w }
{
    (w / 0x1_0000_0000 % NUMBER_SIZE) as usize
}

pub fn second_of(w: u64) -> usize
    ensures { result ≡ b_of w }
{
    (w / 0x1_0000 % NUMBER_SIZE) as usize
}

pub fn right_of(w: u64) -> usize
    ensures { result ≡ c_of w }
{
    (w % NUMBER_SIZE) as usize
}

// The row with these fields.
pub fn pack(kind: RowKind, role: u16, a: u16, b: u16, c: u16) -> u64
    requires { role < role_size }
    ensures { result ≡ packed (row_kind_number kind) role a b c }
{
    let high = kind as u64 * ROLE_SIZE + role as u64;
    ((high * NUMBER_SIZE + a as u64) * NUMBER_SIZE + b as u64) * NUMBER_SIZE + c as u64
}
