// Subsumption by columns: column b is the set of the numbers that are within b. Their start, what one column takes, and the table of them by rows.
// The columns and their count n stay two parameters: in a struct, a `&mut` slice asks each function for a clause longer than the fact that there is room.
// So does n ≤ number_limit, which is of that n.
#![tactic(auto)]

mod every;
mod mark;
mod transpose;

pub use every::{join_columns, start};
pub use mark::Worklist;
pub use transpose::transpose_columns;
