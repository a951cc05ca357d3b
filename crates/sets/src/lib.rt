// Sets of concept numbers by value. Beside them, what every layer shares: the limits of the engine.
#![tactic(auto)]

mod concept_set;
mod limits;

pub use concept_set::ConceptSet;
pub use limits::Limits;
