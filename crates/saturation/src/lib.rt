// The consequences of the strict rows, a whole column at a time.
#![tactic(auto)]

mod apply;
mod rules;
mod saturate;

pub use saturate::saturate_columns;
