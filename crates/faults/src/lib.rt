// The kinds of columns, and the faults of every layer with their numbers.
#![tactic(auto)]

pub mod fault;
pub mod kind;
pub mod texts;
pub mod types;
