// Sinks: what a chunk is made of, over memory that the caller lends.
#![tactic(auto)]

pub mod binary;
pub mod bits;
pub mod fixed;
mod offset;
pub mod pushable;
