// From held pages to chunks: the decoder of each kind of column.
#![tactic(auto)]

pub mod binary;
pub mod boolean;
pub mod primitive;
pub mod utils;
