// Bits packed into bytes, as Arrow's columnar format packs validity and booleans: over memory that the caller lends, to append (mutable) and to read (utils).
#![tactic(auto)]

pub mod mutable;
mod source;
pub mod utils;
