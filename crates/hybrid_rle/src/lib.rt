// Parquet's hybrid of run-length encoding and bit-packing, and the validity of a page's rows that is written in it.
#![tactic(auto)]

pub mod header;
pub mod piece;
pub mod runs;
pub mod table;
pub mod unpack;
pub mod validity;
