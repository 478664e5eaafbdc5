// Columns of flags.
pub mod basic;
