// Columns of byte strings.
pub mod basic;
