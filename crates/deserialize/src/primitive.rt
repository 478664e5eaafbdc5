// Columns whose values are read one by one from a held page.
pub mod basic;
pub mod decoder;
