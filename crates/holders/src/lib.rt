// The page and the dictionary that a read holds: checked whole before the first row is used, then handed out value by value.
#![tactic(auto)]

mod arrays;
mod checks;
pub mod cursor;
mod decode;
mod dict_indices;
mod entry;
mod fill;
pub mod forms;
pub mod holder;
mod indices;
mod measure;
mod page;
pub mod page_values;
mod present;
mod split;
pub mod table;
mod take;
pub mod types;
mod value_checks;
