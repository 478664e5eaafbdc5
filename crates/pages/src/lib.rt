// Sources of pages: what they deliver, the page stream, and the directory.
#![tactic(auto)]

pub mod directory;
pub mod fault;
pub mod flags;
pub mod heads;
pub mod page;
pub mod pages;
pub mod stream;
