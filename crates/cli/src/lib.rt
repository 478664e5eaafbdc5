// What a program around the reader needs: the words of its command line, the heads of a directory, and chunks as text.
#![tactic(auto)]

pub mod chunks;
pub mod decimal;
pub mod heads;
pub mod layout;
pub mod numbers;
pub mod options;
pub mod printed;
pub mod words;
