// One page cut at every row: whatever the chunk size, the rows are the same.
#![tactic(auto)]

#[cfg(test)]
mod page;
