// Tests of bitmaps and sinks over lent memory.
#![tactic(auto)]

#[cfg(test)]
mod bits;
#[cfg(test)]
mod texts;
