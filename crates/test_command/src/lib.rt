//! Tests of the program's commands, by the words of its command line, over streams in memory.
#![tactic(auto)]

#[cfg(test)]
mod tests;
