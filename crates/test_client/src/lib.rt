//! Tests of the client's calls and the texts that it prints, over a wire in memory.
#![tactic(auto)]

#[cfg(test)]
mod tests;
