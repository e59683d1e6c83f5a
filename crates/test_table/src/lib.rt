//! Tests of the shared table: of worlds, of sections, and of publications.
#![tactic(auto)]

#[cfg(test)]
mod tests;
