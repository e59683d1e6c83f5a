//! Tests of tallies, batches, jobs and workers. Sessions have the verdicts.
#![tactic(auto)]

#[cfg(test)]
mod tests;
