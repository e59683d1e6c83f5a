//! Tests of the workers' devices, of the order of workers, and of the replies to control datagrams.
#![tactic(auto)]

#[cfg(test)]
mod tests;
