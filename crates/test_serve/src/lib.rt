//! Tests of serving: the switch over sockets of the loopback.
#![tactic(auto)]

#[cfg(test)]
mod tests;
