//! Tests of control lines and scripts in cases that no command shows: failing streams, a worker that stays inside,
//! codes that no line has, and the bytes of packets and programs. Sessions have the other cases.
#![tactic(auto)]

#[cfg(test)]
mod tests;
