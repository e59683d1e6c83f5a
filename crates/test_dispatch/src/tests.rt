//! Tallies, batches, jobs, workers' threads, and counters by member, worked by hand.

mod batches;
mod configurations;
mod counters;
mod devices;
mod jobs;
mod tallies;
mod workers;
