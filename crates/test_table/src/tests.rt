//! The table as a machine of single steps, and as shared memory: in written orders, and in threads.

mod beside;
mod extents;
mod history;
mod numbered;
mod pages;
mod pooled;
mod publications;
mod random_steps;
mod replacing;
mod sections;
mod sharing;
mod tables;
mod worlds;
