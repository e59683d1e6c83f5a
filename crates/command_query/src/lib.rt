//! The commands that have one result, of programs, expressions, formats, packets, codes and members, and `first` (docs/COMMANDS.md).
//!
//! `run_query` finds the result of a command over any input, and writes it, or why there is none, to any output.
#![tactic(auto)]

mod command_result;
mod explaining;
mod expression_commands;
mod first_path;
mod format;
mod packing;
mod program_commands;
mod queries;
mod spreading;
mod stop;

pub use queries::run_query;
