//! The results of commands, and the lines that report them (docs/COMMANDS.md).

ghost use Rattle.std.specs.Prelude.{Some};
ghost use Rattle.command_query.specs.CommandResult.{answer_text};

use crate::first_path::Line;
use std::fmt;

/// The result of a command.
#[derive(Drop)]
pub enum CommandResult {
    /// `first`: the sample packet through version 0 and version 1.
    Versions(Line, Line),
    /// `check`: an accepted program, with its number of instructions.
    Accepted { count: usize },
    /// `run`: how the program ended, and how many of the packet's bytes it keeps.
    Ran { value: u32, steps: u32, kept: usize },
    /// `compile`: the program and its charge.
    Compiled { charge: u32, listing: String },
    /// `compile` with a format other than assembly text, or `spread`: the program alone.
    Listed { listing: String },
    /// `run --expr`: whether the expression is true of the packet.
    Judged { accepts: bool },
    /// `pack`: the digits of a packet.
    Packed { digits: String },
    /// `explain`: what the code means.
    Explained { text: &'static str },
}

impl fmt::Display for CommandResult {
    ghost output = { λ answer. Some (answer_text answer) };

    fn fmt<W: fmt::Write>(&self, f: &mut fmt::Formatter<W>) -> fmt::Result {
        match self {
            CommandResult::Versions(at_first, at_second) => writeln!(f, "{at_first}\n{at_second}"),
            CommandResult::Accepted { count } => writeln!(f, "accepted {count}"),
            CommandResult::Ran { value, steps, kept } => {
                writeln!(f, "value {value} steps {steps} kept {kept}")
            }
            CommandResult::Compiled { charge, listing } => write!(f, "charge {charge}\n{listing}"),
            CommandResult::Listed { listing } => write!(f, "{listing}"),
            CommandResult::Judged { accepts: true } => writeln!(f, "accept"),
            CommandResult::Judged { accepts: false } => writeln!(f, "reject"),
            CommandResult::Packed { digits } => writeln!(f, "{digits}"),
            CommandResult::Explained { text } => writeln!(f, "{text}"),
        }
    }
}
