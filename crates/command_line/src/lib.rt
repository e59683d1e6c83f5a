//! The program's command line: which command its words name, and how its run ends (docs/COMMANDS.md, "Statuses").
//!
//! `read_words` reads the words by `clap`. `Status` is the exit status. `Failure` is why a command failed, and can report it by a
//! line. `SAMPLE_PACKET` is the packet of `first` and `flood`.
#![tactic(auto)]

ghost use Rattle.std.specs.Prelude.{◌≡◌};

mod arguments;
mod bucket_help;
mod builders;
mod command;
mod control_address;
mod ending;
mod found;
mod help;
mod input;
mod packet_help;
mod receive;
mod sample;
mod shares;
mod spreading;
mod value_fault;
mod words;

pub use command::{
    MAX_DATAGRAMS, MAX_INTERVAL, MAX_PORT, MAX_TIMEOUT, Query, Returning, Subcommand, Waiting,
    Workers,
};
pub use control_address::ControlAddress;
pub use ending::{Failure, Status, refuse_arguments, reported, write_whole};
pub use found::read_words;
pub use input::read_whole;
pub use receive::{MAX_RECEIVE_BUFFER, ReceiveBuffer, ReceiveWay};
pub use sample::{SAMPLE_GROUP, SAMPLE_PACKET, applied, program};
pub use spreading::Spreading;
pub use words::{wants_control, with_control};

/// Law: the limits, as numbers. It runs nothing.
pub fn limits_as_numbers()
    ensures timeout { MAX_TIMEOUT ≡ 3600 }
    ensures datagrams { MAX_DATAGRAMS ≡ 16777216 }
    ensures interval { MAX_INTERVAL ≡ 3600 }
    ensures receive_buffer { MAX_RECEIVE_BUFFER ≡ 2147483647 }
    ensures port { MAX_PORT ≡ 65535 }
{}
