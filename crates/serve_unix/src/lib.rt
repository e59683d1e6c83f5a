//! Control over a Unix socket (docs/COMMANDS.md, "serve"): the socket file, and the clients that are connected to it.
//!
//! `listen` makes the socket file. `Clients` has at most `CLIENTS` clients and gives them their turns: what a client sends and is sent goes
//! through a conversation of serve_stream. Connections are a trait here; `UnixControl` has those of a socket.
#![tactic(auto)]

ghost use Rattle.std.specs.Prelude.{◌≡◌};
ghost use Rattle.serve_unix.specs.declared.clients.TheConstants.{CLIENTS};

mod client;
mod clients;
mod connections;
mod control;
mod socket_file;
mod stream;

pub use clients::{CLIENTS, Clients};
pub use connections::{Accepted, Connections};
pub use control::UnixControl;
pub use socket_file::{SocketFile, listen};
pub use stream::ClientStream;

/// Law: the limit, as a number. It runs nothing.
pub fn limits_as_numbers()
    ensures clients { CLIENTS ≡ 16 }
{}
