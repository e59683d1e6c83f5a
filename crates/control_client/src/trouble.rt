//! Reports for people of what happened to a connection (docs/COMMANDS.md, "tell").

ghost use Rattle.std.specs.Prelude.{IfOk, string_bytes};
ghost use Rattle.control_client.specs.Trouble.{IsTroubleLine};

use std::alloc::{AllocError, Global};
use std::io;

/// The most bytes of the path of a socket file.
pub const LONGEST_PATH: usize = 107;

/// Why a request had no reply, if more is known than that none came in time.
#[derive(Clone, Copy)]
pub enum Trouble {
    /// The path has more bytes than an address of a socket.
    LongPath,
    /// No connection could be made, with this error of the system, or this kind of error.
    Unconnected(Option<i32>, io::ErrorKind),
    /// The switch closed the connection.
    Closed,
    /// A reply did not end.
    Endless,
}

// The text for people about an error.
fn error_text(alloc: Global, code: Option<i32>, kind: io::ErrorKind) -> Result<String, AllocError> {
    match code {
        Some(code) => {
            let error = io::Error::from_raw_os_error(code);
            format!(in alloc; "{error}")
        }
        None => {
            let error = io::Error::from(kind);
            format!(in alloc; "{error}")
        }
    }
}

impl Trouble {
    /// Returns the trouble of an error at connecting.
    pub(crate) fn at_connecting(error: &io::Error) -> Trouble {
        Trouble::Unconnected(error.raw_os_error(), error.kind())
    }

    /// Returns a line for people, with its LF. The address is `unix:` and the path.
    pub fn line(self, alloc: Global, address: &str) -> Result<String, AllocError>
        ensures { IfOk result (λ line. IsTroubleLine address.now self (string_bytes line)) }
    {
        match self {
            Trouble::LongPath => {
                format!(in alloc; "cannot connect to {address}: the path has more than 107 bytes\n")
            }
            Trouble::Unconnected(code, kind) => {
                let error = error_text(alloc, code, kind)?;
                format!(in alloc; "cannot connect to {address}: {error}\n")
            }
            Trouble::Closed => {
                format!(in alloc; "{address} closed the connection before its reply\n")
            }
            Trouble::Endless => format!(in alloc; "{address} sent a reply that does not end\n"),
        }
    }
}
