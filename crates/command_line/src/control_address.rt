//! The address of control: a UDP address, or the path of a socket file (docs/COMMANDS.md, "serve").

ghost use Rattle.std.specs.Prelude.{MatchOption};
ghost use Rattle.command_line.specs.ControlAddress.{IsNoControlAddress, SpellsControlAddress};

use ipv4_fields::Endpoint;

/// The address of control.
#[derive(Clone, Copy)]
pub enum ControlAddress<'a> {
    /// Requests and replies are datagrams.
    Udp(Endpoint),
    /// Requests and replies are lines of a stream. The path of the socket file is not empty.
    Unix(&'a str),
}

// The prefix of a path.
const UNIX: &str = "unix:";

impl<'a> ControlAddress<'a> {
    /// Reads an address: an endpoint, or `unix:` and a path.
    pub fn from_text(text: &'a str) -> Option<ControlAddress<'a>>
        ensures { MatchOption result (IsNoControlAddress text.now) (SpellsControlAddress text.now) }
    {
        if let Some(endpoint) = Endpoint::from_text(text.as_bytes()) {
            return Some(ControlAddress::Udp(endpoint));
        }
        match text.strip_prefix(UNIX) {
            Some(path) if !path.is_empty() => Some(ControlAddress::Unix(path)),
            _ => None,
        }
    }
}
