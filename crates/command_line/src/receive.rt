//! How `serve` receives datagrams at its front (docs/COMMANDS.md, "How it receives").

ghost use Rattle.std.specs.Prelude.{◌≤◌};
ghost use Rattle.command_line.specs.declared.receive.TheConstants.{MAX_RECEIVE_BUFFER};

/// The most bytes of a socket's receive buffer that can be asked for: the range of the kernel's number.
pub const MAX_RECEIVE_BUFFER: u32 = 2_147_483_647;

/// The receiver of the datagrams that come to the front.
#[derive(Clone, Copy, Debug, PartialEq, Eq)]
pub enum ReceiveWay {
    /// The caller's thread, which hands them to the workers in turn.
    Queued,
    /// Each worker, from its own socket.
    Direct,
}

/// A number of bytes for a socket's receive buffer.
#[derive(Clone, Copy)]
pub struct ReceiveBuffer {
    pub bytes: u32,
    pub ghost in_range: { (1 ≤ bytes) × (bytes ≤ MAX_RECEIVE_BUFFER) },
}
