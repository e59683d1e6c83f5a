//! The log of `serve --log`: its lines on standard error (docs/OPERATING.md, "The log").

use command_line::write_whole;
use libc::net::{POLLOUT, poll};
use libc::types::pollfd;
use serve_control::LogLines;
use std::io::Write;

// The descriptor of standard error.
const STANDARD_ERROR: i32 = 2;

/// The destination of the log's lines.
#[derive(Drop)]
pub(crate) enum ServeLog<L: Write> {
    /// There is no log.
    Off,
    /// To standard error.
    To(L),
}

impl<L: Write> ServeLog<L> {
    /// Makes a log on standard error, or none.
    pub(crate) fn new(is_on: bool, out: L) -> ServeLog<L>
    where
        L: Drop,
    {
        if is_on {
            ServeLog::To(out)
        } else {
            ServeLog::Off
        }
    }
}

// Tests whether standard error takes a line without blocking. A line is shorter than what a pipe takes at once (pipe(7), PIPE_BUF).
fn has_room() -> bool {
    let mut polled = [pollfd {
        fd: STANDARD_ERROR,
        events: POLLOUT,
        revents: 0,
    }];
    poll(polled.as_mut_slice(), 0) == 1 && polled[0].revents == POLLOUT
}

impl<L: Write> LogLines for ServeLog<L> {
    ghost use Rattle.std.specs.Prelude.{None};

    ghost lines = { λ _. None };

    // A line that would block, or cannot be written, is left out: control goes on.
    fn tell(&mut self, line: &[u8]) {
        let ServeLog::To(out) = self else {
            return;
        };
        if has_room() {
            let _ = write_whole(line, out);
            let _ = out.flush();
        }
    }
}
