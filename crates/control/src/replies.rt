//! Replies that wait, so that the replies to the requests of one read are written together.

ghost use Rattle.std.specs.Prelude.{◌≡◌, ◌+◌, ◌<◌, ◌≤◌, ◌++◌, ◌∷◌, [], OnErr, OnOk, length};
ghost use Rattle.std.specs.Io.KnownBytes.{Appends};
ghost use Rattle.dispatch.specs.Device.{CountsFailure};
ghost use Rattle.control.specs.body.Waiting.{WritesAllBut};
ghost use Rattle.control.specs.body.Writing.{IsWrittenInPart};

use crate::streams::Output;
use crate::writing::write_all;
use control_line::Reply;
use dispatch::Failed;
use std::marker::Model;

/// The most bytes that wait: those that one write to a pipe keeps together (PIPE_BUF of Linux). Each reply has room, with its LF.
pub(crate) const ROOM: usize = 4096;

/// Replies, each with its LF, that are not written yet.
#[derive(Drop)]
pub(crate) struct Replies {
    bytes: [u8; ROOM],
    len: usize,
}

impl Model for Replies {
    ghost use Rattle.std.specs.Prelude.{List, ℕ, ◌≤◌, take};
    ghost use Rattle.control.specs.declared.replies.TheConstants.{ROOM};

    ghost Value = { List ℕ };

    ghost view = { λ replies. take replies.len replies.bytes };

    ghost invariant = { λ replies. replies.len ≤ ROOM };
}

impl Replies {
    pub(crate) fn new() -> Replies
        ensures { result ≡ [] }
    {
        Replies {
            bytes: [0; ROOM],
            len: 0,
        }
    }

    /// Adds a reply and its LF. If there is no room for them, first writes the bytes that wait.
    pub(crate) fn add<W: Output>(&mut self, reply: &Reply, writer: &mut W) -> Result<(), Failed>
        ensures added { OnOk result (WritesAllBut self.new (W.state writer.old).taken (W.state writer.new).taken (self.old ++ (reply.now ++ 10 ∷ []))) }
        ensures beginning { OnErr result (IsWrittenInPart (W.state writer.new).failures (W.state writer.old).taken (W.state writer.new).taken self.old) }
        ensures device_failed { CountsFailure result (W.state writer.old).failures (W.state writer.new).failures }
        ensures rest_kept { W.rest writer.new ≡ W.rest writer.old }
    {
        let line = reply.bytes();
        if ROOM - self.len <= line.len() {
            self.write(writer)?;
            self.len = 0;
        }
        self.push(line);
        self.push_line_end();
        Ok(())
    }

    // Appends a line that there is room for.
    fn push(&mut self, line: &[u8])
        requires room { length self.old + length line.now ≤ ROOM }
        ensures pushed { self.new ≡ self.old ++ line.now }
        ensures len { length self.new ≡ length self.old + length line.now }
    {
        let end = self.len + line.len();
        self.bytes[self.len..end].copy_from_slice(line);
        self.len = end;
    }

    fn push_line_end(&mut self)
        requires room { length self.old < ROOM }
        ensures { self.new ≡ self.old ++ 10 ∷ [] }
    {
        self.bytes[self.len] = b'\n';
        self.len += 1;
    }

    /// Writes the bytes that wait.
    pub(crate) fn write<W: Output>(&self, writer: &mut W) -> Result<(), Failed>
        ensures written { OnOk result (Appends (W.state writer.old).taken (W.state writer.new).taken self.now) }
        ensures beginning { OnErr result (IsWrittenInPart (W.state writer.new).failures (W.state writer.old).taken (W.state writer.new).taken self.now) }
        ensures device_failed { CountsFailure result (W.state writer.old).failures (W.state writer.new).failures }
        ensures rest_kept { W.rest writer.new ≡ W.rest writer.old }
    {
        write_all(writer, &self.bytes[..self.len])
    }
}
