//! Replies that the stream has not taken yet.

ghost use Rattle.std.specs.Prelude.{◌≡◌, ◌≤◌, ◌++◌, [], drop, length};
ghost use Rattle.serve_stream.specs.body.Replies.{IsReply};
ghost use Rattle.serve_stream.specs.Answers.{Exchange, request_of};

use crate::answers::{After, Answers};
use std::alloc::Global;
use std::marker::Model;

// The number of written bytes that are kept before they are dropped.
const KEPT: usize = 65_536;

/// The reply if an allocation was refused.
pub(crate) const NO_MEMORY: &[u8] = b"failed E3\n";

/// Replies that are not written yet, each with its LF.
#[derive(Drop)]
pub(crate) struct Replies {
    bytes: Vec<u8>,
    written: usize,
}

/// The result of a request.
#[derive(Clone, Copy)]
pub(crate) struct Answered {
    /// The next action, if the request was answered.
    pub(crate) after: Option<After>,
    /// The part of the reply that could not be kept among the others.
    pub(crate) last: &'static [u8],
}

impl Model for Replies {
    ghost use Rattle.std.specs.Prelude.{List, ℕ, ◌≤◌, drop, vec_len};

    ghost Value = { List ℕ };

    ghost view = { λ replies. drop replies.written replies.bytes.items };

    ghost invariant = { λ replies. replies.written ≤ vec_len replies.bytes };
}

impl Replies {
    pub(crate) fn new(alloc: Global) -> Replies
        ensures { result ≡ [] }
    {
        Replies {
            bytes: Vec::new(alloc),
            written: 0,
        }
    }

    pub(crate) fn bytes(&self) -> &[u8]
        ensures { result.now ≡ self.now }
    {
        &self.bytes[self.written..]
    }

    /// Takes the first bytes, which were written.
    pub(crate) fn skip(&mut self, count: usize)
        requires { count ≤ length self.old }
        ensures { self.new ≡ drop count self.old }
    {
        self.written += count;
        if self.written == self.bytes.len() {
            self.bytes.clear();
            self.written = 0;
        } else if self.written >= KEPT {
            self.bytes.rotate_left(self.written);
            self.bytes.truncate(self.bytes.len() - self.written);
            self.written = 0;
        }
    }

    /// Has a request answered, and keeps its reply and an LF.
    pub(crate) fn answer<A: Answers>(&mut self, request: &[u8], answers: &mut A) -> Answered
        ensures { (exchange : Exchange) × A.exchanges answers.old answers.new exchange × (request_of exchange ≡ request.now) × IsReply exchange self.old self.new result }
    {
        match answers.answer(request, &mut self.bytes) {
            Ok(after) => Answered {
                after: Some(after),
                // The reason: docs/INTERNALS.md, "The LF after a reply".
                last: match self.bytes.push(b'\n') {
                    Ok(()) => b"",
                    Err(_) => b"\n",
                },
            },
            Err(_) => Answered {
                after: None,
                last: NO_MEMORY,
            },
        }
    }
}
