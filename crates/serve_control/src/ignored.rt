//! The control datagrams that are ignored (docs/COMMANDS.md, "serve"): those that look like replies, and those of the
//! switch itself.

ghost use Rattle.std.specs.Prelude.{◌↔◌, IsTrue};
ghost use Rattle.serve_control.specs.Ignored.{BeginsReplies, IsIgnored, IsOwn, LooksLikeReply};

use ipv4_fields::{Endpoint, split_at};

/// The addresses that the switch's two sockets are bound to.
#[derive(Clone, Copy)]
pub struct BoundAddresses {
    pub front: Endpoint,
    pub control: Endpoint,
}

// The address of a socket that is bound to all addresses of its machine, 0.0.0.0.
const EVERY_ADDRESS: u32 = 0;

const REPLY_WORDS: [&[u8]; 8] = [
    b"ok",
    b"refused",
    b"failed",
    b"version",
    b"reclaimed",
    b"malformed",
    b"delivered",
    b"ready",
];

fn begins_replies(word: &[u8]) -> bool
    ensures { IsTrue result ↔ BeginsReplies word.now }
{
    REPLY_WORDS.contains(&word)
}

fn looks_like_reply(text: &[u8]) -> bool
    ensures { IsTrue result ↔ LooksLikeReply text.now }
{
    match split_at(b' ', text) {
        Some((word, _)) => begins_replies(word),
        None => false,
    }
}

fn is_own(bound: Endpoint, sender: Endpoint) -> bool
    ensures { IsTrue result ↔ IsOwn bound sender }
{
    sender.port == bound.port && (bound.address == EVERY_ADDRESS || sender.address == bound.address)
}

pub fn is_ignored(bound: &BoundAddresses, sender: Endpoint, text: &[u8]) -> bool
    ensures { IsTrue result ↔ IsIgnored bound.now sender text.now }
{
    is_own(bound.front, sender) || is_own(bound.control, sender) || looks_like_reply(text)
}
