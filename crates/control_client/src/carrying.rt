//! The requests that a wire carries: a datagram, or lines of a stream (docs/COMMANDS.md, "tell").

ghost use Rattle.std.specs.Prelude.{◌≡◌, MatchOption};
ghost use Rattle.control_line.specs.Block.{EndsLine, HasHead};
ghost use Rattle.control_client.specs.Carried.{HasFirstLine, IsCarried, IsRefusedUnsent};
ghost use Rattle.control_client.specs.Lines.{IsNoHead};
ghost use Rattle.control_client.specs.body.Feeds.{feeds_in};
ghost use Rattle.control_client.specs.declared.device.Peer.TheVariants.{Unix};

use crate::device::Peer;
use control_line::{BLOCK_LIMIT, LINE_LIMIT, read_head};
use memchr::memchr;

/// The most bytes of a request that a datagram carries: those of a UDP datagram over IPv4 without its headers.
pub const LONGEST_LINE: usize = 65_507;

// The replies of a switch to a request that is too long, and to one that is none.
const TOO_LONG: &[u8] = b"refused C2";

const NO_REQUEST: &[u8] = b"refused C1";

/// Cuts a text before its first LF.
pub(crate) fn cut_line(text: &[u8]) -> (&[u8], &[u8])
    ensures { HasFirstLine text.now result.0.now result.1.now }
{
    let end = memchr(b'\n', text).unwrap_or(text.len());
    (&text[..end], &text[end..])
}

// How many lines there are, each after an LF.
fn count_lines(text: &[u8]) -> usize
    ensures { result ≡ feeds_in text.now }
{
    let mut count = 0;
    let mut left = text;
    while let [byte, rest @ ..] = left {
        if *byte == b'\n' {
            count += 1;
        }
        left = rest;
    }
    count
}

// A text whose first line is no block's.
fn line_unsent(text: &[u8], first: &[u8], rest: &[u8]) -> Option<&'static [u8]>
    requires cut { HasFirstLine text.now first.now rest.now }
    requires no_head { IsNoHead first.now }
    ensures { MatchOption result (IsCarried Unix text.now) (λ reply. IsRefusedUnsent Unix text.now reply.now) }
{
    if text.len() > LINE_LIMIT {
        return Some(TOO_LONG);
    }
    if !rest.is_empty() {
        return Some(NO_REQUEST);
    }
    None
}

fn stream_unsent(text: &[u8]) -> Option<&'static [u8]>
    ensures { MatchOption result (IsCarried Unix text.now) (λ reply. IsRefusedUnsent Unix text.now reply.now) }
{
    let (first, rest) = cut_line(text);
    let Some(head) = read_head(first) else {
        return line_unsent(text, first, rest);
    };
    if rest.len() > BLOCK_LIMIT {
        return Some(TOO_LONG);
    }
    if count_lines(rest) != head.count as usize {
        return Some(NO_REQUEST);
    }
    None
}

/// Returns the reply to a request that no wire to this peer carries, or `None` if it is carried.
///
/// A datagram carries at most `LONGEST_LINE` bytes. A stream has the limits of the switch, and ends each line at LF: a line with an
/// LF in it, or a block with fewer or more lines than it says, would get no reply or several.
pub fn unsent_reply(peer: Peer, text: &[u8]) -> Option<&'static [u8]>
    ensures { MatchOption result (IsCarried peer text.now) (λ reply. IsRefusedUnsent peer text.now reply.now) }
{
    match peer {
        Peer::Udp(_) => {
            if text.len() > LONGEST_LINE {
                return Some(TOO_LONG);
            }
            None
        }
        Peer::Unix => stream_unsent(text),
    }
}
