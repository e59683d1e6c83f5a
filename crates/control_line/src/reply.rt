//! Replies, and the bytes that they are built of (docs/COMMANDS.md, "Control lines").

ghost use Rattle.std.specs.Prelude.{◌≡◌, ◌≤◌, ◌<◌, ◌+◌, ◌^◌, ◌++◌, ◌∷◌, [], decimal, length};

mod answers;
mod judged;

use crate::reason::Reason;
use ipv4_fields::{Endpoint, TextBuffer};
use itoa::write_digits;
pub use judged::judged_reply;
use packet_verdict::{Malformation, Verdict};
use read_section::Reclaimed;
use std::marker::Model;

/// The most bytes of a reply.
pub const REPLY_LIMIT: usize = 128;

/// The most digits of a number of 64 bits.
pub const NUMBER_LIMIT: usize = 20;

/// How many words a line reads at most.
pub const WINDOW: usize = 5;

/// The reply to a line, as a value.
#[derive(Clone, Copy, Debug, PartialEq, Eq)]
pub enum LineAnswer {
    /// Nothing was changed.
    Refused(Reason),
    /// A line of a block was refused, counted from 1. Nothing was changed.
    LineRefused {
        number: u32,
        reason: Reason,
    },
    /// The new configuration is this version.
    Published {
        version: u64,
    },
    /// The current configuration's version and measures.
    Shown {
        version: u64,
        groups: usize,
        members: usize,
        charge: u64,
    },
    /// A group: its place among the groups, its key, and how many members and instructions of a selector it has.
    GroupRead {
        version: u64,
        index: u32,
        groups: usize,
        key: Endpoint,
        members: usize,
        selector: usize,
    },
    /// A member: its index in the group, its number, the destination of its packets, how many instructions its filter has, and whether
    /// it is locked.
    MemberRead {
        version: u64,
        index: u32,
        members: usize,
        id: u32,
        to: Endpoint,
        filter: usize,
        locked: bool,
    },
    /// Words of a program of `count` instructions, from a place on. Those that are not there are 0, and are not written.
    WordsRead {
        version: u64,
        place: u32,
        count: usize,
        words: [u64; WINDOW],
    },
    /// The verdict on a packet, by the current version.
    PacketJudged {
        version: u64,
        verdict: Verdict,
    },
    /// The first rule that a malformed packet breaks.
    PacketMalformed {
        version: u64,
        why: Malformation,
    },
    /// The versions that may be reused.
    Swept(Reclaimed),
}

/// A reply line, without LF. It is built piece by piece, within `REPLY_LIMIT`.
#[derive(Drop)]
pub struct Reply {
    bytes: [u8; REPLY_LIMIT],
    len: usize,
}

impl Model for Reply {
    ghost use Rattle.std.specs.Prelude.{List, ℕ, ◌≤◌, take};
    ghost use Rattle.control_line.specs.declared.reply.TheConstants.{REPLY_LIMIT};

    ghost Value = { List ℕ };

    ghost view = { λ reply. take reply.len reply.bytes };

    ghost invariant = { λ reply. reply.len ≤ REPLY_LIMIT };
}

// How many digits a number below 10,000 has.
#[inline(always)]
fn few_digits(number: u64) -> usize
    requires { number < 10000 }
    ensures { result ≡ length (decimal number) }
{
    if number < 100 {
        return if number < 10 { 1 } else { 2 };
    }
    if number < 1000 { 3 } else { 4 }
}

// How many digits a number has, four at a step.
// The reason: docs/INTERNALS.md, "Numbers and line ends".
fn digit_count(number: u64) -> usize
    ensures { result ≡ length (decimal number) }
{
    let mut left = number;
    let mut count = 0;
    while left >= 10_000 {
        left /= 10_000;
        count += 4;
    }
    count + few_digits(left)
}

impl Reply {
    /// Returns the line.
    pub fn bytes(&self) -> &[u8]
        ensures line { result.now ≡ self.now }
        ensures short { length result.now ≤ REPLY_LIMIT }
    {
        &self.bytes[..self.len]
    }

    /// Begins a reply, with no bytes yet.
    pub fn empty() -> Reply
        ensures { result ≡ [] }
    {
        Reply {
            bytes: [0; REPLY_LIMIT],
            len: 0,
        }
    }

    /// Appends a text, for which there must be room.
    #[inline(always)]
    pub fn push(&mut self, text: &str)
        requires room { length self.old + length text.now ≤ REPLY_LIMIT }
        ensures appended { self.new ≡ self.old ++ text.now }
        ensures len { length self.new ≡ length self.old + length text.now }
    {
        let end = self.len + text.len();
        self.bytes[self.len..end].copy_from_slice(text.as_bytes());
        self.len = end;
    }

    /// Appends a number in decimal. There must be room for `NUMBER_LIMIT` digits.
    pub fn push_number(&mut self, number: u64)
        requires room { length self.old + NUMBER_LIMIT ≤ REPLY_LIMIT }
        ensures appended { self.new ≡ self.old ++ decimal number }
        ensures len { length self.new ≤ length self.old + NUMBER_LIMIT }
    {
        self.push_digits(number);
    }

    // Appends a number that has at most so many digits. There must be room for them.
    fn push_below<const DIGITS: usize>(&mut self, number: u64)
        requires below { number < 10 ^ DIGITS }
        requires digits { 0 < DIGITS }
        requires room { length self.old + DIGITS ≤ REPLY_LIMIT }
        ensures appended { self.new ≡ self.old ++ decimal number }
        ensures len { length self.new ≤ length self.old + DIGITS }
    {
        self.push_digits(number);
    }

    fn push_digits(&mut self, number: u64)
        requires { length self.old + length (decimal number) ≤ REPLY_LIMIT }
        ensures { self.new ≡ self.old ++ decimal number }
    {
        if number < 10 {
            self.push_digit(b'0' + number as u8);
        } else {
            self.push_long(number);
        }
    }

    #[inline(always)]
    fn push_digit(&mut self, digit: u8)
        requires { length self.old < REPLY_LIMIT }
        ensures { self.new ≡ self.old ++ digit ∷ [] }
    {
        self.bytes[self.len] = digit;
        self.len += 1;
    }

    fn push_long(&mut self, number: u64)
        requires { length self.old + length (decimal number) ≤ REPLY_LIMIT }
        ensures { self.new ≡ self.old ++ decimal number }
    {
        let end = self.len + digit_count(number);
        write_digits(number, &mut self.bytes, end);
        self.len = end;
    }
}

impl TextBuffer for Reply {
    ghost use Rattle.control_line.specs.declared.reply.TheConstants.{REPLY_LIMIT};

    ghost text = { λ reply. reply };

    ghost limit = { REPLY_LIMIT };

    #[inline(always)]
    fn append(&mut self, piece: &str) {
        self.push(piece);
    }

    fn append_number(&mut self, number: u64) {
        self.push_digits(number);
    }
}
