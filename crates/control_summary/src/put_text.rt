//! A text that was put, for contracts alone.

ghost use Rattle.std.specs.Prelude.{◌≡◌, ◌++◌, []};

use std::marker::Model;
use std::snapshot::Snapshot;

// The last byte, and the text before it, which only contracts see.
#[derive(Drop)]
enum Last {
    Empty,
    Byte(Snapshot<Last>, u8),
}

/// The text that was put so far. Contracts see it whole; the program keeps its last byte.
#[derive(Drop)]
pub(crate) struct PutText {
    last: Last,
}

impl Model for PutText {
    ghost use Rattle.std.specs.Prelude.{List, ℕ};

    ghost Value = { List ℕ };

    ghost use Rattle.control_summary.specs.body.PutText.{text_of};

    ghost view = { λ text. text_of text.last };
}

impl PutText {
    pub(crate) fn new() -> PutText
        ensures { result ≡ [] }
    {
        PutText { last: Last::Empty }
    }

    /// Appends the bytes.
    pub(crate) fn add(&mut self, bytes: &[u8])
        ensures { self.new ≡ self.old ++ bytes.now }
    {
        for byte in bytes {
            self.last = Last::Byte(Snapshot::of(&self.last), *byte);
        }
    }
}
