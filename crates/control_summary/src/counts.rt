//! The counts of replies, and their summary.

ghost use Rattle.std.specs.Prelude.{◌≡◌, ◌++◌, IfOk, []};
ghost use Rattle.control_summary.specs.Summary.{IsSummaryOf};

use crate::counted::Counted;
use crate::put_text::PutText;
use std::alloc::{AllocError, Global};
use std::marker::Model;

/// The counts of the kinds of the lines of a text of replies. Contracts see the text that was put.
///
/// It has a row for each kind that occurred, and the line that has not ended. A count stays at the greatest number of 64 bits.
/// If memory is refused, it counts no more.
#[derive(Drop)]
pub struct ReplyCounts {
    text: PutText,
    counted: Counted,
    refused: bool,
}

// The reason: docs/INTERNALS.md, "Texts and types that only contracts see".
impl Model for ReplyCounts {
    ghost use Rattle.std.specs.Prelude.{◌≡◌, List, false, ℕ};
    ghost use Rattle.control_summary.specs.body.Counted.{IsAt};

    ghost Value = { List ℕ };

    ghost view = { λ counts. counts.text };

    ghost invariant = { λ counts. counts.refused ≡ false → IsAt counts.text counts.counted.held.items counts.counted.rows.items };
}

impl ReplyCounts {
    /// Begins with an empty text.
    pub fn new(alloc: Global) -> ReplyCounts
        ensures { result ≡ [] }
    {
        ReplyCounts {
            text: PutText::new(),
            counted: Counted::new(alloc),
            refused: false,
        }
    }

    /// Takes the next bytes of the text.
    pub fn put(&mut self, bytes: &[u8])
        ensures { self.new ≡ self.old ++ bytes.now }
    {
        self.text.add(bytes);
        if !self.refused && self.counted.take(bytes).is_err() {
            self.refused = true;
        }
    }

    /// Returns the summary of the replies: a line for each kind that occurred, in rising order of its bytes. The text after the last LF
    /// is no reply.
    pub fn summary(&self) -> Result<Vec<u8>, AllocError>
        ensures { IfOk result (λ summary. IsSummaryOf self.now summary.items) }
    {
        if self.refused {
            return Err(AllocError);
        }
        self.counted.text()
    }
}
