//! Showing people the requests that were not done (docs/COMMANDS.md, "tell").

ghost use Rattle.std.specs.Prelude.{List, Option, ℕ};
ghost use Rattle.control_client.specs.Refused.{Refusal};

use std::io::Write;

/// The place of a request in the input. Lines are counted from 1, also those that are skipped.
#[derive(Clone, Copy)]
pub struct Places<'a> {
    /// The number of its line, or of the first line of its block. A change of all lines has no first line in the input.
    pub head: Option<u64>,
    /// The numbers of the other lines of a block.
    pub lines: &'a [u64],
}

/// Shows people the requests that were not done.
pub trait Explains {
    /// States that a request is shown on a writer that had these bytes, and then has those.
    ghost shows: { Option (List ℕ) → Option (List ℕ) → Refusal → Type 0 };

    /// Shows a request that was not done, by its reply.
    fn show<E: Write>(&self, places: Places<'_>, reply: &[u8], errs: &mut E)
        ensures { shows (E.contents errs.old) (E.contents errs.new)
            (record { head = places.entry.head; lines = places.entry.lines.now; reply = reply.now }) };
}
