//! The word of a tally that counts each kind, and the totals of all kinds (docs/SWITCH.md, "Tallies").

ghost use Rattle.std.specs.Prelude.{◌≡◌, OnOk, Some};
ghost use Rattle.dispatch.specs.Tally.{place_of, total_of};
ghost use Rattle.dispatch.specs.Totals.{WritesTotals, totals_text};

use packet_verdict::Kind;
use std::fmt;
use std::io::{self, Write};

/// How many kinds there are.
pub const KINDS: usize = 7;

// Which word of a tally counts the kind.
pub(crate) fn place(kind: Kind) -> usize
    ensures { result ≡ place_of kind }
{
    kind as usize
}

/// How often each kind was counted.
#[derive(Clone, Copy, Debug, PartialEq, Eq)]
pub struct Totals {
    /// A total for each kind, in the order of `Kind`.
    pub counts: [u64; KINDS],
}

impl Totals {
    /// Returns how often a kind was counted.
    #[tactic(auto, using(crate::proofs::TallyLemmas::place_low))]
    pub fn of(&self, kind: Kind) -> u64
        ensures total { result ≡ total_of self.now kind }
    {
        self.counts[place(kind)]
    }
}

/// Writes each kind's word and how often it was counted, in one line, without a line feed.
impl fmt::Display for Totals {
    ghost output = { λ totals. Some (totals_text totals) };

    fn fmt<W: fmt::Write>(&self, f: &mut fmt::Formatter<W>) -> fmt::Result {
        let [
            malformed,
            no_group,
            no_members,
            dropped,
            delivered,
            send_failed,
            receive_failed,
        ] = self.counts;
        write!(
            f,
            "malformed {malformed} nogroup {no_group} nomembers {no_members} dropped {dropped} \
             delivered {delivered} sendfailed {send_failed} receivefailed {receive_failed}"
        )
    }
}

/// Writes the line of the totals, and flushes it.
pub fn write_totals<W: Write>(totals: &Totals, out: &mut W) -> io::Result<()>
    ensures written { OnOk result (WritesTotals totals.now (W.contents out.old) (W.contents out.new)) }
{
    writeln!(out, "{totals}")?;
    out.flush()
}
