//! The line of totals, which ends the output of `flood` and `serve` (docs/SWITCH.md, "Tallies").
//!
//! `write_totals` writes it to an output whose failures are counted.
#![tactic(auto)]

ghost use Rattle.std.specs.Prelude.{◌≡◌, ◌++◌, IfErr, OnOk, codes};
ghost use Rattle.command_streams.specs.Failures.{OutputFails};
ghost use Rattle.dispatch.specs.Totals.{WritesTotals};
ghost use Rattle.command_totals.specs.Beginning.{BeginsTotals};
ghost use Rattle.command_totals.specs.body.Halves.{first_half, second_half};

use command_line::Failure;
use command_streams::{CountedWrite, write_through, write_whole};
use control_line::Reply;
use dispatch::{Kind, Totals};

// The line does not fit one `Reply` if its numbers are long.
fn first_half(totals: &Totals) -> Reply
    ensures { result ≡ first_half totals.now }
{
    let mut line = Reply::empty();
    line.push("malformed ");
    line.push_number(totals.of(Kind::Malformed));
    line.push(" nogroup ");
    line.push_number(totals.of(Kind::NoGroup));
    line.push(" nomembers ");
    line.push_number(totals.of(Kind::NoMembers));
    line.push(" dropped ");
    line.push_number(totals.of(Kind::Dropped));
    line
}

// The rest, with the line feed.
fn second_half(totals: &Totals) -> Reply
    ensures { result ≡ second_half totals.now ++ codes "\n" }
{
    let mut line = Reply::empty();
    line.push(" delivered ");
    line.push_number(totals.of(Kind::Delivered));
    line.push(" sendfailed ");
    line.push_number(totals.of(Kind::SendFailed));
    line.push(" receivefailed ");
    line.push_number(totals.of(Kind::ReceiveFailed));
    line.push("\n");
    line
}

/// Writes the line, or a beginning of it if a write fails, and flushes it. Takes no memory.
pub fn write_totals<W: CountedWrite>(totals: &Totals, out: &mut W) -> Result<(), Failure>
    ensures written { OnOk result (WritesTotals totals.now (W.contents out.old) (W.contents out.new)) }
    ensures beginning { BeginsTotals totals.now (W.contents out.old) (W.contents out.new) }
    ensures failed { IfErr result (λ failure. failure ≡ Failure.WriteFailed) }
    ensures device_failed { OutputFails result (W.failures out.old) (W.failures out.new) }
{
    write_whole(first_half(totals).bytes(), out)?;
    write_through(second_half(totals).bytes(), out)
}
