//! The command `spread`: the selector of a table of buckets (docs/COMMANDS.md, "spread").

ghost use Rattle.std.specs.Prelude.{◌≤◌, IfErr, IfOk};
ghost use Rattle.selector_buckets.specs.Shares.{CanShare};
ghost use Rattle.selector_buckets.specs.declared.TheConstants.{DEPTH_LIMIT};
ghost use Rattle.command_query.specs.CommandResult.{IsSpreadAnswer};
ghost use Rattle.command_query.specs.body.Stop.{IsStopBy};

use crate::command_result::CommandResult;
use crate::stop::Stop;
use bpf_asm::print;
use selector_buckets::{HashBy, Share, selector, spread};
use std::alloc::Global;

/// Makes the selector of the table of 2^depth buckets that the members share, and prints it.
pub fn spread_selector(
    alloc: Global,
    depth: u32,
    by: HashBy,
    shares: &[Share],
) -> Result<CommandResult, Stop>
    requires depth { depth ≤ DEPTH_LIMIT }
    requires can_share { CanShare shares.now }
    ensures answer { IfOk result (IsSpreadAnswer depth by shares.now) }
    ensures never_refused { IfErr result (IsStopBy (λ reason. ⊥)) }
{
    let buckets = spread(alloc, shares, depth)?;
    let program = selector(alloc, by, &buckets)?;
    Ok(CommandResult::Listed {
        listing: print(alloc, &program)?,
    })
}
