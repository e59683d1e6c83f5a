//! Appending a command to those that a list has.

ghost use Rattle.std.specs.Prelude.{◌∷◌, OnOk, []};
ghost use Rattle.member_group.specs.Over.{command_over};
ghost use Rattle.config_diff.specs.body.Appended.{HasMore};

use bpf_verify::{OutOfMemory, Program};
use member_group::Command;
use std::alloc::Allocator;

pub(crate) fn append<'a, B: Allocator, C: Allocator>(
    changes: &mut Vec<Command<&'a Program<B>>, C>,
    command: Command<&'a Program<B>>,
) -> Result<(), OutOfMemory>
    ensures appended { OnOk result (HasMore changes.old.items changes.new.items (command_over (λ program. program.now.words) command.entry ∷ [])) }
{
    changes.push(command)?;
    Ok(())
}
