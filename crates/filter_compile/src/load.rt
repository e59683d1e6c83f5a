//! Loads of the headers' numbers (RFC 791, section 3.1). A load is left out if A already has the number.

ghost use Rattle.std.specs.Prelude.{OnOk};
ghost use Rattle.filter_emit.specs.body.Straight.{Extends, NeverFaults};
ghost use Rattle.filter_facts.specs.Known.{loaded_of};
ghost use Rattle.filter_compile.specs.body.Header.{by_header};
ghost use Rattle.filter_compile.specs.body.Piece.{Brings, IsPlain, LoadsAs, LoadsHeader};

use bpf_insn::{Insn, Size};
use filter_emit::Code;
use filter_facts::Loaded;
use std::alloc::{AllocError, Allocator};

fn load_of(loaded: Loaded) -> Insn
    ensures loads { LoadsAs (by_header loaded) result (loaded_of loaded) }
    ensures plain { IsPlain result }
    ensures no_fault { NeverFaults result }
{
    match loaded {
        Loaded::Protocol => Insn::LoadAbsolute(Size::Byte, 9),
        Loaded::Source => Insn::LoadAbsolute(Size::Word, 12),
        Loaded::Destination => Insn::LoadAbsolute(Size::Word, 16),
        Loaded::SourcePort => Insn::LoadIndexed(Size::Half, 0),
        Loaded::DestinationPort => Insn::LoadIndexed(Size::Half, 2),
    }
}

/// Writes the load of a number into A, unless A already has it. The load of a port needs the header's length in X.
#[inline(always)]
pub(crate) fn load<'a, A: Allocator>(
    code: &mut Code<'a, A>,
    loaded: Loaded,
    in_a: Option<Loaded>,
) -> Result<(), AllocError>
    ensures extends { OnOk result (Extends (Brings in_a loaded) 1 code.old code.new) }
{
    match in_a {
        Some(held) if held == loaded => Ok(()),
        _ => code.push(load_of(loaded)),
    }
}

/// Writes the load of the header's length into X, unless X already has it.
pub(crate) fn load_header<'a, A: Allocator>(
    code: &mut Code<'a, A>,
    held: bool,
) -> Result<(), AllocError>
    ensures extends { OnOk result (Extends (LoadsHeader held) 1 code.old code.new) }
{
    if held {
        return Ok(());
    }
    code.push(Insn::LoadXHeader(0))
}
