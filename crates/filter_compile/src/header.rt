//! Tests of the IPv4 header: its version, its protocol, and whether it belongs to the first fragment (RFC 791, section
//! 3.1).

ghost use Rattle.std.specs.Prelude.{◌+◌, ◌≤◌, None, OnOk, Some, false, length};
ghost use Rattle.ipv4_fields.specs.declared.header.Field.TheVariants.{Protocol};
ghost use Rattle.ipv4_fields.specs.Field.{field_of};
ghost use Rattle.bpf_verify.specs.declared.TheConstants.{MAX_INSTRUCTIONS};
ghost use Rattle.filter_emit.specs.Pieces.{Writes};
ghost use Rattle.filter_emit.specs.Guards.{Guards};
ghost use Rattle.filter_tree.specs.declared.primitive.Transport.TheVariants.{Unnamed};
ghost use Rattle.filter_tree.specs.Outcome.{tested};
ghost use Rattle.filter_tree.specs.Primitive.{has_ports, is_first_fragment, is_ip, is_protocol};
ghost use Rattle.filter_facts.specs.declared.load.Loaded.TheVariants.{Protocol as LoadedProtocol};
ghost use Rattle.filter_compile.specs.body.Header.{weight_of_transport};
ghost use Rattle.filter_compile.specs.body.Piece.{Decides};

use crate::load::load;
use bpf_insn::{Insn, Operand, Operation, Size, Test};
use filter_emit::{Code, Label};
use filter_facts::Loaded;
use filter_tree::Transport;
use std::alloc::{AllocError, Allocator};

/// Writes the test that the version is 4.
#[inline(always)]
pub(crate) fn is_ip<'a, A: Allocator>(
    code: &mut Code<'a, A>,
    yes: &mut Label<'a, A>,
    no: &mut Label<'a, A>,
) -> Result<(), AllocError>
    requires room { length code.old + 5 ≤ MAX_INSTRUCTIONS }
    ensures writes { OnOk result (Writes (Decides false None None is_ip) 5 code.old code.new yes.old yes.new no.old no.new) }
{
    code.push(Insn::LoadAbsolute(Size::Byte, 0))?;
    code.push(Insn::Alu(Operation::And, Operand::K(0xf0)))?;
    code.branch(Test::Equal, Operand::K(0x40), yes, no)
}

/// Writes the test that the protocol has this number.
#[inline(always)]
pub(crate) fn is_protocol<'a, A: Allocator>(
    code: &mut Code<'a, A>,
    n: u8,
    in_a: Option<Loaded>,
    yes: &mut Label<'a, A>,
    no: &mut Label<'a, A>,
) -> Result<(), AllocError>
    requires room { length code.old + 4 ≤ MAX_INSTRUCTIONS }
    ensures writes { OnOk result (Writes (Decides false in_a (Some LoadedProtocol) (is_protocol n)) 4 code.old code.new yes.old yes.new no.old no.new) }
{
    load(code, Loaded::Protocol, in_a)?;
    code.branch(Test::Equal, Operand::K(n as u32), yes, no)
}

// Writes the test that the protocol is TCP, UDP or SCTP.
fn is_any_transport<'a, A: Allocator>(
    code: &mut Code<'a, A>,
    in_a: Option<Loaded>,
    yes: &mut Label<'a, A>,
    no: &mut Label<'a, A>,
) -> Result<(), AllocError>
    requires room { length code.old + 10 ≤ MAX_INSTRUCTIONS }
    ensures writes { OnOk result (Writes (Decides false in_a (Some LoadedProtocol) (λ packet. tested (has_ports Unnamed) (field_of Protocol packet))) 10 code.old code.new yes.old yes.new no.old no.new) }
{
    load(code, Loaded::Protocol, in_a)?;
    code.branch_if(Test::Equal, Operand::K(6), yes)?;
    code.branch_if(Test::Equal, Operand::K(17), yes)?;
    code.branch(Test::Equal, Operand::K(132), yes, no)
}

// The same as guards: each falls through if it is true.

#[inline(always)]
pub(crate) fn pass_ip<'a, A: Allocator>(
    code: &mut Code<'a, A>,
    no: &mut Label<'a, A>,
) -> Result<(), AllocError>
    requires room { length code.old + 5 ≤ MAX_INSTRUCTIONS }
    ensures guards { OnOk result (Guards (Decides false None None is_ip) 5 code.old code.new no.old no.new) }
{
    code.push(Insn::LoadAbsolute(Size::Byte, 0))?;
    code.push(Insn::Alu(Operation::And, Operand::K(0xf0)))?;
    code.branch_unless(Test::Equal, Operand::K(0x40), no)
}

#[inline(always)]
pub(crate) fn pass_protocol<'a, A: Allocator>(
    code: &mut Code<'a, A>,
    n: u8,
    in_a: Option<Loaded>,
    no: &mut Label<'a, A>,
) -> Result<(), AllocError>
    requires room { length code.old + 4 ≤ MAX_INSTRUCTIONS }
    ensures guards { OnOk result (Guards (Decides false in_a (Some LoadedProtocol) (is_protocol n)) 4 code.old code.new no.old no.new) }
{
    load(code, Loaded::Protocol, in_a)?;
    code.branch_unless(Test::Equal, Operand::K(n as u32), no)
}

/// Writes the guard that the protocol has ports: the named protocol; if none is named, TCP, UDP or SCTP.
pub(crate) fn pass_ports<'a, A: Allocator>(
    code: &mut Code<'a, A>,
    transport: Transport,
    in_a: Option<Loaded>,
    no: &mut Label<'a, A>,
) -> Result<(), AllocError>
    requires room { length code.old + weight_of_transport transport ≤ MAX_INSTRUCTIONS }
    requires behind { length code.old + weight_of_transport transport ≤ no.old.by }
    ensures guards { OnOk result (Guards (Decides false in_a (Some LoadedProtocol) (λ packet. tested (has_ports transport) (field_of Protocol packet))) (weight_of_transport transport) code.old code.new no.old no.new) }
{
    match transport {
        Transport::Tcp => pass_protocol(code, 6, in_a, no),
        Transport::Udp => pass_protocol(code, 17, in_a, no),
        Transport::Unnamed => pass_any_transport(code, in_a, no),
    }
}

fn pass_any_transport<'a, A: Allocator>(
    code: &mut Code<'a, A>,
    in_a: Option<Loaded>,
    no: &mut Label<'a, A>,
) -> Result<(), AllocError>
    requires room { length code.old + 10 ≤ MAX_INSTRUCTIONS }
    requires behind { length code.old + 10 ≤ no.old.by }
    ensures guards { OnOk result (Guards (Decides false in_a (Some LoadedProtocol) (λ packet. tested (has_ports Unnamed) (field_of Protocol packet))) 10 code.old code.new no.old no.new) }
{
    let mut on = code.label(code.len() + 10);
    is_any_transport(code, in_a, &mut on, no)?;
    code.bind(&on);
    Ok(())
}

/// Writes the guard that the fragment offset is 0.
#[inline(always)]
pub(crate) fn pass_first_fragment<'a, A: Allocator>(
    code: &mut Code<'a, A>,
    no: &mut Label<'a, A>,
) -> Result<(), AllocError>
    requires room { length code.old + 4 ≤ MAX_INSTRUCTIONS }
    ensures guards { OnOk result (Guards (Decides false None None is_first_fragment) 4 code.old code.new no.old no.new) }
{
    code.push(Insn::LoadAbsolute(Size::Half, 6))?;
    code.branch_if(Test::CommonBit, Operand::K(0x1fff), no)
}
