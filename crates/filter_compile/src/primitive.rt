//! The code of a primitive without arithmetic (pcap-filter(7), "Primitives").

ghost use Rattle.std.specs.Prelude.{◌≡◌, ◌≢◌, ◌+◌, ◌≤◌, IfOk, None, OnOk, Some, false, length, true};
ghost use Rattle.ipv4_fields.specs.declared.header.Field.TheVariants.{Protocol};
ghost use Rattle.ipv4_fields.specs.Field.{field_of};
ghost use Rattle.bpf_verify.specs.declared.TheConstants.{MAX_INSTRUCTIONS};
ghost use Rattle.bpf_machine.specs.Meaning.{holds};
ghost use Rattle.filter_emit.specs.Pieces.{Writes};
ghost use Rattle.filter_tree.specs.Outcome.{◌and_then◌, answer, tested};
ghost use Rattle.filter_tree.specs.Primitive.{address_passes, has_ports, is_first_fragment, is_ip, is_protocol, port_passes, truth_of_primitive};
ghost use Rattle.filter_facts.specs.Known.{Holds};
ghost use Rattle.filter_facts.specs.Told.{ip_of, transport_of};
ghost use Rattle.filter_compile.specs.body.Header.{passes, weight_of_addresses, weight_of_ports};
ghost use Rattle.filter_compile.specs.body.Piece.{Decides, Tests};
ghost use Rattle.filter_compile.specs.body.Sides.{Adds};
ghost use Rattle.filter_compile.specs.body.Weight.{leads_to_ports, ports_weight_under, version_weight_under, weight_of_primitive_under};

use crate::check::Check;
use crate::ends::{Part, ends};
use crate::guard::{guard_first_fragment, guard_ip, guard_transport, leads_to_ports, must_ask};
use crate::header::{is_ip, is_protocol};
use crate::load::load_header;
use crate::sides::{Passed, Sides, settled};
use bpf_insn::{Insn, Operand, Test};
use filter_emit::{Code, Label};
use filter_facts::{Known, Loaded};
use filter_tree::{Direction, Primitive, Transport};
use std::alloc::{AllocError, Allocator};

fn version<'a, A: Allocator>(
    code: &mut Code<'a, A>,
    known: Known,
    yes: &mut Label<'a, A>,
    no: &mut Label<'a, A>,
) -> Result<Sides, AllocError>
    requires room { length code.old + 5 ≤ MAX_INSTRUCTIONS }
    ensures writes { IfOk result (λ sides. Writes (Tests (Holds known) (Holds sides.yes) (Holds sides.no) is_ip) 5 code.old code.new yes.old yes.new no.old no.new) }
{
    if !must_ask(true, known.ip()) {
        return settled(code, known, yes);
    }
    is_ip(code, yes, no)?;
    let asked = known.with_in_a(None);
    Ok(Sides {
        yes: asked.with_ip(),
        no: asked.without_ip(),
    })
}

fn protocol<'a, A: Allocator>(
    code: &mut Code<'a, A>,
    n: u8,
    known: Known,
    yes: &mut Label<'a, A>,
    no: &mut Label<'a, A>,
) -> Result<Sides, AllocError>
    requires room { length code.old + 4 ≤ MAX_INSTRUCTIONS }
    ensures writes { IfOk result (λ sides. Writes (Tests (Holds known) (Holds sides.yes) (Holds sides.no) (is_protocol n)) 4 code.old code.new yes.old yes.new no.old no.new) }
{
    if !must_ask(true, known.protocol(n)) {
        return settled(code, known, yes);
    }
    is_protocol(code, n, known.in_a(), yes, no)?;
    let asked = known.with_in_a(Some(Loaded::Protocol));
    Ok(Sides {
        yes: asked.with_protocol(n),
        no: asked.without_protocol(n),
    })
}

fn addresses<'a, A: Allocator>(
    code: &mut Code<'a, A>,
    direction: Direction,
    check: &Check,
    known: Known,
    yes: &mut Label<'a, A>,
    no: &mut Label<'a, A>,
) -> Result<Sides, AllocError>
    requires room { length code.old + weight_of_addresses (version_weight_under known) direction check.now ≤ MAX_INSTRUCTIONS }
    requires yes_behind { length code.old + weight_of_addresses (version_weight_under known) direction check.now ≤ yes.old.by }
    requires behind { length code.old + weight_of_addresses (version_weight_under known) direction check.now ≤ no.old.by }
    ensures writes { IfOk result (λ sides. Writes (Tests (Holds known) (Holds sides.yes) (Holds sides.no) (address_passes direction (passes check.now))) (weight_of_addresses (version_weight_under known) direction check.now) code.old code.new yes.old yes.new no.old no.new) }
{
    let mut ip = Passed::at_once(known);
    guard_ip(code, true, &mut ip, no)?;
    let sides = ends(code, Part::Address, direction, check, ip.on, yes, no)?;
    Ok(Sides {
        yes: sides.yes,
        no: ip.or_no(sides.no),
    })
}

/// Writes the tests that come before ports.
pub(crate) fn guard_ports<'a, A: Allocator>(
    code: &mut Code<'a, A>,
    transport: Transport,
    passed: &mut Passed,
    no: &mut Label<'a, A>,
) -> Result<(), AllocError>
    requires room { length code.old + ports_weight_under passed.old.on transport ≤ MAX_INSTRUCTIONS }
    requires behind { length code.old + ports_weight_under passed.old.on transport ≤ no.old.by }
    ensures adds { OnOk result (Adds (λ packet. is_ip packet and_then tested (has_ports transport) (field_of Protocol packet) and_then is_first_fragment packet)
        (ports_weight_under passed.old.on transport) code.old code.new passed.old passed.new no.old no.new) }
    ensures learned { OnOk result (ip_of passed.old.on ≢ Some false → transport_of passed.old.on transport ≢ Some false → leads_to_ports passed.new.on transport ≡ true) }
{
    if leads_to_ports(passed.on, transport) {
        return Ok(());
    }
    guard_ip(code, true, passed, no)?;
    guard_transport(code, transport, passed, no)?;
    guard_first_fragment(code, true, passed, no)?;
    Ok(())
}

fn ports<'a, A: Allocator>(
    code: &mut Code<'a, A>,
    transport: Transport,
    direction: Direction,
    check: &Check,
    known: Known,
    yes: &mut Label<'a, A>,
    no: &mut Label<'a, A>,
) -> Result<Sides, AllocError>
    requires room { length code.old + weight_of_ports (ports_weight_under known transport) direction check.now ≤ MAX_INSTRUCTIONS }
    requires yes_behind { length code.old + weight_of_ports (ports_weight_under known transport) direction check.now ≤ yes.old.by }
    requires behind { length code.old + weight_of_ports (ports_weight_under known transport) direction check.now ≤ no.old.by }
    ensures writes { IfOk result (λ sides. Writes (Tests (Holds known) (Holds sides.yes) (Holds sides.no) (port_passes transport direction (passes check.now))) (weight_of_ports (ports_weight_under known transport) direction check.now) code.old code.new yes.old yes.new no.old no.new) }
{
    let mut before = Passed::at_once(known);
    guard_ports(code, transport, &mut before, no)?;
    load_header(code, before.on.header_in_x())?;
    let on = before.on.with_header_in_x(true);
    let sides = ends(code, Part::Port, direction, check, on, yes, no)?;
    Ok(Sides {
        yes: sides.yes,
        no: before.or_no(sides.no),
    })
}

// Writes a test of the packet's number of bytes.
fn bytes<'a, A: Allocator>(
    code: &mut Code<'a, A>,
    test: Test,
    n: u32,
    yes: &mut Label<'a, A>,
    no: &mut Label<'a, A>,
) -> Result<(), AllocError>
    requires room { length code.old + 4 ≤ MAX_INSTRUCTIONS }
    ensures writes { OnOk result (Writes (Decides false None None (λ packet. answer (holds test (length packet) n))) 4 code.old code.new yes.old yes.new no.old no.new) }
{
    code.push(Insn::LoadLength)?;
    code.branch(test, Operand::K(n), yes, no)
}

// Separate from the recursion, since each of its levels would reserve stack for this function.
#[inline(never)]
pub(crate) fn primitive<'a, A: Allocator>(
    code: &mut Code<'a, A>,
    primitive: Primitive,
    known: Known,
    yes: &mut Label<'a, A>,
    no: &mut Label<'a, A>,
) -> Result<Sides, AllocError>
    requires room { length code.old + weight_of_primitive_under known primitive ≤ MAX_INSTRUCTIONS }
    requires yes_behind { length code.old + weight_of_primitive_under known primitive ≤ yes.old.by }
    requires behind { length code.old + weight_of_primitive_under known primitive ≤ no.old.by }
    ensures writes { IfOk result (λ sides. Writes (Tests (Holds known) (Holds sides.yes) (Holds sides.no) (truth_of_primitive primitive)) (weight_of_primitive_under known primitive) code.old code.new yes.old yes.new no.old no.new) }
{
    if known.excludes(&primitive) {
        return settled(code, known, no);
    }
    match primitive {
        Primitive::Ip => version(code, known, yes, no),
        Primitive::Proto(n) => {
            let mut ip = Passed::at_once(known);
            guard_ip(code, true, &mut ip, no)?;
            let sides = protocol(code, n, ip.on, yes, no)?;
            Ok(Sides {
                yes: sides.yes,
                no: ip.or_no(sides.no),
            })
        }
        Primitive::Host(direction, address) => {
            addresses(code, direction, &Check::Equal(address), known, yes, no)
        }
        Primitive::Net(direction, prefix) => {
            addresses(code, direction, &Check::Covered(prefix), known, yes, no)
        }
        Primitive::Port(transport, direction, n) => ports(
            code,
            transport,
            direction,
            &Check::Equal(n as u32),
            known,
            yes,
            no,
        ),
        Primitive::PortRange(transport, direction, n, m) => ports(
            code,
            transport,
            direction,
            &Check::Between(n, m),
            known,
            yes,
            no,
        ),
        Primitive::AtMost(n) => {
            bytes(code, Test::Greater, n, no, yes)?;
            Ok(Sides::both(known.with_in_a(None)))
        }
        Primitive::AtLeast(n) => {
            bytes(code, Test::GreaterOrEqual, n, yes, no)?;
            Ok(Sides::both(known.with_in_a(None)))
        }
    }
}
