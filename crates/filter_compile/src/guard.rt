//! Tests that come before others. Each falls through if it is true, and is left out if it is known to be true.

ghost use Rattle.std.specs.Prelude.{◌≡◌, ◌≢◌, ◌+◌, ◌≤◌, None, OnOk, Some, false, length, true};
ghost use Rattle.ipv4_fields.specs.declared.header.Field.TheVariants.{Protocol};
ghost use Rattle.ipv4_fields.specs.Field.{field_of};
ghost use Rattle.bpf_verify.specs.declared.TheConstants.{MAX_INSTRUCTIONS};
ghost use Rattle.filter_tree.specs.declared.primitive.Transport.{Transport};
ghost use Rattle.filter_tree.specs.declared.truth.Truth.{Truth};
ghost use Rattle.filter_tree.specs.declared.truth.Truth.TheVariants.{Yes};
ghost use Rattle.filter_tree.specs.Measure.{weight_where};
ghost use Rattle.filter_tree.specs.Outcome.{tested, where_so};
ghost use Rattle.filter_tree.specs.Primitive.{has_ports, is_first_fragment, is_ip, is_protocol};
ghost use Rattle.filter_facts.specs.Known.{Settles};
ghost use Rattle.filter_facts.specs.Told.{first_fragment_of, ip_of, transport_of};
ghost use Rattle.filter_compile.specs.body.Header.{weight_of_transport};
ghost use Rattle.filter_compile.specs.body.Sides.{Adds};
ghost use Rattle.filter_compile.specs.body.Weight.{leads_to_ports, version_weight_under};

use crate::header::{pass_first_fragment, pass_ip, pass_ports, pass_protocol};
use crate::sides::Passed;
use filter_emit::{Code, Label};
use filter_facts::{Known, Loaded};
use filter_tree::Transport;
use std::alloc::{AllocError, Allocator};

/// Tests whether a test has to be written: it is needed, and is not known to be true.
pub(crate) fn must_ask(used: bool, told: Option<bool>) -> bool
    ensures used { result ≡ true → used ≡ true }
    ensures asked { result ≡ true → told ≢ Some true }
    ensures known { result ≡ false → used ≡ true → told ≡ Some true }
    ensures left_out { result ≡ false → (truth : Truth) → Settles told truth → where_so used truth ≡ Yes }
{
    match told {
        Some(true) => false,
        _ => used,
    }
}

// Each of these takes what is known after the guards before it, and adds what is known after itself.

#[inline(always)]
pub(crate) fn guard_ip<'a, A: Allocator>(
    code: &mut Code<'a, A>,
    used: bool,
    passed: &mut Passed,
    no: &mut Label<'a, A>,
) -> Result<(), AllocError>
    requires room { length code.old + weight_where used (version_weight_under passed.old.on) ≤ MAX_INSTRUCTIONS }
    ensures adds { OnOk result (Adds (λ packet. where_so used (is_ip packet)) (weight_where used (version_weight_under passed.old.on)) code.old code.new passed.old passed.new no.old no.new) }
    ensures learned { OnOk result (used ≡ true → ip_of passed.old.on ≢ Some false → ip_of passed.new.on ≡ Some true) }
    ensures same_transport { OnOk result ((transport : Transport) → transport_of passed.new.on transport ≡ transport_of passed.old.on transport) }
{
    if !must_ask(used, passed.on.ip()) {
        return Ok(());
    }
    ask_ip(code, passed, no)
}

/// Writes the test of the version. Separate from `guard_ip`: otherwise a guard that writes nothing would reserve stack
/// for this one.
#[inline(never)]
pub(crate) fn ask_ip<'a, A: Allocator>(
    code: &mut Code<'a, A>,
    passed: &mut Passed,
    no: &mut Label<'a, A>,
) -> Result<(), AllocError>
    requires room { length code.old + 5 ≤ MAX_INSTRUCTIONS }
    ensures adds { OnOk result (Adds is_ip 5 code.old code.new passed.old passed.new no.old no.new) }
    ensures learned { OnOk result (ip_of passed.old.on ≡ None → ip_of passed.new.on ≡ Some true) }
    ensures same_transport { OnOk result ((transport : Transport) → transport_of passed.new.on transport ≡ transport_of passed.old.on transport) }
{
    pass_ip(code, no)?;
    let asked = passed.on.with_in_a(None);
    passed.learn(asked.with_ip(), asked.without_ip());
    Ok(())
}

#[inline(always)]
pub(crate) fn guard_protocol<'a, A: Allocator>(
    code: &mut Code<'a, A>,
    used: bool,
    n: u8,
    passed: &mut Passed,
    no: &mut Label<'a, A>,
) -> Result<(), AllocError>
    requires room { length code.old + weight_where used 4 ≤ MAX_INSTRUCTIONS }
    ensures adds { OnOk result (Adds (λ packet. where_so used (is_protocol n packet)) (weight_where used 4) code.old code.new passed.old passed.new no.old no.new) }
{
    if !used {
        return Ok(());
    }
    if !must_ask(used, passed.on.protocol(n)) {
        return Ok(());
    }
    ask_protocol(code, n, passed, no)
}

#[inline(never)]
fn ask_protocol<'a, A: Allocator>(
    code: &mut Code<'a, A>,
    n: u8,
    passed: &mut Passed,
    no: &mut Label<'a, A>,
) -> Result<(), AllocError>
    requires room { length code.old + 4 ≤ MAX_INSTRUCTIONS }
    ensures adds { OnOk result (Adds (is_protocol n) 4 code.old code.new passed.old passed.new no.old no.new) }
{
    pass_protocol(code, n, passed.on.in_a(), no)?;
    let asked = passed.on.with_in_a(Some(Loaded::Protocol));
    passed.learn(asked.with_protocol(n), asked.without_protocol(n));
    Ok(())
}

/// Tests whether every test that comes before ports is known to be true.
pub(crate) fn leads_to_ports(known: Known, transport: Transport) -> bool
    ensures { result ≡ leads_to_ports known transport }
{
    known.first_fragment() && matches!(known.transport(transport), Some(true))
}

pub(crate) fn guard_transport<'a, A: Allocator>(
    code: &mut Code<'a, A>,
    transport: Transport,
    passed: &mut Passed,
    no: &mut Label<'a, A>,
) -> Result<(), AllocError>
    requires room { length code.old + weight_of_transport transport ≤ MAX_INSTRUCTIONS }
    requires behind { length code.old + weight_of_transport transport ≤ no.old.by }
    ensures adds { OnOk result (Adds (λ packet. tested (has_ports transport) (field_of Protocol packet)) (weight_of_transport transport) code.old code.new passed.old passed.new no.old no.new) }
    ensures learned { OnOk result (ip_of passed.old.on ≡ Some true → transport_of passed.old.on transport ≢ Some false → transport_of passed.new.on transport ≡ Some true) }
{
    if !must_ask(true, passed.on.transport(transport)) {
        return Ok(());
    }
    pass_ports(code, transport, passed.on.in_a(), no)?;
    let asked = passed.on.with_in_a(Some(Loaded::Protocol));
    passed.learn(
        asked.with_transport(transport),
        asked.without_transport(transport),
    );
    Ok(())
}

#[inline(always)]
pub(crate) fn guard_first_fragment<'a, A: Allocator>(
    code: &mut Code<'a, A>,
    used: bool,
    passed: &mut Passed,
    no: &mut Label<'a, A>,
) -> Result<(), AllocError>
    requires room { length code.old + weight_where used 4 ≤ MAX_INSTRUCTIONS }
    ensures adds { OnOk result (Adds (λ packet. where_so used (is_first_fragment packet)) (weight_where used 4) code.old code.new passed.old passed.new no.old no.new) }
    ensures learned { OnOk result (used ≡ true → ip_of passed.old.on ≡ Some true → first_fragment_of passed.new.on ≡ true) }
    ensures same_transport { OnOk result ((transport : Transport) → transport_of passed.new.on transport ≡ transport_of passed.old.on transport) }
{
    if !used {
        return Ok(());
    }
    if passed.on.first_fragment() {
        return Ok(());
    }
    ask_first_fragment(code, passed, no)
}

#[inline(never)]
fn ask_first_fragment<'a, A: Allocator>(
    code: &mut Code<'a, A>,
    passed: &mut Passed,
    no: &mut Label<'a, A>,
) -> Result<(), AllocError>
    requires room { length code.old + 4 ≤ MAX_INSTRUCTIONS }
    ensures adds { OnOk result (Adds is_first_fragment 4 code.old code.new passed.old passed.new no.old no.new) }
    ensures learned { OnOk result (ip_of passed.old.on ≡ Some true → first_fragment_of passed.new.on ≡ true) }
    ensures same_transport { OnOk result ((transport : Transport) → transport_of passed.new.on transport ≡ transport_of passed.old.on transport) }
{
    pass_first_fragment(code, no)?;
    let asked = passed.on.with_in_a(None);
    passed.learn(asked.with_first_fragment(), asked);
    Ok(())
}
