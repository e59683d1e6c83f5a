//! Tests of a number from a packet.

ghost use Rattle.std.specs.Prelude.{◌≡◌, ◌+◌, ◌≤◌, OnOk, false, length, true};
ghost use Rattle.bpf_verify.specs.declared.TheConstants.{MAX_INSTRUCTIONS};
ghost use Rattle.filter_emit.specs.Pieces.{Writes};
ghost use Rattle.filter_tree.specs.Prefix.{covers};
ghost use Rattle.filter_tree.specs.Primitive.{is_between};
ghost use Rattle.filter_compile.specs.body.Header.{keeps_a, passes, weight_of_check, where_kept};
ghost use Rattle.filter_compile.specs.body.Piece.{Asks};

use bpf_insn::{Insn, Operand, Operation, Test};
use filter_emit::{Code, Label};
use filter_facts::Loaded;
use filter_tree::Prefix;
use std::alloc::{AllocError, Allocator};

/// A test of a number.
#[derive(Clone, Copy)]
pub(crate) enum Check {
    /// It is this number.
    Equal(u32),
    /// It begins with the prefix.
    Covered(Prefix),
    /// It lies between the two, both included, in either order.
    Between(u16, u16),
}

// The code of each expects the number in A.
fn covered<'a, A: Allocator>(
    code: &mut Code<'a, A>,
    prefix: Prefix,
    yes: &mut Label<'a, A>,
    no: &mut Label<'a, A>,
) -> Result<(), AllocError>
    requires room { length code.old + 4 ≤ MAX_INSTRUCTIONS }
    ensures writes { OnOk result (Writes (Asks false (covers prefix)) 4 code.old code.new yes.old yes.new no.old no.new) }
{
    let address = prefix.address();
    // The verifier refuses a shift by 32.
    if prefix.length() == 0 {
        code.push(Insn::Alu(Operation::And, Operand::K(0)))?;
        return code.branch(Test::Equal, Operand::K(0), yes, no);
    }
    let shift = 32 - prefix.length();
    code.push(Insn::Alu(Operation::Rsh, Operand::K(shift)))?;
    code.branch(Test::Equal, Operand::K(address >> shift), yes, no)
}

fn between<'a, A: Allocator>(
    code: &mut Code<'a, A>,
    n: u16,
    m: u16,
    yes: &mut Label<'a, A>,
    no: &mut Label<'a, A>,
) -> Result<(), AllocError>
    requires room { length code.old + 6 ≤ MAX_INSTRUCTIONS }
    requires behind { length code.old + 6 ≤ no.old.by }
    ensures writes { OnOk result (Writes (Asks true (is_between n m)) 6 code.old code.new yes.old yes.new no.old no.new) }
{
    let mut on = code.label(code.len() + 3);
    code.branch(
        Test::GreaterOrEqual,
        Operand::K(n.min(m) as u32),
        &mut on,
        no,
    )?;
    code.bind(&on);
    code.branch(Test::Greater, Operand::K(n.max(m) as u32), no, yes)
}

/// Writes the test.
pub(crate) fn ask<'a, A: Allocator>(
    code: &mut Code<'a, A>,
    check: &Check,
    yes: &mut Label<'a, A>,
    no: &mut Label<'a, A>,
) -> Result<(), AllocError>
    requires room { length code.old + weight_of_check check.now ≤ MAX_INSTRUCTIONS }
    requires behind { length code.old + weight_of_check check.now ≤ no.old.by }
    ensures writes { OnOk result (Writes (Asks (keeps_a check.now) (passes check.now)) (weight_of_check check.now) code.old code.new yes.old yes.new no.old no.new) }
{
    match check {
        Check::Equal(n) => code.branch(Test::Equal, Operand::K(*n), yes, no),
        Check::Covered(prefix) => covered(code, *prefix, yes, no),
        Check::Between(n, m) => between(code, *n, *m, yes, no),
    }
}

/// Returns what A has after a test of what was loaded, `None` if that is not known.
pub(crate) fn left_in_a(check: &Check, loaded: Loaded) -> Option<Loaded>
    ensures { result ≡ where_kept (keeps_a check.now) loaded }
{
    match check {
        Check::Equal(_) => Some(loaded),
        // The address was shifted.
        Check::Covered(_) => None,
        Check::Between(_, _) => Some(loaded),
    }
}
