//! The two ends of a packet: their addresses and ports.

ghost use Rattle.std.specs.Prelude.{◌≡◌, ◌+◌, ◌≤◌, IfOk, length, true};
ghost use Rattle.bpf_verify.specs.declared.TheConstants.{MAX_INSTRUCTIONS};
ghost use Rattle.filter_emit.specs.Pieces.{Writes};
ghost use Rattle.filter_tree.specs.Outcome.{tested};
ghost use Rattle.filter_tree.specs.declared.primitive.Direction.TheVariants.{Both, Either};
ghost use Rattle.filter_facts.specs.Known.{Holds, loaded_of};
ghost use Rattle.filter_facts.specs.Told.{header_in_x_of};
ghost use Rattle.filter_compile.specs.declared.ends.Part.TheVariants.{Port};
ghost use Rattle.filter_compile.specs.body.Header.{by_header, destination_of, ends_pass, passes, source_of, weight_of_check, weight_of_ends};
ghost use Rattle.filter_compile.specs.body.Piece.{Tests};
ghost use Rattle.filter_compile.specs.body.Sides.{IsSameButA};

use crate::check::{Check, ask, left_in_a};
use crate::load::load;
use crate::sides::Sides;
use filter_emit::{Code, Label};
use filter_facts::{Known, Loaded};
use filter_tree::Direction;
use std::alloc::{AllocError, Allocator};

/// The part of an end that is loaded.
#[derive(Clone, Copy)]
pub(crate) enum Part {
    Address,
    /// Needs the length of the IPv4 header in X.
    Port,
}

impl Part {
    fn source(self) -> Loaded
        ensures { result ≡ source_of self }
    {
        match self {
            Part::Address => Loaded::Source,
            Part::Port => Loaded::SourcePort,
        }
    }

    fn destination(self) -> Loaded
        ensures { result ≡ destination_of self }
    {
        match self {
            Part::Address => Loaded::Destination,
            Part::Port => Loaded::DestinationPort,
        }
    }
}

// Writes the test of one end, and returns what is known after it, which is the same on both sides.
fn test_end<'a, A: Allocator>(
    code: &mut Code<'a, A>,
    end: Loaded,
    check: &Check,
    known: Known,
    yes: &mut Label<'a, A>,
    no: &mut Label<'a, A>,
) -> Result<Known, AllocError>
    requires header { by_header end ≡ true → header_in_x_of known ≡ true }
    requires room { length code.old + (weight_of_check check.now + 1) ≤ MAX_INSTRUCTIONS }
    requires behind { length code.old + (weight_of_check check.now + 1) ≤ no.old.by }
    ensures writes { IfOk result (λ on. Writes (Tests (Holds known) (Holds on) (Holds on) (λ packet. tested (passes check.now) (loaded_of end packet))) (weight_of_check check.now + 1) code.old code.new yes.old yes.new no.old no.new) }
    ensures same { IfOk result (IsSameButA known) }
{
    load(code, end, known.in_a())?;
    ask(code, check, yes, no)?;
    Ok(known.with_in_a(left_in_a(check, end)))
}

// The most instructions of the test of one end.
const ONE_END: u32 = 7;

/// Writes the test of the ends that a direction means, the source first.
pub(crate) fn ends<'a, A: Allocator>(
    code: &mut Code<'a, A>,
    part: Part,
    direction: Direction,
    check: &Check,
    known: Known,
    yes: &mut Label<'a, A>,
    no: &mut Label<'a, A>,
) -> Result<Sides, AllocError>
    requires header { part ≡ Port → header_in_x_of known ≡ true }
    requires room { length code.old + weight_of_ends direction check.now ≤ MAX_INSTRUCTIONS }
    requires yes_behind { length code.old + weight_of_ends direction check.now ≤ yes.old.by }
    requires behind { length code.old + weight_of_ends direction check.now ≤ no.old.by }
    ensures writes { IfOk result (λ sides. Writes (Tests (Holds known) (Holds sides.yes) (Holds sides.no) (ends_pass part direction check.now)) (weight_of_ends direction check.now) code.old code.new yes.old yes.new no.old no.new) }
{
    match direction {
        Direction::Source => match test_end(code, part.source(), check, known, yes, no) {
            Ok(behind) => Ok(Sides::both(behind)),
            Err(error) => Err(error),
        },
        Direction::Destination => match test_end(code, part.destination(), check, known, yes, no) {
            Ok(behind) => Ok(Sides::both(behind)),
            Err(error) => Err(error),
        },
        Direction::Either => either_end(code, part, check, known, yes, no),
        Direction::Both => both_ends(code, part, check, known, yes, no),
    }
}

// Each of these has a label of its own, which `ends` would drop on every return.

fn either_end<'a, A: Allocator>(
    code: &mut Code<'a, A>,
    part: Part,
    check: &Check,
    known: Known,
    yes: &mut Label<'a, A>,
    no: &mut Label<'a, A>,
) -> Result<Sides, AllocError>
    requires header { part ≡ Port → header_in_x_of known ≡ true }
    requires room { length code.old + weight_of_ends Either check.now ≤ MAX_INSTRUCTIONS }
    requires yes_behind { length code.old + weight_of_ends Either check.now ≤ yes.old.by }
    requires behind { length code.old + weight_of_ends Either check.now ≤ no.old.by }
    ensures writes { IfOk result (λ sides. Writes (Tests (Holds known) (Holds sides.yes) (Holds sides.no) (ends_pass part Either check.now)) (weight_of_ends Either check.now) code.old code.new yes.old yes.new no.old no.new) }
{
    let mut on = code.label(code.len() + ONE_END);
    let first = test_end(code, part.source(), check, known, yes, &mut on)?;
    code.bind(&on);
    let second = test_end(code, part.destination(), check, first, yes, no)?;
    Ok(Sides {
        yes: known.with_in_a(None),
        no: second,
    })
}

fn both_ends<'a, A: Allocator>(
    code: &mut Code<'a, A>,
    part: Part,
    check: &Check,
    known: Known,
    yes: &mut Label<'a, A>,
    no: &mut Label<'a, A>,
) -> Result<Sides, AllocError>
    requires header { part ≡ Port → header_in_x_of known ≡ true }
    requires room { length code.old + weight_of_ends Both check.now ≤ MAX_INSTRUCTIONS }
    requires yes_behind { length code.old + weight_of_ends Both check.now ≤ yes.old.by }
    requires behind { length code.old + weight_of_ends Both check.now ≤ no.old.by }
    ensures writes { IfOk result (λ sides. Writes (Tests (Holds known) (Holds sides.yes) (Holds sides.no) (ends_pass part Both check.now)) (weight_of_ends Both check.now) code.old code.new yes.old yes.new no.old no.new) }
{
    let mut on = code.label(code.len() + ONE_END);
    let first = test_end(code, part.source(), check, known, &mut on, no)?;
    code.bind(&on);
    let second = test_end(code, part.destination(), check, first, yes, no)?;
    Ok(Sides {
        yes: second,
        no: known.with_in_a(None),
    })
}
