//! Instructions as they are written; a jump may go to a label (docs/MACHINE.md, "Assembly text").

ghost use Rattle.std.specs.Prelude.{◌≡◌};
ghost use Rattle.std.specs.Option.{option_map};
ghost use Rattle.bpf_asm.specs.body.Reading.{alone, branch_behind, cell_operand, far_of, insn_in, near_in, operand_of, other_insn, return_of, short_load, statement_in, tokens_of, unbranched, word_load, x_load};
ghost use Rattle.bpf_asm.specs.body.View.{form_of, statement_of, target_of};

use crate::mnemonic::{is_name, operation_of, test_of};
use crate::operand::{Form, operand_form};
use crate::token::{Token, after_mark, first_token, is_blank};
use bpf_insn::{Insn, Operand, Size, Test};

/// The target of a jump.
#[derive(Clone, Copy)]
pub(crate) enum Target<'a> {
    // So many instructions past the next one.
    Skips(u32),
    GoesTo(&'a [u8]),
}

#[derive(Clone, Copy)]
pub(crate) enum Statement<'a> {
    Plain(Insn),
    Jump(Target<'a>),
    Branch(Test, Operand, Target<'a>, Target<'a>),
}

#[tactic(auto, unfolding(crate::specs::body::Reading::word_load))]
fn word_load(form: Form) -> Option<Insn>
    ensures { result ≡ word_load (form_of form.entry) }
{
    match form {
        Form::Absolute(k) => Some(Insn::LoadAbsolute(Size::Word, k)),
        Form::Indexed(k) => Some(Insn::LoadIndexed(Size::Word, k)),
        Form::Constant(k) => Some(Insn::LoadConstant(k)),
        Form::Cell(k) => Some(Insn::LoadCell(k)),
        Form::Name(name) if is_name(name, "len") => Some(Insn::LoadLength),
        _ => None,
    }
}

#[tactic(auto, unfolding(crate::specs::body::Reading::short_load))]
fn short_load(size: Size, form: Form) -> Option<Insn>
    ensures { result ≡ short_load size (form_of form.entry) }
{
    match form {
        Form::Absolute(k) => Some(Insn::LoadAbsolute(size, k)),
        Form::Indexed(k) => Some(Insn::LoadIndexed(size, k)),
        _ => None,
    }
}

#[tactic(auto, unfolding(crate::specs::body::Reading::x_load))]
fn x_load(form: Form) -> Option<Insn>
    ensures { result ≡ x_load (form_of form.entry) }
{
    match form {
        Form::Constant(k) => Some(Insn::LoadXConstant(k)),
        Form::Cell(k) => Some(Insn::LoadXCell(k)),
        Form::Header(k) => Some(Insn::LoadXHeader(k)),
        Form::Name(name) if is_name(name, "len") => Some(Insn::LoadXLength),
        _ => None,
    }
}

#[tactic(auto, unfolding(crate::specs::body::Reading::cell_operand))]
fn cell_of(form: Form) -> Option<u32>
    ensures { result ≡ cell_operand (form_of form.entry) }
{
    match form {
        Form::Cell(k) => Some(k),
        _ => None,
    }
}

#[tactic(auto, unfolding(crate::specs::body::Reading::return_of))]
fn return_of(form: Form) -> Option<Insn>
    ensures { result ≡ return_of (form_of form.entry) }
{
    match form {
        Form::Constant(k) => Some(Insn::ReturnConstant(k)),
        Form::Name(name) if is_name(name, "a") => Some(Insn::ReturnA),
        _ => None,
    }
}

#[tactic(auto, unfolding(crate::specs::body::Reading::operand_of))]
fn operand_of(form: Form) -> Option<Operand>
    ensures { result ≡ operand_of (form_of form.entry) }
{
    match form {
        Form::Constant(k) => Some(Operand::K(k)),
        Form::Name(name) if is_name(name, "x") => Some(Operand::X),
        _ => None,
    }
}

#[tactic(auto, unfolding(crate::specs::body::Reading::alone))]
fn alone(insn: Insn, form: Form) -> Option<Insn>
    ensures { result ≡ alone insn (form_of form.entry) }
{
    match form {
        Form::Nothing => Some(insn),
        _ => None,
    }
}

// An instruction that is no jump and no operation with an operand.
#[tactic(auto, unfolding(crate::specs::body::Reading::other_insn))]
fn other_insn(name: &[u8], form: Form) -> Option<Insn>
    ensures { result ≡ other_insn name.now (form_of form.entry) }
{
    if is_name(name, "ld") {
        word_load(form)
    } else if is_name(name, "ldh") {
        short_load(Size::Half, form)
    } else if is_name(name, "ldb") {
        short_load(Size::Byte, form)
    } else if is_name(name, "ldx") {
        x_load(form)
    } else if is_name(name, "st") {
        match cell_of(form) {
            Some(k) => Some(Insn::Store(k)),
            None => None,
        }
    } else if is_name(name, "stx") {
        match cell_of(form) {
            Some(k) => Some(Insn::StoreX(k)),
            None => None,
        }
    } else if is_name(name, "ret") {
        return_of(form)
    } else if is_name(name, "neg") {
        alone(Insn::Negate, form)
    } else if is_name(name, "tax") {
        alone(Insn::CopyToX, form)
    } else if is_name(name, "txa") {
        alone(Insn::CopyFromX, form)
    } else {
        None
    }
}

#[tactic(auto, unfolding(crate::specs::body::Reading::insn_in))]
fn insn_of(name: &[u8], form: Form) -> Option<Insn>
    ensures { result ≡ insn_in name.now (form_of form.entry) }
{
    match operation_of(name) {
        Some(operation) => match operand_of(form) {
            Some(operand) => Some(Insn::Alu(operation, operand)),
            None => None,
        },
        None => other_insn(name, form),
    }
}

#[tactic(auto, unfolding(crate::specs::body::Reading::far_of))]
fn far_target(form: Form<'_>) -> Option<Target<'_>>
    ensures { option_map target_of result ≡ far_of (form_of form.entry) }
{
    match form {
        Form::Skip(k) => Some(Target::Skips(k)),
        Form::Name(name) => Some(Target::GoesTo(name)),
        _ => None,
    }
}

#[tactic(auto, unfolding(crate::specs::body::Reading::near_in))]
fn near_target(line: &[u8]) -> Option<(Target<'_>, &[u8])>
    ensures { option_map (λ found. (target_of found.0, tokens_of found.1.now)) result ≡ near_in (tokens_of line.now) }
{
    match first_token(line) {
        Some((Token::Number(k), rest)) => Some((Target::Skips(k), rest)),
        Some((Token::Word(name), rest)) => Some((Target::GoesTo(name), rest)),
        _ => None,
    }
}

// A conditional jump whose operand was read; `line` follows the operand.
#[tactic(auto, unfolding(crate::specs::body::Reading::branch_behind))]
fn branch<'a>(test: Test, form: Form<'a>, line: &'a [u8]) -> Option<Statement<'a>>
    ensures { option_map statement_of result ≡ branch_behind test (form_of form.entry) (tokens_of line.now) }
{
    let Some(operand) = operand_of(form) else {
        return None;
    };
    let Some(rest) = after_mark(line, b',') else {
        return None;
    };
    let Some((yes, rest)) = near_target(rest) else {
        return None;
    };
    let Some(rest) = after_mark(rest, b',') else {
        return None;
    };
    let Some((no, rest)) = near_target(rest) else {
        return None;
    };
    if is_blank(rest) {
        Some(Statement::Branch(test, operand, yes, no))
    } else {
        None
    }
}

#[tactic(auto, unfolding(crate::specs::body::Reading::unbranched))]
fn unbranched<'a>(name: &[u8], form: Form<'a>) -> Option<Statement<'a>>
    ensures { option_map statement_of result ≡ unbranched name.now (form_of form.entry) }
{
    if is_name(name, "ja") {
        match far_target(form) {
            Some(target) => Some(Statement::Jump(target)),
            None => None,
        }
    } else {
        match insn_of(name, form) {
            Some(insn) => Some(Statement::Plain(insn)),
            None => None,
        }
    }
}

/// Reads the instruction of a mnemonic and of the rest of its line.
#[tactic(auto, unfolding(crate::specs::body::Reading::branch_in, crate::specs::body::Reading::unbranched_in, crate::specs::body::Reading::statement_in))]
pub(crate) fn read_statement<'a>(name: &[u8], line: &'a [u8]) -> Option<Statement<'a>>
    ensures { option_map statement_of result ≡ statement_in name.now (tokens_of line.now) }
{
    let Some((form, rest)) = operand_form(line) else {
        return None;
    };
    if let Some(test) = test_of(name) {
        branch(test, form, rest)
    } else if is_blank(rest) {
        unbranched(name, form)
    } else {
        None
    }
}
