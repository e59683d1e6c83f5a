//! The words of a program that is being written.

ghost use Rattle.std.specs.Prelude.{◌≡◌, ◌<◌, ◌≤◌, ◌+◌, ◌^◌, ◌++◌, ◌∷◌, Contains, IfOk, OnOk, [], false, length, true};
ghost use Rattle.bpf_insn.specs.declared.instruction.Insn.TheVariants.{Jump};
ghost use Rattle.bpf_verify.specs.declared.TheConstants.{MAX_INSTRUCTIONS};
ghost use Rattle.filter_emit.specs.Fixups.{AreOpen, CanReach, HasJump, IsAppended, IsBound, LabelValue, fixup_at};
ghost use Rattle.filter_emit.specs.declared.fixup.Fixup.{Fixup as FixupValue};
ghost use Rattle.filter_emit.specs.declared.fixup.Side.TheVariants.{Always};
ghost use Rattle.filter_emit.specs.Pieces.{Writes, far_words};
ghost use Rattle.filter_emit.specs.Runs.{GoesToYes};
ghost use Rattle.filter_emit.specs.Checks.{Checks, asks};
ghost use Rattle.filter_emit.specs.Guards.{Guards};
ghost use Rattle.filter_emit.specs.body.Filling.{IsFilledIn, SkipFits, with_jf, with_jt, with_k, with_skip};
ghost use Rattle.filter_emit.specs.body.Noting.{IsNoted};

use crate::fixup::{Fixup, Side};
use crate::label::Label;
use bpf_insn::{Insn, Offsets, Operand, Test};
use std::alloc::{AllocError, Allocator};
use std::marker::Model;

/// The words of a program that is being written, and the allocator of the lists of its labels.
///
/// Contracts see it as the list of its words. A place is the number of words before it. After a call that failed, nothing is
/// known of the code and of the labels that were passed.
#[derive(Drop)]
pub struct Code<'a, A: Allocator> {
    words: Vec<u64, A>,
    lists: &'a A,
}

impl<'a, A: Allocator> Model for Code<'a, A> {
    ghost use Rattle.std.specs.Prelude.{List, ℕ};

    ghost Value = { List ℕ };

    ghost view = { λ c. c.words.items };
}

impl<'a, A: Allocator> Code<'a, A> {
    /// Returns a program without words. `room` is a hint of how many words it will have; the lists of its labels are
    /// allocated in `lists`. Fails if the allocation is refused.
    pub fn with_room(alloc: A, lists: &'a A, room: usize) -> Result<Code<'a, A>, AllocError>
        ensures empty { IfOk result (λ code. code ≡ []) }
    {
        Ok(Code {
            words: Vec::with_capacity(alloc, room)?,
            lists,
        })
    }

    /// Returns the number of its words.
    pub fn len(&self) -> u32
        requires room { length self.now ≤ MAX_INSTRUCTIONS }
        ensures length { result ≡ length self.now }
    {
        self.words.len() as u32
    }

    /// Returns a label without fixups, to be bound at the place `by` or before.
    pub fn label(&self, by: u32) -> Label<'a, A>
        ensures empty { result.fixups ≡ [] }
        ensures by { result.by ≡ by }
    {
        Label::new(self.lists, by)
    }

    /// Writes an instruction. Fails if an allocation is refused.
    #[inline(always)]
    pub fn push(&mut self, insn: Insn) -> Result<(), AllocError>
        ensures appended { OnOk result (IsAppended insn self.old self.new) }
    {
        self.words.push(insn.to_word())?;
        Ok(())
    }

    /// Binds the label to the end of the code: patches each of its fixups, so that each of its jumps goes there.
    pub fn bind(&mut self, label: &Label<'a, A>)
        requires open { AreOpen label.now.fixups label.now.by self.old }
        requires by { length self.old ≤ label.now.by }
        requires room { length self.old ≤ MAX_INSTRUCTIONS }
        ensures bound { IsBound label.now.fixups self.old self.new }
    {
        fill_all(&mut self.words, label.fixups());
    }

    /// Writes a test that goes to `yes` if it is true, and to `no` if not. A label that may be bound more than 256 places after the
    /// test is too far for its jump, and is reached by a JA. Fails if an allocation is refused.
    #[inline(always)]
    pub fn branch(
        &mut self,
        test: Test,
        operand: Operand,
        yes: &mut Label<'a, A>,
        no: &mut Label<'a, A>,
    ) -> Result<(), AllocError>
        requires room { length self.old + 3 ≤ MAX_INSTRUCTIONS }
        ensures writes { OnOk result (Writes (Checks (λ a. a) (asks test operand)) 3 self.old self.new yes.old yes.new no.old no.new) }
        ensures words { OnOk result (length self.new ≡ length self.old + 1 + far_words (length self.old) yes.old.by + far_words (length self.old) no.old.by) }
    {
        let place = self.len();
        let far_yes = is_far(place, yes.by());
        let far_no = is_far(place, no.by());
        // If both are far, the JA to `no` comes after the JA to `yes`.
        let jf = if far_yes && far_no { 1 } else { 0 };
        self.push(Insn::JumpIf(test, operand, Offsets { jt: 0, jf }))?;
        self.note(far_yes, place, Side::WhenTrue, yes)?;
        self.note(far_no, place, Side::WhenFalse, no)?;
        Ok(())
    }

    /// Writes a test that falls through if it is true, and goes to `no` if not: as `branch`, without a label for the code after
    /// it. Fails if an allocation is refused.
    #[inline(always)]
    pub fn branch_unless(
        &mut self,
        test: Test,
        operand: Operand,
        no: &mut Label<'a, A>,
    ) -> Result<(), AllocError>
        requires room { length self.old + 2 ≤ MAX_INSTRUCTIONS }
        ensures guards { OnOk result (Guards (Checks (λ a. a) (asks test operand)) 2 self.old self.new no.old no.new) }
        ensures words { OnOk result (length self.new ≡ length self.old + 1 + far_words (length self.old) no.old.by) }
    {
        let place = self.len();
        let far = is_far(place, no.by());
        // If the label is far, a test that is true skips the JA to it.
        let jt = if far { 1 } else { 0 };
        self.push(Insn::JumpIf(test, operand, Offsets { jt, jf: 0 }))?;
        self.note(far, place, Side::WhenFalse, no)?;
        Ok(())
    }

    /// Writes a test that goes to `yes` if it is true, and falls through if not. Fails if an allocation is refused.
    #[inline(always)]
    pub fn branch_if(
        &mut self,
        test: Test,
        operand: Operand,
        yes: &mut Label<'a, A>,
    ) -> Result<(), AllocError>
        requires room { length self.old + 2 ≤ MAX_INSTRUCTIONS }
        ensures guards { OnOk result (Guards (λ at_no at_yes words. Checks (λ a. a) (asks test operand) at_yes at_no words) 2 self.old self.new yes.old yes.new) }
        ensures words { OnOk result (length self.new ≡ length self.old + 1 + far_words (length self.old) yes.old.by) }
    {
        let place = self.len();
        let far = is_far(place, yes.by());
        let jf = if far { 1 } else { 0 };
        self.push(Insn::JumpIf(test, operand, Offsets { jt: 0, jf }))?;
        self.note(far, place, Side::WhenTrue, yes)?;
        Ok(())
    }

    /// Writes an instruction that always goes to the label. Fails if an allocation is refused.
    pub fn branch_always(&mut self, label: &mut Label<'a, A>) -> Result<(), AllocError>
        requires room { length self.old + 1 ≤ MAX_INSTRUCTIONS }
        ensures writes { OnOk result ((other : LabelValue) → Writes GoesToYes 1 self.old self.new label.old label.new other other) }
    {
        let place = self.len();
        if is_far(place, label.by()) {
            self.jump(label)?;
        } else {
            // Both jumps of the test go to the label, whatever A is.
            self.push(Insn::JumpIf(Test::Equal, Operand::K(0), Offsets { jt: 0, jf: 0 }))?;
            label.add(place, Side::WhenTrue)?;
            label.add(place, Side::WhenFalse)?;
        }
        Ok(())
    }

    // Adds a fixup to the label: for one side of the test at the place, or for a JA that this side leads to if the
    // label is far.
    #[inline(always)]
    fn note(
        &mut self,
        far: bool,
        place: u32,
        side: Side,
        label: &mut Label<'a, A>,
    ) -> Result<(), AllocError>
        requires room { length self.old ≤ MAX_INSTRUCTIONS }
        ensures noted { OnOk result (IsNoted far place side self.old self.new label.old label.new) }
        ensures by { label.new.by ≡ label.old.by }
    {
        if far {
            self.jump(label)?;
        } else {
            label.add(place, side)?;
        }
        Ok(())
    }

    // Writes a JA to the label.
    fn jump(&mut self, label: &mut Label<'a, A>) -> Result<(), AllocError>
        requires room { length self.old ≤ MAX_INSTRUCTIONS }
        ensures appended { OnOk result (IsAppended (Jump 0) self.old self.new) }
        ensures fixups { OnOk result (label.new.fixups ≡ label.old.fixups ++ fixup_at (length self.old) Always ∷ []) }
        ensures by { label.new.by ≡ label.old.by }
    {
        let place = self.len();
        self.push(Insn::Jump(0))?;
        label.add(place, Side::Always)
    }

    /// Returns the words.
    pub fn into_words(self) -> Vec<u64, A>
        ensures words { result.items ≡ self.entry }
    {
        self.words
    }
}

// Tests whether a label can be too far for the jump of a test at the place.
// The reason: docs/INTERNALS.md, "A far jump is decided by weights".
fn is_far(place: u32, by: u32) -> bool
    requires room { place ≤ MAX_INSTRUCTIONS }
    ensures far { result ≡ true → place + 256 < by }
    ensures near { result ≡ false → by ≤ place + 256 }
{
    by > place + 256
}

// Patches one fixup: the bits of its jump in the word.
fn fill<A: Allocator>(words: &mut Vec<u64, A>, fixup: Fixup, to: usize)
    requires there { HasJump words.old.items fixup.place fixup.side }
    requires within { fixup.place < length words.old.items }
    requires behind { fixup.place < to }
    requires near { CanReach fixup.place fixup.side to }
    requires room { to ≤ MAX_INSTRUCTIONS }
    ensures filled { IsFilledIn fixup to words.old.items words.new.items }
{
    let place = fixup.place as usize;
    let skip = to - place - 1;
    words[place] = with_skip(fixup.side, words[place], skip as u64);
}

// The word with another jump.
fn with_skip(side: Side, word: u64, skip: u64) -> u64
    requires fits { SkipFits side skip }
    ensures { result ≡ with_skip side word skip }
{
    match side {
        Side::WhenTrue => with_jt(word, skip),
        Side::WhenFalse => with_jf(word, skip),
        Side::Always => with_k(word, skip),
    }
}

fn with_jt(word: u64, jt: u64) -> u64
    requires fits { jt < 2 ^ 8 }
    ensures { result ≡ with_jt word jt }
{
    word / (1 << 48) * (1 << 48) + jt * (1 << 40) + word % (1 << 40)
}

fn with_jf(word: u64, jf: u64) -> u64
    requires fits { jf < 2 ^ 8 }
    ensures { result ≡ with_jf word jf }
{
    word / (1 << 40) * (1 << 40) + jf * (1 << 32) + word % (1 << 32)
}

fn with_k(word: u64, k: u64) -> u64
    requires fits { k < 2 ^ 32 }
    ensures { result ≡ with_k word k }
{
    word / (1 << 32) * (1 << 32) + k
}

// Patches fixups with the end of the code.
fn fill_all<A: Allocator>(words: &mut Vec<u64, A>, fixups: &[Fixup])
    requires there { (fixup : FixupValue) → Contains fixups.now fixup → HasJump words.old.items fixup.place fixup.side }
    requires within { (fixup : FixupValue) → Contains fixups.now fixup → fixup.place < length words.old.items }
    requires near { (fixup : FixupValue) → Contains fixups.now fixup → CanReach fixup.place fixup.side (length words.old.items) }
    requires room { length words.old.items ≤ MAX_INSTRUCTIONS }
    ensures bound { IsBound fixups.now words.old.items words.new.items }
{
    let to = words.len();
    for fixup in fixups {
        fill(words, *fixup, to);
    }
}
