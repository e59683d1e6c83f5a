//! A script that is read in pieces: the switch that has replied to its requests, and the request that has not ended yet.

ghost use Rattle.std.specs.Prelude.{◌≡◌, ◌∷◌, IfOk, List, MatchOption, Ok, OnOk, Option, [], ℕ};
ghost use Rattle.ipv4_fields.specs.Cut.{IsSplitAt, Lacks};
ghost use Rattle.control.specs.body.Ready.{AreOutside};
ghost use Rattle.control.specs.body.ScriptSoFar.{Advances, AnswersHeld, Ends, IsAt, OutputFailedBy};
ghost use Rattle.control.specs.body.Waiting.{WritesWaiting};

use crate::fault::ReplayFault;
use crate::held::Held;
use crate::replies::Replies;
use crate::streams::Output;
use crate::switch::Switch;
use memchr::memchr;
use std::alloc::{AllocError, Global};

/// A script whose requests have their replies up to a place of it.
#[derive(Drop)]
pub(crate) struct Script {
    switch: Switch,
    held: Held,
}

impl Script {
    pub(crate) fn open(alloc: Global) -> Result<Script, AllocError>
        ensures at_start { IfOk result (λ script. (start : Option (List ℕ)) → IsAt [] start script start []) }
        ensures outside { IfOk result (λ script. AreOutside script.switch.operator.table script.switch.workers.items) }
    {
        Ok(Script {
            switch: Switch::open(alloc)?,
            held: Held::new(alloc),
        })
    }

    // Replies to the request that is held, which ends here. The reply waits.
    fn answer_held<W: Output>(
        &mut self,
        alloc: Global,
        replies: &mut Replies,
        writer: &mut W,
    ) -> Result<(), ReplayFault>
        requires outside { AreOutside self.old.switch.operator.table self.old.switch.workers.items }
        ensures answers { AnswersHeld (W.state writer.new).failures self.old self.new (W.state writer.old).taken replies.old (W.state writer.new).taken replies.new result }
        ensures outside { OnOk result (AreOutside self.new.switch.operator.table self.new.switch.workers.items) }
        ensures device_failed { OutputFailedBy result (W.state writer.old).failures (W.state writer.new).failures }
        ensures rest_kept { W.rest writer.new ≡ W.rest writer.old }
    {
        let reply = self.switch.answer(alloc, &self.held.bytes)?;
        self.held.clear();
        let Ok(()) = replies.add(&reply, writer) else {
            return Err(ReplayFault::WriteFailed);
        };
        Ok(())
    }

    // Ends a line. If the request ends with it, replies to the request, and the reply waits.
    fn end_line<W: Output>(
        &mut self,
        alloc: Global,
        replies: &mut Replies,
        writer: &mut W,
    ) -> Result<(), ReplayFault>
        requires outside { AreOutside self.old.switch.operator.table self.old.switch.workers.items }
        ensures advances { Advances (W.state writer.new).failures (10 ∷ []) self.old self.new (W.state writer.old).taken replies.old (W.state writer.new).taken replies.new result }
        ensures outside { OnOk result (AreOutside self.new.switch.operator.table self.new.switch.workers.items) }
        ensures device_failed { OutputFailedBy result (W.state writer.old).failures (W.state writer.new).failures }
        ensures rest_kept { W.rest writer.new ≡ W.rest writer.old }
    {
        if !self.held.end_line()? {
            return Ok(());
        }
        self.answer_held(alloc, replies, writer)
    }

    // Takes the next bytes, and replies to each request that they end. The last replies wait.
    fn answer_lines<W: Output>(
        &mut self,
        alloc: Global,
        bytes: &[u8],
        replies: &mut Replies,
        writer: &mut W,
    ) -> Result<(), ReplayFault>
        requires outside { AreOutside self.old.switch.operator.table self.old.switch.workers.items }
        ensures advances { Advances (W.state writer.new).failures bytes.now self.old self.new (W.state writer.old).taken replies.old (W.state writer.new).taken replies.new result }
        ensures outside { OnOk result (AreOutside self.new.switch.operator.table self.new.switch.workers.items) }
        ensures device_failed { OutputFailedBy result (W.state writer.old).failures (W.state writer.new).failures }
        ensures rest_kept { W.rest writer.new ≡ W.rest writer.old }
    {
        let mut left = bytes;
        while let Some((front, behind)) = split_line(left) {
            self.held.add(front)?;
            self.end_line(alloc, replies, writer)?;
            left = behind;
        }
        Ok(self.held.add(left)?)
    }

    /// Takes the next bytes, and replies to each request that they end. Writes all replies.
    pub(crate) fn take<W: Output>(
        &mut self,
        alloc: Global,
        bytes: &[u8],
        writer: &mut W,
    ) -> Result<(), ReplayFault>
        requires outside { AreOutside self.old.switch.operator.table self.old.switch.workers.items }
        ensures advances { Advances (W.state writer.new).failures bytes.now self.old self.new (W.state writer.old).taken [] (W.state writer.new).taken [] result }
        ensures outside { OnOk result (AreOutside self.new.switch.operator.table self.new.switch.workers.items) }
        ensures device_failed { OutputFailedBy result (W.state writer.old).failures (W.state writer.new).failures }
        ensures rest_kept { W.rest writer.new ≡ W.rest writer.old }
    {
        let mut replies = Replies::new();
        let answered = self.answer_lines(alloc, bytes, &mut replies, writer);
        write_waiting(answered, &replies, writer)
    }

    /// Ends the script, and replies to its last request if the request's end was not read.
    pub(crate) fn end<W: Output>(
        &mut self,
        alloc: Global,
        writer: &mut W,
    ) -> Result<(), ReplayFault>
        requires outside { AreOutside self.old.switch.operator.table self.old.switch.workers.items }
        ensures ends { Ends (W.state writer.new).failures self.old (W.state writer.old).taken (W.state writer.new).taken result }
        ensures device_failed { OutputFailedBy result (W.state writer.old).failures (W.state writer.new).failures }
        ensures rest_kept { W.rest writer.new ≡ W.rest writer.old }
    {
        if self.held.bytes.is_empty() {
            return Ok(());
        }
        self.held.end_script();
        let mut replies = Replies::new();
        self.answer_held(alloc, &mut replies, writer)?;
        let Ok(()) = replies.write(writer) else {
            return Err(ReplayFault::WriteFailed);
        };
        Ok(())
    }
}

// Cuts a text at the first LF in it.
fn split_line(text: &[u8]) -> Option<(&[u8], &[u8])>
    ensures { MatchOption result (Lacks 10 text.now) (λ parts. IsSplitAt 10 text.now parts.0.now parts.1.now) }
{
    // The reason: docs/INTERNALS.md, "Numbers and line ends".
    let end = memchr(b'\n', text)?;
    Some((&text[..end], &text[end + 1..]))
}

// Writes the replies that wait, also if memory was refused after them. If a write failed, writes nothing more.
fn write_waiting<W: Output>(
    answered: Result<(), ReplayFault>,
    replies: &Replies,
    writer: &mut W,
) -> Result<(), ReplayFault>
    ensures written { WritesWaiting answered replies.now (W.state writer.old) (W.state writer.new) result }
    ensures device_failed { (before : ℕ) → OutputFailedBy answered before (W.state writer.old).failures → OutputFailedBy result before (W.state writer.new).failures }
    ensures done { OnOk result (answered ≡ Ok tt) }
    ensures rest_kept { W.rest writer.new ≡ W.rest writer.old }
{
    if let Err(ReplayFault::WriteFailed) = answered {
        return answered;
    }
    let Ok(()) = replies.write(writer) else {
        return Err(ReplayFault::WriteFailed);
    };
    answered
}
