//! The switch that a script is given: an operator and its workers, which meet after each request (docs/COMMANDS.md, "replay").

ghost use Rattle.std.specs.Prelude.{◌≡◌, ◌≤◌, IfOk, OnOk, length};
ghost use Rattle.bpf_machine.specs.declared.TheConstants.{MAX_PACKET};
ghost use Rattle.filter_compile.specs.Answer.{IsPacket};
ghost use Rattle.versions.specs.declared.layout.TheConstants.{WORKERS};
ghost use Rattle.control.specs.body.Ready.{AreOutside, IsReady, MetFirst};
ghost use Rattle.control.specs.Script.{RepliesTo, Standing, at_start};
ghost use Rattle.control.specs.body.Switch.{JudgesPacket};

use crate::packet_line::{PacketSize, read_packet_into};
use control_line::{Reason, Reply, judged_reply, line};
use dispatch::judge;
use member_group::Config;
use read_section::{Operator, Worker, open_within};
use std::alloc::{AllocError, Global};

/// An operator and the workers of its table. The first of them judges packets.
#[derive(Drop)]
pub(crate) struct Switch {
    pub(crate) operator: Operator,
    pub(crate) workers: Vec<Worker>,
    // The bytes of a packet at hand. Its memory is used again.
    packet: Vec<u8>,
}

// Each worker peeks, and the operator scans it.
fn meet_all(operator: &mut Operator, workers: &mut [Worker])
    requires outside { AreOutside operator.old.table workers.old }
    ensures met { MetFirst WORKERS operator.old operator.new workers.old workers.new }
{
    for w in 0..workers.len() {
        workers[w].meet(operator);
    }
}

// Judges a packet in its own section. The reply says the section's version.
fn judge_packet(worker: &mut Worker, packet: &[u8]) -> Reply
    requires packet { length packet.now ≤ MAX_PACKET }
    ensures judged { JudgesPacket worker.old worker.new packet.now result }
    ensures is_packet { IsPacket packet.now }
{
    let mut section = worker.enter();
    let version = section.number();
    let verdict = judge(&mut section, packet);
    section.leave();
    judged_reply(version, verdict)
}

impl Switch {
    /// Opens a switch whose version 0 has no groups.
    pub(crate) fn open(alloc: Global) -> Result<Switch, AllocError>
        ensures ready { IfOk result (λ switch. IsReady switch.operator switch.workers.items at_start) }
    {
        let (mut operator, mut workers) = open_within(Config::new(alloc))?;
        meet_all(&mut operator, &mut workers);
        Ok(Switch {
            operator,
            workers,
            packet: Vec::new(alloc),
        })
    }

    /// Executes a request, and returns the reply. The workers have met the operator again then.
    pub(crate) fn answer(&mut self, alloc: Global, text: &[u8]) -> Result<Reply, AllocError>
        requires outside { AreOutside self.old.operator.table self.old.workers.items }
        ensures replies { IfOk result (λ reply. (now : Standing) → IsReady self.old.operator self.old.workers.items now →
            (next : Standing) × RepliesTo now text.now reply next × IsReady self.new.operator self.new.workers.items next) }
        ensures outside { OnOk result (AreOutside self.new.operator.table self.new.workers.items) }
    {
        let reply = match read_packet_into(text, &mut self.packet)? {
            None => line(alloc, text, &mut self.operator)?,
            Some(PacketSize::TooLong) => Reply::refused(Reason::PacketTooLong),
            Some(PacketSize::Whole) => judge_packet(&mut self.workers[0], &self.packet),
        };
        meet_all(&mut self.operator, &mut self.workers);
        Ok(reply)
    }
}
