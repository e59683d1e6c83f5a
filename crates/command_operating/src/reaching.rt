//! The client by which a command asks a switch.

ghost use Rattle.std.specs.Prelude.{◌≡◌, ◌≢◌, IfOk};
ghost use Rattle.command_operating.specs.Printing.{IsAskFault};
ghost use Rattle.command_operating.specs.body.Asked.{CannotFailAt, CannotFailOfClient, IsUnasked, PassesOn};
ghost use Rattle.control_client.specs.Wire.{peer_of};

use command_line::{ControlAddress, Failure};
use control_client::{Reach, SocketWire};
use control_rules::{AskFailure, Client};
use std::alloc::Global;
use std::net::Net;
use std::time::Clock;

/// Makes a client of a switch. Its caller lends it to a function that does what may fail, so that it is dropped at few places.
pub(crate) fn client_of<'a, R: Net + Clock>(
    rt: &'a R,
    alloc: Global,
    reach: Reach<'a>,
) -> Result<Client<SocketWire<'a, R>>, AskFailure>
    ensures { IfOk result (λ client. client.switch ≡ peer_of reach.entry.address) }
{
    match SocketWire::open(rt, alloc, reach) {
        Ok(wire) => Client::new(alloc, wire, reach.peer()),
        Err(failure) => Err(AskFailure::of(failure)),
    }
}

#[tactic(auto, using(crate::proofs::PrintingLemmas::unasked_fault, crate::proofs::PrintingLemmas::udp_fault, crate::proofs::PrintingLemmas::memory_unasked))]
/// Returns how a command fails that could not ask the switch at an address. Over a path it binds no socket.
pub(crate) fn ask_failure(failure: AskFailure, address: ControlAddress<'_>) -> Failure
    ensures fault { IsAskFault ⊥ address.entry result }
    ensures same { PassesOn (CannotFailAt address.entry) failure result }
    ensures no_output { result ≢ Failure.WriteFailed }
{
    match failure {
        AskFailure::BindFailed => match address {
            ControlAddress::Udp(_) => Failure::BindFailed,
            ControlAddress::Unix(_) => Failure::OutOfMemory,
        },
        _ => unasked(failure),
    }
}

#[tactic(auto, using(crate::proofs::PrintingLemmas::memory_unasked, crate::proofs::PrintingLemmas::poll_unasked, crate::proofs::PrintingLemmas::answer_unasked, crate::proofs::PrintingLemmas::rules_unasked))]
/// The same of a client that was made. It is never that a file could not be read, since the lines that a client sends are in memory, nor
/// that a socket could not be bound.
pub(crate) fn unasked(failure: AskFailure) -> Failure
    ensures fault { IsUnasked result }
    ensures same { PassesOn CannotFailOfClient failure result }
    ensures no_output { result ≢ Failure.WriteFailed }
{
    match failure {
        AskFailure::ReadFailed | AskFailure::BindFailed | AskFailure::OutOfMemory => {
            Failure::OutOfMemory
        }
        AskFailure::PollFailed => Failure::PollFailed,
        AskFailure::NoAnswer => Failure::NoAnswer,
        AskFailure::RulesChanged => Failure::RulesChanged,
    }
}
