//! The command `pack`: a packet of UDP between two endpoints (docs/COMMANDS.md, "pack").

ghost use Rattle.std.specs.Prelude.{IfErr, IfOk};
ghost use Rattle.std.specs.Option.{option_map};
ghost use Rattle.command_query.specs.Packing.{IsPackAnswer, IsPayloadAnswer, IsRefusalOfPack, IsTooLong};
ghost use Rattle.command_query.specs.body.Stop.{IsStopBy};

use crate::command_result::CommandResult;
use crate::queries::read_packet;
use crate::stop::Stop;
use control_line::Reason;
use ipv4_fields::Endpoint;
use packet_udp::{MAX_PAYLOAD, udp_packet};
use std::alloc::Global;

/// Makes the packet of a source, a destination and a payload, as they are written. The endpoints are read first.
pub fn pack(
    alloc: Global,
    source: &str,
    destination: &str,
    payload: Option<&str>,
    text: Option<&str>,
) -> Result<CommandResult, Stop>
    ensures answer { IfOk result (IsPackAnswer source.now destination.now (option_map (λ digits. digits.now) payload.entry) (option_map (λ it. it.now) text.entry)) }
    ensures refused { IfErr result (IsStopBy (IsRefusalOfPack source.now destination.now (option_map (λ digits. digits.now) payload.entry) (option_map (λ it. it.now) text.entry))) }
{
    let Some(from) = Endpoint::from_text(source.as_bytes()) else {
        return Err(Stop::Refused(Reason::BadForm));
    };
    let Some(to) = Endpoint::from_text(destination.as_bytes()) else {
        return Err(Stop::Refused(Reason::BadForm));
    };
    match (payload, text) {
        (None, None) => pack_payload(alloc, from, to, &[]),
        (Some(digits), None) => {
            let payload = read_packet(alloc, digits)?;
            pack_payload(alloc, from, to, &payload)
        }
        (None, Some(text)) => pack_payload(alloc, from, to, text.as_bytes()),
        (Some(_), Some(_)) => Err(Stop::Refused(Reason::BadForm)),
    }
}

fn pack_payload(
    alloc: Global,
    from: Endpoint,
    to: Endpoint,
    payload: &[u8],
) -> Result<CommandResult, Stop>
    ensures answer { IfOk result (IsPayloadAnswer from to payload.now) }
    ensures refused { IfErr result (IsStopBy (IsTooLong payload.now)) }
{
    if payload.len() > MAX_PAYLOAD {
        return Err(Stop::Refused(Reason::PacketTooLong));
    }
    let packet = udp_packet(alloc, from, to, payload)?;
    let digits = hex::encode(alloc, packet.as_slice())?;
    Ok(CommandResult::Packed { digits })
}
