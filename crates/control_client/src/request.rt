//! Requests made of lines: a line, a block with its lines, or all lines as one change (docs/COMMANDS.md, "tell").

ghost use Rattle.std.specs.Prelude.{◌≡◌, ◌⊎◌, IfErr, IfOk, OnOk};
ghost use Rattle.control_client.specs.Lines.{AreNumbersOf, GivesRequest, IsBlockOf, LinesFail};
ghost use Rattle.control_client.specs.body.Collecting.{AddsAll, AddsLine, AddsUpTo};

use crate::given_lines::Lines;
use command_line::Failure;
use control_line::read_head;
use std::alloc::Global;

// Adds LF and the next line to a request, and its number to the others. Returns false if there is no line, and then adds nothing.
fn add_line<L: Lines>(
    lines: &mut L,
    line: &mut Vec<u8>,
    request: &mut Vec<u8>,
    numbers: &mut Vec<u64>,
) -> Result<bool, Failure>
    ensures added { IfOk result (AddsLine (L.coming lines.old) (L.coming lines.new)
        (record { text = request.old.items; numbers = numbers.old.items }) (record { text = request.new.items; numbers = numbers.new.items })) }
    ensures faults { IfErr result (λ fault. (fault ≡ Failure.ReadFailed) ⊎ (fault ≡ Failure.OutOfMemory)) }
    ensures device_failed { LinesFail result (L.failures lines.old) (L.failures lines.new) }
{
    let Some(number) = lines.next(line)? else {
        return Ok(false);
    };
    request.extend_from_slice(b"\n".as_slice())?;
    request.extend_from_slice(line)?;
    if numbers.push(number).is_err() {
        return Err(Failure::OutOfMemory);
    }
    Ok(true)
}

// Adds so many lines to a request, each after an LF, or those that are left if they are fewer.
fn add_lines<L: Lines>(
    lines: &mut L,
    count: u32,
    line: &mut Vec<u8>,
    request: &mut Vec<u8>,
    numbers: &mut Vec<u64>,
) -> Result<(), Failure>
    ensures added { OnOk result (AddsUpTo count (L.coming lines.old) (L.coming lines.new)
        (record { text = request.old.items; numbers = numbers.old.items }) (record { text = request.new.items; numbers = numbers.new.items })) }
    ensures faults { IfErr result (λ fault. (fault ≡ Failure.ReadFailed) ⊎ (fault ≡ Failure.OutOfMemory)) }
    ensures device_failed { LinesFail result (L.failures lines.old) (L.failures lines.new) }
{
    for _line in 0..count {
        if !add_line(lines, line, request, numbers)? {
            return Ok(());
        }
    }
    Ok(())
}

/// Replaces the contents of `request` by the next request: a line, or the first line of a block with its lines. Returns the number
/// of its first line, or `None` if there is no request; `numbers` then has those of the lines of the block. `line` is room for a
/// line.
pub(crate) fn next_request<L: Lines>(
    lines: &mut L,
    line: &mut Vec<u8>,
    request: &mut Vec<u8>,
    numbers: &mut Vec<u64>,
) -> Result<Option<u64>, Failure>
    ensures next { IfOk result (GivesRequest (L.coming lines.old) (L.coming lines.new) numbers.new.items request.new.items) }
    ensures faults { IfErr result (λ fault. (fault ≡ Failure.ReadFailed) ⊎ (fault ≡ Failure.OutOfMemory)) }
    ensures device_failed { LinesFail result (L.failures lines.old) (L.failures lines.new) }
{
    numbers.clear();
    let Some(number) = lines.next(request)? else {
        return Ok(None);
    };
    match read_head(request) {
        None => Ok(Some(number)),
        Some(head) => {
            add_lines(lines, head.count, line, request, numbers)?;
            Ok(Some(number))
        }
    }
}

// Adds all lines to a text, each after an LF, and their numbers to the others. Returns how many they are.
fn add_all<L: Lines>(
    lines: &mut L,
    line: &mut Vec<u8>,
    text: &mut Vec<u8>,
    numbers: &mut Vec<u64>,
) -> Result<u64, Failure>
    ensures added { IfOk result (λ count. AddsAll count (L.coming lines.old)
        (record { text = text.old.items; numbers = numbers.old.items }) (record { text = text.new.items; numbers = numbers.new.items })) }
    ensures faults { IfErr result (λ fault. (fault ≡ Failure.ReadFailed) ⊎ (fault ≡ Failure.OutOfMemory)) }
    ensures device_failed { LinesFail result (L.failures lines.old) (L.failures lines.new) }
{
    for count in 0..u64::MAX {
        if !add_line(lines, line, text, numbers)? {
            return Ok(count);
        }
    }
    Err(Failure::OutOfMemory)
}

/// Makes a block of all lines: its first line up to their number, then how many they are, and the lines, each after an LF.
pub fn block_of<L: Lines>(alloc: Global, front: &[u8], lines: &mut L) -> Result<Vec<u8>, Failure>
    ensures block { IfOk result (λ request. IsBlockOf front.now (L.coming lines.old) request.items) }
    ensures faults { IfErr result (λ fault. (fault ≡ Failure.ReadFailed) ⊎ (fault ≡ Failure.OutOfMemory)) }
    ensures device_failed { LinesFail result (L.failures lines.old) (L.failures lines.new) }
{
    numbered_block_of(alloc, front, lines, &mut Vec::new(alloc))
}

/// Makes the same block, and replaces the contents of `numbers` by the numbers of the lines.
pub(crate) fn numbered_block_of<L: Lines>(
    alloc: Global,
    front: &[u8],
    lines: &mut L,
    numbers: &mut Vec<u64>,
) -> Result<Vec<u8>, Failure>
    ensures block { IfOk result (λ request. IsBlockOf front.now (L.coming lines.old) request.items) }
    ensures numbers { OnOk result (AreNumbersOf (L.coming lines.old) numbers.new.items) }
    ensures faults { IfErr result (λ fault. (fault ≡ Failure.ReadFailed) ⊎ (fault ≡ Failure.OutOfMemory)) }
    ensures device_failed { LinesFail result (L.failures lines.old) (L.failures lines.new) }
{
    numbers.clear();
    let mut line = Vec::new(alloc);
    let mut text = Vec::new(alloc);
    let count = add_all(lines, &mut line, &mut text, numbers)?;
    let number = format!(in alloc; "{count}")?;
    let mut request = Vec::new(alloc);
    request.extend_from_slice(front)?;
    request.extend_from_slice(number.as_bytes())?;
    request.extend_from_slice(&text)?;
    Ok(request)
}
