//! Faults as numbers.

ghost use Rattle.std.specs.Prelude.{◌≡◌};
ghost use Rattle.c_calls.specs.Answer.{code_answer, text_answer};

use crate::answer::Answer;
use fault_code::Code;
use filter_program::TextFault;

/// Memory was refused.
pub const NO_MEMORY: u32 = 1;

/// The caller's buffer is too small. `Answer::number` is the number of elements that are needed, and the buffer is unchanged.
pub const NO_ROOM: u32 = 2;

/// The packet has more than 65,535 bytes.
pub const PACKET_TOO_LONG: u32 = 3;

pub(crate) fn code_answer(code: Code) -> Answer
    ensures { result ≡ code_answer code }
{
    let number = code.letter as u32 * 256 + code.number as u32;
    Answer::refused(number, code.place.unwrap_or(0))
}

// Lack of memory is `TextFault::OutOfMemory` alone: no other variant has an `OutOfMemory` inside.
pub(crate) fn text_answer(fault: TextFault) -> Answer
    ensures { result ≡ text_answer fault }
{
    match fault {
        TextFault::OutOfMemory => Answer::refused(NO_MEMORY, 0),
        fault => code_answer(fault.code()),
    }
}
