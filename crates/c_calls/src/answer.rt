//! The result of a call.

ghost use Rattle.std.specs.Prelude.{◌≡◌};
ghost use Rattle.c_calls.specs.Answer.{done, refused, wanting};

use crate::codes::NO_ROOM;

/// The result of a call.
#[derive(Clone, Copy)]
#[repr(C)]
pub struct Answer {
    /// 0, or a code: the letter of a fault's code times 256, plus its number, such as `'V' * 256 + 3` for V3; or `NO_MEMORY`,
    /// `NO_ROOM` or `PACKET_TOO_LONG`.
    pub fault: u32,
    /// The charge of the program, or 0 if there is none.
    pub charge: u32,
    /// The number of words or bytes, also at `NO_ROOM`; else the line, place or `pc` of the fault, or 0 if the fault has none.
    pub number: u64,
}

impl Answer {
    pub(crate) fn done(charge: u32, count: usize) -> Answer
        ensures { result ≡ done charge count }
    {
        Answer {
            fault: 0,
            charge,
            number: count as u64,
        }
    }

    pub(crate) fn wanting(charge: u32, count: usize) -> Answer
        ensures { result ≡ wanting charge count }
    {
        Answer {
            fault: NO_ROOM,
            charge,
            number: count as u64,
        }
    }

    pub(crate) fn refused(fault: u32, place: usize) -> Answer
        ensures { result ≡ refused fault place }
    {
        Answer {
            fault,
            charge: 0,
            number: place as u64,
        }
    }
}
