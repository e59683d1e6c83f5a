//! Plain words: those of instructions that go on to the next place, and that a limit on their fields shows to be without a fault
//! (docs/MACHINE.md, "Instruction table" and "Verifier").

ghost use Rattle.std.specs.Prelude.{◌≡◌, ◌<◌, IfSome, length};
ghost use Rattle.bpf_verify.specs.body.Plain.{IsPlain, plain_of};

use crate::{ANCILLARY_FROM, CELLS};

// Which words of a code are plain: those whose fields jt, jf and k, as one number, are below the limit.
#[derive(Clone, Copy)]
struct Plain {
    limit: u64,
    // 1 if the instruction loads, or stores, scratch cell k; else 0.
    loads: u16,
    stores: u16,
}

// No word of the code is plain: the code is of a jump, a return, a division or a remainder by a constant, or no instruction.
const NONE: Plain = Plain {
    limit: 0,
    loads: 0,
    stores: 0,
};

// No field is used.
const ZERO: Plain = Plain {
    limit: 1,
    loads: 0,
    stores: 0,
};

// k is any number.
const ANY: Plain = Plain {
    limit: 1 << 32,
    loads: 0,
    stores: 0,
};

// k is the place of an absolute load.
const PLACE: Plain = Plain {
    limit: ANCILLARY_FROM as u64,
    loads: 0,
    stores: 0,
};

// k is the distance of a shift.
const SHIFT: Plain = Plain {
    limit: u32::BITS as u64,
    loads: 0,
    stores: 0,
};

// k is a cell that is loaded.
const LOAD: Plain = Plain {
    limit: CELLS as u64,
    loads: 1,
    stores: 0,
};

// k is a cell that is stored.
const STORE: Plain = Plain {
    limit: CELLS as u64,
    loads: 0,
    stores: 1,
};

// By the lower byte of the code: a row for each upper digit, a column for each lower one.
#[rattlefmt::skip]
static PLAIN: [Plain; 256] = [
    ANY,   ANY,   STORE, STORE, ANY,   NONE,  NONE,  ZERO,  NONE,  NONE,  NONE,  NONE,  ZERO,  NONE,  NONE,  NONE,
    NONE,  NONE,  NONE,  NONE,  ANY,   NONE,  NONE,  NONE,  NONE,  NONE,  NONE,  NONE,  ZERO,  NONE,  NONE,  NONE,
    PLACE, NONE,  NONE,  NONE,  ANY,   NONE,  NONE,  NONE,  PLACE, NONE,  NONE,  NONE,  ZERO,  NONE,  NONE,  NONE,
    PLACE, NONE,  NONE,  NONE,  NONE,  NONE,  NONE,  NONE,  NONE,  NONE,  NONE,  NONE,  ZERO,  NONE,  NONE,  NONE,
    ANY,   NONE,  NONE,  NONE,  ANY,   NONE,  NONE,  NONE,  ANY,   NONE,  NONE,  NONE,  ZERO,  NONE,  NONE,  NONE,
    ANY,   NONE,  NONE,  NONE,  ANY,   NONE,  NONE,  NONE,  NONE,  NONE,  NONE,  NONE,  ZERO,  NONE,  NONE,  NONE,
    LOAD,  LOAD,  NONE,  NONE,  SHIFT, NONE,  NONE,  NONE,  NONE,  NONE,  NONE,  NONE,  ZERO,  NONE,  NONE,  NONE,
    NONE,  NONE,  NONE,  NONE,  SHIFT, NONE,  NONE,  NONE,  NONE,  NONE,  NONE,  NONE,  ZERO,  NONE,  NONE,  NONE,
    ZERO,  ZERO,  NONE,  NONE,  ZERO,  NONE,  NONE,  ZERO,  NONE,  NONE,  NONE,  NONE,  NONE,  NONE,  NONE,  NONE,
    NONE,  NONE,  NONE,  NONE,  NONE,  NONE,  NONE,  NONE,  NONE,  NONE,  NONE,  NONE,  ZERO,  NONE,  NONE,  NONE,
    NONE,  NONE,  NONE,  NONE,  ANY,   NONE,  NONE,  NONE,  NONE,  NONE,  NONE,  NONE,  ZERO,  NONE,  NONE,  NONE,
    NONE,  ANY,   NONE,  NONE,  NONE,  NONE,  NONE,  NONE,  NONE,  NONE,  NONE,  NONE,  NONE,  NONE,  NONE,  NONE,
    NONE,  NONE,  NONE,  NONE,  NONE,  NONE,  NONE,  NONE,  NONE,  NONE,  NONE,  NONE,  NONE,  NONE,  NONE,  NONE,
    NONE,  NONE,  NONE,  NONE,  NONE,  NONE,  NONE,  NONE,  NONE,  NONE,  NONE,  NONE,  NONE,  NONE,  NONE,  NONE,
    NONE,  NONE,  NONE,  NONE,  NONE,  NONE,  NONE,  NONE,  NONE,  NONE,  NONE,  NONE,  NONE,  NONE,  NONE,  NONE,
    NONE,  NONE,  NONE,  NONE,  NONE,  NONE,  NONE,  NONE,  NONE,  NONE,  NONE,  NONE,  NONE,  NONE,  NONE,  NONE,
];

#[inline(always)]
fn plain_of(code: usize) -> Plain
    requires { code < length PLAIN }
    ensures { result ≡ plain_of code }
{
    PLAIN[code]
}

// The set after a plain word, if the set before has the cell that the word loads. `None` says nothing about the word.
/// The reason: docs/INTERNALS.md, "Most words are classified by their code".
#[inline(always)]
pub fn after_plain(word: u64, before: u16) -> Option<u16>
    ensures { IfSome result (λ after. IsPlain word before after) }
{
    let code = (word >> 48) % 256;
    let plain = plain_of(code as usize);
    let k = word % CELLS as u64;
    let found = (before >> k) & plain.loads == plain.loads;
    if word - (code << 48) < plain.limit && found {
        Some(before | (plain.stores << k))
    } else {
        None
    }
}
