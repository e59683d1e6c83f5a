//! Bytes as they are shown to people: those that are no printable ASCII as `\xNN`.

ghost use Rattle.std.specs.Prelude.{◌≡◌, ◌<◌, ◌≤◌, ◌++◌, ◌∷◌, ◌+◌, ◌*◌, [], OnErr, OnOk, length, vec_capacity, vec_len};
ghost use Rattle.std.specs.List.{flat_map};
ghost use Rattle.command_explain.specs.Shown.{hex_digit, shown_byte, shown_text};

use std::alloc::AllocError;

fn hex_digit(value: u8) -> u8
    requires { value < 16 }
    ensures { result ≡ hex_digit value }
{
    if value < 10 {
        b'0' + value
    } else {
        b'a' + (value - 10)
    }
}

fn push_byte(text: &mut Vec<u8>, byte: u8) -> Result<(), AllocError>
    ensures appended { OnOk result (text.new.items ≡ text.old.items ++ shown_byte byte) }
    ensures at_most { OnOk result (vec_len text.new ≤ vec_len text.old + 4) }
    ensures capacity { vec_capacity text.old ≤ vec_capacity text.new }
    ensures full { OnErr result (vec_capacity text.old < vec_len text.old + 4) }
{
    if b' ' <= byte && byte <= b'~' {
        return text.extend_from_slice([byte].as_slice());
    }
    let digits = [b'\\', b'x', hex_digit(byte / 16), hex_digit(byte % 16)];
    text.extend_from_slice(digits.as_slice())
}

/// Appends bytes as they are shown: `\xNN` for each that is outside 0x20 to 0x7e.
pub fn push_shown(text: &mut Vec<u8>, bytes: &[u8]) -> Result<(), AllocError>
    ensures appended { OnOk result (text.new.items ≡ text.old.items ++ shown_text bytes.now) }
    ensures at_most { OnOk result (vec_len text.new ≤ vec_len text.old + 4 * length bytes.now) }
    ensures capacity { vec_capacity text.old ≤ vec_capacity text.new }
    ensures full { OnErr result (vec_capacity text.old < vec_len text.old + 4 * length bytes.now) }
{
    for byte in bytes {
        push_byte(text, *byte)?;
    }
    Ok(())
}
