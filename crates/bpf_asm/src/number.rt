//! Numbers as they are written: `0`, decimal without a leading zero, or `0x` and hexadecimal digits of either case.

ghost use Rattle.std.specs.Prelude.{◌≡◌, ◌≤◌, ◌^◌, ◌<◌, ◌+◌, ◌*◌};
ghost use Rattle.bpf_asm.specs.body.Reading.{next_value, number_of, numeral};

fn next(value: u32, radix: u32, digit: u8) -> Option<u32>
    requires lower { 2 ≤ radix }
    requires upper { radix ≤ 36 }
    ensures { result ≡ next_value radix value digit }
{
    let Some(digit) = char::from(digit).to_digit(radix) else {
        return None;
    };
    match value.checked_mul(radix) {
        Some(scaled) => scaled.checked_add(digit),
        None => None,
    }
}

#[tactic(auto, unfolding(crate::specs::body::Reading::numeral))]
fn numeral(radix: u32, digits: &[u8]) -> Option<u32>
    requires lower { 2 ≤ radix }
    requires upper { radix ≤ 36 }
    ensures { result ≡ numeral radix digits.now }
{
    if digits.is_empty() {
        return None;
    }
    let mut value = 0;
    for digit in digits {
        value = next(value, radix, *digit)?;
    }
    Some(value)
}

/// Returns the number that a run of letters and digits spells, if it spells one below 2^32.
#[tactic(auto, unfolding(crate::specs::body::Reading::number_of))]
pub(crate) fn number_of(run: &[u8]) -> Option<u32>
    ensures { result ≡ number_of run.now }
{
    if run.len() > 1 && run[0] == b'0' {
        if run[1] == b'x' {
            numeral(16, &run[2..])
        } else {
            None
        }
    } else {
        numeral(10, run)
    }
}
