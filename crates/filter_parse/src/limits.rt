//! Limits of a token: numbers and addresses within the range of their place, and the number of open brackets.

ghost use Rattle.std.specs.Prelude.{◌≡◌, ◌≤◌, ◌<◌, MatchResult, None, Some};
ghost use Rattle.filter_parse.specs.declared.fault.ParseFault.TheVariants.{BadAddress, NumberTooBig};
ghost use Rattle.filter_parse.specs.Fault.{bracket_fault, prefix_fault};

use crate::MAX_DEPTH;
use crate::fault::ParseFault;
use filter_tree::Prefix;

pub(crate) fn number_to_u32(n: u64, at: usize) -> Result<u32, ParseFault>
    ensures { MatchResult result
        (λ m. (m ≡ n) × (n ≤ 4294967295))
        (λ fault. (fault ≡ NumberTooBig at) × (4294967295 < n)) }
{
    match u32::try_from(n) {
        Ok(m) => Ok(m),
        Err(_) => Err(ParseFault::NumberTooBig { at }),
    }
}

pub(crate) fn number_to_u16(n: u64, at: usize) -> Result<u16, ParseFault>
    ensures { MatchResult result
        (λ m. (m ≡ n) × (n ≤ 65535))
        (λ fault. (fault ≡ NumberTooBig at) × (65535 < n)) }
{
    match u16::try_from(n) {
        Ok(m) => Ok(m),
        Err(_) => Err(ParseFault::NumberTooBig { at }),
    }
}

pub(crate) fn number_to_u8(n: u64, at: usize) -> Result<u8, ParseFault>
    ensures { MatchResult result
        (λ m. (m ≡ n) × (n ≤ 255))
        (λ fault. (fault ≡ NumberTooBig at) × (255 < n)) }
{
    match u8::try_from(n) {
        Ok(m) => Ok(m),
        Err(_) => Err(ParseFault::NumberTooBig { at }),
    }
}

pub(crate) fn known_address(a: u64, at: usize) -> Result<u32, ParseFault>
    ensures { MatchResult result
        (λ m. (m ≡ a) × (a ≤ 4294967295))
        (λ fault. (fault ≡ BadAddress at) × (4294967295 < a)) }
{
    match u32::try_from(a) {
        Ok(m) => Ok(m),
        Err(_) => Err(ParseFault::BadAddress { at }),
    }
}

pub(crate) fn prefix(address: u32, bits: u32, at: usize) -> Result<Prefix, ParseFault>
    ensures { MatchResult result
        (λ p. (p ≡ record { address = address; bits = bits }) × (prefix_fault (Some address) bits at ≡ None))
        (λ fault. prefix_fault (Some address) bits at ≡ Some fault) }
{
    match Prefix::new(address, bits) {
        Some(prefix) => Ok(prefix),
        None => Err(ParseFault::BadPrefix { at }),
    }
}

pub(crate) fn one_more_bracket(count: usize, at: usize) -> Result<(), ParseFault>
    ensures { MatchResult result
        (λ _. bracket_fault count at ≡ None)
        (λ fault. bracket_fault count at ≡ Some fault) }
{
    if count < MAX_DEPTH as usize {
        Ok(())
    } else {
        Err(ParseFault::TooDeep { at })
    }
}
