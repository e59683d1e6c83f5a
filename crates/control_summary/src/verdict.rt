//! The verdict in a reply (docs/COMMANDS.md, "replay").

ghost use Rattle.std.specs.Prelude.{◌≡◌};
ghost use Rattle.std.specs.Option.{option_copied};
ghost use Rattle.std.specs.Str.{bytes_eq};
ghost use Rattle.control_summary.specs.Verdict.{first_three, is_among, names_alone, names_of_member, verdict_at, verdict_of, words_of};
ghost use Rattle.control_summary.specs.body.Words.{BeginsWithWord};

use ipv4_fields::split_at;

/// Returns the verdict in a reply, without the version that judged, the receiver and the bytes. Returns `None` for another reply.
pub fn verdict_of(reply: &[u8]) -> Option<&[u8]>
    ensures { option_copied result ≡ verdict_of reply.now }
{
    let (first, behind) = split_at(b' ', reply)?;
    let (_number, verdict) = split_at(b' ', behind)?;
    if is_name(first, "version") {
        front_verdict(verdict)
    } else {
        None
    }
}

pub(crate) fn is_name(word: &[u8], name: &str) -> bool
    ensures { result ≡ bytes_eq word.now name.now }
{
    word == name.as_bytes()
}

fn names_no_member(name: &[u8]) -> bool
    ensures { result ≡ is_among names_alone name.now }
{
    is_name(name, "malformed") || is_name(name, "nogroup") || is_name(name, "nomembers")
}

fn names_member(name: &[u8]) -> bool
    ensures { result ≡ is_among names_of_member name.now }
{
    is_name(name, "dropped") || is_name(name, "deliver")
}

// The verdict at the front of these bytes.
fn front_verdict(bytes: &[u8]) -> Option<&[u8]>
    ensures { option_copied result ≡ verdict_at (words_of bytes.now) }
{
    let name = first_word(bytes);
    if names_no_member(name) {
        Some(name)
    } else if names_member(name) {
        three_words(bytes)
    } else {
        None
    }
}

// The first three words of these bytes.
fn three_words(bytes: &[u8]) -> Option<&[u8]>
    ensures { option_copied result ≡ first_three (words_of bytes.now) }
{
    let (name, behind) = split_at(b' ', bytes)?;
    let (key, behind) = split_at(b' ', behind)?;
    let id = first_word(behind);
    Some(&bytes[..name.len() + 1 + key.len() + 1 + id.len()])
}

pub(crate) fn first_word(bytes: &[u8]) -> &[u8]
    ensures { BeginsWithWord bytes.now result.now }
{
    match split_at(b' ', bytes) {
        Some((first, _)) => first,
        None => bytes,
    }
}
