//! The kind of a reply (docs/COMMANDS.md, "replay" and "Refusals").

ghost use Rattle.std.specs.Prelude.{◌≡◌};
ghost use Rattle.std.specs.Option.{option_copied};
ghost use Rattle.control_summary.specs.Kind.{reply_kind, refusal_of};

use crate::verdict::{first_word, is_name, verdict_of};
use ipv4_fields::split_at;

/// Returns the kind of a reply: its verdict, or `refused` and its code. Returns `None` for another reply.
pub fn reply_kind(reply: &[u8]) -> Option<&[u8]>
    ensures { option_copied result ≡ reply_kind reply.now }
{
    match verdict_of(reply) {
        Some(verdict) => Some(verdict),
        None => refusal_of(reply),
    }
}

// `refused` and the code, without the number that may follow.
fn refusal_of(reply: &[u8]) -> Option<&[u8]>
    ensures { option_copied result ≡ refusal_of reply.now }
{
    let (first, behind) = split_at(b' ', reply)?;
    if is_name(first, "refused") {
        let code = first_word(behind);
        Some(&reply[..first.len() + 1 + code.len()])
    } else {
        None
    }
}
