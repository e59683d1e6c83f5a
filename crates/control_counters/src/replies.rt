//! The replies that report counts, as values (docs/COMMANDS.md, "serve").

ghost use Rattle.std.specs.Prelude.{◌≡◌, ◌∷◌, IfSome, decimal};
ghost use Rattle.control_counters.specs.Frame.{seat_of};
ghost use Rattle.control_rules.specs.Fields.{fields_in};
ghost use Rattle.control_counters.specs.body.Replies.{group_fields, member_fields, totals_fields};

use command_explain::number_of;
use control_rules::Fields;
use counter_text::{GroupCount, MemberCount, Totals};
use ipv4_fields::Endpoint;

// A count after this word.
fn count_after(fields: &mut Fields<'_>, word: &str) -> Option<u64>
    ensures { IfSome result (λ count. fields.old ≡ word.now ∷ decimal count ∷ fields.new) }
{
    fields.word(word)?;
    number_of(fields.next()?)
}

/// Reads a reply to `totals`. Returns `None` if the reply has another form, such as a refusal. The calls below do the same.
pub(crate) fn read_totals(reply: &[u8]) -> Option<Totals>
    ensures { IfSome result (λ totals. fields_in reply.now ≡ totals_fields totals) }
{
    let mut fields = Fields::of(reply);
    let malformed = count_after(&mut fields, "malformed")?;
    let nogroup = count_after(&mut fields, "nogroup")?;
    let nomembers = count_after(&mut fields, "nomembers")?;
    let dropped = count_after(&mut fields, "dropped")?;
    let delivered = count_after(&mut fields, "delivered")?;
    let sendfailed = count_after(&mut fields, "sendfailed")?;
    let receivefailed = count_after(&mut fields, "receivefailed")?;
    fields.done()?;
    Some(Totals {
        malformed,
        nogroup,
        nomembers,
        dropped,
        delivered,
        sendfailed,
        receivefailed,
    })
}

/// Reads a reply to `totals KEY`.
pub(crate) fn read_group_counts(reply: &[u8], key: Endpoint) -> Option<GroupCount>
    ensures key { IfSome result (λ counts. counts.key ≡ key) }
    ensures counts { IfSome result (λ counts. fields_in reply.now ≡ group_fields counts) }
{
    let mut fields = Fields::of(reply);
    let delivered = count_after(&mut fields, "delivered")?;
    let dropped = count_after(&mut fields, "dropped")?;
    let nomembers = count_after(&mut fields, "nomembers")?;
    let sendfailed = count_after(&mut fields, "sendfailed")?;
    fields.done()?;
    Some(GroupCount {
        key,
        delivered,
        dropped,
        nomembers,
        sendfailed,
    })
}

/// Reads a reply to `totals KEY ID` of this member.
pub(crate) fn read_member_counts(reply: &[u8], member: MemberCount) -> Option<MemberCount>
    ensures seat { IfSome result (λ counts. seat_of counts ≡ seat_of member) }
    ensures counts { IfSome result (λ counts. fields_in reply.now ≡ member_fields counts) }
{
    let mut fields = Fields::of(reply);
    let delivered = count_after(&mut fields, "delivered")?;
    let dropped = count_after(&mut fields, "dropped")?;
    let sendfailed = count_after(&mut fields, "sendfailed")?;
    let bytes = count_after(&mut fields, "bytes")?;
    fields.done()?;
    Some(MemberCount {
        key: member.key,
        id: member.id,
        to: member.to,
        delivered,
        dropped,
        sendfailed,
        bytes,
    })
}
