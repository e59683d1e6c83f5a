//! The counters of a switch at two readings, as a screen of rates (docs/COMMANDS.md, "top").

ghost use Rattle.std.specs.Prelude.{◌≡◌, ◌≤◌, ◌<◌, ◌^◌, ◌++◌, IfOk, OnOk, codes, decimal, replicate, string_bytes};
ghost use Rattle.std.specs.List.{flat_map};
ghost use Rattle.ipv4_fields.specs.Endpoint.{endpoint_text};
ghost use Rattle.counter_text.specs.Growth.{rate};
ghost use Rattle.counter_text.specs.Screen.{bytes_of, column, first_column, group_rows, growth_row, header, member_row, members_of, named, row_text, screen_text, tenths_text, totals_line, totals_rates};

use crate::counters::{Counters, GroupCount, MemberCount, Totals};
use crate::growth::{
    Growth, bytes_growth, group_before, group_growth, member_before, member_growth, rate, share,
    totals_grown,
};
use crate::labels::endpoint_string;
use ipv4_fields::Endpoint;
use std::alloc::{AllocError, Global};

// The texts of a row.
#[derive(Clone, Copy)]
struct Cells<'a> {
    group: &'a str,
    member: &'a str,
    packets: &'a str,
    bytes: &'a str,
    dropped: &'a str,
    failed: &'a str,
    share: &'a str,
}

fn push_spaces(row: &mut String, count: usize) -> Result<(), AllocError>
    ensures { OnOk result (string_bytes row.new ≡ string_bytes row.old ++ replicate count 32) }
{
    for _space in 0..count {
        row.push_str(" ")?;
    }
    Ok(())
}

// A text at the right of a column, after a space.
#[tactic(auto, unfolding(crate::specs::Screen::column))]
fn column(row: &mut String, width: usize, text: &str) -> Result<(), AllocError>
    ensures { OnOk result (string_bytes row.new ≡ string_bytes row.old ++ column width text.now) }
{
    row.push_str(" ")?;
    push_spaces(row, width.saturating_sub(text.len()))?;
    row.push_str(text)
}

// A text at the left of a column.
#[tactic(auto, unfolding(crate::specs::Screen::first_column))]
fn first_column(row: &mut String, width: usize, text: &str) -> Result<(), AllocError>
    ensures { OnOk result (string_bytes row.new ≡ string_bytes row.old ++ first_column width text.now) }
{
    row.push_str(text)?;
    push_spaces(row, width.saturating_sub(text.len()))
}

#[tactic(auto, unfolding(crate::specs::Screen::row_text))]
fn row_text(row: &mut String, cells: Cells<'_>) -> Result<(), AllocError>
    ensures { OnOk result (string_bytes row.new ≡ string_bytes row.old ++ row_text cells.entry.group.now cells.entry.member.now cells.entry.packets.now
        cells.entry.bytes.now cells.entry.dropped.now cells.entry.failed.now cells.entry.share.now) }
{
    first_column(row, 21, cells.group)?;
    column(row, 10, cells.member)?;
    column(row, 12, cells.packets)?;
    column(row, 15, cells.bytes)?;
    column(row, 12, cells.dropped)?;
    column(row, 10, cells.failed)?;
    column(row, 6, cells.share)?;
    row.push_str("\n")
}

#[tactic(auto, unfolding(crate::specs::Screen::header))]
fn header(row: &mut String) -> Result<(), AllocError>
    ensures { OnOk result (string_bytes row.new ≡ string_bytes row.old ++ header) }
{
    let cells = Cells {
        group: "GROUP",
        member: "MEMBER",
        packets: "PACKETS/S",
        bytes: "BYTES/S",
        dropped: "DROPPED/S",
        failed: "FAILED",
        share: "SHARE",
    };
    row_text(row, cells)
}

fn number_text(alloc: Global, number: u128) -> Result<String, AllocError>
    ensures { IfOk result (λ text. string_bytes text ≡ decimal number) }
{
    format!(in alloc; "{number}")
}

// Tenths as a decimal fraction.
#[tactic(auto, unfolding(crate::specs::Screen::tenths_text))]
fn tenths_text(alloc: Global, tenths: u128) -> Result<String, AllocError>
    ensures { IfOk result (λ text. string_bytes text ≡ tenths_text tenths) }
{
    let (whole, rest) = (tenths / 10, tenths % 10);
    format!(in alloc; "{whole}.{rest}")
}

// A number at the right of a column.
fn number_column(
    alloc: Global,
    row: &mut String,
    width: usize,
    number: u128,
) -> Result<(), AllocError>
    ensures { OnOk result (string_bytes row.new ≡ string_bytes row.old ++ column width (decimal number)) }
{
    let text = number_text(alloc, number)?;
    column(row, width, &text)
}

fn group_column(alloc: Global, row: &mut String, group: Endpoint) -> Result<(), AllocError>
    ensures { OnOk result (string_bytes row.new ≡ string_bytes row.old ++ first_column 21 (endpoint_text group)) }
{
    let text = endpoint_string(alloc, group)?;
    first_column(row, 21, &text)
}

#[tactic(auto, unfolding(crate::specs::Screen::growth_row, crate::specs::Screen::row_text))]
fn growth_row(
    alloc: Global,
    row: &mut String,
    names: (Endpoint, &str),
    growth: Growth,
    bytes: u128,
    part: &str,
    millis: u32,
) -> Result<(), AllocError>
    requires { 1000 ≤ millis }
    ensures { OnOk result (string_bytes row.new ≡ string_bytes row.old ++ growth_row names.entry.0 names.entry.1.now growth bytes part.now millis) }
{
    group_column(alloc, row, names.0)?;
    column(row, 10, names.1)?;
    number_column(alloc, row, 12, rate(growth.packets, millis))?;
    number_column(alloc, row, 15, rate(bytes, millis))?;
    number_column(alloc, row, 12, rate(growth.dropped, millis))?;
    number_column(alloc, row, 10, u128::from(growth.failed))?;
    column(row, 6, part)?;
    row.push_str("\n")
}

#[tactic(auto, unfolding(crate::specs::Screen::member_row))]
fn member_row(
    alloc: Global,
    row: &mut String,
    earlier: &[MemberCount],
    packets: u128,
    millis: u32,
    member: MemberCount,
) -> Result<(), AllocError>
    requires { 1000 ≤ millis }
    ensures { OnOk result (string_bytes row.new ≡ string_bytes row.old ++ member_row earlier.now packets millis member) }
{
    let before = member_before(earlier, member);
    let growth = member_growth(before, member);
    let bytes = u128::from(bytes_growth(before, member));
    let id = number_text(alloc, u128::from(member.id))?;
    let part = tenths_text(alloc, share(growth.packets, packets))?;
    growth_row(alloc, row, (member.key, &id), growth, bytes, &part, millis)
}

// By how much the bytes of the members of a group grew.
fn bytes_of(earlier: &[MemberCount], members: &[MemberCount], key: Endpoint) -> u128
    ensures { result ≡ bytes_of earlier.now (members_of key members.now) }
{
    let mut bytes = 0;
    for member in members {
        if member.key == key {
            bytes += u128::from(bytes_growth(member_before(earlier, *member), *member));
        }
    }
    bytes
}

// The rows of the members of a group, whose packets these are.
fn member_rows(
    alloc: Global,
    rows: &mut String,
    earlier: &[MemberCount],
    later: &[MemberCount],
    packets: u128,
    millis: u32,
    group: Endpoint,
) -> Result<(), AllocError>
    requires { 1000 ≤ millis }
    ensures { OnOk result (string_bytes rows.new ≡ string_bytes rows.old ++ flat_map (member_row earlier.now packets millis) (members_of group later.now)) }
{
    for member in later {
        if member.key == group {
            member_row(alloc, rows, earlier, packets, millis, *member)?;
        }
    }
    Ok(())
}

#[tactic(auto, unfolding(crate::specs::Screen::group_rows))]
fn group_rows(
    alloc: Global,
    rows: &mut String,
    earlier: &Counters,
    later: &Counters,
    millis: u32,
    group: GroupCount,
) -> Result<(), AllocError>
    requires { 1000 ≤ millis }
    ensures { OnOk result (string_bytes rows.new ≡ string_bytes rows.old ++ group_rows earlier.now later.now millis group) }
{
    let growth = group_growth(group_before(&earlier.groups, group), group);
    let bytes = bytes_of(&earlier.members, &later.members, group.key);
    growth_row(alloc, rows, (group.key, "-"), growth, bytes, "-", millis)?;
    let (packets, key) = (growth.packets, group.key);
    member_rows(
        alloc,
        rows,
        &earlier.members,
        &later.members,
        packets,
        millis,
        key,
    )
}

// A word and a number, each after a space.
#[tactic(auto, unfolding(crate::specs::Screen::named))]
fn named(line: &mut String, word: &str, number: u64) -> Result<(), AllocError>
    ensures { OnOk result (string_bytes line.new ≡ string_bytes line.old ++ named word.now number) }
{
    write!(line, " {word} {number}")
}

#[tactic(auto, unfolding(crate::specs::Screen::totals_line))]
fn totals_line(line: &mut String, word: &str, totals: Totals) -> Result<(), AllocError>
    ensures { OnOk result (string_bytes line.new ≡ string_bytes line.old ++ totals_line word.now totals) }
{
    line.push_str(word)?;
    named(line, "malformed", totals.malformed)?;
    named(line, "nogroup", totals.nogroup)?;
    named(line, "nomembers", totals.nomembers)?;
    named(line, "dropped", totals.dropped)?;
    named(line, "delivered", totals.delivered)?;
    named(line, "sendfailed", totals.sendfailed)?;
    named(line, "receivefailed", totals.receivefailed)?;
    line.push_str("\n")
}

// A growth of 64 bits a second, which has 64 bits too.
fn small_rate(growth: u64, millis: u32) -> u64
    requires { 1000 ≤ millis }
    ensures { result ≡ rate growth millis }
{
    rate(u128::from(growth), millis) as u64
}

#[tactic(auto, unfolding(crate::specs::Screen::totals_rates))]
fn totals_rates(grown: Totals, millis: u32) -> Totals
    requires { 1000 ≤ millis }
    ensures { result ≡ totals_rates grown millis }
{
    Totals {
        malformed: small_rate(grown.malformed, millis),
        nogroup: small_rate(grown.nogroup, millis),
        nomembers: small_rate(grown.nomembers, millis),
        dropped: small_rate(grown.dropped, millis),
        delivered: small_rate(grown.delivered, millis),
        sendfailed: small_rate(grown.sendfailed, millis),
        receivefailed: small_rate(grown.receivefailed, millis),
    }
}

fn push_screen(
    alloc: Global,
    text: &mut String,
    earlier: &Counters,
    later: &Counters,
    millis: u32,
) -> Result<(), AllocError>
    requires { 1000 ≤ millis }
    ensures { OnOk result (string_bytes text.new ≡ string_bytes text.old ++ screen_text earlier.now later.now millis) }
{
    let rates = totals_rates(totals_grown(earlier.totals, later.totals), millis);
    totals_line(text, "totals", later.totals)?;
    totals_line(text, "rates", rates)?;
    header(text)?;
    for group in &later.groups {
        group_rows(alloc, text, earlier, later, millis, *group)?;
    }
    text.push_str("\n")
}

/// Returns the screen of two readings that began `millis` milliseconds apart.
pub fn screen_text(
    alloc: Global,
    earlier: &Counters,
    later: &Counters,
    millis: u32,
) -> Result<String, AllocError>
    requires { 1000 ≤ millis }
    ensures { IfOk result (λ text. string_bytes text ≡ screen_text earlier.now later.now millis) }
{
    let mut text = String::new(alloc);
    push_screen(alloc, &mut text, earlier, later, millis)?;
    Ok(text)
}
