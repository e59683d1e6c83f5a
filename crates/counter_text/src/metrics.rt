//! Counters in Prometheus' text format, version 0.0.4 (docs/COMMANDS.md, "metrics").

ghost use Rattle.std.specs.Prelude.{◌≡◌, ◌++◌, IfOk, OnOk, codes, string_bytes};
ghost use Rattle.counter_text.specs.Metrics.{block_head, failures_block, front_block, group_block, group_help, group_labels, group_name, group_samples, member_block, member_help, member_labels, member_name, member_samples, metrics_text, result_label, rules_block, sample, single_block, totals_block, with_result};

use crate::counters::{Counters, FrontDrops, GroupCount, MemberCount, Totals};
use crate::labels::{front_labels, group_labels, member_labels, result_label, with_result};
use std::alloc::{AllocError, Global};

/// The largest charge of a configuration.
pub const CHARGE_LIMIT: u64 = 8192;

/// Law: the limit, as a number. It runs nothing.
pub fn limit_as_number()
    ensures { CHARGE_LIMIT ≡ 8192 }
{}

/// A metric that each group has.
#[derive(Clone, Copy)]
pub(crate) enum GroupMetric {
    Datagrams,
    SendFailures,
}

/// A metric that each member has.
#[derive(Clone, Copy)]
pub(crate) enum MemberMetric {
    Datagrams,
    SendFailures,
    Bytes,
}

#[tactic(auto, unfolding(crate::specs::Metrics::block_head))]
fn block_head(text: &mut String, name: &str, kind: &str, help: &str) -> Result<(), AllocError>
    ensures { OnOk result (string_bytes text.new ≡ string_bytes text.old ++ block_head name.now kind.now help.now) }
{
    write!(text, "# HELP {name} {help}\n# TYPE {name} {kind}\n")
}

#[tactic(auto, unfolding(crate::specs::Metrics::sample))]
fn sample(text: &mut String, name: &str, labels: &str, value: u64) -> Result<(), AllocError>
    ensures { OnOk result (string_bytes text.new ≡ string_bytes text.old ++ sample name.now labels.now value) }
{
    write!(text, "{name}{{{labels}}} {value}\n")
}

// The sample of a result of all datagrams.
fn total_sample(
    alloc: Global,
    text: &mut String,
    result_name: &str,
    value: u64,
) -> Result<(), AllocError>
    ensures { OnOk result (string_bytes text.new ≡ string_bytes text.old ++ sample (codes "dswitch_datagrams_total") (result_label result_name.now) value) }
{
    let labels = result_label(alloc, result_name)?;
    sample(text, "dswitch_datagrams_total", &labels, value)
}

// The sample of a result of a group or a member, with its other labels.
fn result_sample(
    alloc: Global,
    text: &mut String,
    name: &str,
    labels: &str,
    counted: (&str, u64),
) -> Result<(), AllocError>
    ensures { OnOk result (string_bytes text.new ≡ string_bytes text.old ++ sample name.now (with_result labels.now counted.entry.0.now) counted.entry.1) }
{
    let labels = with_result(alloc, labels, counted.0)?;
    sample(text, name, &labels, counted.1)
}

#[tactic(auto, unfolding(crate::specs::Metrics::single_block))]
fn single_block(
    text: &mut String,
    name: &str,
    kind: &str,
    help: &str,
    value: u64,
) -> Result<(), AllocError>
    ensures { OnOk result (string_bytes text.new ≡ string_bytes text.old ++ single_block name.now kind.now help.now value) }
{
    block_head(text, name, kind, help)?;
    write!(text, "{name} {value}\n")
}

fn totals_block(alloc: Global, text: &mut String, totals: Totals) -> Result<(), AllocError>
    ensures { OnOk result (string_bytes text.new ≡ string_bytes text.old ++ totals_block totals) }
{
    let help = "Datagrams that came to the front, by what became of them.";
    block_head(text, "dswitch_datagrams_total", "counter", help)?;
    total_sample(alloc, text, "malformed", totals.malformed)?;
    total_sample(alloc, text, "nogroup", totals.nogroup)?;
    total_sample(alloc, text, "nomembers", totals.nomembers)?;
    total_sample(alloc, text, "dropped", totals.dropped)?;
    total_sample(alloc, text, "delivered", totals.delivered)
}

fn failures_block(text: &mut String, totals: Totals) -> Result<(), AllocError>
    ensures { OnOk result (string_bytes text.new ≡ string_bytes text.old ++ failures_block totals) }
{
    let sends = "Delivered datagrams that could not be sent.";
    let receives = "Failed receives at the front.";
    let (sent, received) = (totals.sendfailed, totals.receivefailed);
    single_block(text, "dswitch_send_failures_total", "counter", sends, sent)?;
    single_block(
        text,
        "dswitch_receive_failures_total",
        "counter",
        receives,
        received,
    )
}

fn gauge(text: &mut String, name: &str, help: &str, value: u64) -> Result<(), AllocError>
    ensures { OnOk result (string_bytes text.new ≡ string_bytes text.old ++ single_block name.now (codes "gauge") help.now value) }
{
    single_block(text, name, "gauge", help, value)
}

fn rules_block(
    text: &mut String,
    version: u64,
    charge: u64,
    counts: (usize, usize),
) -> Result<(), AllocError>
    ensures { OnOk result (string_bytes text.new ≡ string_bytes text.old ++ rules_block version charge counts.0 counts.1) }
{
    let groups = counts.0 as u64;
    let members = counts.1 as u64;
    let limit = "The largest charge that rules may have.";
    gauge(
        text,
        "dswitch_rules_version",
        "The version of the rules.",
        version,
    )?;
    gauge(
        text,
        "dswitch_rules_charge",
        "The charge of the rules.",
        charge,
    )?;
    gauge(text, "dswitch_rules_charge_limit", limit, CHARGE_LIMIT)?;
    gauge(text, "dswitch_groups", "Groups of the rules.", groups)?;
    gauge(text, "dswitch_members", "Members of all groups.", members)
}

impl GroupMetric {
    fn name(self) -> &'static str
        ensures { result.now ≡ group_name self }
    {
        match self {
            GroupMetric::Datagrams => "dswitch_group_datagrams_total",
            GroupMetric::SendFailures => "dswitch_group_send_failures_total",
        }
    }

    fn help(self) -> &'static str
        ensures { result.now ≡ group_help self }
    {
        match self {
            GroupMetric::Datagrams => {
                "Datagrams to a group, by what became of them. Members that left are counted too."
            }
            GroupMetric::SendFailures => "Delivered datagrams of a group that could not be sent.",
        }
    }
}

// The samples of the datagrams of a group with these labels.
fn group_datagrams(
    alloc: Global,
    text: &mut String,
    labels: &str,
    group: &GroupCount,
) -> Result<(), AllocError>
    requires { labels.now ≡ group_labels group.now.key }
    ensures { OnOk result (string_bytes text.new ≡ string_bytes text.old ++ group_samples GroupMetric.Datagrams group.now) }
{
    let name = "dswitch_group_datagrams_total";
    result_sample(alloc, text, name, labels, ("nomembers", group.nomembers))?;
    result_sample(alloc, text, name, labels, ("dropped", group.dropped))?;
    result_sample(alloc, text, name, labels, ("delivered", group.delivered))
}

fn group_samples(
    alloc: Global,
    text: &mut String,
    metric: GroupMetric,
    group: &GroupCount,
) -> Result<(), AllocError>
    ensures { OnOk result (string_bytes text.new ≡ string_bytes text.old ++ group_samples metric group.now) }
{
    let labels = group_labels(alloc, group.key)?;
    match metric {
        GroupMetric::Datagrams => group_datagrams(alloc, text, &labels, group),
        GroupMetric::SendFailures => sample(text, metric.name(), &labels, group.sendfailed),
    }
}

fn group_block(
    alloc: Global,
    text: &mut String,
    metric: GroupMetric,
    groups: &[GroupCount],
) -> Result<(), AllocError>
    ensures { OnOk result (string_bytes text.new ≡ string_bytes text.old ++ group_block metric groups.now) }
{
    block_head(text, metric.name(), "counter", metric.help())?;
    for group in groups {
        group_samples(alloc, text, metric, group)?;
    }
    Ok(())
}

impl MemberMetric {
    fn name(self) -> &'static str
        ensures { result.now ≡ member_name self }
    {
        match self {
            MemberMetric::Datagrams => "dswitch_member_datagrams_total",
            MemberMetric::SendFailures => "dswitch_member_send_failures_total",
            MemberMetric::Bytes => "dswitch_member_bytes_total",
        }
    }

    fn help(self) -> &'static str
        ensures { result.now ≡ member_help self }
    {
        match self {
            MemberMetric::Datagrams => "Datagrams to a member, by what became of them.",
            MemberMetric::SendFailures => "Delivered datagrams of a member that could not be sent.",
            MemberMetric::Bytes => "Bytes of the datagrams that were delivered to a member.",
        }
    }
}

// The samples of the datagrams of a member with these labels.
fn member_datagrams(
    alloc: Global,
    text: &mut String,
    labels: &str,
    member: &MemberCount,
) -> Result<(), AllocError>
    requires { labels.now ≡ member_labels member.now }
    ensures { OnOk result (string_bytes text.new ≡ string_bytes text.old ++ member_samples MemberMetric.Datagrams member.now) }
{
    let name = "dswitch_member_datagrams_total";
    result_sample(alloc, text, name, labels, ("dropped", member.dropped))?;
    result_sample(alloc, text, name, labels, ("delivered", member.delivered))
}

fn member_samples(
    alloc: Global,
    text: &mut String,
    metric: MemberMetric,
    member: &MemberCount,
) -> Result<(), AllocError>
    ensures { OnOk result (string_bytes text.new ≡ string_bytes text.old ++ member_samples metric member.now) }
{
    let labels = member_labels(alloc, member)?;
    match metric {
        MemberMetric::Datagrams => member_datagrams(alloc, text, &labels, member),
        MemberMetric::SendFailures => sample(text, metric.name(), &labels, member.sendfailed),
        MemberMetric::Bytes => sample(text, metric.name(), &labels, member.bytes),
    }
}

fn member_block(
    alloc: Global,
    text: &mut String,
    metric: MemberMetric,
    members: &[MemberCount],
) -> Result<(), AllocError>
    ensures { OnOk result (string_bytes text.new ≡ string_bytes text.old ++ member_block metric members.now) }
{
    block_head(text, metric.name(), "counter", metric.help())?;
    for member in members {
        member_samples(alloc, text, metric, member)?;
    }
    Ok(())
}

fn front_block(
    alloc: Global,
    text: &mut String,
    front: Option<FrontDrops>,
) -> Result<(), AllocError>
    ensures { OnOk result (string_bytes text.new ≡ string_bytes text.old ++ front_block front) }
{
    let Some(it) = front else {
        return Ok(());
    };
    let name = "dswitch_front_kernel_drops_total";
    let help = "Datagrams that the kernel dropped at the sockets of the front.";
    block_head(text, name, "counter", help)?;
    let labels = front_labels(alloc, it.front)?;
    sample(text, name, &labels, it.drops)
}

fn push_metrics(
    alloc: Global,
    text: &mut String,
    counters: &Counters,
    front: Option<FrontDrops>,
) -> Result<(), AllocError>
    ensures { OnOk result (string_bytes text.new ≡ string_bytes text.old ++ metrics_text counters.now front) }
{
    let groups = counters.groups.as_slice();
    let members = counters.members.as_slice();
    let (version, charge) = (counters.version, u64::from(counters.charge));
    let counts = (groups.len(), members.len());
    totals_block(alloc, text, counters.totals)?;
    failures_block(text, counters.totals)?;
    rules_block(text, version, charge, counts)?;
    group_block(alloc, text, GroupMetric::Datagrams, groups)?;
    group_block(alloc, text, GroupMetric::SendFailures, groups)?;
    member_block(alloc, text, MemberMetric::Datagrams, members)?;
    member_block(alloc, text, MemberMetric::SendFailures, members)?;
    member_block(alloc, text, MemberMetric::Bytes, members)?;
    front_block(alloc, text, front)
}

/// Returns the counters as metrics, with the kernel's drops at a front if they were asked for.
pub fn metrics_text(
    alloc: Global,
    counters: &Counters,
    front: Option<FrontDrops>,
) -> Result<String, AllocError>
    ensures { IfOk result (λ text. string_bytes text ≡ metrics_text counters.now front) }
{
    let mut text = String::new(alloc);
    push_metrics(alloc, &mut text, counters, front)?;
    Ok(text)
}
