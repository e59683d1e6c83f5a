//! The labels of metrics, and endpoints as texts.

ghost use Rattle.std.specs.Prelude.{◌≡◌, IfOk, string_bytes};
ghost use Rattle.ipv4_fields.specs.Endpoint.{endpoint_text};
ghost use Rattle.counter_text.specs.Metrics.{front_labels, group_labels, member_labels, result_label, with_result};

use crate::counters::MemberCount;
use ipv4_fields::Endpoint;
use std::alloc::{AllocError, Global};

/// Returns an endpoint as a text.
pub(crate) fn endpoint_string(alloc: Global, endpoint: Endpoint) -> Result<String, AllocError>
    ensures { IfOk result (λ text. string_bytes text ≡ endpoint_text endpoint) }
{
    let [a, b, c, d] = endpoint.address.to_be_bytes();
    let port = endpoint.port;
    format!(in alloc; "{a}.{b}.{c}.{d}:{port}")
}

#[tactic(auto, unfolding(crate::specs::Metrics::result_label))]
pub(crate) fn result_label(alloc: Global, result_name: &str) -> Result<String, AllocError>
    ensures { IfOk result (λ text. string_bytes text ≡ result_label result_name.now) }
{
    format!(in alloc; "result=\"{result_name}\"")
}

#[tactic(auto, unfolding(crate::specs::Metrics::group_labels))]
pub(crate) fn group_labels(alloc: Global, key: Endpoint) -> Result<String, AllocError>
    ensures { IfOk result (λ text. string_bytes text ≡ group_labels key) }
{
    let key = endpoint_string(alloc, key)?;
    format!(in alloc; "group=\"{key}\"")
}

#[tactic(auto, unfolding(crate::specs::Metrics::front_labels))]
pub(crate) fn front_labels(alloc: Global, front: Endpoint) -> Result<String, AllocError>
    ensures { IfOk result (λ text. string_bytes text ≡ front_labels front) }
{
    let front = endpoint_string(alloc, front)?;
    format!(in alloc; "front=\"{front}\"")
}

#[tactic(auto, unfolding(crate::specs::Metrics::member_labels))]
pub(crate) fn member_labels(alloc: Global, member: &MemberCount) -> Result<String, AllocError>
    ensures { IfOk result (λ text. string_bytes text ≡ member_labels member.now) }
{
    let key = endpoint_string(alloc, member.key)?;
    let to = endpoint_string(alloc, member.to)?;
    let id = member.id;
    format!(in alloc; "group=\"{key}\",member=\"{id}\",to=\"{to}\"")
}

#[tactic(auto, unfolding(crate::specs::Metrics::with_result))]
pub(crate) fn with_result(
    alloc: Global,
    labels: &str,
    result_name: &str,
) -> Result<String, AllocError>
    ensures { IfOk result (λ text. string_bytes text ≡ with_result labels.now result_name.now) }
{
    format!(in alloc; "{labels},result=\"{result_name}\"")
}
