//! Tests of programs and packets (bpf_verify, bpf_machine, packet_udp, selector_buckets), of their texts (bpf_asm,
//! bpf_formats), of filter expressions (filter_tree, filter_parse, filter_compile), and of configurations (member_group,
//! config_image): their images and rows, and parts, with the search for them and the cache of them.

mod assembly;
mod built;
mod caching;
mod commands;
mod compiling;
mod counted_words;
mod formats;
mod heaps;
mod images;
mod instructions;
mod locks;
mod packets;
mod parsing;
mod pooled;
mod searching;
mod selectors;
mod trees;
mod verifier;

use std::process::Abort;

/// Ends the test if the row with this number is not right.
fn assert_numbered(rt: &impl Abort, is_right: bool, row: u64) {
    assert!(rt; is_right, "row {row}");
}
