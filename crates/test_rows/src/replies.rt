//! Rows of replies: the kind by which a reply is counted, and the summary of a text that comes in pieces.

use crate::texts::with_lines;
use control_summary::{ReplyCounts, reply_kind};
use std::alloc::Global;
use std::io;

/// `kind REPLY`: the kind of the reply in brackets, or `none`.
pub fn describe_kind(alloc: Global, row: &str) -> io::Result<String> {
    let Some(kind) = reply_kind(row.as_bytes()) else {
        return Ok(String::from_str(alloc, "none")?);
    };
    let kind = String::from_utf8_lossy(alloc, kind)?;
    Ok(format!(in alloc; "[{kind}]")?)
}

/// `summary PIECES`: the summary of the text, with `\` for its ends of lines. The pieces that the text comes in are separated by `+`.
pub fn describe_summary(alloc: Global, row: &str) -> io::Result<String> {
    let mut counts = ReplyCounts::new(alloc);
    for piece in row.split('+') {
        counts.put(with_lines(alloc, piece)?.as_bytes());
    }
    let summary = counts.summary()?;
    let mut text = String::new(alloc);
    for one in String::from_utf8_lossy(alloc, summary.as_slice())?.chars() {
        text.push(if one == '\n' { '\\' } else { one })?;
    }
    Ok(text)
}
