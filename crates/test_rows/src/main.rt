//! Rows of calls that no command shows: each line of the standard input names a call and its arguments, and the line that is
//! printed has what the call returns. Empty lines and lines that begin with `#` are printed as they are.
#![tactic(auto)]

mod answers;
mod captures;
mod packets;
mod replies;
mod texts;
mod words;

use std::alloc::Global;
use std::io;

fn answer(alloc: Global, row: &str) -> io::Result<String> {
    let Some((call, argument)) = row.split_once(' ') else {
        return Ok(String::from_str(alloc, row)?);
    };
    match call {
        "#" => Ok(String::from_str(alloc, row)?),
        "word" => words::describe_word(alloc, argument),
        "asm" => texts::describe_assembly(alloc, argument),
        "print" => texts::describe_print(alloc, argument),
        "expr" => texts::describe_expression(alloc, argument),
        "repeat" => texts::describe_repeated(alloc, argument),
        "prefixes" => answers::describe_prefixes(alloc, argument),
        "alike" => answers::describe_alike(alloc, argument),
        "fields" => packets::describe_fields(alloc, argument),
        "capture" => captures::describe_capture(alloc, argument),
        "flow" => packets::describe_flow(alloc, argument),
        "kind" => replies::describe_kind(alloc, argument),
        "summary" => replies::describe_summary(alloc, argument),
        _ => Ok(String::from_str(alloc, "no such call")?),
    }
}

fn main(rt: HostRuntime) -> io::Result<()> {
    for line in rt.lines(rt.alloc()) {
        let text = answer(rt.alloc(), line?.as_str())?;
        println!(rt; "{text}")?;
    }
    Ok(())
}
