//! Rows of texts: assembly and its words, expressions and their trees.

use bpf_asm::{assemble, print};
use bpf_verify::Program;
use bumpalo::Bump;
use filter_parse::parse;
use filter_tree::Expr;
use std::alloc::{Allocator, Global};
use std::fmt::Write;
use std::io;

// The text with its ends of lines, which are written `\` in a row.
pub fn with_lines(alloc: Global, row: &str) -> io::Result<String> {
    let mut text = String::new(alloc);
    for (place, line) in row.split('\\').enumerate() {
        if place > 0 {
            text.push('\n')?;
        }
        text.push_str(line)?;
    }
    Ok(text)
}

fn put_words(text: &mut String, words: &[u64]) -> io::Result<()> {
    for word in words {
        write!(text, " {word:016x}")?;
    }
    Ok(())
}

fn describe_words(alloc: Global, words: &[u64]) -> io::Result<String> {
    let mut text = format!(in alloc; "{}", words.len())?;
    put_words(&mut text, words)?;
    Ok(text)
}

/// `asm TEXT`: the number of words of the assembly text, and the words; or its fault.
pub fn describe_assembly(alloc: Global, row: &str) -> io::Result<String> {
    let assembly = with_lines(alloc, row)?;
    match assemble(alloc, assembly.as_bytes()) {
        Ok(words) => describe_words(alloc, words.as_slice()),
        Err(fault) => Ok(format!(in alloc; "{fault:?}")?),
    }
}

fn is_printed<A: Allocator>(alloc: Global, program: &Program<A>, text: &str) -> bool {
    match print(alloc, program) {
        Ok(printed) => printed.as_str() == text,
        Err(_) => false,
    }
}

fn is_copied(alloc: Global, program: &Program<Global>, text: &str) -> bool {
    match program.clone_in(alloc) {
        Ok(copy) => copy.charge() == program.charge() && is_printed(alloc, &copy, text),
        Err(_) => false,
    }
}

fn is_read_back(alloc: Global, program: &Program<Global>, text: &str) -> bool {
    match assemble(alloc, text.as_bytes()) {
        Ok(words) => words.as_slice() == program.words(),
        Err(_) => false,
    }
}

fn describe_printed(alloc: Global, program: &Program<Global>, text: &str) -> io::Result<String> {
    if !is_copied(alloc, program, text) {
        return Ok(String::from_str(alloc, "a copy is printed otherwise")?);
    }
    if !is_read_back(alloc, program, text) {
        return Ok(String::from_str(alloc, "its text is read as another program")?);
    }
    Ok(format!(in alloc; "{} {text:?}", program.charge())?)
}

fn describe_program(alloc: Global, program: &Program<Global>) -> io::Result<String> {
    match print(alloc, program) {
        Ok(text) => describe_printed(alloc, program, text.as_str()),
        Err(_) => Ok(String::from_str(alloc, "out of memory")?),
    }
}

fn describe_accepted(alloc: Global, words: Vec<u64>) -> io::Result<String> {
    match Program::new(words) {
        Ok(program) => describe_program(alloc, &program),
        Err(refused) => Ok(format!(in alloc; "{:?}", refused.0)?),
    }
}

/// `print TEXT`: the charge of the program of the assembly text, and its printed text.
pub fn describe_print(alloc: Global, row: &str) -> io::Result<String> {
    let assembly = with_lines(alloc, row)?;
    match assemble(alloc, assembly.as_bytes()) {
        Ok(words) => describe_accepted(alloc, words),
        Err(fault) => Ok(format!(in alloc; "{fault:?}")?),
    }
}

fn is_tree_printed<A: Allocator, B: Allocator>(tree: &Expr<A>, alloc: B, text: &str) -> bool {
    match tree.print(alloc) {
        Ok(printed) => printed.as_str() == text,
        Err(_) => false,
    }
}

fn is_tree_copied<B: Allocator + Clone>(
    tree: &Expr<Global>,
    alloc: Global,
    copies: B,
    text: &str,
) -> bool {
    match tree.clone_in(copies) {
        Ok(copy) => is_tree_printed(&copy, alloc, text),
        Err(_) => false,
    }
}

// Whether the tree is printed so in an arena too, and copies of it by both kinds of allocator.
fn has_text(alloc: Global, arena: &Bump<Global>, tree: &Expr<Global>, text: &str) -> bool {
    is_tree_printed(tree, arena, text)
        && is_tree_copied(tree, alloc, alloc, text)
        && is_tree_copied(tree, alloc, arena, text)
}

fn describe_tree(alloc: Global, tree: &Expr<Global>) -> io::Result<String> {
    let Ok(text) = tree.print(alloc) else {
        return Ok(String::from_str(alloc, "out of memory")?);
    };
    if !has_text(alloc, &Bump::new(alloc), tree, text.as_str()) {
        return Ok(String::from_str(alloc, "a copy is printed otherwise")?);
    }
    Ok(format!(in alloc;
        "{} {} {} {}",
        tree.depth(),
        tree.cells(),
        tree.size(),
        text.as_str()
    )?)
}

/// `expr TEXT`: the depth, the cells and the size of the expression's tree, and its printed text; or its fault.
pub fn describe_expression(alloc: Global, expression: &str) -> io::Result<String> {
    match parse(alloc, expression.as_bytes()) {
        Ok(tree) => describe_tree(alloc, &tree),
        Err(fault) => Ok(format!(in alloc; "{fault:?}")?),
    }
}

fn describe_fault(alloc: Global, expression: &[u8]) -> io::Result<String> {
    match parse(alloc, expression) {
        Ok(_) => Ok(String::from_str(alloc, "accepted")?),
        Err(fault) => Ok(format!(in alloc; "{fault:?}")?),
    }
}

// A text that repeats one part `times` times, and ends with another.
fn repeated(alloc: Global, part: &[u8], times: u32, end: &[u8]) -> io::Result<Vec<u8>> {
    let mut text = Vec::new(alloc);
    for _ in 0..times {
        text.extend_from_slice(part)?;
    }
    text.extend_from_slice(end)?;
    Ok(text)
}

/// `repeat TIMES,PART,END`: the fault of the expression that repeats the part TIMES times and then has the end, or that
/// it has none. A part of two hexadecimal digits after `0x` is that byte.
pub fn describe_repeated(alloc: Global, row: &str) -> io::Result<String> {
    let (times, parts) = row.split_once(',').unwrap_or((row, ""));
    let (part, end) = parts.split_once(',').unwrap_or((parts, ""));
    let Ok(times) = times.parse::<u32>() else {
        return Ok(String::from_str(alloc, "no number")?);
    };
    let byte = part
        .strip_prefix("0x")
        .and_then(|digits| u8::from_str_radix(digits, 16).ok());
    let text = match byte {
        Some(byte) => repeated(alloc, &[byte], times, end.as_bytes())?,
        None => repeated(alloc, part.as_bytes(), times, end.as_bytes())?,
    };
    describe_fault(alloc, text.as_slice())
}
