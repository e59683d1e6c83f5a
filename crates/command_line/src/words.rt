//! The words with the address of control that the environment gives (docs/COMMANDS.md, "The address of control").

ghost use Rattle.std.specs.Prelude.{◌≡◌, IfOk, map, string_bytes};
ghost use Rattle.command_line.specs.Words.{lacks_control, names_control, takes_control, wants_control, with_control};

use std::alloc::{AllocError, Global};

fn takes_control(name: &str) -> bool
    ensures { result ≡ takes_control name.now }
{
    name == "serve"
        || name == "tell"
        || name == "rules"
        || name == "load"
        || name == "drain"
        || name == "metrics"
        || name == "top"
}

fn names_control(word: &str) -> bool
    ensures { result ≡ names_control word.now }
{
    word == "--control" || word.starts_with("--control=")
}

// Tests whether the words after a command's name lack the option `--control`.
fn lacks_control(words: &[String]) -> bool
    ensures { result ≡ lacks_control (map string_bytes words.now) }
{
    let mut left = words;
    while let [word, rest @ ..] = left {
        if word.as_str() == "--" {
            return true;
        }
        if names_control(word.as_str()) {
            return false;
        }
        left = rest;
    }
    true
}

/// Tests whether the words name a command that takes the address of control, and lack it.
pub fn wants_control(words: &[String]) -> bool
    ensures { result ≡ wants_control (map string_bytes words.now) }
{
    match words {
        [name, rest @ ..] => takes_control(name.as_str()) && lacks_control(rest),
        [] => false,
    }
}

/// Adds `--control ADDRESS` after the name of a command that takes it, if the words lack it.
pub fn with_control(
    alloc: Global,
    words: Vec<String>,
    address: String,
) -> Result<Vec<String>, AllocError>
    ensures { IfOk result (λ made. map string_bytes made.items ≡ with_control (string_bytes address) (map string_bytes words.items)) }
{
    if !wants_control(&words) {
        return Ok(words);
    }
    let mut words = words;
    let option = String::from_str(alloc, "--control")?;
    let Ok(()) = words.insert(1, address) else {
        return Err(AllocError);
    };
    let Ok(()) = words.insert(1, option) else {
        return Err(AllocError);
    };
    Ok(words)
}
