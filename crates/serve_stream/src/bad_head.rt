//! Lines that were meant to begin a block.

ghost use Rattle.std.specs.Prelude.{◌≡◌, ◌≢◌, ◌++◌, ◌∷◌, ◌↔◌, IsTrue, List, MatchOption, codes, ℕ};
ghost use Rattle.ipv4_fields.specs.Cut.{Lacks};
ghost use Rattle.serve_stream.specs.Request.{IsFirstWord, IsStartWord, NamesBlock};

use control_line::is_word;
use ipv4_fields::split_at;

// Returns the first word of a line.
fn first_word(text: &[u8]) -> &[u8]
    ensures { IsFirstWord text.now result.now }
{
    match split_at(b' ', text) {
        Some((word, _)) => word,
        None => text,
    }
}

fn is_start_word(word: &[u8]) -> bool
    ensures { IsTrue result ↔ IsStartWord word.now }
{
    is_word(word, "all") || is_word(word, "anew")
}

// Returns the text after `at W `, if a line begins so.
fn after_version(text: &[u8]) -> Option<&[u8]>
    ensures { MatchOption result
        ((version rest : List ℕ) → Lacks 32 version → text.now ≢ codes "at" ++ 32 ∷ (version ++ 32 ∷ rest))
        (λ rest. (version : List ℕ) × Lacks 32 version × (text.now ≡ codes "at" ++ 32 ∷ (version ++ 32 ∷ rest.now))) }
{
    let (word, rest) = split_at(b' ', text)?;
    if !is_word(word, "at") {
        return None;
    }
    let (_, rest) = split_at(b' ', rest)?;
    Some(rest)
}

/// Tests whether a line begins as a block does.
pub(crate) fn names_block(line: &[u8]) -> bool
    ensures { IsTrue result ↔ NamesBlock line.now }
{
    match after_version(line) {
        Some(rest) => is_start_word(first_word(rest)),
        None => is_start_word(first_word(line)),
    }
}
