//! The words of a text whose items are read one at a time.

ghost use Rattle.std.specs.Prelude.{◌≡◌, ◌+◌, ◌^◌, ◌<◌, IfErr, IfOk, MatchOption, OnOk, ℕ};
ghost use Rattle.bpf_formats.specs.Item.{AreWords};
ghost use Rattle.bpf_formats.specs.body.View.{AddsWord, IsFaultAt, IsFaultOfItems, Spells, items_left, left_len};

use crate::fault::FormatFault;
use crate::item::{first_item, read_digits, read_fields};
use std::alloc::Allocator;

// How an item spells a word.
#[derive(Clone, Copy)]
pub(crate) enum Form {
    Decimal,
    Hexadecimal,
}

fn read_word(form: Form, item: &[u8]) -> Option<u64>
    ensures { MatchOption result ((word : ℕ) → Spells form item.now word → ⊥) (λ word. Spells form item.now word) }
{
    match form {
        Form::Decimal => read_fields(item),
        Form::Hexadecimal => read_digits(item),
    }
}

// Appends the word of item n to the words before it.
fn push_word<A: Allocator>(
    words: &mut Vec<u64, A>,
    form: Form,
    n: usize,
    item: &[u8],
) -> Result<(), FormatFault>
    ensures word { OnOk result (AddsWord form item.now words.old.items words.new.items) }
    ensures fault { IfErr result (IsFaultAt form n item.now) }
{
    if item.is_empty() {
        return Ok(());
    }
    let Some(word) = read_word(form, item) else {
        return Err(FormatFault::Syntax { line: n });
    };
    words.push(word)?;
    Ok(())
}

/// Reads the words of what is left of a text, whose next item has the number `first`.
pub(crate) fn read_words<A: Allocator>(
    alloc: A,
    form: Form,
    text: Option<&[u8]>,
    first: usize,
) -> Result<Vec<u64, A>, FormatFault>
    requires { first + left_len text < 2 ^ 64 }
    ensures words { IfOk result (λ words. AreWords (Spells form) (items_left text.entry) words.items) }
    ensures fault { IfErr result (IsFaultOfItems form first (items_left text.entry)) }
{
    let mut words = Vec::new(alloc);
    let mut n = first;
    let mut left = text;
    while let Some(items) = left {
        let (item, rest) = first_item(items);
        push_word(&mut words, form, n, item)?;
        n += 1;
        left = rest;
    }
    Ok(words)
}
