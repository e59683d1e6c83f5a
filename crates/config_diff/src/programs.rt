//! Programs, compared by their words.

ghost use Rattle.std.specs.Prelude.{◌≡◌};
ghost use Rattle.config_diff.specs.body.Appended.{words_program};
ghost use Rattle.config_diff.specs.body.Changes.{is_same_option, same_words};

use bpf_verify::Program;
use std::alloc::Allocator;

pub(crate) fn is_same_program<A: Allocator, B: Allocator>(
    one: Option<&Program<A>>,
    other: Option<&Program<B>>,
) -> bool
    ensures same { result ≡ is_same_option same_words (words_program one.entry) (words_program other.entry) }
{
    match one {
        Some(one) => match other {
            Some(other) => one.words() == other.words(),
            None => false,
        },
        None => other.is_none(),
    }
}
