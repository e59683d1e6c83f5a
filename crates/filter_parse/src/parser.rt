//! The parser: it goes over the tokens of a text once, and returns the expression in postfix order or the text's fault.

ghost use Rattle.std.specs.Prelude.{◌≡◌, ◌⊎◌, [], Err, MatchResult, None, Ok};
ghost use Rattle.filter_parse.specs.declared.fault.ParseFault.TheVariants.{OutOfMemory};
ghost use Rattle.filter_parse.specs.declared.state.State.TheVariants.{Expects};
ghost use Rattle.filter_parse.specs.body.Parser.{accepted, at_end, parsing, parsing_of, postfix_of, reduced};

use crate::fault::ParseFault;
use crate::item::Item;
use crate::scan::{Found, next_token};
use crate::stack::Stack;
use crate::state::{Pending, State};
use crate::step::open_after;
use std::alloc::Allocator;

/// The last shift, the pending entries, and the output so far.
/// The reason: docs/INTERNALS.md, "The parser is an operator-precedence parser".
#[derive(Drop)]
pub(crate) struct Parser<'a, A: Allocator> {
    pub(crate) state: State,
    pub(crate) stack: Stack<'a, Pending, A>,
    pub(crate) output: Stack<'a, Item, A>,
}

impl<'a, A: Allocator> Parser<'a, A> {
    /// Returns a parser at the start of a text.
    pub(crate) fn new(alloc: &'a A) -> Parser<'a, A>
        ensures { parsing_of result ≡ parsing Expects [] [] }
    {
        Parser {
            state: State::Expects,
            stack: Stack::new(alloc),
            output: Stack::new(alloc),
        }
    }

    /// Reads a whole text: the output is then the parts of the text's expression in postfix order. Otherwise returns
    /// the text's fault.
    pub(crate) fn read(&mut self, text: &[u8]) -> Result<(), ParseFault>
        requires { parsing_of self.old ≡ parsing Expects [] [] }
        ensures { MatchResult result
            (λ _. postfix_of text.now ≡ Ok self.new.output.entries.items)
            (λ fault. (fault ≡ OutOfMemory) ⊎ (postfix_of text.now ≡ Err fault)) }
    {
        let mut at = 0;
        let mut brackets = 0;
        while let Some(Found { token, place, end }) = next_token(text, at) {
            self.step(token, place, brackets)?;
            brackets = open_after(token, brackets);
            at = end;
        }
        self.finish(text.len())
    }

    // Tests whether the expression that was read is complete before a place.
    fn finish(&mut self, at: usize) -> Result<(), ParseFault>
        ensures { MatchResult result
            (λ _. at_end at (accepted (reduced None (parsing_of self.old))) ≡ Ok self.new.output.entries.items)
            (λ fault. (fault ≡ OutOfMemory) ⊎ (at_end at (accepted (reduced None (parsing_of self.old))) ≡ Err fault)) }
    {
        self.reduce(None)?;
        match (self.state, self.stack.top()) {
            (State::Truth, None) => Ok(()),
            _ => Err(ParseFault::Syntax { at }),
        }
    }
}
