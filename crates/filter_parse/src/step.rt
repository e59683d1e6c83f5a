//! The parser's step: the lookahead first reduces, then it is shifted (docs/EXPRESSIONS.md, "Grammar" and "Faults and their places").

ghost use Rattle.std.specs.Prelude.{◌≡◌, ◌+◌, ◌≤◌, ◌<◌, ◌^◌, ◌⊎◌, None, Some};
ghost use Rattle.filter_parse.specs.declared.state.State.TheVariants.{Named, Number, Truth};
ghost use Rattle.filter_parse.specs.Fault.{open_after};
ghost use Rattle.filter_parse.specs.body.Parser.{Meets, fault_in, judged_by, parsing_of, shifted, stepped};

use crate::fault::ParseFault;
use crate::parser::Parser;
use crate::state::State;
use crate::token::Token;
use filter_tree::Protocol;
use std::alloc::Allocator;

/// Returns the number of brackets that are open after a token, if `brackets` are open before it.
pub(crate) fn open_after(token: Token, brackets: usize) -> usize
    requires { brackets + 1 < 2 ^ 64 }
    ensures exact { result ≡ open_after token brackets }
    ensures few { result ≤ brackets + 1 }
{
    match token {
        Token::Open | Token::OpenIndex => brackets + 1,
        Token::Close | Token::CloseIndex => brackets.saturating_sub(1),
        _ => brackets,
    }
}

impl<'a, A: Allocator> Parser<'a, A> {
    /// Takes the lookahead, at the place `at`, with `brackets` open brackets before it.
    // One match on the state: the lookahead can reduce only after an operand or a name.
    pub(crate) fn step(
        &mut self,
        lookahead: Token,
        at: usize,
        brackets: usize,
    ) -> Result<(), ParseFault>
        ensures { Meets (stepped lookahead at brackets (parsing_of self.old)) result (parsing_of self.new) }
    {
        match self.state {
            State::Expects => self.begin(lookahead, at, brackets),
            State::Number => {
                self.reduce_number(Some(lookahead))?;
                self.shift_behind_number(lookahead, at)
            }
            State::Truth => self.after_truth(lookahead, at),
            State::Named(protocol) => {
                self.reduce_name(protocol, Some(lookahead))?;
                self.shift_behind_name(protocol, lookahead, at, brackets)
            }
            State::WantsSize(protocol) => self.after_colon(protocol, lookahead, at),
            State::WantsEnd(protocol, size) => self.after_size(protocol, size, lookahead, at),
            _ => self.in_primitive(lookahead, at),
        }
    }

    // After an arithmetic expression, or after the relation that was reduced with it.
    #[inline(always)]
    fn shift_behind_number(&mut self, lookahead: Token, at: usize) -> Result<(), ParseFault>
        requires { (self.old.state ≡ Number) ⊎ (self.old.state ≡ Truth) }
        ensures { Meets (judged_by None at (shifted lookahead (parsing_of self.old))) result (parsing_of self.new) }
    {
        match self.state {
            State::Truth => self.after_truth(lookahead, at),
            _ => self.after_number(lookahead, at),
        }
    }

    // After a protocol's name, or after the primitive that it was reduced to.
    #[inline(always)]
    fn shift_behind_name(
        &mut self,
        protocol: Protocol,
        lookahead: Token,
        at: usize,
        brackets: usize,
    ) -> Result<(), ParseFault>
        requires { (self.old.state ≡ Named protocol) ⊎ (self.old.state ≡ Truth) }
        ensures { Meets (judged_by (fault_in self.old.state brackets lookahead at) at
            (shifted lookahead (parsing_of self.old))) result (parsing_of self.new) }
    {
        match self.state {
            State::Truth => self.after_truth(lookahead, at),
            _ => self.after_name(protocol, lookahead, at, brackets),
        }
    }
}
