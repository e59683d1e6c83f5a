//! Shifts at the beginning of an expression, and after a complete one.

ghost use Rattle.std.specs.Prelude.{◌≡◌, ◌∷◌, MatchResult, None, Some};
ghost use Rattle.filter_parse.specs.declared.fault.ParseFault.TheVariants.{OutOfMemory};
ghost use Rattle.filter_parse.specs.declared.state.State.TheVariants.{Expects};
ghost use Rattle.filter_parse.specs.body.Parser.{Meets, after_truth, begins, begins_truth, fault_in, judged_by, parsing, parsing_of};
ghost use Rattle.filter_parse.specs.body.Stack.{from_top};

use crate::fault::ParseFault;
use crate::item::Item;
use crate::limits::{number_to_u32, one_more_bracket};
use crate::parser::Parser;
use crate::reduce::{is_numeric, reduce_connectives};
use crate::state::{Pending, State};
use crate::token::Token;
use filter_tree::Transport;
use std::alloc::Allocator;

impl<'a, A: Allocator> Parser<'a, A> {
    pub(crate) fn begin(
        &mut self,
        lookahead: Token,
        at: usize,
        brackets: usize,
    ) -> Result<(), ParseFault>
        ensures { Meets (judged_by (fault_in Expects brackets lookahead at) at
            (begins lookahead (from_top self.old.stack) self.old.output.entries.items)) result (parsing_of self.new) }
    {
        match lookahead {
            Token::Number(n) => self.put_operand(Item::Number(number_to_u32(n, at)?)),
            Token::Length => self.put_operand(Item::Length),
            Token::Named(protocol) => {
                self.state = State::Named(protocol);
                Ok(())
            }
            Token::Open => {
                one_more_bracket(brackets, at)?;
                let numeric = is_numeric(&self.stack);
                self.push(Pending::Bracket(numeric))
            }
            _ if is_numeric(&self.stack) => Err(ParseFault::Syntax { at }),
            _ => self.begin_truth(lookahead, at),
        }
    }

    fn begin_truth(&mut self, lookahead: Token, at: usize) -> Result<(), ParseFault>
        ensures { Meets (judged_by None at
            (begins_truth lookahead (from_top self.old.stack) self.old.output.entries.items)) result (parsing_of self.new) }
    {
        match lookahead {
            Token::Not => self.push(Pending::Negated),
            Token::Less => {
                self.state = State::WantsMost;
                Ok(())
            }
            Token::Greater => {
                self.state = State::WantsLeast;
                Ok(())
            }
            _ => self.begin_direction(Transport::Unnamed, lookahead, at),
        }
    }

    #[inline(always)]
    pub(crate) fn after_truth(&mut self, lookahead: Token, at: usize) -> Result<(), ParseFault>
        ensures { Meets (judged_by None at
            (after_truth lookahead (from_top self.old.stack) self.old.output.entries.items)) result (parsing_of self.new) }
    {
        match (lookahead, self.stack.top()) {
            (Token::Connects(word), _) => self.push(Pending::Joined(word)),
            (Token::Close, Some(Pending::Bracket(_))) => {
                let _ = self.stack.pop();
                reduce_connectives(&mut self.stack, &mut self.output)?;
                self.state = State::Truth;
                Ok(())
            }
            _ => Err(ParseFault::Syntax { at }),
        }
    }

    /// Pushes the entry that the lookahead began; it is pending until its right side is complete.
    #[inline(always)]
    pub(crate) fn push(&mut self, pending: Pending) -> Result<(), ParseFault>
        ensures { MatchResult result
            (λ _. parsing_of self.new ≡ parsing Expects (pending ∷ from_top self.old.stack) self.old.output.entries.items)
            (λ fault. fault ≡ OutOfMemory) }
    {
        self.stack.push(pending)?;
        self.state = State::Expects;
        Ok(())
    }
}
