//! Shifts after an arithmetic expression, and inside an accessor.

ghost use Rattle.std.specs.Prelude.{◌≡◌, ◌∷◌, ◌++◌, MatchResult, None, [], Some};
ghost use Rattle.filter_parse.specs.declared.fault.ParseFault.TheVariants.{OutOfMemory};
ghost use Rattle.filter_parse.specs.declared.state.State.TheVariants.{Number, WantsEnd, WantsSize};
ghost use Rattle.filter_parse.specs.body.Parser.{Meets, after_number, judged_by, parsing, parsing_of, shifted, size_of_number, sized_by};
ghost use Rattle.filter_parse.specs.body.Stack.{from_top};

use crate::fault::ParseFault;
use crate::item::Item;
use crate::parser::Parser;
use crate::reduce::is_numeric;
use crate::state::{Pending, State};
use crate::token::Token;
use filter_tree::{Protocol, Size};
use std::alloc::Allocator;

impl<'a, A: Allocator> Parser<'a, A> {
    pub(crate) fn after_number(&mut self, lookahead: Token, at: usize) -> Result<(), ParseFault>
        ensures { Meets (judged_by None at
            (after_number lookahead (from_top self.old.stack) self.old.output.entries.items)) result (parsing_of self.new) }
    {
        match (lookahead, self.stack.top()) {
            (Token::Operates(operator), _) => self.push(Pending::Operated(operator)),
            (Token::Compares(_), _) if is_numeric(&self.stack) => Err(ParseFault::Syntax { at }),
            (Token::Compares(relator), _) => self.push(Pending::Compared(relator)),
            (Token::Close, Some(Pending::Bracket(_))) => {
                let _ = self.stack.pop();
                self.state = State::Number;
                Ok(())
            }
            (Token::CloseIndex, Some(Pending::Index(protocol))) => {
                let _ = self.stack.pop();
                self.put_operand(Item::Access(protocol, Size::One))
            }
            (Token::Colon, Some(Pending::Index(protocol))) => {
                let _ = self.stack.pop();
                self.state = State::WantsSize(protocol);
                Ok(())
            }
            _ => Err(ParseFault::Syntax { at }),
        }
    }

    pub(crate) fn after_colon(
        &mut self,
        protocol: Protocol,
        lookahead: Token,
        at: usize,
    ) -> Result<(), ParseFault>
        ensures { Meets (judged_by None at
            (shifted lookahead (parsing (WantsSize protocol) (from_top self.old.stack) self.old.output.entries.items))) result (parsing_of self.new) }
    {
        match lookahead {
            Token::Number(n) => self.shift_size(protocol, n, at),
            _ => Err(ParseFault::Syntax { at }),
        }
    }

    pub(crate) fn after_size(
        &mut self,
        protocol: Protocol,
        size: Size,
        lookahead: Token,
        at: usize,
    ) -> Result<(), ParseFault>
        ensures { Meets (judged_by None at
            (shifted lookahead (parsing (WantsEnd protocol size) (from_top self.old.stack) self.old.output.entries.items))) result (parsing_of self.new) }
    {
        match lookahead {
            Token::CloseIndex => self.put_operand(Item::Access(protocol, size)),
            _ => Err(ParseFault::Syntax { at }),
        }
    }

    fn shift_size(&mut self, protocol: Protocol, n: u64, at: usize) -> Result<(), ParseFault>
        ensures { Meets (judged_by None at
            (sized_by protocol (size_of_number n) (from_top self.old.stack) self.old.output.entries.items)) result (parsing_of self.new) }
    {
        match size_of_number(n) {
            Some(size) => {
                self.state = State::WantsEnd(protocol, size);
                Ok(())
            }
            None => Err(ParseFault::Syntax { at }),
        }
    }

    /// Appends a complete operand to the output. The next lookahead reduces the operators that it completes.
    #[inline(always)]
    pub(crate) fn put_operand(&mut self, item: Item) -> Result<(), ParseFault>
        ensures { MatchResult result
            (λ _. parsing_of self.new ≡ parsing Number (from_top self.old.stack) (self.old.output.entries.items ++ item ∷ []))
            (λ fault. fault ≡ OutOfMemory) }
    {
        self.output.push(item)?;
        self.state = State::Number;
        Ok(())
    }
}

fn size_of_number(n: u64) -> Option<Size>
    ensures { result ≡ size_of_number n }
{
    match n {
        1 => Some(Size::One),
        2 => Some(Size::Two),
        4 => Some(Size::Four),
        _ => None,
    }
}
