//! Shifts inside a primitive, after its qualifiers or its first word.

ghost use Rattle.std.specs.Prelude.{◌≡◌, ◌++◌, ◌∷◌, MatchResult, []};
ghost use Rattle.filter_parse.specs.declared.fault.ParseFault.TheVariants.{OutOfMemory};
ghost use Rattle.filter_parse.specs.declared.item.Item.TheVariants.{Primitive as PutPrimitive};
ghost use Rattle.filter_parse.specs.declared.token.Token.TheVariants.{Number};
ghost use Rattle.filter_parse.specs.body.Parser.{Meets, in_primitive, judged_by, limit_fault, parsing_of, reduced_connectives};
ghost use Rattle.filter_parse.specs.body.Stack.{from_top};

use crate::fault::ParseFault;
use crate::limits::{known_address, number_to_u8, number_to_u16, number_to_u32, prefix};
use crate::parser::Parser;
use crate::state::State;
use crate::token::Token;
use filter_tree::{Direction, Operator, Primitive};
use std::alloc::Allocator;

impl<'a, A: Allocator> Parser<'a, A> {
    pub(crate) fn in_primitive(&mut self, lookahead: Token, at: usize) -> Result<(), ParseFault>
        ensures { Meets (judged_by (limit_fault self.old.state lookahead at) at
            (in_primitive self.old.state lookahead (from_top self.old.stack) self.old.output.entries.items)) result (parsing_of self.new) }
    {
        match (self.state, lookahead) {
            (State::Directed(transport, Direction::Source), _) => {
                return self.after_source(transport, lookahead, at);
            }
            (State::Directed(transport, direction), _) => {
                return self.in_direction(lookahead, transport, direction, at);
            }
            (_, Token::Number(n)) => return self.number_in_primitive(n, at),
            (State::WantsAddress(direction), Token::Address(a)) => {
                let address = known_address(a, at)?;
                return self.put_primitive(Primitive::Host(direction, address));
            }
            (State::WantsNetwork(direction), Token::Address(a)) => {
                self.state = State::WantsSlash(direction, known_address(a, at)?);
            }
            (State::WantsSlash(direction, a), Token::Operates(Operator::Divide)) => {
                self.state = State::WantsBits(direction, a);
            }
            (State::WantsDash(transport, direction, n), Token::Operates(Operator::Subtract)) => {
                self.state = State::WantsLast(transport, direction, n);
            }
            (State::Widened(transport, direction), Token::Destination) => {
                self.state = State::Directed(transport, direction);
            }
            _ => return Err(ParseFault::Syntax { at }),
        }
        Ok(())
    }

    fn number_in_primitive(&mut self, n: u64, at: usize) -> Result<(), ParseFault>
        ensures { Meets (judged_by (limit_fault self.old.state (Number n) at) at
            (in_primitive self.old.state (Number n) (from_top self.old.stack) self.old.output.entries.items)) result (parsing_of self.new) }
    {
        let primitive = match self.state {
            State::WantsProtocol => Primitive::Proto(number_to_u8(n, at)?),
            State::WantsBits(direction, a) => {
                let network = prefix(a, number_to_u32(n, at)?, at)?;
                Primitive::Net(direction, network)
            }
            State::WantsPort(transport, direction) => {
                Primitive::Port(transport, direction, number_to_u16(n, at)?)
            }
            State::WantsFirst(transport, direction) => {
                self.state = State::WantsDash(transport, direction, number_to_u16(n, at)?);
                return Ok(());
            }
            State::WantsLast(transport, direction, first) => {
                let last = number_to_u16(n, at)?;
                Primitive::PortRange(transport, direction, first, last)
            }
            State::WantsMost => Primitive::AtMost(number_to_u32(n, at)?),
            State::WantsLeast => Primitive::AtLeast(number_to_u32(n, at)?),
            _ => return Err(ParseFault::Syntax { at }),
        };
        self.put_primitive(primitive)
    }

    pub(crate) fn put_primitive(&mut self, primitive: Primitive) -> Result<(), ParseFault>
        ensures { MatchResult result
            (λ _. parsing_of self.new ≡ reduced_connectives (from_top self.old.stack) (self.old.output.entries.items ++ PutPrimitive primitive ∷ []))
            (λ fault. fault ≡ OutOfMemory) }
    {
        self.reduce_primitive(primitive)?;
        Ok(())
    }
}
