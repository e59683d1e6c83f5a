//! Shifts among the qualifiers of a primitive: its protocol, direction and type.

ghost use Rattle.std.specs.Prelude.{◌≡◌, None};
ghost use Rattle.filter_parse.specs.declared.state.State.TheVariants.{Named};
ghost use Rattle.filter_parse.specs.body.Parser.{Meets, after_name, after_protocol, after_source, begins_direction, fault_in, in_direction, judged_by, parsing_of};
ghost use Rattle.filter_parse.specs.body.Stack.{from_top};

use crate::fault::ParseFault;
use crate::limits::one_more_bracket;
use crate::parser::Parser;
use crate::reduce::is_numeric;
use crate::state::{Pending, State};
use crate::token::{Connective, Token};
use filter_tree::{Direction, Protocol, Transport};
use std::alloc::Allocator;

impl<'a, A: Allocator> Parser<'a, A> {
    pub(crate) fn after_name(
        &mut self,
        protocol: Protocol,
        lookahead: Token,
        at: usize,
        brackets: usize,
    ) -> Result<(), ParseFault>
        ensures { Meets (judged_by (fault_in (Named protocol) brackets lookahead at) at
            (after_name protocol lookahead (from_top self.old.stack) self.old.output.entries.items)) result (parsing_of self.new) }
    {
        match lookahead {
            Token::OpenIndex => {
                one_more_bracket(brackets, at)?;
                self.push(Pending::Index(protocol))
            }
            _ if is_numeric(&self.stack) => Err(ParseFault::Syntax { at }),
            _ => self.after_protocol(protocol, lookahead, at),
        }
    }

    fn after_protocol(
        &mut self,
        protocol: Protocol,
        lookahead: Token,
        at: usize,
    ) -> Result<(), ParseFault>
        ensures { Meets (judged_by None at
            (after_protocol protocol lookahead (from_top self.old.stack) self.old.output.entries.items)) result (parsing_of self.new) }
    {
        match (protocol, lookahead) {
            (Protocol::Ip, Token::Proto) => {
                self.state = State::WantsProtocol;
                Ok(())
            }
            (Protocol::Tcp, _) => self.begin_direction(Transport::Tcp, lookahead, at),
            (Protocol::Udp, _) => self.begin_direction(Transport::Udp, lookahead, at),
            _ => Err(ParseFault::Syntax { at }),
        }
    }

    pub(crate) fn begin_direction(
        &mut self,
        transport: Transport,
        lookahead: Token,
        at: usize,
    ) -> Result<(), ParseFault>
        ensures { Meets (judged_by None at
            (begins_direction transport lookahead (from_top self.old.stack) self.old.output.entries.items)) result (parsing_of self.new) }
    {
        match lookahead {
            Token::Source => self.state = State::Directed(transport, Direction::Source),
            Token::Destination => self.state = State::Directed(transport, Direction::Destination),
            _ => return self.in_direction(lookahead, transport, Direction::Either, at),
        }
        Ok(())
    }

    pub(crate) fn after_source(
        &mut self,
        transport: Transport,
        lookahead: Token,
        at: usize,
    ) -> Result<(), ParseFault>
        ensures { Meets (judged_by None at
            (after_source transport lookahead (from_top self.old.stack) self.old.output.entries.items)) result (parsing_of self.new) }
    {
        let direction = match lookahead {
            Token::Connects(Connective::Or) => Direction::Either,
            Token::Connects(Connective::And) => Direction::Both,
            _ => return self.in_direction(lookahead, transport, Direction::Source, at),
        };
        self.state = State::Widened(transport, direction);
        Ok(())
    }

    pub(crate) fn in_direction(
        &mut self,
        lookahead: Token,
        transport: Transport,
        direction: Direction,
        at: usize,
    ) -> Result<(), ParseFault>
        ensures { Meets (judged_by None at
            (in_direction lookahead transport direction (from_top self.old.stack) self.old.output.entries.items)) result (parsing_of self.new) }
    {
        self.state = match (lookahead, transport) {
            (Token::Host, Transport::Unnamed) => State::WantsAddress(direction),
            (Token::Net, Transport::Unnamed) => State::WantsNetwork(direction),
            (Token::Port, _) => State::WantsPort(transport, direction),
            (Token::PortRange, _) => State::WantsFirst(transport, direction),
            _ => return Err(ParseFault::Syntax { at }),
        };
        Ok(())
    }
}
