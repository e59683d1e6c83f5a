//! Reductions: a pending entry whose right side is complete moves from the stack to the output.

ghost use Rattle.std.specs.Prelude.{◌≡◌, ◌++◌, ◌⊎◌, ◌∷◌, IfOk, None, OnOk, Some, [], MatchResult};
ghost use Rattle.filter_parse.specs.Grammar.{named, precedence_of};
ghost use Rattle.filter_parse.specs.declared.item.Item.TheVariants.{Primitive as PutPrimitive};
ghost use Rattle.filter_parse.specs.declared.state.State.TheVariants.{Named, Number, Truth};
ghost use Rattle.filter_parse.specs.body.Parser.{ends, is_numeric, junction_of, lookahead_precedence, parsing, parsing_of, reduced, reduced_connectives, reduced_operators, reducible};
ghost use Rattle.filter_parse.specs.body.Stack.{from_top, top_of};

use crate::OutOfMemory;
use crate::item::Item;
use crate::parser::Parser;
use crate::stack::Stack;
use crate::state::{Pending, State};
use crate::token::{Connective, Token};
use filter_tree::{Operator, Primitive, Protocol};
use std::alloc::Allocator;

impl<'a, A: Allocator> Parser<'a, A> {
    /// Reduces the pending entries that the lookahead completes.
    #[inline(always)]
    pub(crate) fn reduce(&mut self, lookahead: Option<Token>) -> Result<(), OutOfMemory>
        ensures { OnOk result (parsing_of self.new ≡ reduced lookahead (parsing_of self.old)) }
    {
        match self.state {
            State::Number => self.reduce_number(lookahead),
            State::Named(protocol) => self.reduce_name(protocol, lookahead),
            _ => Ok(()),
        }
    }

    #[inline(always)]
    pub(crate) fn reduce_number(&mut self, lookahead: Option<Token>) -> Result<(), OutOfMemory>
        requires { self.old.state ≡ Number }
        ensures reduced { OnOk result (parsing_of self.new ≡ reduced lookahead (parsing_of self.old)) }
        ensures state { OnOk result ((self.new.state ≡ Number) ⊎ (self.new.state ≡ Truth)) }
    {
        reduce_operators(
            &mut self.stack,
            &mut self.output,
            lookahead_precedence(lookahead),
        )?;
        if ends(lookahead)
            && let Some(Pending::Compared(relator)) = self.stack.top()
        {
            let _ = self.stack.pop();
            self.output.push(Item::Relate(relator))?;
            reduce_connectives(&mut self.stack, &mut self.output)?;
            self.state = State::Truth;
        }
        Ok(())
    }

    #[inline(always)]
    pub(crate) fn reduce_name(
        &mut self,
        protocol: Protocol,
        lookahead: Option<Token>,
    ) -> Result<(), OutOfMemory>
        requires { self.old.state ≡ Named protocol }
        ensures reduced { OnOk result (parsing_of self.new ≡ reduced lookahead (parsing_of self.old)) }
        ensures state { OnOk result ((self.new.state ≡ Named protocol) ⊎ (self.new.state ≡ Truth)) }
    {
        if ends(lookahead) && !is_numeric(&self.stack) {
            self.reduce_primitive(named(protocol))?;
        }
        Ok(())
    }

    /// Appends a complete primitive to the output, and reduces the entries that it completes.
    #[inline(always)]
    pub(crate) fn reduce_primitive(&mut self, primitive: Primitive) -> Result<(), OutOfMemory>
        ensures state { OnOk result (self.new.state ≡ Truth) }
        ensures put { OnOk result (parsing_of self.new
            ≡ reduced_connectives (from_top self.old.stack) (self.old.output.entries.items ++ PutPrimitive primitive ∷ [])) }
    {
        self.output.push(Item::Primitive(primitive))?;
        reduce_connectives(&mut self.stack, &mut self.output)?;
        self.state = State::Truth;
        Ok(())
    }
}

// Usually there is none to reduce, which is tested first.
#[inline(always)]
fn reduce_operators<'a, A: Allocator>(
    stack: &mut Stack<'a, Pending, A>,
    output: &mut Stack<'a, Item, A>,
    precedence: u32,
) -> Result<(), OutOfMemory>
    ensures { OnOk result
        (parsing Number (from_top stack.new) output.new.entries.items ≡ reduced_operators precedence (from_top stack.old) output.old.entries.items) }
{
    if reducible(stack, precedence).is_none() {
        return Ok(());
    }
    reduce_each_operator(stack, output, precedence)
}

#[inline(always)]
fn reduce_each_operator<'a, A: Allocator>(
    stack: &mut Stack<'a, Pending, A>,
    output: &mut Stack<'a, Item, A>,
    precedence: u32,
) -> Result<(), OutOfMemory>
    ensures { OnOk result
        (parsing Number (from_top stack.new) output.new.entries.items ≡ reduced_operators precedence (from_top stack.old) output.old.entries.items) }
{
    while let Some(operator) = reducible(stack, precedence) {
        let _ = stack.pop();
        output.push(Item::Operate(operator))?;
    }
    Ok(())
}

/// Reduces `not`, and one `and` or `or` below: these two bind alike and associate to the left, so none is pending on
/// another.
pub(crate) fn reduce_connectives<'a, A: Allocator>(
    stack: &mut Stack<'a, Pending, A>,
    output: &mut Stack<'a, Item, A>,
) -> Result<(), OutOfMemory>
    ensures { OnOk result
        (parsing Truth (from_top stack.new) output.new.entries.items ≡ reduced_connectives (from_top stack.old) output.old.entries.items) }
{
    while let Some(Pending::Negated) = stack.top() {
        let _ = stack.pop();
        output.push(Item::Negate)?;
    }
    if let Some(Pending::Joined(word)) = stack.top() {
        let _ = stack.pop();
        output.push(junction_of(word))?;
    }
    Ok(())
}

fn reducible<'a, A: Allocator>(stack: &Stack<'a, Pending, A>, precedence: u32) -> Option<Operator>
    ensures { result ≡ reducible precedence (from_top stack.now) }
{
    match stack.top() {
        Some(Pending::Operated(top)) if precedence <= precedence_of(top) => Some(top),
        _ => None,
    }
}

fn precedence_of(operator: Operator) -> u32
    ensures { result ≡ precedence_of operator }
{
    match operator {
        Operator::Or => 0,
        Operator::ExclusiveOr => 1,
        Operator::And => 2,
        Operator::ShiftLeft => 3,
        Operator::ShiftRight => 3,
        Operator::Add => 4,
        Operator::Subtract => 4,
        Operator::Multiply => 5,
        Operator::Divide => 5,
        Operator::Modulo => 5,
    }
}

fn lookahead_precedence(lookahead: Option<Token>) -> u32
    ensures { result ≡ lookahead_precedence lookahead }
{
    match lookahead {
        Some(Token::Operates(operator)) => precedence_of(operator),
        _ => 0,
    }
}

fn ends(lookahead: Option<Token>) -> bool
    ensures { result ≡ ends lookahead }
{
    match lookahead {
        None => true,
        Some(Token::Connects(_)) => true,
        Some(Token::Close) => true,
        _ => false,
    }
}

fn named(protocol: Protocol) -> Primitive
    ensures { result ≡ named protocol }
{
    match protocol {
        Protocol::Ip => Primitive::Ip,
        Protocol::Tcp => Primitive::Proto(6),
        Protocol::Udp => Primitive::Proto(17),
        Protocol::Icmp => Primitive::Proto(1),
    }
}

fn junction_of(word: Connective) -> Item
    ensures { result ≡ junction_of word }
{
    match word {
        Connective::And => Item::Conjoin,
        Connective::AndSign => Item::Conjoin,
        Connective::Or => Item::Disjoin,
        Connective::OrSign => Item::Disjoin,
    }
}

/// Tests whether only an arithmetic expression is allowed above the top.
pub(crate) fn is_numeric<'a, A: Allocator>(stack: &Stack<'a, Pending, A>) -> bool
    ensures { result ≡ is_numeric (from_top stack.now) }
{
    match stack.top() {
        Some(Pending::Bracket(numeric)) => numeric,
        Some(Pending::Compared(_)) => true,
        Some(Pending::Operated(_)) => true,
        Some(Pending::Index(_)) => true,
        _ => false,
    }
}
