//! The printed text of an expression (docs/EXPRESSIONS.md, "How an expression is printed").

ghost use Rattle.std.specs.Prelude.{◌≡◌, ◌++◌, IfOk, OnOk, codes, string_bytes};
ghost use Rattle.std.specs.Fmt.{decimal};
ghost use Rattle.filter_tree.specs.Text.{beside, printed, printed_address, printed_arith, printed_direction, printed_operator, printed_primitive, printed_protocol, printed_relation, printed_size, printed_transport};
ghost use Rattle.filter_tree.specs.declared.primitive.Primitive.TheVariants.{Host, Net, Port, PortRange};
ghost use Rattle.filter_tree.specs.Tree.{IsArithInRange, IsInRange, IsPrimitiveInRange};
ghost use Rattle.filter_tree.specs.body.Connective.{printed_connective};
ghost use Rattle.filter_tree.specs.View.{arith_tree_of, tree_of};

use crate::OutOfMemory;
use crate::arithmetic::{Arith, Operator, Protocol, Size};
use crate::expression::{Expr, Relation};
use crate::prefix::Prefix;
use crate::primitive::{Direction, Primitive, Transport};
use std::alloc::Allocator;

impl<A: Allocator> Expr<A> {
    /// Prints the expression as a text in memory of `alloc`: `and`, `or` and each operation in parentheses, one space
    /// between tokens but none beside `/`, in a range and inside an accessor.
    pub fn print<B: Allocator>(&self, alloc: B) -> Result<String<B>, OutOfMemory>
        ensures printed { IfOk result (λ text. string_bytes text ≡ printed (tree_of self.now)) }
        ensures in_range { IfOk result (λ _. IsInRange (tree_of self.now)) }
    {
        let mut text = String::new(alloc);
        print_expr(&mut text, self)?;
        Ok(text)
    }
}

impl<A: Allocator> Arith<A> {
    /// Prints the arithmetic expression as a text in memory of `alloc`, as a side of a relation is printed.
    pub fn print<B: Allocator>(&self, alloc: B) -> Result<String<B>, OutOfMemory>
        ensures printed { IfOk result (λ text. string_bytes text ≡ printed_arith (codes " ") (arith_tree_of self.now)) }
        ensures in_range { IfOk result (λ _. IsArithInRange (arith_tree_of self.now)) }
    {
        let mut text = String::new(alloc);
        print_arith(&mut text, " ", self)?;
        Ok(text)
    }
}

fn operator_text(operator: Operator) -> &'static str
    ensures { result.now ≡ printed_operator operator }
{
    match operator {
        Operator::Or => "|",
        Operator::ExclusiveOr => "^",
        Operator::And => "&",
        Operator::ShiftLeft => "<<",
        Operator::ShiftRight => ">>",
        Operator::Add => "+",
        Operator::Subtract => "-",
        Operator::Multiply => "*",
        Operator::Divide => "/",
        Operator::Modulo => "%",
    }
}

fn relation_text(relation: Relation) -> &'static str
    ensures { result.now ≡ printed_relation relation }
{
    match relation {
        Relation::Greater => ">",
        Relation::Less => "<",
        Relation::GreaterOrEqual => ">=",
        Relation::LessOrEqual => "<=",
        Relation::Equal => "=",
        Relation::NotEqual => "!=",
    }
}

fn protocol_text(protocol: Protocol) -> &'static str
    ensures { result.now ≡ printed_protocol protocol }
{
    match protocol {
        Protocol::Ip => "ip",
        Protocol::Tcp => "tcp",
        Protocol::Udp => "udp",
        Protocol::Icmp => "icmp",
    }
}

fn direction_text(direction: Direction) -> &'static str
    ensures { result.now ≡ printed_direction direction }
{
    match direction {
        Direction::Source => "src ",
        Direction::Destination => "dst ",
        Direction::Either => "",
        Direction::Both => "src and dst ",
    }
}

fn transport_text(transport: Transport) -> &'static str
    ensures { result.now ≡ printed_transport transport }
{
    match transport {
        Transport::Tcp => "tcp ",
        Transport::Udp => "udp ",
        Transport::Unnamed => "",
    }
}

fn size_text(size: Size) -> &'static str
    ensures { result.now ≡ printed_size size }
{
    match size {
        Size::One => "1",
        Size::Two => "2",
        Size::Four => "4",
    }
}

fn print_number<B: Allocator>(text: &mut String<B>, n: u32) -> Result<(), OutOfMemory>
    ensures { OnOk result (string_bytes text.new ≡ string_bytes text.old ++ decimal n) }
{
    write!(text, "{n}")
}

fn print_address<B: Allocator>(text: &mut String<B>, address: u32) -> Result<(), OutOfMemory>
    ensures { OnOk result (string_bytes text.new ≡ string_bytes text.old ++ printed_address address) }
{
    let (a, b, c, d) = (
        address >> 24,
        (address >> 16) % 256,
        (address >> 8) % 256,
        address % 256,
    );
    write!(text, "{a}.{b}.{c}.{d}")
}

fn print_host<B: Allocator>(
    text: &mut String<B>,
    direction: Direction,
    address: u32,
) -> Result<(), OutOfMemory>
    ensures { OnOk result (string_bytes text.new ≡ string_bytes text.old ++ printed_primitive (Host direction address)) }
{
    text.push_str(direction_text(direction))?;
    text.push_str("host ")?;
    print_address(text, address)
}

fn print_net<B: Allocator>(
    text: &mut String<B>,
    direction: Direction,
    prefix: Prefix,
) -> Result<(), OutOfMemory>
    ensures { OnOk result (string_bytes text.new ≡ string_bytes text.old ++ printed_primitive (Net direction prefix)) }
{
    text.push_str(direction_text(direction))?;
    text.push_str("net ")?;
    print_address(text, prefix.address())?;
    print_named(text, "/", prefix.length())
}

// Prints a primitive on ports before its numbers.
fn print_ports<B: Allocator>(
    text: &mut String<B>,
    transport: Transport,
    direction: Direction,
    name: &str,
) -> Result<(), OutOfMemory>
    ensures { OnOk result (string_bytes text.new ≡ string_bytes text.old ++ (printed_transport transport ++ printed_direction direction ++ name.now)) }
{
    text.push_str(transport_text(transport))?;
    text.push_str(direction_text(direction))?;
    text.push_str(name)
}

fn print_port<B: Allocator>(
    text: &mut String<B>,
    transport: Transport,
    direction: Direction,
    n: u16,
) -> Result<(), OutOfMemory>
    ensures { OnOk result (string_bytes text.new ≡ string_bytes text.old ++ printed_primitive (Port transport direction n)) }
{
    print_ports(text, transport, direction, "port ")?;
    print_number(text, u32::from(n))
}

fn print_port_range<B: Allocator>(
    text: &mut String<B>,
    transport: Transport,
    direction: Direction,
    ends: (u16, u16),
) -> Result<(), OutOfMemory>
    ensures { OnOk result (string_bytes text.new ≡ string_bytes text.old ++ printed_primitive (PortRange transport direction ends.0 ends.1)) }
{
    print_ports(text, transport, direction, "portrange ")?;
    let (n, m) = ends;
    write!(text, "{n}-{m}")
}

// Prints a number after a name.
fn print_named<B: Allocator>(text: &mut String<B>, name: &str, n: u32) -> Result<(), OutOfMemory>
    ensures { OnOk result (string_bytes text.new ≡ string_bytes text.old ++ (name.now ++ decimal n)) }
{
    write!(text, "{name}{n}")
}

fn print_primitive<B: Allocator>(
    text: &mut String<B>,
    primitive: Primitive,
) -> Result<(), OutOfMemory>
    ensures printed { OnOk result (string_bytes text.new ≡ string_bytes text.old ++ printed_primitive primitive) }
    ensures in_range { OnOk result (IsPrimitiveInRange primitive) }
{
    match primitive {
        Primitive::Ip => text.push_str("ip"),
        Primitive::Proto(n) => print_named(text, "ip proto ", u32::from(n)),
        Primitive::Host(direction, address) => print_host(text, direction, address),
        Primitive::Net(direction, prefix) => print_net(text, direction, prefix),
        Primitive::Port(transport, direction, n) => print_port(text, transport, direction, n),
        Primitive::PortRange(transport, direction, n, m) => {
            print_port_range(text, transport, direction, (n, m))
        }
        Primitive::AtMost(n) => print_named(text, "less ", n),
        Primitive::AtLeast(n) => print_named(text, "greater ", n),
    }
}

fn print_arith<A: Allocator, B: Allocator>(
    text: &mut String<B>,
    gap: &str,
    arith: &Arith<A>,
) -> Result<(), OutOfMemory>
    ensures printed { OnOk result (string_bytes text.new ≡ string_bytes text.old ++ printed_arith gap.now (arith_tree_of arith.now)) }
    ensures in_range { OnOk result (IsArithInRange (arith_tree_of arith.now)) }
{
    match arith {
        Arith::Number(n) => print_number(text, *n),
        Arith::Length => text.push_str("len"),
        Arith::Accessor(protocol, index, size) => {
            begin_accessor(text, *protocol)?;
            print_arith(text, "", index)?;
            end_accessor(text, *size)
        }
        Arith::Operation(left, operator, right) => {
            begin_operation(text, gap)?;
            print_arith(text, gap, left)?;
            print_operator(text, gap, *operator)?;
            print_arith(text, gap, right)?;
            end_operation(text, gap)
        }
    }
}

fn begin_accessor<B: Allocator>(text: &mut String<B>, protocol: Protocol) -> Result<(), OutOfMemory>
    ensures { OnOk result (string_bytes text.new ≡ string_bytes text.old ++ (printed_protocol protocol ++ codes "[")) }
{
    text.push_str(protocol_text(protocol))?;
    text.push_str("[")
}

fn end_accessor<B: Allocator>(text: &mut String<B>, size: Size) -> Result<(), OutOfMemory>
    ensures { OnOk result (string_bytes text.new ≡ string_bytes text.old ++ (codes ":" ++ printed_size size ++ codes "]")) }
{
    let size = size_text(size);
    write!(text, ":{size}]")
}

fn begin_operation<B: Allocator>(text: &mut String<B>, gap: &str) -> Result<(), OutOfMemory>
    ensures { OnOk result (string_bytes text.new ≡ string_bytes text.old ++ (codes "(" ++ gap.now)) }
{
    text.push_str("(")?;
    text.push_str(gap)
}

fn end_operation<B: Allocator>(text: &mut String<B>, gap: &str) -> Result<(), OutOfMemory>
    ensures { OnOk result (string_bytes text.new ≡ string_bytes text.old ++ (gap.now ++ codes ")")) }
{
    text.push_str(gap)?;
    text.push_str(")")
}

fn print_operator<B: Allocator>(
    text: &mut String<B>,
    gap: &str,
    operator: Operator,
) -> Result<(), OutOfMemory>
    ensures { OnOk result (string_bytes text.new ≡ string_bytes text.old ++ (beside operator gap.now ++ printed_operator operator ++ beside operator gap.now)) }
{
    let gap = beside(operator, gap);
    write!(text, "{gap}{}{gap}", operator_text(operator))
}

fn beside(operator: Operator, gap: &str) -> &str
    ensures { result.now ≡ beside operator gap.now }
{
    match operator {
        Operator::Divide => "",
        _ => gap,
    }
}

fn print_expr<A: Allocator, B: Allocator>(
    text: &mut String<B>,
    expr: &Expr<A>,
) -> Result<(), OutOfMemory>
    ensures printed { OnOk result (string_bytes text.new ≡ string_bytes text.old ++ printed (tree_of expr.now)) }
    ensures in_range { OnOk result (IsInRange (tree_of expr.now)) }
{
    match expr {
        Expr::Primitive(primitive) => print_primitive(text, *primitive),
        Expr::Relation(left, relation, right) => {
            print_arith(text, " ", left)?;
            print_relation(text, *relation)?;
            print_arith(text, " ", right)
        }
        Expr::Not(inner) => {
            text.push_str("not ")?;
            print_expr(text, inner)
        }
        Expr::And(left, right) | Expr::Or(left, right) => {
            text.push_str("( ")?;
            print_expr(text, left)?;
            text.push_str(connective_text(expr))?;
            print_expr(text, right)?;
            text.push_str(" )")
        }
    }
}

fn print_relation<B: Allocator>(text: &mut String<B>, relation: Relation) -> Result<(), OutOfMemory>
    ensures { OnOk result (string_bytes text.new ≡ string_bytes text.old ++ (codes " " ++ printed_relation relation ++ codes " ")) }
{
    let relation = relation_text(relation);
    write!(text, " {relation} ")
}

fn connective_text<A: Allocator>(expr: &Expr<A>) -> &'static str
    ensures { result.now ≡ printed_connective (tree_of expr.now) }
{
    match expr {
        Expr::And(_, _) => " and ",
        _ => " or ",
    }
}
