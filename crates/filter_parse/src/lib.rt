//! Filter expressions read from text (pcap-filter(7); docs/EXPRESSIONS.md, "Grammar" and "Faults and their places").
//!
//! `parse` goes over the text once, keeps open parts on a stack of its own and gathers the expression's parts in
//! postfix order. Only a complete expression whose depth is within the limit becomes a tree.
#![tactic(auto)]

ghost use Rattle.std.specs.Prelude.{◌≡◌, ◌⊎◌, IfErr, IfOk, OnOk, []};
ghost use Rattle.filter_tree.specs.Tree.{Tree};
ghost use Rattle.filter_tree.specs.View.{tree_of};
ghost use Rattle.filter_parse.specs.declared.state.State.TheVariants.{Expects};
ghost use Rattle.filter_parse.specs.Fault.{HasFault, HasTree};
ghost use Rattle.filter_parse.specs.Laws.{ExcludesFaults, HasOneFault, HasOneTree, IsUnambiguous, ReadsBack};
ghost use Rattle.filter_parse.specs.body.Parser.{parsing, parsing_of};
ghost use Rattle.filter_parse.specs.body.Place.{IsBlank};

mod arithmetic;
mod build;
mod depth;
mod expression;
mod fault;
mod item;
mod limits;
mod number;
mod parser;
mod primitive;
mod qualifier;
mod reduce;
mod scan;
mod sign;
mod stack;
mod state;
mod step;
mod token;

use build::build;
use depth::is_too_deep;
pub use fault::ParseFault;
use filter_tree::{Expr, Primitive};
use parser::Parser;
use std::alloc::Allocator;

/// The error of a call whose allocation was refused.
pub use std::alloc::AllocError as OutOfMemory;

/// The greatest depth of a tree that is read, and the greatest number of open brackets.
pub const MAX_DEPTH: u32 = 64;

/// Law: the limit, as a number. It runs nothing.
pub fn limits_as_numbers()
    ensures { MAX_DEPTH ≡ 64 }
{}

/// Parses a filter expression: returns the tree that the grammar gives the text, with its parts placed by clones of
/// `alloc`.
///
/// `Err` is the fault at the first place in the text; of several at one place, `Syntax` comes first. A tree that is too
/// deep is reported only if nothing else is wrong. `Err` is `OutOfMemory` if an allocation is refused, whatever the
/// text. The text may be any bytes.
pub fn parse<A: Allocator + Clone>(alloc: A, text: &[u8]) -> Result<Expr<A>, ParseFault>
    ensures parses { IfOk result (λ e. HasTree text.now (tree_of e)) }
    ensures fault { IfErr result (λ fault. (fault ≡ ParseFault.OutOfMemory) ⊎ HasFault text.now fault) }
    ensures every_tree { (tree : Tree) → HasTree text.now tree → IfErr result (λ fault. fault ≡ ParseFault.OutOfMemory) }
{
    let mut parser = Parser::new(&alloc);
    let mut tree = Expr::Primitive(Primitive::Ip);
    read_tree(&alloc, &mut parser, text, &mut tree)?;
    Ok(tree)
}

// The same, with a parser at the text's start and a place for the tree. `parse` drops both in one place, not after each
// test that fails.
fn read_tree<'a, A: Allocator + Clone>(
    alloc: &'a A,
    parser: &mut Parser<'a, A>,
    text: &[u8],
    to: &mut Expr<A>,
) -> Result<(), ParseFault>
    requires start { parsing_of parser.old ≡ parsing Expects [] [] }
    requires blank { IsBlank to.old }
    ensures parses { OnOk result (HasTree text.now (tree_of to.new)) }
    ensures fault { IfErr result (λ fault. (fault ≡ ParseFault.OutOfMemory) ⊎ HasFault text.now fault) }
{
    parser.read(text)?;
    let mut parts = parser.output.entries();
    if is_too_deep(alloc, parts)? {
        return Err(ParseFault::TooDeep { at: text.len() });
    }
    build(alloc, &mut parts, to)?;
    Ok(())
}

/// Law: a text has at most one tree and at most one fault, and never both. No sequence of tokens spells two trees, not
/// even trees that are too deep. It runs nothing.
pub fn one_value()
    ensures one_value { HasOneTree }
    ensures unambiguous { IsUnambiguous }
    ensures no_fault { ExcludesFaults }
    ensures one_fault { HasOneFault }
{}

/// Law: a tree's printed text parses to that tree, if its depth is at most `MAX_DEPTH` and its numbers are in their
/// ranges. `Expr::print` ensures by `in_range` that its tree's numbers are, so `parse` reads back what it printed.
pub fn reads_back()
    ensures reads_back { ReadsBack }
{}
