//! Programs made from texts: from assembly text (docs/MACHINE.md, "Assembly text") or from a filter expression
//! (docs/EXPRESSIONS.md). Control lines and commands make their programs here.
#![tactic(auto)]

ghost use Rattle.std.specs.Prelude.{◌≡◌, ◌⊎◌, Err, IfErr, IfOk, IsOk, List, ℕ};
ghost use Rattle.filter_parse.specs.Fault.{HasFault, HasTree};
ghost use Rattle.filter_tree.specs.Tree.{Tree};
ghost use Rattle.filter_tree.specs.View.{tree_of};
ghost use Rattle.filter_program.specs.Fault.{HasNotBoth, HasOneFault, HasOneProgram, IsAssemblyFault, IsExpressionFault};
ghost use Rattle.filter_program.specs.Program.{IsAssembledTo, IsCompilable, IsProgramOfAssembly, IsProgramOfExpression};
ghost use Rattle.filter_program.specs.declared.fault.TextFault.TheVariants.{OutOfMemory};

mod fault;

use bpf_asm::assemble;
use bpf_verify::Program;
use bumpalo::Bump;
pub use fault::TextFault;
use filter_compile::compile;
use filter_parse::{ParseFault, parse};
use filter_tree::Expr;
use std::alloc::{Allocator, Global};

fn program_of_assembly(alloc: Global, text: &[u8]) -> Result<Program<Global>, TextFault>
    ensures program { IfOk result (IsProgramOfAssembly text.now) }
    ensures fault { IfErr result (λ fault. (fault ≡ OutOfMemory) ⊎ IsAssemblyFault text.now fault) }
{
    match Program::new(assemble(alloc, text)?) {
        Ok(program) => Ok(program),
        Err((fault, _words)) => Err(TextFault::Words(fault)),
    }
}

// The tree is in an arena of its own, and both are freed before the return: only the program's words remain.
// The reason: docs/INTERNALS.md, "filter_program".
fn program_of_expression(alloc: Global, text: &[u8]) -> Result<Program<Global>, TextFault>
    ensures program { IfOk result (IsProgramOfExpression text.now) }
    ensures fault { IfErr result (λ fault. (fault ≡ OutOfMemory) ⊎ IsExpressionFault text.now fault) }
{
    let arena = Bump::new(alloc);
    program_in_arena(alloc, &arena, text)
}

fn program_in_arena(
    alloc: Global,
    arena: &Bump<Global>,
    text: &[u8],
) -> Result<Program<Global>, TextFault>
    ensures program { IfOk result (IsProgramOfExpression text.now) }
    ensures fault { IfErr result (λ fault. (fault ≡ OutOfMemory) ⊎ IsExpressionFault text.now fault) }
{
    // The tree stays where it was returned, since it is large.
    let parsed = parse(arena, text);
    program_of_parsed(alloc, text, &parsed)
}

fn program_of_parsed<A: Allocator>(
    alloc: Global,
    text: &[u8],
    parsed: &Result<Expr<A>, ParseFault>,
) -> Result<Program<Global>, TextFault>
    requires parses { IfOk parsed.now (λ e. HasTree text.now (tree_of e)) }
    requires fault { IfErr parsed.now (λ fault. (fault ≡ ParseFault.OutOfMemory) ⊎ HasFault text.now fault) }
    ensures program { IfOk result (IsProgramOfExpression text.now) }
    ensures fault { IfErr result (λ fault. (fault ≡ OutOfMemory) ⊎ IsExpressionFault text.now fault) }
{
    // Only the clauses name this.
    let _text = text;
    match parsed {
        Ok(tree) => Ok(compile(alloc, tree)?),
        Err(fault) => Err(TextFault::from(*fault)),
    }
}

/// Makes the program of an assembly text, charged by its number of words.
///
/// The text may be any bytes. `OutOfMemory` is possible for every text.
pub fn assembled(alloc: Global, text: &[u8]) -> Result<Program<Global>, TextFault>
    ensures program { IfOk result (IsProgramOfAssembly text.now) }
    ensures every_program { (words : List ℕ) → IsAssembledTo text.now words → IsOk result ⊎ (result ≡ Err OutOfMemory) }

    ensures fault { IfErr result (λ fault. (fault ≡ OutOfMemory) ⊎ IsAssemblyFault text.now fault) }
    ensures every_fault { (fault : TextFault) → IsAssemblyFault text.now fault → (result ≡ Err fault) ⊎ (result ≡ Err OutOfMemory) }
{
    one_meaning();
    program_of_assembly(alloc, text)
}

/// Makes the program of a filter expression, charged by the expression's size.
///
/// The text may be any bytes. `OutOfMemory` is possible for every text.
pub fn compiled(alloc: Global, text: &[u8]) -> Result<Program<Global>, TextFault>
    ensures program { IfOk result (IsProgramOfExpression text.now) }
    ensures every_program { (tree : Tree) → IsCompilable text.now tree → IsOk result ⊎ (result ≡ Err OutOfMemory) }

    ensures fault { IfErr result (λ fault. (fault ≡ OutOfMemory) ⊎ IsExpressionFault text.now fault) }
    ensures every_fault { (fault : TextFault) → IsExpressionFault text.now fault → (result ≡ Err fault) ⊎ (result ≡ Err OutOfMemory) }
{
    one_meaning();
    program_of_expression(alloc, text)
}

/// Law: a text has one meaning. It means at most one program or has at most one fault, and never both. It runs nothing.
pub fn one_meaning()
    ensures one_program { HasOneProgram }
    ensures one_fault { HasOneFault }
    ensures not_both { HasNotBoth }
{
    filter_parse::one_value();
}
