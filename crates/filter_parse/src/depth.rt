//! The depth of an expression in postfix order, without its tree.

ghost use Rattle.std.specs.Prelude.{◌≡◌, ◌<◌, ◌≤◌, ◌∷◌, IfOk, OnOk, [], false, true};
ghost use Rattle.filter_parse.specs.declared.TheConstants.{MAX_DEPTH};
ghost use Rattle.filter_parse.specs.body.Stack.{from_top};
ghost use Rattle.filter_parse.specs.body.Postfix.{deepened, deeper, depths_of, first_depth, other_depths};

use crate::item::Item;
use crate::stack::Stack;
use crate::{MAX_DEPTH, OutOfMemory};
use std::alloc::Allocator;

const TOO_DEEP: u32 = 65;

fn deeper(depth: u32) -> u32
    ensures { result ≡ deeper depth }
{
    depth.saturating_add(1).min(TOO_DEEP)
}

fn pop_depth<'a, A: Allocator>(depths: &mut Stack<'a, u32, A>) -> u32
    ensures first { result ≡ first_depth (from_top depths.old) }
    ensures others { from_top depths.new ≡ other_depths (from_top depths.old) }
{
    match depths.pop() {
        Some(depth) => depth,
        None => 0,
    }
}

fn deepen<'a, A: Allocator>(depths: &mut Stack<'a, u32, A>, item: Item) -> Result<(), OutOfMemory>
    ensures { OnOk result (from_top depths.new ≡ deepened item (from_top depths.old)) }
{
    let depth = match item {
        Item::Number(_) | Item::Length | Item::Primitive(_) => 1,
        Item::Access(_, _) | Item::Negate => deeper(pop_depth(depths)),
        Item::Operate(_) | Item::Relate(_) | Item::Conjoin | Item::Disjoin => {
            let right = pop_depth(depths);
            let left = pop_depth(depths);
            deeper(left.max(right))
        }
    };
    depths.push(depth)?;
    Ok(())
}

/// Tests whether the tree of some parts is too deep. It has no more levels than parts.
pub(crate) fn is_too_deep<A: Allocator>(alloc: &A, items: &[Item]) -> Result<bool, OutOfMemory>
    ensures deep { IfOk result (λ deep. deep ≡ true → MAX_DEPTH < first_depth (depths_of items.now [])) }
    ensures shallow { IfOk result (λ deep. deep ≡ false → first_depth (depths_of items.now []) ≤ MAX_DEPTH) }
{
    if items.len() <= MAX_DEPTH as usize {
        return Ok(false);
    }
    Ok(depth_of(alloc, items)? > MAX_DEPTH)
}

// Returns the depth of the tree of some parts, or 65 if it is greater.
fn depth_of<A: Allocator>(alloc: &A, items: &[Item]) -> Result<u32, OutOfMemory>
    ensures { IfOk result (λ depth. depth ≡ first_depth (depths_of items.now [])) }
{
    let mut depths = Stack::new(alloc);
    for item in items {
        deepen(&mut depths, *item)?;
    }
    Ok(pop_depth(&mut depths))
}
