//! Labels and their places (docs/MACHINE.md, "Assembly text").

ghost use Rattle.std.specs.Prelude.{◌≡◌, ◌≤◌, IfErr, IfOk, List, MatchResult, None, OnOk, Some, [], is_none, map, ℕ};
ghost use Rattle.std.specs.Map.{update};
ghost use Rattle.std.specs.Option.{option_map};
ghost use Rattle.std.specs.Str.{bytes_eq};
ghost use Rattle.bpf_asm.specs.Assembly.{places_of};
ghost use Rattle.bpf_asm.specs.Target.{count_of, doubles_fault};
ghost use Rattle.bpf_asm.specs.body.View.{Defines, IsDefinedAgain, UnlessMemory, line_of, place_among};

use crate::fault::AsmFault;
use crate::line::Line;
use bpf_verify::OutOfMemory;
use std::alloc::Allocator;
use std::collections::BTreeMap;

/// The place of each name: the number of instructions before its label.
#[derive(Drop)]
pub(crate) struct Labels<'a, A: Allocator> {
    pub(crate) places: BTreeMap<&'a [u8], usize, A>,
}

impl<'a, A: Allocator> Labels<'a, A> {
    /// Returns the place of a name.
    pub(crate) fn place(&self, name: &'a [u8]) -> Option<usize>
        ensures { result ≡ place_among self.now.places name.now }
    {
        self.places.get(&name).copied()
    }
}

impl<'a, A: Allocator + Clone> Labels<'a, A> {
    // Defines a name, and returns whether it is new.
    fn define(&mut self, name: &'a [u8], place: usize) -> Result<bool, OutOfMemory>
        ensures { IfOk result (λ is_new. (is_new ≡ is_none (place_among self.old.places name.entry.now))
            × ((other : List ℕ) → place_among self.new.places other ≡ update bytes_eq (place_among self.old.places) name.entry.now (Some place) other)) }
    {
        Ok(self.places.insert(name, place)?.is_none())
    }

    fn define_label(&mut self, line: Line<'a>, place: usize, number: usize) -> Result<(), AsmFault>
        ensures { MatchResult result
            (λ _. Defines (place_among self.old.places) (line_of line.entry).label place (place_among self.new.places))
            (IsDefinedAgain (place_among self.old.places) (line_of line.entry).label number) }
    {
        match line.label {
            None => Ok(()),
            Some(name) => {
                if self.define(name, place)? {
                    Ok(())
                } else {
                    Err(AsmFault::DoubleLabel { line: number })
                }
            }
        }
    }
}

fn count_of(line: &Line) -> usize
    ensures count { result ≡ count_of (line_of line.now).statement }
    ensures one { result ≤ 1 }
{
    match line.statement {
        None => 0,
        Some(_) => 1,
    }
}

/// Collects the labels of some lines, or reports the first line that defines a name again.
pub(crate) fn labels_of<'a, A: Allocator + Clone>(
    alloc: A,
    lines: &[Line<'a>],
) -> Result<Labels<'a, A>, AsmFault>
    ensures places { IfOk result (λ labels. place_among labels.places ≡ places_of (map line_of lines.entry.now)) }
    ensures names_apart { OnOk result (doubles_fault [] 1 (map line_of lines.entry.now) ≡ None) }
    ensures fault { IfErr result (λ fault. UnlessMemory fault (doubles_fault [] 1 (map line_of lines.entry.now))) }
{
    let mut labels = Labels {
        places: BTreeMap::new(alloc),
    };
    let mut number = 1;
    let mut place = 0;
    for line in lines {
        labels.define_label(*line, place, number)?;
        let count = count_of(line);
        place += count;
        number += 1;
    }
    Ok(labels)
}
