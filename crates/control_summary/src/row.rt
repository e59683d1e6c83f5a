//! A row of the counts: a kind of reply, and how many replies are of it.

ghost use Rattle.std.specs.Prelude.{◌≡◌, ◌+◌, ◌-◌, ◌^◌, ◌++◌, IfOk, OnOk, min};
ghost use Rattle.std.specs.Cmp.Lexicographic.{slice_cmp};
ghost use Rattle.std.specs.Ordering.{nat_cmp};
ghost use Rattle.control_summary.specs.Summary.{row_text};

use std::alloc::{AllocError, Global};
use std::cmp::Ordering;
use std::marker::Model;

/// A kind of reply, and how many replies are of it, up to the greatest number of 64 bits.
#[derive(Drop)]
pub(crate) struct Row {
    kind: Vec<u8>,
    count: u64,
}

impl Model for Row {
    ghost use Rattle.control_summary.specs.Summary.{RowValue};

    ghost Value = { RowValue };

    ghost view = { λ row. record { kind = row.kind.items; count = row.count } };
}

impl Row {
    /// Makes the row of a kind with one reply.
    pub(crate) fn new(alloc: Global, kind: &[u8]) -> Result<Row, AllocError>
        ensures { IfOk result (λ row. row ≡ record { kind = kind.now; count = 1 }) }
    {
        Ok(Row {
            kind: kind.to_vec(alloc)?,
            count: 1,
        })
    }

    /// Compares the row's kind with another.
    pub(crate) fn compare(&self, kind: &[u8]) -> Ordering
        ensures { result ≡ slice_cmp nat_cmp self.now.kind kind.now }
    {
        self.kind.as_slice().cmp(kind)
    }

    /// Counts one more reply of the kind.
    pub(crate) fn add_one(&mut self)
        ensures { self.new ≡ record self.old { count = min (self.old.count + 1) (2 ^ 64 - 1) } }
    {
        self.count = self.count.saturating_add(1);
    }

    /// Writes the row as a line.
    pub(crate) fn append_to(&self, alloc: Global, text: &mut Vec<u8>) -> Result<(), AllocError>
        ensures { OnOk result (text.new.items ≡ text.old.items ++ row_text self.now) }
    {
        let count = self.count;
        let count = format!(in alloc; " {count}\n")?;
        text.extend_from_slice(&self.kind)?;
        text.extend_from_slice(count.as_bytes())?;
        Ok(())
    }
}
