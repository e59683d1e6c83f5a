//! Counting replies by their kinds, as they come in pieces.

ghost use Rattle.std.specs.Prelude.{◌≡◌, ◌≤◌, ◌++◌, ◌∷◌, AllPairs, IfErr, IfOk, List, OnOk, [], length, ℕ};
ghost use Rattle.std.specs.List.{flat_map};
ghost use Rattle.control_summary.specs.Summary.{AreRows, IsBefore, row_text};
ghost use Rattle.control_summary.specs.body.Counted.{AreAbove, AreBelow, IsAt, IsPlaceOf};

use crate::kind::reply_kind;
use crate::row::Row;
use ipv4_fields::split_at;
use std::alloc::{AllocError, Global};
use std::cmp::Ordering;

// The place of the kind's row, or where it belongs.
fn place_of(rows: &[Row], kind: &[u8]) -> Result<usize, usize>
    ensures found { IfOk result (λ place. IsPlaceOf rows.now kind.now place) }
    ensures within { IfErr result (λ place. place ≤ length rows.now) }
    ensures below { IfErr result (λ place. AllPairs IsBefore rows.now → AreBelow rows.now place kind.now) }
    ensures above { IfErr result (λ place. AllPairs IsBefore rows.now → AreAbove rows.now place kind.now) }
{
    let mut low = 0;
    let mut high = rows.len();
    while low < high {
        let middle = low + (high - low) / 2;
        let row = &rows[middle];
        match row.compare(kind) {
            Ordering::Less => low = middle + 1,
            Ordering::Greater => high = middle,
            Ordering::Equal => return Ok(middle),
        }
    }
    Err(low)
}

// Counts one more reply of the kind.
fn add_reply(alloc: Global, rows: &mut Vec<Row>, kind: &[u8]) -> Result<(), AllocError>
    ensures { OnOk result ((kinds : List (List ℕ)) → AreRows kinds rows.old.items → AreRows (kinds ++ kind.now ∷ []) rows.new.items) }
{
    match place_of(rows, kind) {
        Ok(place) => {
            let row = &mut rows[place];
            row.add_one();
        }
        Err(place) => {
            let row = Row::new(alloc, kind)?;
            rows.insert(place, row)?;
        }
    }
    Ok(())
}

/// The counts of the lines that have ended, and the bytes that were put after these.
#[derive(Drop)]
pub(crate) struct Counted {
    alloc: Global,
    held: Vec<u8>,
    rows: Vec<Row>,
}

impl Counted {
    pub(crate) fn new(alloc: Global) -> Counted
        ensures { IsAt [] result.held.items result.rows.items }
    {
        Counted {
            alloc,
            held: Vec::new(alloc),
            rows: Vec::new(alloc),
        }
    }

    // Ends the line that is held, and counts it.
    fn count_held(&mut self) -> Result<(), AllocError>
        ensures { OnOk result ((text : List ℕ) → IsAt text self.old.held.items self.old.rows.items → IsAt (text ++ 10 ∷ []) self.new.held.items self.new.rows.items) }
    {
        if let Some(kind) = reply_kind(&self.held) {
            add_reply(self.alloc, &mut self.rows, kind)?;
        }
        self.held.clear();
        Ok(())
    }

    /// Counts the lines that the bytes end.
    pub(crate) fn take(&mut self, bytes: &[u8]) -> Result<(), AllocError>
        ensures { OnOk result ((text : List ℕ) → IsAt text self.old.held.items self.old.rows.items → IsAt (text ++ bytes.now) self.new.held.items self.new.rows.items) }
    {
        let mut left = bytes;
        while let Some((front, behind)) = split_at(b'\n', left) {
            self.held.extend_from_slice(front)?;
            self.count_held()?;
            left = behind;
        }
        Ok(self.held.extend_from_slice(left)?)
    }

    /// Returns the rows as lines.
    pub(crate) fn text(&self) -> Result<Vec<u8>, AllocError>
        ensures { IfOk result (λ text. text.items ≡ flat_map row_text self.now.rows.items) }
    {
        let mut text = Vec::new(self.alloc);
        for row in &self.rows {
            row.append_to(self.alloc, &mut text)?;
        }
        Ok(text)
    }
}
