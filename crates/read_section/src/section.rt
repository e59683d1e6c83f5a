//! Read-side critical sections.

ghost use Rattle.std.specs.Prelude.{◌≡◌, ◌+◌, ◌<◌, ◌^◌};
ghost use Rattle.read_section.specs.body.Found.{Knows, KnowsIn-prop};

use crate::reading::read_by_row;
use crate::worker::Worker;
use bpf_insn::{ReadyWords, Words};
use config_image::{Extent, ROW_WORDS, RowHeader};
use versions::{ROWS, row_begin, row_place};

// The facts that a section keeps about the version that is held.
#[derive(Clone, Copy, Debug)]
struct Kept {
    // The version's row.
    row: usize,
    // The place at which the programs begin in the image; 0 if that is not known yet. The words before them are in the
    // row.
    heads: usize,
    // The extent whose words are ready.
    extent: Extent,
}

// It has no word.
const NO_EXTENT: Extent = Extent {
    version: 0,
    at: 0,
    end: 0,
    shift: 0,
};

// The words of an extent. Their numbers are their places in the table.
#[inline(always)]
fn ready_words(extent: Extent) -> ReadyWords
    requires { extent.shift + extent.end < 2 ^ 64 }
    ensures shift { result.shift ≡ extent.shift }
    ensures limit { result.limit ≡ extent.shift + extent.end }
{
    ReadyWords {
        shift: extent.shift,
        limit: extent.shift + extent.end,
    }
}

/// A worker's read-side critical section: the words of one version's row.
///
/// A section cannot be dropped: `leave` or `abandon` spends it.
// The row and the places of words are kept here, and not looked up in the worker at each word: a caller that has the
// section as a local keeps them in registers while a program runs. The words themselves are not kept.
/// The reason: docs/INTERNALS.md, "A section keeps by value where words are".
pub struct Section<'a> {
    worker: &'a mut Worker,
    kept: Kept,
    ghost known: { Knows worker.now.view kept.row kept.heads kept.extent } by { KnowsIn-prop worker.now.view.stage worker.now.view.seen worker.now.view.pages kept.row kept.heads kept.extent },
}

/// The words of the section's row, `ROW_WORDS` of them: the image of the configuration, and then zeros. Each is read by
/// a few fetches, of which the last decides it. A word that is ready takes one.
impl Words for Section<'_> {
    ghost use Rattle.std.specs.Prelude.{◌≡◌, ◌+◌, ◌-◌, ◌<◌, ◌≤◌, ◌^◌, IfSome, Some, length, slice_get};
    ghost use Rattle.read_section.specs.Reads.{FetchedAtMost, FewFetches, Reads};
    ghost use Rattle.read_section.specs.Section.{SectionRest, borrow_of, held_words, ready_from, ready_to, section_rest, shift_of, worker_of};

    ghost Rest = { SectionRest };

    ghost words = { λ section. held_words (worker_of section) };

    ghost rest = { λ section. section_rest section };

    ghost ready_from = { λ section. ready_from section };

    ghost ready_to = { λ section. ready_to section };

    ghost ready_shift = { λ section. shift_of section };

    fn count(&self) -> usize {
        if self.worker.is_inside() {
            ROW_WORDS
        } else {
            0
        }
    }

    #[inline(always)]
    fn word(&mut self, i: usize) -> u64
        requires { i < length (held_words (worker_of self.old)) }
        ensures value { slice_get (held_words (worker_of self.old)) i ≡ Some result }
        ensures few_fetches { FewFetches i result (worker_of self.old) (worker_of self.new) }
        ensures same_worker { borrow_of self.new ≡ borrow_of self.old }
        ensures words_kept { held_words (worker_of self.new) ≡ held_words (worker_of self.old) }
        ensures rest_kept { section_rest self.new ≡ section_rest self.old }
        ensures ready_from { ready_from self.new ≡ ready_from self.old }
        ensures ready_to { ready_to self.new ≡ ready_to self.old }
        ensures shift { shift_of self.new ≡ shift_of self.old }
    {
        if i == 0 {
            let first = self.worker.fetch(row_begin(self.kept.row));
            return RowHeader(first).image_len() as u64;
        }
        if i < self.kept.heads {
            return self.worker.fetch(row_place(self.kept.row, i));
        }
        if self.kept.extent.at <= i && i < self.kept.extent.end {
            return self.worker.fetch(self.kept.extent.shift + i);
        }
        let word = read_by_row(self.worker, self.kept.row, i);
        self.kept.heads = self.worker.form().programs_at();
        word
    }

    // The words of the extent that has word i are ready then. An extent that is not cached is searched for by a call
    // that is not inlined, which leaves the registers to the program's run.
    #[inline(always)]
    fn make_ready(&mut self, i: usize) -> Option<ReadyWords>
        requires { i < length (held_words (worker_of self.old)) }
        ensures from { IfSome result (λ ready. ready_from self.new ≤ i) }
        ensures to { IfSome result (λ ready. i < ready_to self.new) }
        ensures shift { IfSome result (λ ready. ready.shift ≡ shift_of self.new) }
        ensures limit { IfSome result (λ ready. ready.limit ≡ shift_of self.new + ready_to self.new) }
        ensures room { IfSome result (λ ready. ready.shift + length (held_words (worker_of self.new)) < 2 ^ 64) }
        ensures few_fetches { FetchedAtMost 13 (worker_of self.old) (worker_of self.new) }
        ensures same_worker { borrow_of self.new ≡ borrow_of self.old }
        ensures words_kept { held_words (worker_of self.new) ≡ held_words (worker_of self.old) }
        ensures rest_kept { section_rest self.new ≡ section_rest self.old }
    {
        if let Some(extent) = self.worker.lookup(i) {
            self.kept.extent = extent;
            return Some(ready_words(extent));
        }
        // The read inserts the extent of the word.
        let _word = read_by_row(self.worker, self.kept.row, i);
        match self.worker.lookup(i) {
            Some(extent) => {
                self.kept.extent = extent;
                Some(ready_words(extent))
            }
            None => {
                // The caller reads the word by `word`, which then does not use what was kept before, so that needs no
                // register while a program runs.
                self.kept.heads = 0;
                self.kept.extent = NO_EXTENT;
                None
            }
        }
    }

    #[inline(always)]
    fn ready_word(&mut self, number: usize, shift: usize) -> u64
        requires shift { shift ≡ shift_of self.old }
        requires within { number < shift_of self.old + length (held_words (worker_of self.old)) }
        requires from { shift_of self.old + ready_from self.old ≤ number }
        requires to { number < shift_of self.old + ready_to self.old }
        ensures value { slice_get (held_words (worker_of self.old)) (number - shift_of self.old) ≡ Some result }
        ensures one_fetch { Reads 1 (number - shift_of self.old) result (worker_of self.old) (worker_of self.new) }
        ensures ready_from { ready_from self.new ≡ ready_from self.old }
        ensures ready_to { ready_to self.new ≡ ready_to self.old }
        ensures shift { shift_of self.new ≡ shift_of self.old }
        ensures same_worker { borrow_of self.new ≡ borrow_of self.old }
        ensures words_kept { held_words (worker_of self.new) ≡ held_words (worker_of self.old) }
        ensures rest_kept { section_rest self.new ≡ section_rest self.old }
    {
        // Only the clauses need it: the number is the place in the table.
        let _shift = shift;
        self.worker.fetch(number)
    }
}

impl<'a> Section<'a> {
    ghost use Rattle.std.specs.Prelude.{◌≡◌, ◌<◌};
    ghost use Rattle.read_section.specs.Section.{EndsInFetches, HoldsLastSeen, borrow_of, held_version, worker_of};
    ghost use Rattle.read_section.specs.Worker.{IsInside, left, steps};

    pub(crate) fn of(worker: &'a mut Worker, version: u64, row: usize) -> Section<'a>
        requires inside { IsInside worker.old.view.stage version row }
        requires row { row < ROWS }
        requires last_seen { HoldsLastSeen worker.old }
        ensures same_worker { borrow_of result ≡ worker.entry.ghost_name }
        ensures worker { worker_of result ≡ worker.old }
    {
        let heads = worker.form().programs_at();
        Section {
            worker,
            kept: Kept {
                row,
                heads,
                extent: NO_EXTENT,
            },
        }
    }

    /// Returns the number of the section's version, counted from 0.
    pub fn number(&self) -> u64
        ensures held_number { result ≡ held_version (worker_of self.now) }
    {
        self.worker.held_version()
    }

    /// Ends the section by one leave step.
    pub fn leave(self)
        ensures left_by_one_step { self.exit.0.now ≡ steps left (worker_of self.entry) }
        ensures ends_in_fetches { EndsInFetches (worker_of self.entry) }
    {
        let Section { worker, kept: _ } = self;
        worker.leave();
    }

    /// Ends the section without its leave step: the worker counts as inside, and its next `enter` makes the leave step first.
    /// A worker that is dropped instead keeps its version for good.
    pub fn abandon(self)
        ensures abandoned_without_step { self.exit.0.now ≡ worker_of self.entry }
    {
        let Section { worker: _, kept: _ } = self;
    }
}
