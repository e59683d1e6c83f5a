//! The operator: the one that fills rows and pages, publishes and reclaims, by single steps.

ghost use Rattle.std.specs.Prelude.{◌≡◌, ◌+◌, ◌*◌, ◌<◌, ◌≤◌, ◌↔◌, IsTrue, List, MatchOption, [], length, slice_index, suc, ℕ};
ghost use mathlib.Core.Option.{some};
ghost use lib.ListN.{get_elem?};
ghost use Rattle.config_image.specs.declared.TheConstants.{PAGE_LIMIT, PAGE_WORDS, ROW_WORDS};
ghost use Rattle.config_image.specs.Image.{Group, image};
ghost use Rattle.config_image.specs.PageTable.{header_begin, header_count};
ghost use Rattle.config_image.specs.Pooled.{parts};
ghost use Rattle.versions.specs.declared.layout.TheConstants.{LAST_NUMBER, ROWS, WORKERS};
ghost use Rattle.versions.specs.declared.step.Entry.{Entry};
ghost use Rattle.versions.specs.Book.{IsBookAtStart};
ghost use Rattle.versions.specs.Free.{IsFree, IsFreePage, IsFreeRow, Names, number_after};
ghost use Rattle.versions.specs.Layout.{HoldsForm, pages_named, stored_words};
ghost use Rattle.versions.specs.World.{first_pages, opened_with};
ghost use Rattle.versions.specs.Legal.{MayPeek};
ghost use Rattle.versions.specs.Table.{the_shape};
ghost use Rattle.read_section.specs.Layout.{HoldsConfig, IsPublishable, IsZeroFrom};
ghost use Rattle.read_section.specs.body.OperatorKept.{KeepsZeros};
ghost use Rattle.read_section.specs.body.Steps.{IsOwnLogOf};
ghost use Rattle.read_section.specs.Operator.{IsCurrent, IsLeastFreePage, StandsIn, IsReport, Meets, NeverShort, filled, filled_page, opened_operator, published_from, scanned};
ghost use Rattle.read_section.specs.View.{TellsLog};

use crate::current_pages::CurrentPages;
use crate::seat::{OperatorSeat, WorkerSeat};
use config_image::{ROW_WORDS, RowHeader, image_len};
use member_group::Config;
use std::alloc::Global;
use std::marker::Model;
use versions::{Book, PAGES, ROWS, WORKERS, row_begin, row_names, row_place};

/// The `count` versions from `first` on, which may be reused.
#[derive(Clone, Copy, Debug, PartialEq, Eq)]
pub struct Reclaimed {
    pub first: u64,
    pub count: u64,
}

/// The updater of a table.
///
/// Contracts see its table, its log with its publications, and the number of versions that it reported.
/// The reason: docs/INTERNALS.md, "What the operator keeps".
#[derive(Drop)]
pub struct Operator {
    seat: OperatorSeat,
    config: Config,
    book: Book,
    reported: u64,
    // For each row a place from which on its words are 0.
    zeros: [usize; ROWS],
    // The table's words at its opening, with the words of the rows as the operator's fills left them.
    words: Vec<u64, Global>,
    pages: CurrentPages,
}

impl Model for Operator {
    ghost use Rattle.read_section.specs.body.OperatorKept.{IsKeptBy};
    ghost use Rattle.read_section.specs.Operator.{OperatorValue};

    ghost Value = { OperatorValue };

    ghost view = { λ o. record { table = o.seat.table; view = o.seat.view; reported = o.reported } };

    ghost invariant = { λ o. IsKeptBy o.seat.view o.config o.book o.reported o.zeros o.words.items o.pages };
}

// Returns the place at which the zeros of a row begin, after a word was stored at a place.
fn zeros_begin(from: usize, place: usize, word: u64) -> usize
    requires from { from ≤ ROW_WORDS }
    requires place { place < ROW_WORDS }
    ensures zeros { KeepsZeros place word from result }
    ensures within { result ≤ ROW_WORDS }
{
    if word != 0 {
        return from.max(place + 1);
    }
    if place + 1 == from {
        return place;
    }
    from
}

// Returns the place at which the zeros of a row in the pooled form begin, from its first word: after its page table.
fn form_end(form: RowHeader) -> usize
    ensures { result ≡ header_begin form.0 + header_count form.0 }
{
    form.programs_at() + form.entries()
}

impl Operator {
    pub(crate) fn opened(
        seat: OperatorSeat,
        config: Config,
        book: Book,
        words: Vec<u64, Global>,
        pages: CurrentPages,
    ) -> Operator
        requires seat { seat ≡ record { table = seat.table; view = (opened_operator seat.table config).view } }
        requires publishable { IsPublishable config }
        requires book { IsBookAtStart (first_pages (length (parts config))) book }
        requires words { words.items ≡ (opened_with config).words }
        requires pages { pages ≡ first_pages (length (parts config)) }
        ensures { result ≡ opened_operator seat.table config }
    {
        let mut zeros = [0; ROWS];
        zeros[0] = image_len(&config);
        Operator {
            seat,
            config,
            book,
            reported: 0,
            zeros,
            words,
            pages,
        }
    }

    /// Lends the configuration of the current version.
    pub fn config(&self) -> &Config
        ensures current_configuration { IsCurrent self.now.view result.now }
    {
        &self.config
    }

    /// Returns the number of the current version, counted from 0.
    pub fn number(&self) -> u64
        ensures number { result ≡ number_after self.now.view.log }
        ensures limited { result ≤ LAST_NUMBER }
        ensures last { length self.now.view.published ≡ suc result }
    {
        self.book.number
    }

    /// Tests whether a row is free: it was never used, or its last version is free. Makes no step. False if there is no
    /// such row.
    pub fn is_free(&self, row: usize) -> bool
        ensures free_row_exact { IsTrue result ↔ IsFreeRow the_shape self.now.view row }
    {
        self.book.is_free(row)
    }

    /// Returns a place of a row from which on its words are 0, as the operator's own fills left it. Makes no step.
    ///
    /// The place need not be the least one. A fill of a word other than 0 moves it after that word; a fill of 0 moves
    /// it down to the filled place only from the place right after. A publication moves it to the end of the form that
    /// is in the row.
    pub fn zeros_from(&self, row: usize) -> usize
        requires { row < ROWS }
        ensures zeros { IsZeroFrom self.now.view row result }
        ensures within { result ≤ ROW_WORDS }
    {
        self.zeros[row]
    }

    /// Makes one fill: stores a word at a place of a free row, counted from 0 in the row. Takes no memory.
    pub fn fill(&mut self, row: usize, place: usize, word: u64)
        requires free { IsFreeRow the_shape self.old.view row }
        requires place { place < ROW_WORDS }
        ensures one_fill { self.new ≡ filled row place word self.old }
        ensures all_stored { length self.old.view.stored ≡ stored_words the_shape }
    {
        self.seat.fill(row, place, word);
        self.words[row_place(row, place)] = word;
        self.zeros[row] = zeros_begin(self.zeros[row], place, word);
    }

    /// Returns the word at a place of a row, as the operator's own fills left it: nobody else stores there. Makes no
    /// step.
    pub fn row_word(&self, row: usize, place: usize) -> u64
        requires row { row < ROWS }
        requires place { place < ROW_WORDS }
        ensures word { result ≡ slice_index self.now.view.stored (row * ROW_WORDS + place) }
    {
        let place = row_place(row, place);
        self.words[place]
    }

    /// Lends the words of a row, which `row_word` returns one by one. Makes no step.
    pub fn row_words(&self, row: usize) -> &[u64]
        requires { row < ROWS }
        ensures whole { length result.now ≡ ROW_WORDS }
        ensures words { (i : ℕ) → i < ROW_WORDS → slice_index result.now i ≡ slice_index self.now.view.stored (row * ROW_WORDS + i) }
    {
        let begin = row_begin(row);
        &self.words[begin..begin + ROW_WORDS]
    }

    /// Returns the row of the current version. Makes no step.
    pub fn current_row(&self) -> usize
        ensures current { get_elem? self.now.view.version_rows (number_after self.now.view.log) ≡ some result }
        ensures a_row { result < ROWS }
    {
        for row in 0..ROWS {
            if self.book.last[row] == self.book.number + 1 {
                return row;
            }
        }
        unreachable!()
    }

    /// Tests whether a page is free: each version that names it is free. Makes no step. False if there is no such page.
    pub fn page_is_free(&self, page: usize) -> bool
        ensures page_free_exact { IsTrue result ↔ IsFreePage the_shape self.now.view page }
    {
        self.book.page_is_free(page)
    }

    /// Returns the least free page from the page `from` on, `None` if there is none. Makes no step.
    ///
    /// If a row is free, there are more free pages than a version names (`never_short`).
    pub fn free_page(&self, from: usize) -> Option<usize>
        ensures least { MatchOption result ((page : ℕ) → from ≤ page → IsFreePage the_shape self.now.view page → ⊥) (IsLeastFreePage self.now.view from) }
        ensures never_short { NeverShort self.now.view }
    {
        for page in from..PAGES {
            if self.book.page_is_free(page) {
                return Some(page);
            }
        }
        None
    }

    /// Lends the pages of the current version, in its row's order.
    ///
    /// The current version's row and these pages contain its configuration: neither is free, so no fill changed them.
    pub fn current_pages(&self) -> &[u32]
        ensures stands { (config : List Group) → IsCurrent self.now.view config → StandsIn self.now.view config result.now }
        ensures few { length result.now ≤ PAGE_LIMIT }
    {
        self.pages.as_slice()
    }

    /// Makes one fill: stores a word at a place of a free page, counted from 0 in the page. Takes no memory.
    pub fn fill_page(&mut self, page: usize, place: usize, word: u64)
        requires free { IsFreePage the_shape self.old.view page }
        requires place { place < PAGE_WORDS }
        ensures one_fill { self.new ≡ filled_page page place word self.old }
        ensures all_stored { length self.old.view.stored ≡ stored_words the_shape }
        ensures pool_kept { (n : ℕ) → Names self.old.view n page → IsFree the_shape n self.old.view.log }
    {
        self.seat.fill_page(page, place, word);
    }

    /// Publishes a configuration by one store of `current`; a free row contains it, with the pages that the row names.
    /// Takes no memory.
    ///
    /// The pages of the new version are those that the row's own words name, and these contain the configuration
    /// (`named`). They are not free from then on (`pool_kept`).
    pub fn put(&mut self, row: usize, config: Config)
        requires free { IsFreeRow the_shape self.old.view row }
        requires holds { HoldsConfig self.old.view row config }
        requires publishable { IsPublishable config }
        requires number { number_after self.old.view.log < LAST_NUMBER }
        ensures one_publish { self.new ≡ published_from row config self.old }
        ensures named { (pages : List ℕ) → HoldsForm the_shape 0 self.old.view.stored row config pages → pages_named the_shape self.old.view.stored row ≡ pages }
        ensures pool_kept { (page : ℕ) → Names self.new.view (number_after self.new.view.log) page → IsFreePage the_shape self.new.view page → ⊥ }
    {
        self.seat.publish(&config, row, self.book.number + 1);
        let begin = row_begin(row);
        let names = row_names(&self.words[begin..begin + ROW_WORDS]);
        self.book.count_version(row, names);
        self.pages.replace(names);
        self.zeros[row] = form_end(RowHeader(self.words[begin]));
        self.config = config;
    }

    /// Makes one scan of a worker's read word, and returns it. Takes no memory.
    pub fn scan(&mut self, worker: usize) -> u64
        requires { worker < WORKERS }
        ensures one_scan { (log : List Entry) × TellsLog the_shape self.old.view worker result log × (self.new ≡ scanned worker result log self.old) }
    {
        let word = self.seat.scan(worker);
        self.book.take_scan(worker, word);
        word
    }

    /// Returns the versions that are free by the scans so far and were not reported before, and counts them as
    /// reported. Makes no step.
    pub fn report(&mut self) -> Reclaimed
        ensures report_exact { IsReport self.old.view self.old.reported result.first result.count }
        ensures reported { self.new ≡ record self.old { reported = result.first + result.count } }
    {
        let first = self.reported;
        let count = self.book.free_versions() - first;
        self.reported = first + count;
        Reclaimed { first, count }
    }

    // One peek of a worker, and one scan of it.
    pub(crate) fn meet(&mut self, worker: &mut WorkerSeat)
        requires table { worker.old.table ≡ self.old.table }
        requires stage { MayPeek worker.old.view.stage }
        ensures meets { Meets worker.old worker.new self.old self.new }
        ensures own_log { IsOwnLogOf worker.old }
    {
        let number = worker.number();
        let word = self.seat.meet(worker);
        self.book.take_scan(number, word);
    }
}
