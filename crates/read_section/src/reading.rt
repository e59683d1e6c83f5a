//! Reading a word whose place its section does not know, by a few fetches that find it.

ghost use Rattle.std.specs.Prelude.{◌≡◌, ◌<◌, ◌≤◌, Some, length, slice_get, ℕ};
ghost use Rattle.config_image.specs.PageTable.{header_count, header_len, page_of};
ghost use Rattle.config_image.specs.Cache.{Holds};
ghost use Rattle.versions.specs.Layout.{page_begin};
ghost use Rattle.versions.specs.Table.{the_shape};
ghost use Rattle.versions.specs.View.{after_fetch};
ghost use Rattle.read_section.specs.Reads.{FetchedAtMost, FewFetches, Reads};
ghost use Rattle.read_section.specs.Section.{held_words};
ghost use Rattle.read_section.specs.Worker.{steps};
ghost use Rattle.read_section.specs.body.Found.{IsExtentIn, IsFormIn, KnowsRow, row_start};
ghost use Rattle.read_section.specs.body.Sought.{IsSought, TellsEntry};
ghost use Rattle.read_section.specs.body.Steps.{SeesWord};

use crate::worker::Worker;
use config_image::{Extent, PageEntry, READ_LIMIT, RowHeader, Search};
use versions::{page_place, row_begin, row_place};

// The place of the first word of an entry's page in the table.
fn page_begin(entry: PageEntry) -> usize
    ensures { result ≡ page_begin the_shape (page_of entry.0) }
{
    page_place(entry.page(), 0)
}

// The page table entry of a part; after the last one, an entry of page 0 that starts at the end of the parts.
fn read_entry(worker: &mut Worker, row: usize, form: RowHeader, index: usize) -> PageEntry
    requires row { (i : ℕ) × IsSought worker.old.view row form.0 i }
    requires index { index ≤ header_count form.0 }
    ensures entry { TellsEntry worker.old.view index result.0 }
    ensures few { FetchedAtMost 1 worker.old worker.new }
{
    if index < form.entries() {
        PageEntry(worker.fetch(row_place(row, form.programs_at() + index)))
    } else {
        PageEntry::new(form.image_len(), 0)
    }
}

// An extent that has word i, by a search in the page table. It goes on after the part that was found as long as each part fills its
// page and the next part is in the next page: further entries are read, up to as many as a search may read.
fn search_extent(worker: &mut Worker, row: usize, form: RowHeader, i: usize) -> Extent
    requires { IsSought worker.old.view row form.0 i }
    ensures found { IsExtentIn worker.old.view result }
    ensures there { Holds result i }
    ensures few { FetchedAtMost 11 worker.old worker.new }
{
    let mut search = Search::new(form.entries(), form.image_len(), i);
    let mut reads = 0;
    while let Some(index) = search.ask() {
        search.tell(worker.fetch(row_place(row, form.programs_at() + index)));
        reads += 1;
    }
    let found = search.found();
    let at = found.entry.start();
    let shift = page_begin(found.entry) - at;
    // The index of the part after the extent, and its entry, as `read_entry` returns it.
    let mut index = found.index + 1;
    let mut next = found.next;
    while reads < READ_LIMIT && index < form.entries() && page_begin(next) == next.start() + shift {
        index += 1;
        next = read_entry(worker, row, form, index);
        reads += 1;
    }
    // The cache gives it its version.
    Extent {
        version: 0,
        at,
        end: next.start(),
        shift,
    }
}

// The same, from the worker's cache, or on a miss by a search, whose result is inserted.
fn find_extent(worker: &mut Worker, row: usize, form: RowHeader, i: usize) -> Extent
    requires { IsSought worker.old.view row form.0 i }
    ensures found { IsExtentIn worker.old.view result }
    ensures there { Holds result i }
    ensures few { FetchedAtMost 11 worker.old worker.new }
{
    if let Some(extent) = worker.lookup(i) {
        return extent;
    }
    let extent = search_extent(worker, row, form, i);
    worker.insert_extent(i, extent);
    extent
}

// Word i of the image, except the first, if the row's first word was fetched.
fn read_image(worker: &mut Worker, row: usize, form: RowHeader, i: usize) -> u64
    requires known { KnowsRow worker.old.view row }
    requires form { IsFormIn worker.old.view form.0 }
    requires held { i < length (held_words worker.old) }
    requires inside { (0 < i) × (i < header_len form.0) }
    ensures value { slice_get (held_words worker.old) i ≡ Some result }
    ensures few_fetches { Reads 12 i result worker.old worker.new }
{
    if i < form.programs_at() {
        return worker.fetch(row_place(row, i));
    }
    let extent = find_extent(worker, row, form, i);
    worker.fetch(extent.shift + i)
}

// Fetches the row's first word, and puts it into the worker's cache.
fn fetch_form(worker: &mut Worker, row: usize, i: usize) -> RowHeader
    requires known { KnowsRow worker.old.view row }
    requires held { i < length (held_words worker.old) }
    ensures form { IsFormIn worker.old.view result.0 }
    ensures one_fetch { worker.new ≡ steps (after_fetch (row_start row) result.0) worker.old }
    ensures word { SeesWord worker.old (row_start row) result.0 }
{
    let form = RowHeader(worker.fetch(row_begin(row)));
    worker.set_form(form);
    form
}

// Word i, if the row's first word decides it, or is not known yet.
fn read_from_form(worker: &mut Worker, row: usize, i: usize) -> u64
    requires known { KnowsRow worker.old.view row }
    requires held { i < length (held_words worker.old) }
    ensures value { slice_get (held_words worker.old) i ≡ Some result }
    ensures few_fetches { FewFetches i result worker.old worker.new }
{
    let form = fetch_form(worker, row, i);
    if i == 0 {
        return form.image_len() as u64;
    }
    if form.image_len() <= i {
        return 0;
    }
    read_image(worker, row, form, i)
}

/// Reads word `i`, whatever it is, and adds its place to the worker's cache.
/// Why it is cold and not inlined: docs/INTERNALS.md, "A section keeps by value where words are".
#[cold]
#[inline(never)]
pub(crate) fn read_by_row(worker: &mut Worker, row: usize, i: usize) -> u64
    requires known { KnowsRow worker.old.view row }
    requires held { i < length (held_words worker.old) }
    ensures value { slice_get (held_words worker.old) i ≡ Some result }
    ensures few_fetches { FewFetches i result worker.old worker.new }
{
    let form = worker.form();
    if i == 0 || form.image_len() <= i {
        return read_from_form(worker, row, i);
    }
    read_image(worker, row, form, i)
}
