//! The table as a machine of single steps: the steps that are legal, what each actor knows after them, and the law that
//! is true in every interleaving of them (Desnoyers et al. 2012, "User-Level Implementations of Read-Copy Update";
//! docs/TABLE.md).
//!
//! `every_trace` is the law. The crates that make the steps on shared memory cite the same definitions; `World` makes them
//! one by one, by itself.
#![tactic(auto)]

ghost use Rattle.config_image.specs.Image.{Group};
ghost use Rattle.std.specs.Prelude.{List};
ghost use Rattle.versions.specs.Layout.{Form};
ghost use Rattle.versions.specs.Pooled.{PooledFormStands};
ghost use Rattle.versions.specs.Table.{stored_by, the_shape};
ghost use Rattle.versions.specs.Safety.{FetchesPublished, InEveryTrace, KeepsHeld, KeepsPool, ListsVersions, LoadsNewest, OfEveryTrace, ReclaimsNoneHeld, ScansTell, SeesUpToLastLoad, StepsOnOneWord, ViewsTellTable};

mod book;
mod fault;
mod form;
mod freedom;
mod layout;
mod page_uses;
mod progress;
mod step;
mod view;
mod world;

pub use book::Book;
pub use fault::StepFault;
pub use form::row_names;
pub use freedom::free_versions;
pub use layout::{
    CHARGE_LIMIT, LAST_NUMBER, PAGES, ROWS, TABLE_WORDS, WORKERS, current_row, current_version,
    current_word, limits_as_numbers, page_place, read_word_place, row_begin, row_place, row_word,
};
pub use page_uses::PageUses;
pub use step::{Entry, Event, Step};
pub use view::{OperatorView, Stage, WorkerView};
pub use world::{World, opening_words};

/// Law: in each state that a legal trace leads to,
///
/// - each load of `current` loads the version published last;
/// - each worker has seen the versions up to its last load;
/// - a version that a worker holds is in its row and its pages and may not be overwritten;
/// - no page is filled while a version that is not free names it;
/// - each fetch loads the published word;
/// - each scan shows a log of its worker;
/// - the words of the table are as the actors know them;
/// - each step is on one word.
///
/// No legal trace reclaims a version that a worker holds. It runs nothing.
pub fn every_trace()
    ensures pin_is_newest { InEveryTrace the_shape (LoadsNewest the_shape) }
    ensures seen_up_to_last_load { InEveryTrace the_shape (SeesUpToLastLoad the_shape) }
    ensures held_version_kept { InEveryTrace the_shape (KeepsHeld the_shape) }
    ensures pool_kept { InEveryTrace the_shape (KeepsPool the_shape) }
    ensures not_reclaimed { OfEveryTrace the_shape (ReclaimsNoneHeld the_shape) }
    ensures fetch_is_published { InEveryTrace the_shape (FetchesPublished the_shape) }
    ensures scan_tells_log { InEveryTrace the_shape (ScansTell the_shape) }
    ensures views_tell_table { InEveryTrace the_shape (ViewsTellTable the_shape) }
    ensures versions_listed { InEveryTrace the_shape (ListsVersions the_shape) }
    ensures one_word { InEveryTrace the_shape (StepsOnOneWord the_shape) }
{}

/// Law: all of this is also true if configurations are stored in another form, whatever is in rows and whatever in
/// pages. It runs nothing.
/// The reason: docs/INTERNALS.md, "Facts are of states".
pub fn every_form()
    ensures pin_is_newest { (form : Form (List Group)) → InEveryTrace (stored_by form) (LoadsNewest (stored_by form)) }
    ensures seen_up_to_last_load { (form : Form (List Group)) → InEveryTrace (stored_by form) (SeesUpToLastLoad (stored_by form)) }
    ensures held_version_kept { (form : Form (List Group)) → InEveryTrace (stored_by form) (KeepsHeld (stored_by form)) }
    ensures pool_kept { (form : Form (List Group)) → InEveryTrace (stored_by form) (KeepsPool (stored_by form)) }
    ensures not_reclaimed { (form : Form (List Group)) → OfEveryTrace (stored_by form) (ReclaimsNoneHeld (stored_by form)) }
    ensures fetch_is_published { (form : Form (List Group)) → InEveryTrace (stored_by form) (FetchesPublished (stored_by form)) }
    ensures scan_tells_log { (form : Form (List Group)) → InEveryTrace (stored_by form) (ScansTell (stored_by form)) }
    ensures views_tell_table { (form : Form (List Group)) → InEveryTrace (stored_by form) (ViewsTellTable (stored_by form)) }
    ensures versions_listed { (form : Form (List Group)) → InEveryTrace (stored_by form) (ListsVersions (stored_by form)) }
    ensures one_word { (form : Form (List Group)) → InEveryTrace (stored_by form) (StepsOnOneWord (stored_by form)) }
{}

/// Law: if a row and some pages contain a configuration, they decide each word of the row that has its image, and the
/// row names just these pages. It runs nothing.
pub fn pooled_form_stands()
    ensures { PooledFormStands }
{}
