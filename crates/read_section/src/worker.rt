//! Workers: the readers of the table.

ghost use Rattle.std.specs.Prelude.{◌≡◌, ◌<◌, IfSome, List, if◌then◌else◌, length, suc, ℕ};
ghost use Rattle.config_image.specs.Image.{Group};
ghost use Rattle.config_image.specs.declared.pages.cache.ExtentCache.{ExtentCache};
ghost use Rattle.config_image.specs.declared.pages.cache.Extent.{Extent};
ghost use Rattle.config_image.specs.Cache.{Holds};
ghost use Rattle.versions.specs.declared.layout.TheConstants.{TABLE_WORDS};
ghost use Rattle.versions.specs.View.{IsTold, after_fetch, after_peek};
ghost use Rattle.versions.specs.Safety.{IsHeldPlace};
ghost use Rattle.versions.specs.Table.{the_shape};
ghost use Rattle.read_section.specs.Section.{EndsInFetches, HoldsLastSeen, borrow_of, held_version, held_words, worker_of};
ghost use Rattle.read_section.specs.View.{Shows};
ghost use Rattle.read_section.specs.Worker.{Enters, IsOutside, left, steps};
ghost use Rattle.read_section.specs.Operator.{Meets};
ghost use Rattle.read_section.specs.body.Found.{IsExtentIn, IsFormIn, TellsExtent, TellsForm};
ghost use Rattle.read_section.specs.body.Cache.{IsBlank, IsFirstSeen};
ghost use Rattle.read_section.specs.body.Steps.{SeesWord};

use crate::operator::Operator;
use crate::seat::WorkerSeat;
use crate::section::Section;
use config_image::{Extent, ExtentCache, RowHeader};
use std::marker::Model;
use versions::{current_row, current_version};

/// A reader of the table. There are as many as `open` made.
///
/// Contracts see its table, its log, and the versions that it has seen.
#[derive(Drop)]
pub struct Worker {
    // The number of the version that it holds. It is the first field, so that its address is the worker's.
    held: Option<u64>,
    seat: WorkerSeat,
    // The places of words of the version that its last pin loaded.
    cache: ExtentCache,
}

impl Model for Worker {
    ghost use Rattle.read_section.specs.body.Cache.{IsCacheOf};
    ghost use Rattle.read_section.specs.body.Seat.{TellsStage};
    ghost use Rattle.read_section.specs.Worker.{WorkerValue};

    ghost Value = { WorkerValue };

    ghost view = { λ w. w.seat };

    ghost invariant = { λ w. TellsStage w.held w.seat.view.stage × IsCacheOf w.seat.view w.cache };
}

impl Worker {
    pub(crate) fn new(seat: WorkerSeat, cache: ExtentCache) -> Worker
        requires outside { IsOutside seat.view.stage }
        requires first { IsFirstSeen seat.view }
        requires blank { IsBlank cache }
        ensures { result ≡ seat }
    {
        Worker {
            held: None,
            seat,
            cache,
        }
    }

    /// Begins a read-side critical section on the version that is current at its pin.
    ///
    /// Makes three steps and no other: peek, announce, pin. If an abandoned section left the worker inside, a leave
    /// comes before them. It never waits, never retries and takes no memory. Until the section's leave no word of its
    /// version is overwritten (`held_words_stand`).
    pub fn enter(&mut self) -> Section<'_>
        ensures same_worker { borrow_of result ≡ self.entry.ghost_name }
        ensures entered_by_three_steps { Enters self.old (worker_of result) }
        ensures seen_grows { IsTold self.old.view.seen (worker_of result).view }
        ensures number_is_seen { length (worker_of result).view.seen ≡ suc (held_version (worker_of result)) }
        ensures section_row { HoldsLastSeen (worker_of result) }
        ensures ends_in_fetches { EndsInFetches self.old }
    {
        self.leave();
        let peeked = self.seat.peek();
        self.seat.announce(current_version(peeked));
        let pinned = self.seat.pin();
        let version = current_version(pinned);
        self.held = Some(version);
        self.cache.set_version(version);
        Section::of(self, version, current_row(pinned))
    }

    /// Makes one peek; then the operator makes one scan of this worker. The worker has then seen all that the operator
    /// published so far, and each later pin of the worker loads the operator's current version, or a later one. The
    /// operator then knows the worker's whole log.
    pub fn meet(&mut self, operator: &mut Operator)
        requires { self.old.table ≡ operator.old.table }
        ensures meets_by_two_steps { Meets self.old self.new operator.old operator.new }
        ensures told_all { self.new.view.seen ≡ operator.old.view.published }
        ensures ends_in_fetches { EndsInFetches self.old }
    {
        operator.meet(&mut self.seat);
    }

    /// Makes one peek. This worker has then seen all that the other one has seen, and each later pin of this worker
    /// loads the newest of these versions, or a later one. The other worker makes no step.
    pub fn meet_worker(&mut self, other: &mut Worker)
        requires { self.old.table ≡ other.old.table }
        ensures meets_by_one_step { (x : ℕ) × (seen : List (List Group)) × Shows the_shape x seen self.old.view.seen × (self.new ≡ steps (after_peek the_shape.rows x seen) self.old) }
        ensures told_by_worker { IsTold other.old.view.seen self.new.view }
        ensures ends_in_fetches { EndsInFetches self.old }
        ensures other_kept { other.new ≡ other.old }
    {
        self.seat.peek_told(&mut other.seat);
    }

    // A word of the held version, by one fetch.
    #[inline(always)]
    pub(crate) fn fetch(&mut self, place: usize) -> u64
        requires held { IsHeldPlace the_shape self.old.view place }
        requires within { place < TABLE_WORDS }
        ensures word { SeesWord self.old place result }
        ensures one_fetch { self.new ≡ steps (after_fetch place result) self.old }
    {
        self.seat.fetch(place)
    }

    // The first word of the row of the version that is held, from the cache; 0 if it is not there.
    #[inline(always)]
    pub(crate) fn form(&self) -> RowHeader
        ensures { 0 < result.0 → TellsForm self.now.view result.0 }
    {
        RowHeader(self.cache.form())
    }

    pub(crate) fn set_form(&mut self, form: RowHeader)
        requires { IsFormIn self.old.view form.0 }
        ensures { self.new ≡ self.old }
    {
        self.cache.set_form(form.0);
    }

    // The extent that has word i, if the cache has it.
    #[inline(always)]
    pub(crate) fn lookup(&self, i: usize) -> Option<Extent>
        ensures { IfSome result (λ extent. TellsExtent self.now.view extent × Holds extent i) }
    {
        self.cache.lookup(i)
    }

    pub(crate) fn insert_extent(&mut self, i: usize, extent: Extent)
        requires is { IsExtentIn self.old.view extent }
        requires holds { Holds extent i }
        ensures { self.new ≡ self.old }
    {
        let version = self.cache.version();
        self.cache.insert(i, Extent { version, ..extent });
    }

    // If it is inside, it holds a version, whose row has words.
    pub(crate) fn is_inside(&self) -> bool
        ensures { length (held_words self.now) ≡ (if result then the_shape.row_words else 0) }
    {
        self.held.is_some()
    }

    pub(crate) fn held_version(&self) -> u64
        ensures { result ≡ held_version self.now }
    {
        match self.held {
            Some(version) => version,
            None => 0,
        }
    }

    // One leave step, if a version is held.
    pub(crate) fn leave(&mut self)
        ensures left { self.new ≡ steps left self.old }
        ensures ends_in_fetches { EndsInFetches self.old }
    {
        if self.held.is_none() {
            return;
        }
        self.seat.leave();
        self.held = None;
    }
}
