//! The seats of workers and of the operator, and the single steps that they make. Only this file calls the steps of
//! `atomic_table`: the eight kinds, and the loads by which a seat is split off or joined to another, which no log has.

ghost use Rattle.std.specs.Prelude.{◌≡◌, ◌+◌, ◌*◌, ◌<◌, ◌≤◌, ◌^◌, IfOk, List, Some, length, slice_index, ℕ};
ghost use Rattle.std.specs.Arc.{arc_value};
ghost use Rattle.config_image.specs.Image.{Group};
ghost use Rattle.versions.specs.declared.layout.TheConstants.{TABLE_WORDS};
ghost use Rattle.versions.specs.declared.step.Entry.{Entry};
ghost use Rattle.versions.specs.declared.view.Stage.TheVariants.{Announced, Peeked};
ghost use Rattle.versions.specs.Layout.{current_word, page_begin, pages_named, row_begin, rows_begin};
ghost use Rattle.versions.specs.View.{IsTold, after_announce, after_fetch, after_fill, after_leave, after_peek, after_pin, after_scan, new_worker, read_word_after};
ghost use Rattle.versions.specs.Free.{IsFreePage, IsFreeRow, number_after};
ghost use Rattle.versions.specs.Legal.{MayPeek};
ghost use Rattle.versions.specs.Safety.{IsHeldPlace};
ghost use Rattle.versions.specs.Table.{the_shape};
ghost use Rattle.versions.specs.World.{opened_with, opening_stored};
ghost use Rattle.read_section.specs.Layout.{IsPublishable};
ghost use Rattle.read_section.specs.View.{TellsLog};
ghost use Rattle.read_section.specs.Worker.{IsInside, steps};
ghost use Rattle.read_section.specs.Operator.{AreOpenedWorkers, opened_operator, put_in};
ghost use Rattle.read_section.specs.body.Seat.{HoldsNamed, IsSeatAt, IsSeating, acts};
ghost use Rattle.read_section.specs.body.Steps.{IsOwnLogOf, KeepsPages, Sees, SeesWord};

use crate::plays::{
    Announce, Fetch, Fill, GiveWorker, Leave, NoteSeen, Peek, Pin, Proposal, Publish, Scan,
    SeatSpare, TakeNote, TakeWorker,
};
use crate::versions_rule::{SharedTable, TableSeat};
use crate::worker::Worker;
use atomic_table::Table;
use config_image::ExtentCache;
use member_group::Config;
use std::alloc::{AllocError, Global};
use std::marker::{Brand, Model};
use std::sync::Arc;
use versions::{WORKERS, current_word, page_place, read_word_place, row_place};

/// A worker's seat at the table.
#[derive(Drop)]
pub struct WorkerSeat {
    table: Arc<SharedTable, Global>,
    seat: TableSeat,
    number: usize,
}

impl Model for WorkerSeat {
    ghost use Rattle.std.specs.Arc.{arc_value};
    ghost use Rattle.read_section.specs.body.Seat.{IsSeatAt, IsWorkerSeat};
    ghost use Rattle.read_section.specs.Worker.{WorkerValue};
    ghost use Rattle.read_section.specs.body.Seat.{worker_at};

    ghost Value = { WorkerValue };

    ghost view = { λ w. worker_at w.seat.table_id w.seat.me.0 };

    ghost invariant = { λ w. IsWorkerSeat w.seat.me.0 w.number × IsSeatAt w.seat.me.1 w.seat.table_id (arc_value w.table).shared.table_id };
}

/// The operator's seat at the table.
#[derive(Drop)]
pub struct OperatorSeat {
    table: Arc<SharedTable, Global>,
    seat: TableSeat,
}

impl Model for OperatorSeat {
    ghost use Rattle.std.specs.Arc.{arc_value};
    ghost use Rattle.read_section.specs.body.Seat.{OperatorSeatValue, operator_at};
    ghost use Rattle.read_section.specs.body.Seat.{IsOperatorSeat, IsSeatAt};

    ghost Value = { OperatorSeatValue };

    ghost view = { λ o. operator_at o.seat.table_id o.seat.me.0 };

    ghost invariant = { λ o. IsOperatorSeat o.seat.me.0 × IsSeatAt o.seat.me.1 o.seat.table_id (arc_value o.table).shared.table_id };
}

fn new_worker(
    alloc: Global,
    table: &Arc<SharedTable, Global>,
    seat: &mut TableSeat,
    number: usize,
) -> Result<Worker, AllocError>
    requires seating { IsSeating seat.old.me.0 (arc_value table.now).shared.key number }
    requires seat { IsSeatAt seat.old.me.1 seat.old.table_id (arc_value table.now).shared.table_id }
    requires number { number < the_shape.workers }
    ensures seating { IfOk result (λ w. IsSeating seat.new.me.0 (arc_value table.now).shared.key (number + 1)) }
    ensures seat { IfOk result (λ w. IsSeatAt seat.new.me.1 seat.new.table_id (arc_value table.now).shared.table_id) }
    ensures worker { IfOk result (λ w. w ≡ record { table = (arc_value table.now).shared.table_id; view = new_worker (arc_value table.now).shared.key (pages_named the_shape (opening_stored (arc_value table.now).shared.key) 0) number }) }
{
    let cache = ExtentCache::new(alloc)?;
    let table = Arc::try_clone(table)?;
    let seat = table.shared.split_seat::<SeatSpare>(seat);
    let seat = WorkerSeat {
        table,
        seat,
        number,
    };
    Ok(Worker::new(seat, cache))
}

fn new_workers(
    alloc: Global,
    table: &Arc<SharedTable, Global>,
    seat: &mut TableSeat,
) -> Result<Vec<Worker>, AllocError>
    requires seating { IsSeating seat.old.me.0 (arc_value table.now).shared.key 0 }
    requires seat { IsSeatAt seat.old.me.1 seat.old.table_id (arc_value table.now).shared.table_id }
    ensures seating { IfOk result (λ w. IsSeating seat.new.me.0 (arc_value table.now).shared.key the_shape.workers) }
    ensures seat { IfOk result (λ w. IsSeatAt seat.new.me.1 seat.new.table_id (arc_value table.now).shared.table_id) }
    ensures workers { IfOk result (λ workers. AreOpenedWorkers (arc_value table.now).shared.table_id (arc_value table.now).shared.key workers.items) }
{
    let mut workers = Vec::with_capacity(alloc, WORKERS)?;
    for number in 0..WORKERS {
        workers.push(new_worker(alloc, table, seat, number)?)?;
    }
    Ok(workers)
}

// Makes the table that opens with a configuration, the operator's seat, and the workers, each at a seat of its own.
pub(crate) fn open_table(
    alloc: Global,
    words: &[u64],
    config: &Config,
) -> Result<(OperatorSeat, Vec<Worker>), AllocError>
    requires words { words.now ≡ (opened_with config.now).words }
    requires publishable { IsPublishable config.now }
    ensures operator { IfOk result (λ seats. seats.0 ≡ record { table = seats.0.table; view = (opened_operator seats.0.table config.now).view }) }
    ensures workers { IfOk result (λ seats. AreOpenedWorkers seats.0.table config.now seats.1.items) }
{
    let (table, mut seat) = Table::of_words(alloc, words, config)?;
    let Ok(table) = Arc::new(alloc, table) else {
        return Err(AllocError);
    };
    let workers = new_workers(alloc, &table, &mut seat)?;
    Ok((OperatorSeat { table, seat }, workers))
}

impl WorkerSeat {
    pub(crate) fn number(&self) -> usize
        ensures number { result ≡ self.now.view.number }
        ensures below { result < the_shape.workers }
    {
        self.number
    }

    pub(crate) fn peek(&mut self) -> u64
        requires { MayPeek self.old.view.stage }
        ensures { (seen : List (List Group)) × Sees self.old result seen × (self.new ≡ steps (after_peek the_shape.rows result seen) self.old) }
    {
        let table = &self.table;
        table.shared.load::<Peek>(&mut self.seat, 0)
    }

    pub(crate) fn announce(&mut self, version: u64)
        requires peeked { self.old.view.stage ≡ Peeked version }
        requires limited { version + 1 < 2 ^ 64 }
        ensures { self.new ≡ steps (after_announce (version + 1)) self.old }
    {
        let table = &self.table;
        table
            .shared
            .store::<Announce>(&mut self.seat, read_word_place(self.number), version + 1);
    }

    pub(crate) fn pin(&mut self) -> u64
        requires { (read_word : ℕ) × (self.old.view.stage ≡ Announced read_word) }
        ensures { (seen : List (List Group)) × (pages : List ℕ) × Sees self.old result seen × KeepsPages self.old result pages × (self.new ≡ steps (after_pin the_shape.rows result seen pages) self.old) }
    {
        let table = &self.table;
        table.shared.load::<Pin>(&mut self.seat, 0)
    }

    #[inline(always)]
    pub(crate) fn fetch(&mut self, place: usize) -> u64
        requires held { IsHeldPlace the_shape self.old.view place }
        requires within { place < TABLE_WORDS }
        ensures one_step { self.new ≡ steps (after_fetch place result) self.old }
        ensures word { SeesWord self.old place result }
    {
        let table = &self.table;
        table.shared.load::<Fetch>(&mut self.seat, place)
    }

    pub(crate) fn leave(&mut self)
        requires { (n : ℕ) × (r : ℕ) × IsInside self.old.view.stage n r }
        ensures one_step { self.new ≡ steps after_leave self.old }
        ensures own_log { IsOwnLogOf self.old }
    {
        let table = &self.table;
        table
            .shared
            .store::<Leave>(&mut self.seat, read_word_place(self.number), 0);
    }

    // One peek, after a note of what another worker has seen.
    pub(crate) fn peek_told(&mut self, other: &mut WorkerSeat)
        requires table { other.old.table ≡ self.old.table }
        requires stage { MayPeek self.old.view.stage }
        ensures worker { (x : ℕ) × (seen : List (List Group)) × Sees self.old x seen × IsTold other.old.view.seen self.new.view × (self.new ≡ steps (after_peek the_shape.rows x seen) self.old) }
        ensures other { other.new ≡ other.old }
    {
        let table = &self.table;
        let shared = &table.shared;
        let note = shared.split_seat::<NoteSeen>(&mut other.seat);
        shared.join_seat::<TakeNote>(&mut self.seat, note);
        shared.load::<Peek>(&mut self.seat, 0);
    }
}

impl OperatorSeat {
    pub(crate) fn fill(&mut self, row: usize, place: usize, word: u64)
        requires free { IsFreeRow the_shape self.old.view row }
        requires place { place < the_shape.row_words }
        ensures { self.new ≡ acts (after_fill (rows_begin the_shape) (row_begin the_shape row + place) word) self.old }
    {
        let table = &self.table;
        let place = row_place(row, place);
        table.shared.store::<Fill>(&mut self.seat, place, word);
    }

    pub(crate) fn fill_page(&mut self, page: usize, place: usize, word: u64)
        requires free { IsFreePage the_shape self.old.view page }
        requires place { place < the_shape.page_words }
        ensures { self.new ≡ acts (after_fill (rows_begin the_shape) (page_begin the_shape page + place) word) self.old }
    {
        let table = &self.table;
        let place = page_place(page, place);
        table.shared.store::<Fill>(&mut self.seat, place, word);
    }

    fn store_current<P: Proposal>(&mut self, config: &Config, row: usize, number: u64)
        requires proposal { P.config ≡ config.now }
        requires free { IsFreeRow the_shape self.old.view row }
        requires holds { HoldsNamed self.old.view row config.now }
        requires publishable { IsPublishable config.now }
        requires number { number ≡ number_after self.old.view.log + 1 }
        requires limited { number ≤ the_shape.last_number }
        ensures { self.new ≡ acts (put_in row config.now) self.old }
    {
        let table = &self.table;
        table
            .shared
            .store::<Publish<P>>(&mut self.seat, 0, current_word(number, row));
    }

    pub(crate) fn publish(&mut self, config: &Config, row: usize, number: u64)
        requires free { IsFreeRow the_shape self.old.view row }
        requires holds { HoldsNamed self.old.view row config.now }
        requires publishable { IsPublishable config.now }
        requires number { number ≡ number_after self.old.view.log + 1 }
        requires limited { number ≤ the_shape.last_number }
        ensures { self.new ≡ acts (put_in row config.now) self.old }
    {
        self.store_current::<Brand>(config, row, number);
    }

    pub(crate) fn scan(&mut self, worker: usize) -> u64
        requires { worker < the_shape.workers }
        ensures { (log : List Entry) × TellsLog the_shape self.old.view worker result log × (self.new ≡ acts (after_scan worker result log) self.old) }
    {
        let table = &self.table;
        table
            .shared
            .load::<Scan>(&mut self.seat, read_word_place(worker))
    }

    // One peek of a worker and then one scan of it, by a seat that knows both. Returns the word of the scan.
    // The reason: docs/INTERNALS.md, "A seat that knows two".
    pub(crate) fn meet(&mut self, worker: &mut WorkerSeat) -> u64
        requires table { worker.old.table ≡ self.old.table }
        requires stage { MayPeek worker.old.view.stage }
        ensures worker { (x : ℕ) × Sees worker.old x self.old.view.published × (worker.new ≡ steps (after_peek the_shape.rows x self.old.view.published) worker.old) }
        ensures operator { self.new ≡ acts (after_scan worker.old.view.number result worker.new.view.log) self.old }
        ensures told { TellsLog the_shape self.old.view worker.old.view.number result worker.new.view.log }
    {
        let table = &self.table;
        let shared = &table.shared;
        let moved = shared.split_seat::<GiveWorker>(&mut worker.seat);
        shared.join_seat::<TakeWorker>(&mut self.seat, moved);
        shared.load::<Peek>(&mut self.seat, 0);
        let word = shared.load::<Scan>(&mut self.seat, read_word_place(worker.number));
        worker.seat = shared.split_seat::<GiveWorker>(&mut self.seat);
        word
    }
}
