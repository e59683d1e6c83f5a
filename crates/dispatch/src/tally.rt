//! Tallies: counters in separate threads, a total of each kind that can be read meanwhile, and the sums at the end
//! (docs/SWITCH.md, "Tallies").

ghost use Rattle.std.specs.Prelude.{◌≡◌, ◌+◌, ◌++◌, ◌<◌, ◌↔◌, ◌∷◌, [], IfOk, IsErr, OnErr, OnOk, length, slice_index, ℕ};
ghost use Rattle.std.specs.Arc.{arc_value};
ghost use Rattle.packet_verdict.specs.declared.kind.Kind.{Kind as KindValue};
ghost use Rattle.dispatch.specs.Tally.{AreCountersOf, AreOpenedCounters, GaveAtMost, all_loaded, counted, loaded, loaded_below, place_of, sum_of_counts, times, total_of};
ghost use Rattle.dispatch.specs.body.TallyRule.{IsSeatOf, spent_seat, opening_view, without_counter};

use crate::OutOfMemory;
use crate::kind::{KINDS, Totals, place};
use crate::tally_rule::{Count, Read, SeatCounter, TakeCounter, TallySeat, TallyTable};
use atomic_table::Table;
use packet_verdict::Kind;
use std::alloc::Global;
use std::marker::Model;
use std::sync::Arc;
use versions::WORKERS;

/// How many counters a tally has: one for each worker.
pub const COUNTERS: usize = WORKERS;

/// How often a counter may count.
pub const COUNT_LIMIT: u64 = 1 << 48;

/// Law: the limits, as numbers. It runs nothing.
pub fn limits_as_numbers()
    ensures counters { COUNTERS ≡ 64 }
    ensures counts { COUNT_LIMIT ≡ 281474976710656 }
{}

/// N1: the counter has counted `COUNT_LIMIT` times.
#[derive(Clone, Copy, Debug, PartialEq, Eq)]
pub struct CountFull;

/// Counts in a tally. Contracts see its log: to which words it added 1.
#[derive(Drop)]
pub struct Counter {
    table: Arc<TallyTable, Global>,
    seat: TallySeat,
    count: u64,
}

impl Model for Counter {
    ghost use Rattle.std.specs.Arc.{arc_value};
    ghost use Rattle.dispatch.specs.Tally.{CounterValue};
    ghost use Rattle.dispatch.specs.body.TallyRule.{IsCounterSeat, IsSeatOf};

    ghost Value = { CounterValue };

    ghost view = { λ c. record { table = c.seat.table_id; log = c.seat.me.0.added } };

    ghost invariant = { λ c. IsCounterSeat c.seat.me.0 c.count × IsSeatOf c.seat.me.1 c.seat.table_id (arc_value c.table).shared.table_id };
}

/// Reads the totals of its counters. Contracts see its log: its loads.
#[derive(Drop)]
pub struct Tally {
    table: Arc<TallyTable, Global>,
    seat: TallySeat,
}

impl Model for Tally {
    ghost use Rattle.std.specs.Arc.{arc_value};
    ghost use Rattle.dispatch.specs.Tally.{TallyValue};
    ghost use Rattle.dispatch.specs.body.TallyRule.{IsSeatOf, IsTallySeat};

    ghost Value = { TallyValue };

    ghost view = { λ t. record { table = t.seat.table_id; log = t.seat.me.0.loads } };

    ghost invariant = { λ t. IsTallySeat t.seat.me.0 × IsSeatOf t.seat.me.1 t.seat.table_id (arc_value t.table).shared.table_id };
}

// A counter at its own seat, split off a seat that has counters left.
fn new_counter(
    table: &Arc<TallyTable, Global>,
    seat: &mut TallySeat,
) -> Result<Counter, OutOfMemory>
    requires counters { 0 < seat.old.me.0.counters }
    requires nothing { seat.old.me.0.added ≡ [] }
    requires seat { IsSeatOf seat.old.me.1 seat.old.table_id (arc_value table.now).shared.table_id }
    ensures seat { IfOk result (λ counter. IsSeatOf seat.new.me.1 seat.new.table_id (arc_value table.now).shared.table_id) }
    ensures view { IfOk result (λ counter. seat.new.me.0 ≡ without_counter seat.old.me.0) }
    ensures counter { IfOk result (λ counter. counter ≡ record { table = (arc_value table.now).shared.table_id; log = [] }) }
{
    let table = Arc::try_clone(table)?;
    let seat = table.shared.split_seat::<SeatCounter>(seat);
    Ok(Counter {
        table,
        seat,
        count: 0,
    })
}

fn new_counters(
    alloc: Global,
    table: &Arc<TallyTable, Global>,
    seat: &mut TallySeat,
) -> Result<Vec<Counter>, OutOfMemory>
    requires view { seat.old.me.0 ≡ opening_view }
    requires seat { IsSeatOf seat.old.me.1 seat.old.table_id (arc_value table.now).shared.table_id }
    ensures view { IfOk result (λ counters. seat.new.me.0 ≡ spent_seat) }
    ensures seat { IfOk result (λ counters. IsSeatOf seat.new.me.1 seat.new.table_id (arc_value table.now).shared.table_id) }
    ensures counters { IfOk result (λ counters. AreOpenedCounters (arc_value table.now).shared.table_id counters.items) }
{
    let mut counters = Vec::with_capacity(alloc, COUNTERS)?;
    for _ in 0..COUNTERS {
        counters.push(new_counter(table, seat)?)?;
    }
    Ok(counters)
}

impl Counter {
    /// Counts a kind, by one `fetch_add` of 1 on its word. Takes no memory and never waits.
    pub fn count(&mut self, kind: Kind) -> Result<(), CountFull>
        ensures one_count { OnOk result (self.new ≡ counted (place_of kind) self.old) }
        ensures count_full { IsErr result ↔ (length self.old.log ≡ COUNT_LIMIT) }
        ensures kept { OnErr result (self.new ≡ self.old) }
    {
        if self.count == COUNT_LIMIT {
            return Err(CountFull);
        }
        let table = &self.table;
        table
            .shared
            .fetch_add::<Count>(&mut self.seat, place(kind), 1);
        self.count += 1;
        Ok(())
    }
}

impl Tally {
    /// Opens a tally in which nothing was counted, with its counters. Takes their memory from the allocator.
    pub fn open(alloc: Global) -> Result<(Tally, Vec<Counter>), OutOfMemory>
        ensures tally { IfOk result (λ parts. parts.0.log ≡ []) }
        ensures counters { IfOk result (λ parts. AreOpenedCounters parts.0.table parts.1.items) }
    {
        let (table, mut seat) = Table::of_words(alloc, &[0; KINDS], &0)?;
        let Ok(table) = Arc::new(alloc, table) else {
            return Err(OutOfMemory);
        };
        let counters = new_counters(alloc, &table, &mut seat)?;
        Ok((Tally { table, seat }, counters))
    }

    /// Returns how often a kind was counted so far, by one load of its word, also while counters count. Takes no memory and never waits.
    pub fn read(&mut self, kind: Kind) -> u64
        ensures one_load { self.new ≡ loaded (place_of kind) result self.old }
        ensures no_less { GaveAtMost self.old.log (place_of kind) result }
    {
        let table = &self.table;
        table.shared.load::<Read>(&mut self.seat, place(kind))
    }

    /// Returns how often each kind was counted so far, by one load of each word, in their order.
    pub fn totals(&mut self) -> Totals
        ensures loads { self.new ≡ all_loaded result self.old }
    {
        Totals {
            counts: load_all(&self.table, &mut self.seat),
        }
    }
}

// A seat takes a counter's back.
fn take_back(table: &TallyTable, seat: &mut TallySeat, counter: Counter)
    requires table { counter.table ≡ table.now.shared.table_id }
    requires seat { IsSeatOf seat.old.me.1 seat.old.table_id table.now.shared.table_id }
    ensures view { seat.new.me.0 ≡ record seat.old.me.0 { added = counter.log ++ seat.old.me.0.added; counters = 1 + seat.old.me.0.counters } }
    ensures seat { IsSeatOf seat.new.me.1 seat.new.table_id table.now.shared.table_id }
{
    let Counter {
        table: _,
        seat: other,
        count: _,
    } = counter;
    table.shared.join_seat::<TakeCounter>(seat, other);
}

fn take_all(table: &TallyTable, seat: &mut TallySeat, counters: Vec<Counter>)
    requires counters { AreCountersOf table.now.shared.table_id counters.items }
    requires none { seat.old.me.0.counters ≡ 0 }
    requires nothing { seat.old.me.0.added ≡ [] }
    requires seat { IsSeatOf seat.old.me.1 seat.old.table_id table.now.shared.table_id }
    ensures counters { seat.new.me.0.counters ≡ COUNTERS }
    ensures added { (kind : KindValue) → times (place_of kind) seat.new.me.0.added ≡ sum_of_counts kind counters.items }
    ensures loads { seat.new.me.0.loads ≡ seat.old.me.0.loads }
    ensures seat { IsSeatOf seat.new.me.1 seat.new.table_id table.now.shared.table_id }
{
    for counter in counters {
        take_back(table, seat, counter);
    }
}

// Loads each word, in their order.
fn load_all(table: &TallyTable, seat: &mut TallySeat) -> [u64; KINDS]
    requires seat { IsSeatOf seat.old.me.1 seat.old.table_id table.now.shared.table_id }
    ensures view { seat.new.me.0 ≡ record seat.old.me.0 { loads = loaded_below KINDS result seat.old.me.0.loads } }
    ensures seat { IsSeatOf seat.new.me.1 seat.new.table_id table.now.shared.table_id }
    ensures sums { seat.old.me.0.counters ≡ COUNTERS
        → (place : ℕ) → place < KINDS → slice_index result place ≡ times place seat.old.me.0.added }
    ensures no_less { (place : ℕ) → place < KINDS → GaveAtMost seat.old.me.0.loads place (slice_index result place) }
{
    let mut counts = [0; KINDS];
    for place in 0..KINDS {
        counts[place] = table.shared.load::<Read>(seat, place);
    }
    counts
}

/// Ends a tally, and returns how often its counters, all of them, counted each kind. Takes no memory.
/// The reason: docs/INTERNALS.md, "Seats and sums of a tally".
#[tactic(auto, using(crate::proofs::TallyLemmas::place_low))]
pub fn gather(tally: Tally, counters: Vec<Counter>) -> Totals
    requires counters { AreCountersOf tally.table counters.items }
    ensures sum_exact { (kind : KindValue) → total_of result kind ≡ sum_of_counts kind counters.items }
    ensures no_less { (kind : KindValue) → GaveAtMost tally.log (place_of kind) (total_of result kind) }
{
    let Tally { table, mut seat } = tally;
    take_all(&table, &mut seat, counters);
    Totals {
        counts: load_all(&table, &mut seat),
    }
}
