//! The shared table of versions: an operator publishes configurations by single stores, and workers read them by single
//! loads, each in a read-side critical section, without a lock and without waiting (Desnoyers et al. 2012, "User-Level
//! Implementations of Read-Copy Update"; docs/TABLE.md).
//!
//! `open` makes a table at version 0, its operator and its workers. They access the table only by the eight kinds of
//! step of `versions`. The rule on the table says that its words are those that a legal trace of such steps left, and
//! contracts say which steps a call makes. Only `open` and `open_within` take memory.
#![tactic(auto)]

ghost use Rattle.std.specs.Prelude.{◌≡◌, ◌<◌, ◌≤◌, ◌↔◌, Err, IfOk};
ghost use Rattle.member_group.specs.Charge.{charge_of};
ghost use Rattle.versions.specs.declared.layout.TheConstants.{CHARGE_LIMIT};
ghost use Rattle.read_section.specs.declared.fault.OpenFault.TheVariants as open_fault;
ghost use Rattle.read_section.specs.Operator.{AreOpenedWorkers, opened_operator};

mod current_pages;
mod fault;
mod operator;
mod plays;
mod reading;
mod seat;
mod section;
mod versions_rule;
mod whole;
mod worker;
mod worker_order;

use crate::current_pages::CurrentPages;
use crate::seat::open_table;
use config_image::page_count;
pub use config_image::{PAGE_WORDS, ROW_WORDS};
pub use fault::OpenFault;
use member_group::Config;
pub use operator::{Operator, Reclaimed};
pub use section::Section;
use std::alloc::AllocError;
use versions::{Book, opening_words};
pub use versions::{CHARGE_LIMIT, LAST_NUMBER, PAGES, ROWS, WORKERS};
pub use versions_rule::{SeatView, VersionsRule, held_words_stand};
pub use whole::sections_are_whole;
pub use worker::Worker;
pub use worker_order::spread;

/// Opens a table at version 0, which is `config`, with its operator and its workers. Takes their memory from the
/// configuration's allocator.
pub fn open(config: Config) -> Result<(Operator, Vec<Worker>), OpenFault>
    ensures opened { IfOk result (λ parts. parts.0 ≡ opened_operator parts.0.table config) }
    ensures workers { IfOk result (λ parts. AreOpenedWorkers parts.0.table config parts.1.items) }
    ensures within { IfOk result (λ parts. charge_of config ≤ CHARGE_LIMIT) }
    ensures too_big { (result ≡ Err open_fault.TooBig) ↔ (CHARGE_LIMIT < charge_of config) }
{
    if config.charge() > CHARGE_LIMIT {
        return Err(OpenFault::TooBig);
    }
    let alloc = *config.allocator();
    let words = opening_words(&config)?;
    let count = page_count(&config) as usize;
    let book = Book::at_start(alloc, count)?;
    let pages = CurrentPages::first(alloc, count)?;
    let (seat, workers) = open_table(alloc, &words, &config)?;
    Ok((Operator::opened(seat, config, book, words, pages), workers))
}

/// Opens a table, as `open` does, at a configuration that is not too big.
pub fn open_within(config: Config) -> Result<(Operator, Vec<Worker>), AllocError>
    requires within { charge_of config ≤ CHARGE_LIMIT }
    ensures opened { IfOk result (λ parts. parts.0 ≡ opened_operator parts.0.table config) }
    ensures workers { IfOk result (λ parts. AreOpenedWorkers parts.0.table config parts.1.items) }
{
    match open(config) {
        Ok(parts) => Ok(parts),
        Err(OpenFault::OutOfMemory) => Err(AllocError),
        Err(OpenFault::TooBig) => unreachable!(),
    }
}
