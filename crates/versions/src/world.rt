//! A world: the table that makes one step at a time, for lists of steps that a reader chooses.

ghost use Rattle.std.specs.Prelude.{◌≡◌, ◌+◌, ◌++◌, ◌<◌, ◌≤◌, ◌⊎◌, ◌↔◌, IfErr, IfOk, None, OnErr, OnOk, flat_map, length, slice_get, slice_set, ℕ};
ghost use Rattle.std.specs.Option.{option_map};
ghost use Rattle.member_group.specs.Charge.{charge_of};
ghost use Rattle.config_image.specs.Pooled.{parts, pooled_row};
ghost use Rattle.versions.specs.declared.fault.StepFault.TheVariants.{NotLegal, OutOfMemory, TooBig};
ghost use Rattle.versions.specs.declared.step.Event.TheVariants.{Proposed};
ghost use Rattle.versions.specs.Legal.{IsLegalStep, IsReached};
ghost use Rattle.versions.specs.Step.{place_of};
ghost use Rattle.versions.specs.State.{after_event, after_step};
ghost use Rattle.versions.specs.Pooled.{HasRoom};
ghost use Rattle.versions.specs.Table.{the_shape};
ghost use Rattle.versions.specs.World.{FailsWith, first_pages, in_pages, opened_with};
ghost use Rattle.versions.specs.body.Mirror.{IsDecided};
ghost use Rattle.versions.specs.body.WorldKept.{proposal_by};

use crate::fault::StepFault;
use crate::layout::{CHARGE_LIMIT, POOL_BEGIN, ROWS_BEGIN, TABLE_WORDS};
use crate::progress::Progress;
use crate::step::{Event, Step};
use config_image::{
    PAGE_LIMIT, PAGE_WORDS, Programs, ROW_WORDS, page_count, pages_for, stored_word,
};
use member_group::Config;
use std::alloc::{AllocError, Allocator, Global};
use std::marker::Model;

/// A table, and the events that were made in it. Contracts see its words and what each actor knows.
///
/// It decides by itself which steps are legal, and makes no other. It keeps every event, the proposed configurations
/// among them, so its memory grows with each call that returns `Ok`.
#[derive(Drop)]
pub struct World<A: Allocator = Global> {
    opening: Config<A>,
    events: Vec<Event<Config<A>>, A>,
    words: Vec<u64, A>,
    progress: Progress<A>,
    proposal: Option<usize>,
}

impl<A: Allocator> Model for World<A> {
    ghost use Rattle.std.specs.Prelude.{List};
    ghost use Rattle.config_image.specs.Image.{Group};
    ghost use Rattle.versions.specs.State.{State};
    ghost use Rattle.versions.specs.World.{world_after};
    ghost use Rattle.versions.specs.body.WorldKept.{IsWorld};

    ghost Value = { State (List Group) };

    ghost view = { λ w. world_after w.opening w.events.items };

    ghost invariant = { λ w. IsWorld w.opening w.events.items w.words.items w.progress w.proposal };
}

// Pushes the words of row 0 at an opening.
fn push_row<A: Allocator, B: Allocator>(
    config: &Config<B>,
    words: &mut Vec<u64, A>,
) -> Result<(), AllocError>
    requires room { HasRoom config.now }
    ensures pushed { IfOk result (λ unit. words.new.items ≡ words.old.items ++ pooled_row config.now (first_pages (length (parts config.now)))) }
{
    let mut pages = [0; PAGE_LIMIT];
    let count = page_count(config) as usize;
    for page in 0..count {
        pages[page] = page as u32;
    }
    for i in 0..ROW_WORDS {
        words.push(stored_word(config, &pages[..count], i))?;
    }
    Ok(())
}

// Pushes the words of all programs, each from the first word of a page on.
fn push_programs<A: Allocator, B: Allocator>(
    programs: Programs<'_, B>,
    words: &mut Vec<u64, A>,
) -> Result<(), AllocError>
    ensures pushed { IfOk result (λ unit. words.new.items ≡ words.old.items ++ flat_map in_pages programs.entry) }
{
    for program in programs {
        let end = words.len() + pages_for(program.len()) * PAGE_WORDS;
        words.extend_from_slice(program)?;
        words.resize(end, 0)?;
    }
    Ok(())
}

/// Makes the words of a table that opens with a configuration, in the configuration's memory. The configuration is
/// version 0, in row 0 and the first pages; all read words, other rows and other pages are 0. A row has room for a
/// configuration that is not charged too much.
pub fn opening_words<A: Allocator + Clone>(config: &Config<A>) -> Result<Vec<u64, A>, AllocError>
    requires room { HasRoom config.now }
    ensures words { IfOk result (λ words. words.items ≡ (opened_with config.now).words) }
{
    let mut words = Vec::with_capacity(config.allocator().clone()?, TABLE_WORDS)?;
    words.resize(ROWS_BEGIN, 0)?;
    push_row(config, &mut words)?;
    words.resize(POOL_BEGIN, 0)?;
    push_programs(Programs::of(config), &mut words)?;
    words.resize(TABLE_WORDS, 0)?;
    Ok(words)
}

// Returns the place of the last proposal after a step: a publication uses it up.
fn proposal_after(step: Step, proposal: Option<usize>) -> Option<usize>
    ensures { result ≡ proposal_by step proposal }
{
    match step {
        Step::Publish { .. } => None,
        _ => proposal,
    }
}

impl<A: Allocator> World<A> {
    /// Returns the word at a place of the table, `None` from 655,425 on. A legal trace from an opening of the table
    /// leads to each world, so what `every_trace` says is true of each world.
    pub fn word(&self, place: usize) -> Option<u64>
        ensures word { result ≡ slice_get self.now.words place }
        ensures reached { IsReached the_shape self.now }
    {
        self.words.get(place).copied()
    }

    fn proposal(&self) -> Option<&Config<A>>
        ensures proposal { option_map (λ config. config.now) result ≡ self.now.operator.proposal }
    {
        match &self.events[self.proposal?] {
            Event::Proposed { config } => Some(config),
            Event::Stepped { .. } => None,
        }
    }

    fn word_of(&self, step: Step) -> Option<u64>
        ensures decided { IsDecided self.now step result }
    {
        self.progress.word_of(&self.words, self.proposal(), step)
    }

    /// Makes the operator's proposal, which takes the place of an earlier one.
    ///
    /// Fails with `TooBig` if the charge is above `CHARGE_LIMIT`, otherwise with `OutOfMemory` if an allocation is
    /// refused.
    pub fn propose(&mut self, config: Config<A>) -> Result<(), StepFault>
        ensures proposed { OnOk result (self.new ≡ after_event the_shape self.old (Proposed config)) }
        ensures too_big { FailsWith TooBig result ↔ (CHARGE_LIMIT < charge_of config) }
        ensures cause { IfErr result (λ fault. (fault ≡ TooBig) ⊎ (fault ≡ OutOfMemory)) }
        ensures world_kept { OnErr result (self.new ≡ self.old) }
    {
        if config.charge() > CHARGE_LIMIT {
            return Err(StepFault::TooBig);
        }
        self.events.reserve(1)?;
        let place = self.events.len();
        self.events.push_reserved(Event::Proposed { config });
        self.proposal = Some(place);
        Ok(())
    }

    /// Makes a step, and returns the word that it loads or stores.
    ///
    /// Fails with `NotLegal` if and only if no word makes the step legal, for example because a worker, row or place is
    /// out of range; otherwise with `OutOfMemory` if an allocation is refused.
    pub fn step(&mut self, step: Step) -> Result<u64, StepFault>
        ensures step_exact { FailsWith NotLegal result ↔ ((word : ℕ) → IsLegalStep the_shape self.old step word → ⊥) }
        ensures step_answer { IfOk result (IsLegalStep the_shape self.old step) }
        ensures state_after { IfOk result (λ word. self.new ≡ after_step the_shape self.old step word) }
        ensures one_word { IfOk result (λ word. self.new.words ≡ slice_set self.old.words (place_of step) word) }
        ensures cause { IfErr result (λ fault. (fault ≡ NotLegal) ⊎ (fault ≡ OutOfMemory)) }
        ensures world_kept { OnErr result (self.new ≡ self.old) }
    {
        let Some(word) = self.word_of(step) else {
            return Err(StepFault::NotLegal);
        };
        self.events.reserve(1)?;
        self.events.push_reserved(Event::Stepped { step, word });
        self.progress.take(&mut self.words, step, word);
        self.proposal = proposal_after(step, self.proposal);
        Ok(word)
    }
}

impl<A: Allocator + Clone> World<A> {
    /// Opens a table with a configuration, in its memory: version 0, in row 0 and the first pages. The other rows and pages are filled
    /// with zeros.
    ///
    /// Fails with `TooBig` if the charge is above `CHARGE_LIMIT`, otherwise with `OutOfMemory` if an allocation is
    /// refused.
    pub fn new(config: Config<A>) -> Result<World<A>, StepFault>
        ensures opened { IfOk result (λ world. world ≡ opened_with config) }
        ensures too_big { FailsWith TooBig result ↔ (CHARGE_LIMIT < charge_of config) }
        ensures cause { IfErr result (λ fault. (fault ≡ TooBig) ⊎ (fault ≡ OutOfMemory)) }
    {
        if config.charge() > CHARGE_LIMIT {
            return Err(StepFault::TooBig);
        }
        let words = opening_words(&config)?;
        let progress = Progress::at_start(
            config.allocator().clone()?,
            page_count(&config) as usize,
        )?;
        let events = Vec::new(config.allocator().clone()?);
        Ok(World {
            opening: config,
            events,
            words,
            progress,
            proposal: None,
        })
    }
}
