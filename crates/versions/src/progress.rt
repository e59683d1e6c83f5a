//! The progress of the actors of a world: the stage of each worker, and the operator's book. It decides which steps are
//! legal.

ghost use Rattle.std.specs.Prelude.{◌≡◌, ◌+◌, ◌<◌, ◌≤◌, IfOk, MatchOption, length, slice_get};
ghost use Rattle.std.specs.Option.{option_map};
ghost use Rattle.versions.specs.declared.step.Step.TheVariants.{Announce, Fetch, Fill, Leave, Peek, Pin, Publish, Scan};
ghost use Rattle.versions.specs.View as view;
ghost use Rattle.versions.specs.World.{first_pages};
ghost use Rattle.versions.specs.body.Mirror.{BeginsAtStart, Decides, DecidesProposed, DecidesPublish, FitsRow, Follows, IsFollowed, moved};

use crate::book::Book;
use crate::form::{holds_form, is_version_word, row_names, row_of};
use crate::layout::{
    LAST_NUMBER, PAGES, ROWS, TABLE_WORDS, WORKERS, current_row, current_version, current_word,
    read_word_place,
};
use crate::step::Step;
use crate::view::Stage;
use member_group::Config;
use std::alloc::{AllocError, Allocator, Global};

/// The stage of each worker, and what follows from the operator's log.
#[derive(Drop)]
pub(crate) struct Progress<A: Allocator = Global> {
    pub(crate) stages: [Stage; WORKERS],
    pub(crate) book: Book<A>,
}

fn after_peek(stage: Stage, version: u64) -> Stage
    ensures { result ≡ view.stage_after_peek stage version }
{
    match stage {
        Stage::Inside { .. } => stage,
        _ => Stage::Peeked { version },
    }
}

fn read_word(stage: Stage) -> u64
    ensures { result ≡ view.read_word_of stage }
{
    match stage {
        Stage::Announced { read_word } => read_word,
        Stage::Inside { read_word, .. } => read_word,
        _ => 0,
    }
}

// Returns the stage of a worker after a step of its own.
fn next_stage(stage: Stage, step: Step, word: u64) -> Stage
    ensures { result ≡ view.next_stage ROWS stage step word }
{
    match step {
        Step::Peek { .. } => after_peek(stage, current_version(word)),
        Step::Announce { .. } => Stage::Announced { read_word: word },
        Step::Pin { .. } => Stage::Inside {
            read_word: read_word(stage),
            version: current_version(word),
            row: current_row(word),
        },
        Step::Leave { .. } => Stage::Outside,
        _ => stage,
    }
}

fn announced(version: u64) -> Option<u64>
    ensures { MatchOption result (LAST_NUMBER < version) (λ word. word ≡ version + 1) }
{
    if version > LAST_NUMBER {
        return None;
    }
    Some(version + 1)
}

// The word that a step loads or stores, `None` if no word makes it legal.
impl<A: Allocator> Progress<A> {
    fn stage(&self, worker: usize) -> Option<Stage>
        ensures { result ≡ slice_get self.now.stages worker }
    {
        self.stages.get(worker).copied()
    }

    fn peek_word(&self, words: &[u64], worker: usize) -> Option<u64>
        requires { length words.now ≡ TABLE_WORDS }
        ensures { Decides words.now self.now (Peek worker) result }
    {
        match self.stage(worker)? {
            Stage::Announced { .. } => None,
            _ => Some(words[0]),
        }
    }

    fn announce_word(&self, words: &[u64], worker: usize) -> Option<u64>
        ensures { Decides words.now self.now (Announce worker) result }
    {
        match self.stage(worker)? {
            Stage::Peeked { version } => announced(version),
            _ => None,
        }
    }

    fn pin_word(&self, words: &[u64], worker: usize) -> Option<u64>
        requires { length words.now ≡ TABLE_WORDS }
        ensures { Decides words.now self.now (Pin worker) result }
    {
        match self.stage(worker)? {
            Stage::Announced { .. } => Some(words[0]),
            _ => None,
        }
    }

    fn fetch_word(&self, words: &[u64], worker: usize, place: usize) -> Option<u64>
        requires { length words.now ≡ TABLE_WORDS }
        ensures { Decides words.now self.now (Fetch worker place) result }
    {
        let Stage::Inside { row, .. } = self.stage(worker)? else {
            return None;
        };
        if row >= ROWS || place >= TABLE_WORDS || !is_version_word(words, row, place) {
            return None;
        }
        Some(words[place])
    }

    fn leave_word(&self, words: &[u64], worker: usize) -> Option<u64>
        ensures { Decides words.now self.now (Leave worker) result }
    {
        match self.stage(worker)? {
            Stage::Inside { .. } => Some(0),
            _ => None,
        }
    }

    fn fill_word(&self, words: &[u64], place: usize, word: u64) -> Option<u64>
        ensures { Decides words.now self.now (Fill place word) result }
    {
        if !self.book.may_fill(place) {
            return None;
        }
        Some(word)
    }

    fn publish_word<B: Allocator>(
        &self,
        words: &[u64],
        row: usize,
        proposal: Option<&Config<B>>,
    ) -> Option<u64>
        requires table { length words.now ≡ TABLE_WORDS }
        requires room { FitsRow (option_map (λ config. config.now) proposal) }
        ensures { DecidesPublish words.now self.now (option_map (λ config. config.now) proposal.entry) row result }
    {
        let Some(config) = proposal else {
            return None;
        };
        if !self.book.is_free(row)
            || self.book.number >= LAST_NUMBER
            || !holds_form(words, row, config)
        {
            return None;
        }
        Some(current_word(self.book.number + 1, row))
    }

    fn scan_word(&self, words: &[u64], place: usize) -> Option<u64>
        requires { length words.now ≡ TABLE_WORDS }
        ensures { Decides words.now self.now (Scan place) result }
    {
        if place == 0 || place > WORKERS {
            return None;
        }
        Some(words[place])
    }

    pub(crate) fn word_of<B: Allocator>(
        &self,
        words: &[u64],
        proposal: Option<&Config<B>>,
        step: Step,
    ) -> Option<u64>
        requires table { length words.now ≡ TABLE_WORDS }
        requires room { FitsRow (option_map (λ config. config.now) proposal) }
        ensures { DecidesProposed words.now self.now (option_map (λ config. config.now) proposal.entry) step result }
    {
        match step {
            Step::Peek { worker } => self.peek_word(words, worker),
            Step::Announce { worker } => self.announce_word(words, worker),
            Step::Pin { worker } => self.pin_word(words, worker),
            Step::Fetch { worker, place } => self.fetch_word(words, worker, place),
            Step::Leave { worker } => self.leave_word(words, worker),
            Step::Fill { place, word } => self.fill_word(words, place, word),
            Step::Publish { row } => self.publish_word(words, row, proposal),
            Step::Scan { place } => self.scan_word(words, place),
        }
    }
}

// The changes by a legal step.
impl<A: Allocator> Progress<A> {
    pub(crate) fn at_start(alloc: A, count: usize) -> Result<Progress<A>, AllocError>
        requires { count ≤ PAGES }
        ensures { IfOk result (BeginsAtStart (first_pages count)) }
    {
        let book = Book::at_start(alloc, count)?;
        Ok(Progress {
            stages: [Stage::Outside; WORKERS],
            book,
        })
    }

    fn move_worker(&mut self, worker: usize, step: Step, word: u64)
        requires { worker < WORKERS }
        ensures { self.new ≡ moved worker step word self.old }
    {
        self.stages[worker] = next_stage(self.stages[worker], step, word);
    }

    pub(crate) fn take(&mut self, words: &mut [u64], step: Step, word: u64)
        requires table { length words.old ≡ TABLE_WORDS }
        requires legal { IsFollowed words.old self.old step word }
        ensures { Follows words.old self.old words.new self.new step word }
    {
        match step {
            Step::Peek { worker } => self.move_worker(worker, step, word),
            Step::Announce { worker } => {
                words[read_word_place(worker)] = word;
                self.move_worker(worker, step, word);
            }
            Step::Pin { worker } => self.move_worker(worker, step, word),
            Step::Fetch { worker, .. } => self.move_worker(worker, step, word),
            Step::Leave { worker } => {
                words[read_word_place(worker)] = word;
                self.move_worker(worker, step, word);
            }
            Step::Fill { place, .. } => words[place] = word,
            Step::Publish { row } => {
                self.book.count_version(row, row_names(row_of(words, row)));
                words[0] = word;
            }
            Step::Scan { place } => self.book.take_scan(place - 1, word),
        }
    }
}
