//! A slow reference for the tests: it computes the result of each step from all that was done before.

use std::process::Abort;
use versions::Step::{self, Announce, Fetch, Fill, Leave, Peek, Pin, Publish, Scan};
use versions::{PAGES, ROWS, TABLE_WORDS, WORKERS};

// The row of the configuration without groups, by docs/SWITCH.md, "The pooled form": the image's length, the place at
// which programs would begin and no parts; and no groups.
pub const EMPTY_ROW: [u64; 2] = [0x0002_0002_0000, 0];

// The place of a row, after `current` and the read words; after the table if there is no such row.
pub fn begin_of(row: usize) -> usize {
    if row < ROWS {
        1 + WORKERS + row * 8192
    } else {
        TABLE_WORDS
    }
}

// The place of a page, after the rows; after the table if there is no such page.
pub fn begin_of_page(page: usize) -> usize {
    if page < PAGES {
        131_137 + page * 16
    } else {
        TABLE_WORDS
    }
}

// All that was done, and nothing else: each question goes through all of it.
#[derive(Drop)]
pub struct History {
    pub words: Vec<u64>,
    pub made: Vec<(Step, u64)>,
    pub proposed: bool,
}

fn is_of(step: Step, worker: usize) -> bool {
    match step {
        Peek { worker: w } | Announce { worker: w } | Pin { worker: w } | Leave { worker: w } => w
            == worker,
        Fetch { worker: w, .. } => w == worker,
        _ => false,
    }
}

impl History {
    fn word(&self, place: usize) -> Option<u64> {
        self.words.get(place).copied()
    }

    // The last steps of a worker, without peeks inside: none, a peek, an announce or a pin, and its word.
    fn last_of(&self, worker: usize) -> Option<(Step, u64)> {
        let mut last = None;
        for (step, word) in &self.made {
            let inside = matches!(last, Some((Pin { .. }, _)));
            if is_of(*step, worker) {
                last = match *step {
                    Peek { .. } if inside => last,
                    Fetch { .. } => last,
                    Leave { .. } => None,
                    other => Some((other, *word)),
                };
            }
        }
        last
    }

    pub fn number(&self) -> u64 {
        let mut number = 0u64;
        for (step, _) in &self.made {
            if let Publish { .. } = step {
                number = number.wrapping_add(1);
            }
        }
        number
    }

    fn was_scanned_clear(&self, worker: usize, version: u64) -> bool {
        let mut number = 0u64;
        let mut clear = false;
        for (step, word) in &self.made {
            match *step {
                Publish { .. } => number = number.wrapping_add(1),
                Scan { place } if place == worker.wrapping_add(1) && number > version => {
                    clear = clear || *word == 0 || *word >= version.wrapping_add(2);
                }
                _ => {}
            }
        }
        clear
    }

    fn is_free(&self, row: usize) -> bool {
        let mut number = 0u64;
        let mut last = if row == 0 { Some(0) } else { None };
        for (step, _) in &self.made {
            if let Publish { row: of } = *step {
                number = number.wrapping_add(1);
                if of == row {
                    last = Some(number);
                }
            }
        }
        let Some(version) = last else {
            return row < ROWS;
        };
        let mut free = number > version;
        for worker in 0..WORKERS {
            free = free && self.was_scanned_clear(worker, version);
        }
        free
    }

    fn holds_empty(&self, row: usize) -> bool {
        for i in 0..8192usize {
            let wanted = EMPTY_ROW.get(i).copied().unwrap_or(0);
            if self.word(begin_of(row).wrapping_add(i)) != Some(wanted) {
                return false;
            }
        }
        true
    }

    fn row_of(&self, place: usize) -> Option<usize> {
        for row in 0..ROWS {
            let begin = begin_of(row);
            if begin <= place && place < begin.wrapping_add(8192) {
                return Some(row);
            }
        }
        None
    }

    fn worker_answer(&self, step: Step) -> Option<u64> {
        match step {
            Peek { worker } => match self.last_of(worker) {
                Some((Announce { .. }, _)) => None,
                _ if worker < WORKERS => self.word(0),
                _ => None,
            },
            Announce { worker } => match self.last_of(worker) {
                Some((Peek { .. }, word)) => Some((word / ROWS as u64).wrapping_add(1)),
                _ => None,
            },
            Pin { worker } => match self.last_of(worker) {
                Some((Announce { .. }, _)) => self.word(0),
                _ => None,
            },
            Fetch { worker, place } => match self.last_of(worker) {
                Some((Pin { .. }, word))
                    if self.row_of(place) == Some((word % ROWS as u64) as usize) => self.word(
                    place,
                ),
                _ => None,
            },
            Leave { worker } => match self.last_of(worker) {
                Some((Pin { .. }, _)) => Some(0),
                _ => None,
            },
            _ => None,
        }
    }

    pub fn answer(&self, step: Step) -> Option<u64> {
        match step {
            // No version names a page, so each page is free.
            Fill { place, word } => match self.row_of(place) {
                Some(row) if self.is_free(row) => Some(word),
                None if begin_of_page(0) <= place && place < TABLE_WORDS => Some(word),
                _ => None,
            },
            Publish { row } => {
                if self.proposed && row < ROWS && self.is_free(row) && self.holds_empty(row) {
                    Some(
                        self.number()
                            .wrapping_add(1)
                            .wrapping_mul(ROWS as u64)
                            .wrapping_add(row as u64),
                    )
                } else {
                    None
                }
            }
            Scan { place } => {
                if 1 <= place && place <= WORKERS {
                    self.word(place)
                } else {
                    None
                }
            }
            other => self.worker_answer(other),
        }
    }

    pub fn make(&mut self, rt: &impl Abort, step: Step, word: u64) {
        let stored = match step {
            Announce { worker } | Leave { worker } => Some(worker.wrapping_add(1)),
            Fill { place, .. } => Some(place),
            Publish { .. } => Some(0),
            _ => None,
        };
        if let Some(place) = stored {
            if let Some(kept) = self.words.get_mut(place) {
                *kept = word;
            }
        }
        if let Publish { .. } = step {
            self.proposed = false;
        }
        self.made.push((step, word)).expect(rt, "memory");
    }
}
