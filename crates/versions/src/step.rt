//! The single steps on the words of the table, and the events of a trace (docs/TABLE.md, "The eight steps").

/// One load or one store of one word of the table, by one actor and without a lock.
///
/// A `worker` is 0 to 63, a `row` 0 to 15. A `place` is that of a word in the whole table: 0 is `current`, 1 + w the read word
/// of worker w, row r begins at 65 + 8192 * r, and page q at 131,137 + 16 * q; a scan's is 1 to 64, a fetch's and a fill's 65 to
/// 655,424. A step with any other number is not legal.
#[derive(Clone, Copy, Debug)]
pub enum Step {
    /// The worker loads `current`.
    Peek { worker: usize },
    /// The worker stores the version of its last peek plus 1 in its own read word.
    Announce { worker: usize },
    /// The worker loads `current`, and holds the version in it.
    Pin { worker: usize },
    /// The worker loads a word of the version that it holds: of its row, or of a part in one of its pages.
    Fetch { worker: usize, place: usize },
    /// The worker stores 0 in its own read word, and holds nothing.
    Leave { worker: usize },
    /// The operator stores a word in a free row or a free page.
    Fill { place: usize, word: u64 },
    /// The operator stores `current`: the words in the row, and in the pages that it names, are the next version.
    Publish { row: usize },
    /// The operator loads a read word.
    Scan { place: usize },
}

/// An entry of a log: a step, and the word that it loaded or stored.
#[derive(Clone, Copy, Debug)]
pub struct Entry {
    pub step: Step,
    pub word: u64,
}

/// An event of a trace over configurations `C`.
#[derive(Drop)]
pub enum Event<C> {
    /// A step, with the word that it loads or stores.
    Stepped { step: Step, word: u64 },
    /// The operator's own choice of the configuration that it will publish.
    Proposed { config: C },
}
