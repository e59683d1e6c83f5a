//! The knowledge of each actor from its own steps (docs/TABLE.md, "What an actor knows"). No value of a view is made:
//! contracts speak of views, and lists in them are not kept in memory.
//!
//! A log has the newest entry first.

use crate::step::Entry;
use std::collections::LinkedList;

/// The stage of a worker in the order of its steps.
#[derive(Clone, Copy, Debug)]
pub enum Stage {
    /// Outside a read section, without a peek since the last one.
    Outside,
    /// Outside, and its last peek loaded this version.
    Peeked {
        version: u64,
    },
    /// It stored this word, and will pin next.
    Announced {
        read_word: u64,
    },
    /// Inside a read section: the word that it announced, the version that it holds, and the row of that version.
    Inside {
        read_word: u64,
        version: u64,
        row: usize,
    },
}

/// The knowledge of a worker, over configurations `C`.
pub struct WorkerView<C> {
    /// The worker's number.
    pub number: usize,
    pub stage: Stage,
    /// Its own steps.
    pub log: LinkedList<Entry>,
    /// The versions from 0 up to the one that its last load of `current` showed; at first version 0 alone.
    pub seen: LinkedList<C>,
    /// The pages of the version that its last pin showed; at first those of version 0.
    pub pages: LinkedList<usize>,
}

/// The knowledge of the operator, over configurations `C`.
pub struct OperatorView<C> {
    /// Its own steps.
    pub log: LinkedList<Entry>,
    /// The versions published so far, from version 0 on.
    pub published: LinkedList<C>,
    /// The row of each version.
    pub version_rows: LinkedList<usize>,
    /// The pages that each version names, one for each part.
    pub version_pages: LinkedList<LinkedList<usize>>,
    /// Its last proposal, if it published nothing since.
    pub proposal: Option<C>,
    /// The words of the rows, and after them those of the pool, which it alone stores.
    pub stored: LinkedList<u64>,
    /// The log of each worker at the operator's last scan of its read word.
    pub scanned_logs: LinkedList<LinkedList<Entry>>,
}
