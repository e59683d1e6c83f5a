//! The workers of the threads: some whose read words are far apart, or neighbours.

ghost use Rattle.std.specs.Prelude.{◌≡◌, ◌+◌, ◌*◌, ◌<◌, ◌≤◌, ◌∷◌, [], map};
ghost use Rattle.versions.specs.declared.layout.TheConstants.{WORKERS};
ghost use Rattle.bench_threads.specs.Placing.{distance, number_at, passed_over};

use read_section::WORKERS;

/// The choice of the workers of the threads.
#[derive(Clone, Copy, Debug, PartialEq, Eq)]
pub enum Placing {
    /// For up to eight threads the workers are 7, 15, 23 and so on, those that `spread` of read_section puts first.
    /// Their read words are eight apart. For more threads they are `64 / threads` apart.
    Spread,
    /// The last workers of the table, whose read words are side by side.
    SideBySide,
}

// Read words that are this many words apart never share a cache line of 64 bytes.
const APART: usize = 8;

/// Law: the numbers of the workers of four threads. It runs nothing.
pub fn placings_as_numbers()
    ensures far { map (number_at Placing.Spread 4) (0 ∷ (1 ∷ (2 ∷ (3 ∷ [])))) ≡ 31 ∷ (23 ∷ (15 ∷ (7 ∷ []))) }
    ensures neighbours { map (number_at Placing.SideBySide 4) (0 ∷ (1 ∷ (2 ∷ (3 ∷ [])))) ≡ 63 ∷ (62 ∷ (61 ∷ (60 ∷ []))) }
{}

impl Placing {
    /// Returns the distance between the numbers of the workers of two neighbouring threads.
    pub fn distance(self, threads: usize) -> usize
        requires some { 0 < threads }
        requires at_most { threads ≤ WORKERS }
        ensures distance { result ≡ distance self threads }
        ensures at_least_one { 1 ≤ result }
        ensures within { result * threads ≤ WORKERS }
    {
        match self {
            Placing::Spread => APART.min(WORKERS / threads),
            Placing::SideBySide => 1,
        }
    }

    /// Returns the number above that of the first thread's worker, which has the highest.
    pub fn above(self, threads: usize) -> usize
        requires some { 0 < threads }
        requires at_most { threads ≤ WORKERS }
        ensures above { result ≡ passed_over self threads + distance self threads * threads }
        ensures within { result ≤ WORKERS }
    {
        match self {
            Placing::Spread => self.distance(threads) * threads,
            Placing::SideBySide => WORKERS,
        }
    }
}
