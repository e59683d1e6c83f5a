//! Finding free versions, rows and pages by scans, counted by worker.
ghost use Rattle.std.specs.Prelude.{◌≡◌, ◌<◌, ◌≤◌, length, slice_index, ℕ, ◌↔◌};
ghost use Rattle.versions.specs.Free.{FreeBelow, FreeRowsAreFree, FreeStaysFree, IsClear};
ghost use Rattle.versions.specs.Table.{the_shape};

/// Law: a free version stays free, the versions before a free one are free, and each version of a free row is free. It runs
/// nothing.
pub fn free_versions()
    ensures free_stays_free { FreeStaysFree the_shape }
    ensures free_below { FreeBelow the_shape }
    ensures free_rows { FreeRowsAreFree the_shape }
{}

/// Returns the least of some numbers.
pub(crate) fn least(numbers: &[u64]) -> u64
    requires { 0 < length numbers.now }
    ensures below { (w : ℕ) → w < length numbers.now → result ≤ slice_index numbers.now w }
    ensures there { (w : ℕ) × (w < length numbers.now) × (slice_index numbers.now w ≡ result) }
{
    let mut found = numbers[0];
    for number in numbers {
        if *number < found {
            found = *number;
        }
    }
    found
}

/// Returns the number of versions that a scan shows clear, if it loads `word` and the current version has the number
/// `number`: those below the result.
pub(crate) fn clear_below(number: u64, word: u64) -> u64
    ensures { (m : ℕ) → (m < result) ↔ ((m < number) × IsClear m word) }
{
    if word == 0 {
        return number;
    }
    number.min(word - 1)
}
