//! Rows of counts, one after the other.

ghost use Rattle.std.specs.Prelude.{◌≡◌, ◌++◌, ◌∷◌, [], MatchResult};

use control_rules::AskFailure;

/// Adds a row.
pub(crate) fn push_row<T: Drop>(rows: &mut Vec<T>, row: T) -> Result<(), AskFailure>
    ensures { MatchResult result (λ done. rows.new.items ≡ rows.old.items ++ row ∷ []) (λ failure. failure ≡ AskFailure.OutOfMemory) }
{
    match rows.push(row) {
        Ok(()) => Ok(()),
        Err(_) => Err(AskFailure::OutOfMemory),
    }
}
