//! The law on whole sections.

ghost use Rattle.read_section.specs.Section.{SectionsAreWhole};

/// Law: `enter`, calls that read the section's words by `Words` alone, and `leave` add these steps to the worker's log
/// and no others: its leave if it was inside, peek, announce, pin, fetches of words of the version that it holds, and
/// leave. It runs nothing.
pub fn sections_are_whole()
    ensures { SectionsAreWhole }
{}
