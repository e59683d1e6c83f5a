//! The outcomes of an expression on a packet.

ghost use Rattle.std.specs.Prelude.{◌≡◌};
ghost use Rattle.filter_tree.specs.Outcome.{◌and_then◌, ◌or_else◌, answer, opposite};

/// The outcome of an expression, or of a test in it, on a packet.
#[derive(Clone, Copy, Debug, PartialEq, Eq)]
pub enum Truth {
    Yes,
    No,
    /// A load passed the packet's end, or a divisor was 0. It stays so through `not`, `and` and `or`.
    Fails,
}

impl Truth {
    pub(crate) fn answer(test: bool) -> Truth
        ensures { result ≡ answer test }
    {
        if test { Truth::Yes } else { Truth::No }
    }

    pub(crate) fn and_then(self, second: Truth) -> Truth
        ensures { result ≡ (self and_then second) }
    {
        match self {
            Truth::Yes => second,
            Truth::No => Truth::No,
            Truth::Fails => Truth::Fails,
        }
    }

    pub(crate) fn or_else(self, second: Truth) -> Truth
        ensures { result ≡ (self or_else second) }
    {
        match self {
            Truth::Yes => Truth::Yes,
            Truth::No => second,
            Truth::Fails => Truth::Fails,
        }
    }

    pub(crate) fn opposite(self) -> Truth
        ensures { result ≡ opposite self }
    {
        match self {
            Truth::Yes => Truth::No,
            Truth::No => Truth::Yes,
            Truth::Fails => Truth::Fails,
        }
    }
}
