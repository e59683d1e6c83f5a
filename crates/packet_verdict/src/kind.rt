//! The kinds by which packets are counted (docs/SWITCH.md, "Tallies").

/// A kind of count: a verdict, or a device that failed.
#[derive(Clone, Copy, Debug, PartialEq, Eq)]
pub enum Kind {
    Malformed,
    NoGroup,
    NoMembers,
    Dropped,
    Delivered,
    /// An outbox failed.
    SendFailed,
    /// A source failed.
    ReceiveFailed,
}
