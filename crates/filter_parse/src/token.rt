//! The tokens of a filter expression (pcap-filter(7); docs/EXPRESSIONS.md, "Tokens").

use filter_tree::{Operator, Protocol, Relation};

/// The value of every number above 4294967295, and of a malformed address.
pub(crate) const TOO_BIG: u64 = 1 << 32;

/// `and` or `or`, as it is spelt.
#[derive(Clone, Copy)]
pub(crate) enum Connective {
    /// `and`.
    And,
    /// `or`.
    Or,
    /// `&&`.
    AndSign,
    /// `||`.
    OrSign,
}

/// A token of a filter expression.
#[derive(Clone, Copy)]
pub(crate) enum Token {
    /// `ip`, `tcp`, `udp`, `icmp`.
    Named(Protocol),
    /// `proto`.
    Proto,
    /// `host`.
    Host,
    /// `net`.
    Net,
    /// `port`.
    Port,
    /// `portrange`.
    PortRange,
    /// `less`.
    Less,
    /// `greater`.
    Greater,
    /// `len`.
    Length,
    /// `src`.
    Source,
    /// `dst`.
    Destination,
    /// `and`, `&&`, `or`, `||`.
    Connects(Connective),
    /// `not`, `!`.
    Not,
    /// `>`, `<`, `>=`, `<=`, `=`, `==`, `!=`.
    Compares(Relation),
    /// `|`, `^`, `&`, `<<`, `>>`, `+`, `-`, `*`, `/`, `%`.
    Operates(Operator),
    /// `(`.
    Open,
    /// `)`.
    Close,
    /// `[`.
    OpenIndex,
    /// `]`.
    CloseIndex,
    /// `:`.
    Colon,
    /// The value of a number; 4294967296 for every greater one.
    Number(u64),
    /// Four decimal numbers with dots between them, as an address in host order; 4294967296 for any other spelling with
    /// a dot.
    Address(u64),
    /// Bytes that are not a token of the language: another word, a malformed number, any other byte.
    Stray,
}

/// A token and its number of bytes.
pub(crate) struct Lexeme {
    pub(crate) token: Token,
    pub(crate) len: usize,
}
