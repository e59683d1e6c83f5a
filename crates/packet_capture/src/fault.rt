//! Why a capture file is not read (docs/COMMANDS.md, "Refusals").

/// The fault of a file's header. The first fault in this order is reported.
#[derive(Clone, Copy, Debug, PartialEq, Eq)]
pub enum HeaderFault {
    /// The file is a pcapng file.
    Pcapng,
    /// The first four bytes are not a magic number of a capture file.
    Magic,
    /// The file ends before its header does.
    Cut,
    /// The version is not 2.4.
    Version,
    /// The link type with this number is not supported.
    LinkType(u16),
}
