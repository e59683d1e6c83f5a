//! The input and the output of a command, as contracts see them: their bytes, and how often each failed.
//!
//! `CountedWrite` is the destination of results, and `CountedWriter` one over a writer. `read_all` reads an input whole; `write_whole`
//! and `write_through` write a text. So contracts can say that a command fails with E1 only if a read failed, and with E2 only if a
//! write or a flush failed.
#![tactic(auto)]

mod counted_write;
mod counted_writer;
mod reading;
mod writing;

pub use control::{Failed, FromRead, Input};
pub use counted_write::CountedWrite;
pub use counted_writer::CountedWriter;
pub use reading::read_all;
pub use writing::{write_through, write_whole};
