//! The printed counts of a capture file (docs/COMMANDS.md, "packets").

ghost use Rattle.std.specs.Prelude.{Some};
ghost use Rattle.packet_capture.specs.Packets.{counts_text};

use crate::Summary;
use std::fmt;

impl fmt::Display for Summary {
    ghost output = { λ summary. Some (counts_text summary) };

    fn fmt<W: fmt::Write>(&self, f: &mut fmt::Formatter<W>) -> fmt::Result {
        let Summary {
            whole,
            cut,
            other,
            ..
        } = *self;
        writeln!(f, "packets {whole} cut {cut} other {other}")
    }
}
