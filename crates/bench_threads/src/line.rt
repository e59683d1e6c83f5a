//! The line that the program prints.

ghost use Rattle.std.specs.Prelude.{◌≡◌, ◌≤◌, OnOk};
ghost use Rattle.versions.specs.declared.layout.TheConstants.{WORKERS};
ghost use Rattle.bench_threads.specs.Line.{WritesLine, word_of};

use crate::fault::Fault;
use crate::placing::Placing;
use crate::request::Request;
use std::io;
use std::io::Write;

fn placing_word(placing: Placing) -> &'static str
    ensures { result.now ≡ word_of placing }
{
    match placing {
        Placing::Spread => "spread",
        Placing::SideBySide => "side-by-side",
    }
}

// Writes the line, with the time if there is one.
fn write_text<W: Write>(request: &Request, nanoseconds: Option<u64>, out: &mut W) -> io::Result<()>
    requires { request.now.threads ≤ WORKERS }
    ensures { OnOk result (WritesLine request.now nanoseconds (W.contents out.old) (W.contents out.new)) }
{
    let threads = request.threads;
    let sections = threads as u64 * request.rounds as u64;
    let placing = placing_word(request.placing);
    match nanoseconds {
        None => writeln!(
            out,
            "threads {threads} placing {placing} sections {sections}"
        ),
        Some(nanoseconds) => writeln!(
            out,
            "threads {threads} placing {placing} sections {sections} nanoseconds {nanoseconds}"
        ),
    }
}

/// Writes the line of a request that was carried out, and flushes it.
pub fn write_line<W: Write>(
    request: &Request,
    nanoseconds: Option<u64>,
    out: &mut W,
) -> Result<(), Fault>
    requires { request.now.threads ≤ WORKERS }
    ensures { OnOk result (WritesLine request.now nanoseconds (W.contents out.old) (W.contents out.new)) }
{
    write_text(request, nanoseconds, out).map_err(|_| Fault::WriteFailed)?;
    out.flush().map_err(|_| Fault::WriteFailed)
}
