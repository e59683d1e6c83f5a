//! Rows of capture files.

use packet_capture::summarize;
use std::alloc::Global;
use std::io;

/// `capture HEX`: the packets, the cut packets and the other records of a capture file, and the place where it is cut; or the fault of
/// its header.
pub fn describe_capture(alloc: Global, digits: &str) -> io::Result<String> {
    let Ok(file) = hex::decode(alloc, digits.as_bytes()) else {
        return Ok(String::from_str(alloc, "no file")?);
    };
    match summarize(None, file.as_slice()) {
        Ok(it) => { Ok(format!(in alloc; "{} {} {} {:?}", it.whole, it.cut, it.other, it.cut_at)?) }
        Err(fault) => Ok(format!(in alloc; "{fault:?}")?),
    }
}
