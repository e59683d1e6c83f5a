//! Streams in memory that fail when a test wants it.

use std::alloc::Global;
use std::io;
use std::io::{ErrorKind, Read, Write};

/// Keeps the bytes of at most `limit` writes, the length of the longest write, and whether each ended with LF.
#[derive(Drop)]
pub struct Sink {
    kept: Vec<u8>,
    pub writes: usize,
    pub longest: usize,
    pub whole_lines: bool,
    limit: usize,
    flushes: bool,
}

impl Sink {
    pub fn new(alloc: Global, limit: usize, flushes: bool) -> Sink {
        Sink {
            kept: Vec::new(alloc),
            writes: 0,
            longest: 0,
            whole_lines: true,
            limit,
            flushes,
        }
    }

    pub fn open(alloc: Global) -> Sink {
        Sink::new(alloc, usize::MAX, true)
    }

    pub fn text(&self) -> Option<&str> {
        str::from_utf8(self.kept.as_slice()).ok()
    }
}

impl Write for Sink {
    fn write(&mut self, buf: &[u8]) -> io::Result<usize> {
        if self.writes >= self.limit {
            return Err(io::Error::from(ErrorKind::BrokenPipe));
        }
        self.writes += 1;
        self.longest = self.longest.max(buf.len());
        self.whole_lines = self.whole_lines && buf.last() == Some(&b'\n');
        self.kept.write(buf)
    }

    fn flush(&mut self) -> io::Result<()> {
        if self.flushes {
            Ok(())
        } else {
            Err(io::Error::from(ErrorKind::BrokenPipe))
        }
    }
}

/// Gives its bytes in pieces, in a limited number of reads. The read after these fails.
#[derive(Drop)]
pub struct Source<'a> {
    rest: &'a [u8],
    piece: usize,
    pub reads: usize,
    limit: usize,
    fault: ErrorKind,
}

impl<'a> Source<'a> {
    pub fn new(bytes: &'a [u8], piece: usize, limit: usize, fault: ErrorKind) -> Source<'a> {
        Source {
            rest: bytes,
            piece,
            reads: 0,
            limit,
            fault,
        }
    }

    pub fn open(bytes: &'a [u8], piece: usize) -> Source<'a> {
        Source::new(bytes, piece, usize::MAX, ErrorKind::BrokenPipe)
    }
}

impl Read for Source<'_> {
    fn read(&mut self, buf: &mut [u8]) -> io::Result<usize> {
        if self.reads >= self.limit {
            return Err(io::Error::from(self.fault));
        }
        self.reads += 1;
        let count = self.piece.min(buf.len()).min(self.rest.len());
        let (front, rest) = self.rest.split_at(count);
        buf[..count].copy_from_slice(front);
        self.rest = rest;
        Ok(count)
    }
}
