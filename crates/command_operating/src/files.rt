//! The files that commands read, as contracts see them: their bytes, and how often one could not be read.

ghost use Rattle.std.specs.Prelude.{◌≡◌, ◌⊎◌, IfErr, IfOk, List, Option, option_map, ℕ};
ghost use Rattle.command_line.specs.Input.{IsInput};
ghost use Rattle.command_streams.specs.Failures.{InputFails};
ghost use Rattle.command_operating.specs.Files.{first_bytes};

use command_line::{Failure, read_whole};
use std::alloc::Global;
use std::fs::{File, Files};
use std::io;
use std::io::{ErrorKind, Read};
use std::marker::Model;

/// Files that are read by their names, whose failures are counted.
pub trait ReadFiles {
    // How often a file could not be opened, or a read of one failed.
    ghost failures: { Self → ℕ };

    // The bytes of the file of a name, if they are known.
    ghost contents: { Self → List ℕ → Option (List ℕ) };

    /// Opens the file of this name, and reads its bytes, but none after the first `most` if that is given.
    fn read(&mut self, alloc: Global, name: &str, most: Option<u64>) -> Result<Vec<u8>, Failure>
        ensures bytes { IfOk result (λ bytes. IsInput (option_map (first_bytes most) (contents self.old name.now)) bytes.items) }
        ensures cause { IfErr result (λ failure. (failure ≡ Failure.ReadFailed) ⊎ (failure ≡ Failure.OutOfMemory)) }
        ensures device_failed { InputFails result (failures self.old) (failures self.new) };
}

/// The files of the system, of which contracts know no bytes. After 2^64 - 1 failures it opens none, and fails for want of memory.
#[derive(Drop)]
pub struct SystemFiles<'a, R: Files> {
    system: &'a R,
    failures: u64,
}

impl<'a, R: Files> Model for SystemFiles<'a, R> {
    ghost use Rattle.std.specs.Prelude.{ℕ};

    ghost Value = { ℕ };

    ghost view = { λ files. files.failures };
}

impl<'a, R: Files> SystemFiles<'a, R> {
    /// Borrows the system, of whose files no failure is counted yet.
    pub fn new(system: &'a R) -> SystemFiles<'a, R>
        ensures opened { result ≡ 0 }
    {
        SystemFiles {
            system,
            failures: 0,
        }
    }
}

impl<R: Files> ReadFiles for SystemFiles<'_, R> {
    ghost use Rattle.std.specs.Prelude.{None};

    ghost failures = { λ files. files };

    ghost contents = { λ files name. None };

    fn read(&mut self, alloc: Global, name: &str, most: Option<u64>) -> Result<Vec<u8>, Failure> {
        if self.failures == u64::MAX {
            return Err(Failure::OutOfMemory);
        }
        match read_file(self.system, alloc, name, most) {
            Ok(bytes) => Ok(bytes),
            Err(Failure::OutOfMemory) => Err(Failure::OutOfMemory),
            Err(_) => {
                self.failures += 1;
                Err(Failure::ReadFailed)
            }
        }
    }
}

// Opens a file, and reads it.
fn read_file<R: Files>(
    system: &R,
    alloc: Global,
    name: &str,
    most: Option<u64>,
) -> Result<Vec<u8>, Failure> {
    let input = match File::open(system, name) {
        Ok(input) => input,
        Err(error) => return Err(open_failure(&error)),
    };
    match most {
        Some(most) => read_whole(alloc, input.take(most)),
        None => read_whole(alloc, input),
    }
}

// Why a file could not be opened.
fn open_failure(error: &io::Error) -> Failure {
    if error.kind() == ErrorKind::OutOfMemory {
        Failure::OutOfMemory
    } else {
        Failure::ReadFailed
    }
}
