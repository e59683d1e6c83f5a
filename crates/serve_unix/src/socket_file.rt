//! The socket file: who may connect to it, and when it is taken over or removed (unix(7); docs/OPERATING.md, "Who may control
//! it").

use mio::net::{UnixListener, UnixStream};
use std::fs::{Files, Permissions};
use std::io::ErrorKind;
use std::net::Net;
use std::os::fd::{AsFd, AsRawFd};
use std::os::unix::fs::{FileTypeExt, MetadataExt, PermissionsExt};
use std::os::unix::net;
use std::os::unix::net::SocketAddr;
use std::{fs, io};

// The folder alone says who may connect: everybody who may enter it.
// The reason: docs/DECISIONS.md, "The folder says who may connect".
const MODE: u32 = 0o666;

// The number of clients that may wait to be accepted.
const BACKLOG: i32 = 64;

/// A socket file that was bound, by which it is known again.
#[derive(Drop)]
pub struct SocketFile<'a> {
    path: &'a str,
    // The file's numbers in its file system, if they are known.
    numbers: Option<(u64, u64)>,
}

fn system_error(number: i32) -> io::Error {
    io::Error::from_raw_os_error(number)
}

fn check(status: i32) -> io::Result<()> {
    if status < 0 {
        return Err(system_error(os::errno()));
    }
    Ok(())
}

fn address_of(path: &str) -> io::Result<SocketAddr> {
    match SocketAddr::from_pathname(path) {
        Ok(address) => Ok(address),
        Err(_) => Err(system_error(libc::ENAMETOOLONG)),
    }
}

// Tests whether nobody listens at a socket file.
fn is_stale<N: Net>(net: &N, path: &str) -> bool {
    match UnixStream::connect(net, path) {
        Err(error) => error.kind() == ErrorKind::ConnectionRefused,
        Ok(_) => false,
    }
}

// Removes a socket file that nobody listens at. Every other file stays, and is an error.
fn remove_stale<R: Files + Net>(rt: &R, path: &str) -> io::Result<()> {
    match fs::symlink_metadata(rt, path) {
        Err(error) if error.kind() == ErrorKind::NotFound => Ok(()),
        Err(error) => Err(error),
        Ok(found) if !found.file_type().is_socket() => Err(system_error(libc::EEXIST)),
        Ok(_) => {
            if !is_stale(rt, path) {
                return Err(system_error(libc::EADDRINUSE));
            }
            fs::remove_file(rt, path)
        }
    }
}

// The numbers of the file at a path.
fn numbers_of<F: Files>(files: &F, path: &str) -> Option<(u64, u64)> {
    let found = fs::symlink_metadata(files, path).ok()?;
    Some((found.dev(), found.ino()))
}

/// Makes a socket file and listens at it. A socket file that nobody listens at is taken over.
///
/// It is an error, and the file stays, if the path is too long, its folder is missing or may not be changed, somebody listens there, or
/// the file is no socket; a symbolic link is none.
pub fn listen<'a, R: Files + Net>(
    rt: &R,
    path: &'a str,
) -> io::Result<(UnixListener, SocketFile<'a>)> {
    let address = address_of(path)?;
    remove_stale(rt, path)?;
    let socket = rt.unix_socket()?;
    rt.bind_unix(socket.as_fd(), &address)?;
    let file = SocketFile {
        path,
        numbers: numbers_of(rt, path),
    };
    fs::set_permissions(rt, path, Permissions::from_mode(MODE))?;
    check(libc::net::listen(socket.as_raw_fd(), BACKLOG))?;
    let listener = net::UnixListener::from(socket);
    listener.set_nonblocking(true)?;
    Ok((UnixListener::from_std(listener), file))
}

impl SocketFile<'_> {
    /// Removes the file. Another file that is at its path by now stays.
    pub fn remove<F: Files>(self, files: &F) {
        if self.numbers.is_some() && numbers_of(files, self.path) == self.numbers {
            let _ = fs::remove_file(files, self.path);
        }
    }
}
