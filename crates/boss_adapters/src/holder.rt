//! Who holds the lock of a file.

use std::fs::{self, File};
use std::io::{self, ErrorKind};
use std::os::unix::fs::MetadataExt;

/// The lock of a file is not to be had. The error's text names the process that holds it, where the system says which.
pub fn held(rt: &HostRuntime, file: &File) -> io::Error {
    match holder_of(rt, file) {
        Ok(Some(holder)) => io::Error::new(ErrorKind::ResourceBusy, holder.as_str()),
        _ => io::Error::new(ErrorKind::ResourceBusy, "another program writes it"),
    }
}

/// The process that holds a file's lock, with its number and the name of its program.
fn holder_of(rt: &HostRuntime, file: &File) -> io::Result<Option<String>> {
    let place = place_of(rt, file)?;
    let locks = fs::read_to_string(rt, "/proc/locks")?;
    let Some(process) = holder_at(locks.as_str(), place.as_str()) else {
        return Ok(None);
    };
    let comm = format!(in rt.alloc(); "/proc/{process}/comm")?;
    let program = fs::read_to_string(rt, comm.as_str())?;
    let holder = format!(in rt.alloc(); "process {process} ({}) writes it", program.trim_end())?;
    Ok(Some(holder))
}

/// The device and the inode of a file, as the system's list of locks names them.
fn place_of(rt: &HostRuntime, file: &File) -> io::Result<String> {
    let found = file.metadata()?;
    let device = found.dev();
    let major = (device >> 8) & 0xfff | (device >> 32) & 0xffff_f000;
    let minor = device & 0xff | (device >> 12) & 0xffff_ff00;
    Ok(format!(in rt.alloc(); "{major:02x}:{minor:02x}:{}", found.ino())?)
}

/// The number of the process that holds the lock of the file at this place, by the system's list of locks.
fn holder_at<'a>(locks: &'a str, place: &str) -> Option<&'a str> {
    for line in locks.lines() {
        // A number, FLOCK, whether it binds, what it is for, the process, the file and the range of its bytes.
        let mut words = line.split_whitespace();
        let kind = words.nth(1);
        let process = words.nth(2);
        let file = words.next();
        if kind == Some("FLOCK") && file == Some(place) {
            return process;
        }
    }
    None
}
