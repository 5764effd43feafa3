//! File locks, as Linux lists them for all programs.
ghost use Rattle.std.specs.Prelude.{◌≤◌, ◌↔◌, IsTrue};

use std::fs::Metadata;
use std::os::unix::fs::MetadataExt;
use std::rt::Files;
use std::{fs, io};

/// Where the locks are listed.
const LIST: &str = "/proc/locks";

/// The first of the bytes that QEMU locks in an open file. Each byte represents a permission that QEMU uses, or denies to others.
const FIRST: u64 = 100;

/// The last of these bytes.
const LAST: u64 = 299;

/// How a program locks a file.
#[derive(Clone, Copy, PartialEq, Eq)]
pub(crate) enum Way {
    /// Like this crate: the whole file.
    Whole,
    /// Like QEMU: some bytes of it.
    Bytes,
}

/// A lock in the list.
#[derive(Clone, Copy)]
struct Lock<'a> {
    way: Way,
    process: &'a str,
    file: &'a str,
    first: &'a str,
    last: &'a str,
}

// Refuses a file that a program has locked in this way, and names the program if the list does. If there is no list, nothing is refused.
pub(crate) fn require_unlocked<R: Files + AllocGlobal>(
    rt: &R,
    file: &Metadata,
    way: Way,
) -> io::Result<()> {
    let list = match fs::read_to_string(rt, LIST) {
        Ok(list) => list,
        Err(e) if e.kind() == io::ErrorKind::OutOfMemory => return Err(e),
        Err(_) => return Ok(()),
    };
    let file = listed_name(rt, file)?;
    for line in list.lines() {
        if let Some(lock) = lock_of(line) {
            if lock.way == way && lock.file == file.as_str() && is_met(&lock) {
                return Err(in_use(rt, lock.process));
            }
        }
    }
    Ok(())
}

// The error for a file that a program has open. The list may give its process.
fn in_use(rt: &impl AllocGlobal, process: &str) -> io::Error {
    let busy = io::ErrorKind::WouldBlock;
    let Ok(process) = process.parse::<u32>() else {
        return io::Error::new(busy, "another program, such as QEMU, has it open");
    };
    match format!(in rt.alloc(); "process {process} has it open") {
        Ok(text) => io::Error::new(busy, &text),
        Err(_) => io::Error::new(busy, "another program has it open"),
    }
}

// The device and number of a file, as the list writes them.
fn listed_name(rt: &impl AllocGlobal, file: &Metadata) -> io::Result<String> {
    let device = file.dev();
    let major = ((device >> 8) & 0xfff) | ((device >> 32) & 0xffff_f000);
    let minor = (device & 0xff) | ((device >> 12) & 0xffff_ff00);
    let number = file.ino();
    Ok(format!(in rt.alloc(); "{major:02x}:{minor:02x}:{number}")?)
}

// Whether a lock is on the whole file, or on a byte that QEMU locks. An unreadable number counts as one.
fn is_met(lock: &Lock<'_>) -> bool {
    let first = lock.first.parse().unwrap_or(0);
    let last = lock.last.parse().unwrap_or(u64::MAX);
    lock.way == Way::Whole || is_between(first, last)
}

// Whether a range of bytes contains one that QEMU locks.
fn is_between(first: u64, last: u64) -> bool
    ensures { IsTrue result ↔ ((first ≤ 299) × (100 ≤ last)) }
{
    first <= LAST && last >= FIRST
}

// The lock in a line of the list; None for one that is only waited for, and for other kinds.
fn lock_of(line: &str) -> Option<Lock<'_>> {
    let mut words = line.split_ascii_whitespace();
    words.next()?;
    let way = match words.next()?.as_bytes() {
        b"FLOCK" => Way::Whole,
        b"OFDLCK" | b"POSIX" => Way::Bytes,
        _ => return None,
    };
    words.next()?;
    words.next()?;
    Some(Lock {
        way,
        process: words.next()?,
        file: words.next()?,
        first: words.next()?,
        last: words.next()?,
    })
}
