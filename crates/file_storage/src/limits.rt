//! The system's file size limit for this program.
ghost use Rattle.std.specs.Prelude.{◌≤◌, ◌↔◌, IsOk, IsSomeAnd};

use std::rt::Files;
use std::{fs, io};

/// Where Linux lists the limits of this program.
const LIST: &str = "/proc/self/limits";

/// The start of the line with the file size limit.
const NAME: &str = "Max file size";

/// The system's error number for a file that is too large.
const TOO_LARGE: i32 = 27;

// The file size limit of this program in bytes; the greatest u64 if there is none, or it isn't listed.
pub(crate) fn greatest_size<R: Files + AllocGlobal>(rt: &R) -> io::Result<u64> {
    let list = match fs::read_to_string(rt, LIST) {
        Ok(list) => list,
        Err(e) if e.kind() == io::ErrorKind::OutOfMemory => return Err(e),
        Err(_) => return Ok(u64::MAX),
    };
    for line in list.lines() {
        if line.starts_with(NAME) {
            return Ok(fourth_number(line).unwrap_or(u64::MAX));
        }
    }
    Ok(u64::MAX)
}

fn fourth_number(line: &str) -> Option<u64> {
    line.split_ascii_whitespace().nth(3)?.parse().ok()
}

// Refuses a change that ends past a limit, since the system would kill a program that tries it.
pub(crate) fn require_within(limit: u64, end: Option<u64>) -> io::Result<()>
    ensures { IsOk result ↔ IsSomeAnd end (λ e. e ≤ limit) }
{
    match end {
        Some(end) if end <= limit => Ok(()),
        _ => Err(io::Error::from_raw_os_error(TOO_LARGE)),
    }
}
