//! Messages on standard error, and exit statuses.

use crate::failures::{Failure, tell};
use crate::headers::explained;
use crate::words::BadWord;
use file_storage::FileStorage;
use qcow2_image::ImageError;
use std::io;
use std::io::Write;

/// The exit status if nothing was refused.
pub const DONE: u8 = 0;

/// The exit status of a refusal, or of output that failed.
pub const REFUSED: u8 = 1;

// The message for an image that needs another file.
const NEEDS_ANOTHER: &str =
    "it names a backing file or a data file, which isn't opened: qimg-tools convert --backing FILE reads a backing file, qemu-img convert both";

// The advice for an image with compressed data.
const COMPRESSED: &str =
    "some of its data are compressed: qemu-img convert -O qcow2 makes an image that isn't";

/// Reports why a file could not be opened, or the system's last error for it.
pub fn refuse_file(rt: &HostRuntime, file: &str, cause: &io::Error) -> u8 {
    let _ = writeln!(rt.stderr(), "qimg-tools: {file}: {cause}");
    REFUSED
}

/// Reports why nothing was done with a file.
pub fn refuse(rt: &HostRuntime, file: &str, reason: &str) -> u8 {
    let _ = writeln!(rt.stderr(), "qimg-tools: {file}: {reason}");
    REFUSED
}

/// Reports why a task failed, if it did, with the system's last errors for the files.
pub fn ended(
    rt: &HostRuntime,
    file: &str,
    cause: Option<io::Error>,
    done: &Result<u8, Failure>,
) -> u8 {
    match done {
        Ok(status) => *status,
        Err(failure) => {
            tell(&mut rt.stderr(), file, failure);
            tell_cause(rt, file, cause);
            if let Some(reason) = reason_of(failure) {
                refuse(rt, file, reason);
            }
            REFUSED
        }
    }
}

// Advice for an image that was refused for another reason than its header.
fn reason_of(failure: &Failure) -> Option<&'static str> {
    match failure {
        Failure::Refused(ImageError::Dependency) => Some(NEEDS_ANOTHER),
        Failure::Refused(ImageError::Compressed) => Some(COMPRESSED),
        _ => None,
    }
}

/// Reports a refusal of the driver, with the system's last errors for the files.
pub fn refused(rt: &HostRuntime, file: &str, cause: Option<io::Error>, refusal: ImageError) -> u8 {
    ended(rt, file, cause, &Err(Failure::Refused(refusal)))
}

fn tell_cause(rt: &HostRuntime, file: &str, cause: Option<io::Error>) {
    if let Some(cause) = cause {
        refuse_file(rt, file, &cause);
    }
}

/// Reports which word can't be read, and why.
pub fn misused(rt: &HostRuntime, bad: BadWord<'_>) -> u8 {
    let BadWord { word, reason } = bad;
    let _ = match word {
        "" => writeln!(rt.stderr(), "qimg-tools: {reason}"),
        _ => writeln!(rt.stderr(), "qimg-tools: {word}: {reason}"),
    };
    let _ = writeln!(rt.stderr(), "qimg-tools --help lists the options");
    REFUSED
}

/// Reports what a file is whose header was refused, if it was.
pub fn explain<T>(
    rt: &HostRuntime,
    file: &str,
    storage: &mut FileStorage,
    done: &Result<T, Failure>,
) {
    if let Err(Failure::Refused(ImageError::Metadata)) = done {
        if let Some(reason) = explained(storage) {
            refuse(rt, file, reason);
        }
    }
}

/// Warns that QEMU only sees whole sectors of a disk.
pub fn warn_of_sectors(rt: &HostRuntime, file: &str, size: u64) {
    let more = size % 512;
    if more != 0 {
        let _ = writeln!(
            rt.stderr(),
            "qimg-tools: {file}: the disk ends in a part of a sector: QEMU doesn't see its last {more} bytes"
        );
    }
}
