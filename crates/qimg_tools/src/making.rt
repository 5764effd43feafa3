//! The subcommand `create`.

use crate::converting::format_of;
use crate::creating::{create, create_over};
use crate::failures::Failure;
use crate::messages::{DONE, ended, explain, refuse, refuse_file, warn_of_sectors};
use crate::words::Settings;
use file_storage::FileStorage;
use image_access::{Format, Storage};
use program_parts::disk_size;
use qcow2_image::ImageError;
use std::io;
use std::path::PathBuf;

/// Creates an image in a file, as the words say, and returns the exit status. For an image over a backing file the size is optional.
pub fn create_file(rt: &HostRuntime, settings: &Settings<'_>, file: &str, size: Option<u64>) -> u8 {
    match (settings.below, size) {
        (Some(below), _) => create_overlay(rt, settings, file, below, size),
        (None, Some(size)) => {
            let storage = match file_storage::create(rt, file) {
                Ok(storage) => storage,
                Err(e) => return refuse_file(rt, file, &e),
            };
            let (storage, done) = create(rt.alloc(), storage, size, settings.layout);
            end_creating(rt, file, size, storage, done)
        }
        (None, None) => refuse(rt, file, "a size is missing"),
    }
}

// Creates an overlay. The backing file is opened to see that it exists, and how large its disk is.
fn create_overlay(
    rt: &HostRuntime,
    settings: &Settings<'_>,
    file: &str,
    below: &str,
    size: Option<u64>,
) -> u8 {
    let (found, format) = match look_below(rt, settings, file, below) {
        Ok(found) => found,
        Err(status) => return status,
    };
    let size = size.unwrap_or(found);
    let (Ok(name), Ok(format)) = (
        String::from_str(rt.alloc(), below),
        String::from_str(rt.alloc(), format),
    ) else {
        return refuse_file(rt, file, &io::Error::from(io::ErrorKind::OutOfMemory));
    };
    let storage = match file_storage::create(rt, file) {
        Ok(storage) => storage,
        Err(e) => return refuse_file(rt, file, &e),
    };
    let (storage, done) = create_over(rt.alloc(), storage, size, settings.layout, name, format);
    end_creating(rt, file, size, storage, done)
}

// Ends a creation: syncs the file, since the system reports some errors only then. If it failed, a new file is removed.
fn end_creating(
    rt: &HostRuntime,
    file: &str,
    size: u64,
    storage: FileStorage,
    done: Result<(), ImageError>,
) -> u8 {
    let mut storage = storage;
    let done = match done {
        Ok(()) => storage.sync().map_err(ImageError::from),
        Err(refusal) => Err(refusal),
    };
    if done.is_ok() {
        warn_of_sectors(rt, file, size);
    } else if storage.is_new() {
        let _ = std::fs::remove_file(rt, file);
    }
    let done = done.map(|_| DONE).map_err(Failure::Refused);
    ended(rt, file, storage.last_error(), &done)
}

// The size of a backing file's disk, and the word for its format. Its name is relative to the folder of the overlay. The status if it
// can't be read.
fn look_below(
    rt: &HostRuntime,
    settings: &Settings<'_>,
    file: &str,
    below: &str,
) -> Result<(u64, &'static str), u8> {
    let mut storage = match open_below(rt, file, below) {
        Ok(storage) => storage,
        Err(e) => return Err(refuse_file(rt, below, &e)),
    };
    let (size, word) = match format_of(&mut storage, settings.other) {
        Format::Raw => (storage.size().map_err(ImageError::from), "raw"),
        Format::Qcow2 => (disk_size(rt.alloc(), &mut storage), "qcow2"),
    };
    match size {
        Ok(size) => Ok((size, word)),
        Err(refusal) => {
            let failed: Result<u8, Failure> = Err(Failure::Refused(refusal));
            let status = ended(rt, below, storage.last_error(), &failed);
            explain(rt, below, &mut storage, &failed);
            Err(status)
        }
    }
}

fn open_below(rt: &HostRuntime, file: &str, below: &str) -> io::Result<FileStorage> {
    let path = PathBuf::from_str(rt.alloc(), file)?;
    let path = path.as_path().with_file_name(rt.alloc(), below)?;
    file_storage::open_read_only(rt, path.as_path().as_str())
}
