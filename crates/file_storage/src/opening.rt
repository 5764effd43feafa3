use crate::FileStorage;
use crate::limits::greatest_size;
use crate::locks::{Way, require_unlocked};
use std::fs::{File, Metadata, OpenOptions, TryLockError};
use std::io;
use std::os::unix::fs::{FileTypeExt, MetadataExt};
use std::rt::Files;

/// Opens a file or block device for reading and writing. Refused with the system's error, and if QEMU, or another program through this crate, has
/// it open.
pub fn open<R: Files<File = File> + AllocGlobal>(rt: &R, path: &str) -> io::Result<FileStorage> {
    storage_of(rt, open_old(rt, path)?, false)
}

/// Like `open`, but creates an empty file if there is none.
pub fn create<R: Files<File = File> + AllocGlobal>(rt: &R, path: &str) -> io::Result<FileStorage> {
    let mut made = OpenOptions::new();
    made.read(true).write(true).create_new(true);
    match made.open(rt, path) {
        Ok(file) => storage_of(rt, claimed(rt, file)?, true),
        Err(e) if e.kind() == io::ErrorKind::AlreadyExists => {
            let mut old = OpenOptions::new();
            old.read(true).write(true).create(true);
            let file = old.open(rt, path)?;
            storage_of(rt, claimed(rt, file)?, false)
        }
        Err(e) => Err(e),
    }
}

/// Opens a file or block device for reading. Refused as by `open`, but other readers and QEMU may have it open. Every change
/// of at least one byte is a fault.
pub fn open_read_only<R: Files<File = File> + AllocGlobal>(
    rt: &R,
    path: &str,
) -> io::Result<FileStorage> {
    let file = OpenOptions::new().read(true).open(rt, path)?;
    let metadata = metadata_of(&file)?;
    locked(rt, &metadata, file.try_lock_shared())?;
    storage_of(rt, Opened { file, metadata }, false)
}

/// Whether two names are of the same file.
pub fn is_same_file<R: Files>(rt: &R, path: &str, other: &str) -> bool {
    match (rt.metadata(path), rt.metadata(other)) {
        (Ok(metadata), Ok(other)) => Identity::of(&metadata) == Identity::of(&other),
        _ => false,
    }
}

/// The identity of a file: its device, and its number there.
#[derive(Clone, Copy, PartialEq, Eq)]
pub(crate) struct Identity {
    device: u64,
    number: u64,
}

impl Identity {
    pub(crate) fn of(metadata: &Metadata) -> Self {
        Identity {
            device: metadata.dev(),
            number: metadata.ino(),
        }
    }
}

/// A file that was opened and locked, and what the system says of it.
#[derive(Drop)]
pub(crate) struct Opened {
    pub(crate) file: File,
    pub(crate) metadata: Metadata,
}

// Opens an existing file for reading and writing.
pub(crate) fn open_old<R: Files<File = File> + AllocGlobal>(
    rt: &R,
    path: &str,
) -> io::Result<Opened> {
    let file = OpenOptions::new().read(true).write(true).open(rt, path)?;
    claimed(rt, file)
}

// Locks a file that was opened for writing. Refused if another program has it open.
pub(crate) fn claimed<R: Files<File = File> + AllocGlobal>(
    rt: &R,
    file: File,
) -> io::Result<Opened> {
    let metadata = metadata_of(&file)?;
    locked(rt, &metadata, file.try_lock())?;
    require_unlocked(rt, &metadata, Way::Bytes)?;
    Ok(Opened { file, metadata })
}

// Locks a file, if the system has locks.
fn locked<R: Files<File = File> + AllocGlobal>(
    rt: &R,
    metadata: &Metadata,
    answer: Result<(), TryLockError>,
) -> io::Result<()> {
    match answer {
        Err(TryLockError::WouldBlock) => {
            require_unlocked(rt, metadata, Way::Whole)?;
            Err(io::Error::new(io::ErrorKind::WouldBlock, "another program has it open"))
        }
        Err(TryLockError::Error(e)) if e.kind() != io::ErrorKind::Unsupported => Err(e),
        _ => Ok(()),
    }
}

fn metadata_of(file: &File) -> io::Result<Metadata> {
    let metadata = file.metadata()?;
    if metadata.is_dir() {
        return Err(io::Error::from(io::ErrorKind::IsADirectory));
    }
    Ok(metadata)
}

// The storage over an open file. Only a regular file is bound by the file size limit.
pub(crate) fn storage_of<R: Files + AllocGlobal>(
    rt: &R,
    opened: Opened,
    is_new: bool,
) -> io::Result<FileStorage> {
    let Opened { file, metadata } = opened;
    let limit = if metadata.is_file() {
        greatest_size(rt)?
    } else {
        u64::MAX
    };
    let is_block_device = metadata.file_type().is_block_device();
    Ok(FileStorage::new(file, is_block_device, limit, is_new))
}
