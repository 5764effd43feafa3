use crate::limits::require_within;
use std::fs::File;
use std::io;
use std::io::{Seek, SeekFrom};
use std::os::unix::fs::FileExt;

/// Zeros that are written at a time.
static ZEROS: [u8; 65536] = [0; 65536];

// The size in bytes. That of a block device is where its end is.
pub(crate) fn size_of(mut file: &File) -> io::Result<u64> {
    file.seek(SeekFrom::End(0))
}

// Writes zeros from one offset to another.
pub(crate) fn write_zeros(file: &File, from: u64, to: u64) -> io::Result<()> {
    let mut place = from;
    while place < to {
        let count = (to - place).min(65536);
        file.write_all_at(&ZEROS[..count as usize], place)?;
        place += count;
    }
    Ok(())
}

// Writes zeros to a file. If they end past its end, the file is extended, which adds zeros. A block device can't grow.
pub(crate) fn write_or_grow(file: &File, from: u64, to: u64) -> io::Result<()> {
    let size = size_of(file)?;
    write_zeros(file, from, to.min(size))?;
    if from < to && size < to {
        file.set_len(to)?;
    }
    Ok(())
}

// Cuts a file to a size, or extends it up to a limit. A file that already has the size is not touched, since closing a file that was cut to no
// bytes writes it to the device.
pub(crate) fn set_size(file: &File, size: u64, limit: u64) -> io::Result<()> {
    let before = size_of(file)?;
    if before == size {
        return Ok(());
    }
    if before < size {
        require_within(limit, Some(size))?;
    }
    file.set_len(size)
}

// Resizes a block device: its end stays, and bytes past the given size become zeros.
pub(crate) fn fill_from(file: &File, size: u64) -> io::Result<()> {
    let end = size_of(file)?;
    if size > end {
        return Err(io::Error::new(io::ErrorKind::InvalidInput, "a block device can't grow"));
    }
    write_zeros(file, size, end)
}

pub(crate) fn end_of(at: u64, length: u64) -> io::Result<u64> {
    at.checked_add(length)
        .ok_or(io::Error::from(io::ErrorKind::InvalidInput))
}
