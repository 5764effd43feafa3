ghost use Rattle.std.specs.Prelude.{◌≡◌, None};

use crate::limits::require_within;
use crate::zeros::{end_of, fill_from, set_size, size_of, write_or_grow, write_zeros};
use image_access::{Storage, StorageError, StoragePreallocate};
use std::fs::File;
use std::io;
use std::marker::Model;
use std::os::unix::fs::FileExt;

/// A storage over an open file or block device. Nothing is known of its bytes in proofs. Each call that fails is counted, and the
/// system's error is kept.
#[derive(Drop)]
pub struct FileStorage {
    file: File,
    is_block_device: bool,
    limit: u64,
    is_new: bool,
    faults: u64,
    last_error: Option<io::Error>,
    ghost kept: { last_error ≡ None → faults ≡ 0 },
}

impl Model for FileStorage {
    ghost use Rattle.file_storage.specs.FileStorage.{OpenFile};

    ghost Value = { OpenFile };

    ghost view = { λ s. record { is_block_device = s.is_block_device; faults = s.faults; last_error = s.last_error; kept = s.kept } };
}

impl FileStorage {
    ghost use Rattle.std.specs.Prelude.{◌≡◌, None};
    ghost use Rattle.file_storage.specs.FileStorage.{CountsFailures, Tells};

    // The limit is the greatest size that the file may get.
    pub(crate) fn new(file: File, is_block_device: bool, limit: u64, is_new: bool) -> Self
        ensures device { result.is_block_device ≡ is_block_device }
        ensures faults { result.faults ≡ 0 }
        ensures no_error { result.last_error ≡ None }
    {
        FileStorage {
            file,
            is_block_device,
            limit,
            is_new,
            faults: 0,
            last_error: None,
        }
    }

    /// The error of the last call that failed; None if none has failed. Successful calls leave it the same.
    pub fn last_error(&self) -> Option<io::Error>
        ensures last { result ≡ self.now.last_error }
        ensures each { result ≡ None → self.now.faults ≡ 0 }
    {
        self.last_error
    }

    /// Whether there was no file before this one was opened.
    pub fn is_new(&self) -> bool {
        self.is_new
    }

    /// The greatest possible size, in bytes: the end of a block device, or the system's file size limit for this program.
    /// Free space on the device is not considered.
    pub fn greatest_size(&mut self) -> Result<u64, StorageError>
        ensures counts { CountsFailures self.old self.new result }
    {
        if !self.is_block_device {
            return Ok(self.limit);
        }
        let end = size_of(&self.file);
        self.told(end)
    }

    // Sets the size of a file, up to the limit. A block device keeps its end.
    fn give_size(&self, size: u64) -> io::Result<()> {
        if self.is_block_device {
            fill_from(&self.file, size)
        } else {
            set_size(&self.file, size, self.limit)
        }
    }

    // Refuses a change that ends past the limit.
    fn require_room(&mut self, end: Option<u64>) -> Result<(), StorageError>
        ensures counts { CountsFailures self.old self.new result }
    {
        let answer = require_within(self.limit, end);
        self.told(answer)
    }

    // The result of a system call. An error of the system is a fault: it is counted and kept.
    fn told<T>(&mut self, answer: io::Result<T>) -> Result<T, StorageError>
        ensures tells { Tells answer result self.new.last_error }
        ensures counts { CountsFailures self.old self.new result }
    {
        match answer {
            Ok(value) => Ok(value),
            Err(e) => {
                self.last_error = Some(e);
                self.faults = self.faults.saturating_add(1);
                Err(StorageError::Fault)
            }
        }
    }
}

// Reads from a file. Past its end there are zeros, even at offsets that no file can reach.
fn read_all(file: &File, at: u64, buf: &mut [u8]) -> io::Result<()> {
    let reachable = (i64::MAX as u64).saturating_sub(at);
    let within = usize::try_from(reachable)
        .unwrap_or(usize::MAX)
        .min(buf.len());
    let (within, beyond) = buf.split_at_mut(within);
    beyond.fill(0);
    read_within(file, at, within)
}

fn read_within(file: &File, at: u64, buf: &mut [u8]) -> io::Result<()> {
    let mut done = 0;
    for _ in 0..u64::MAX {
        if done >= buf.len() {
            return Ok(());
        }
        match file.read_at(&mut buf[done..], at.wrapping_add(done as u64)) {
            Ok(0) => {
                buf[done..].fill(0);
                return Ok(());
            }
            Ok(count) => done += count,
            Err(e) if e.kind() == io::ErrorKind::Interrupted => {}
            Err(e) => return Err(e),
        }
    }
    Err(io::Error::from(io::ErrorKind::Other))
}

impl Storage for FileStorage {
    ghost use Rattle.std.specs.Prelude.{◌≡◌, IsOk};
    ghost use Rattle.file_storage.specs.FileStorage.{view_of_file, CountsFailures};

    ghost view = { λ s. view_of_file s };

    ghost counts_now = { λ s t honest le. absurd honest };

    ghost only_now = { λ s c had. had };

    ghost passes = { λ call old new result. CountsFailures old new result };

    fn name(&self) -> &str {
        "file"
    }

    fn size(&mut self) -> Result<u64, StorageError>
        ensures counts { CountsFailures self.old self.new result }
    {
        let answer = size_of(&self.file);
        self.told(answer)
    }

    fn read(&mut self, at: u64, buf: &mut [u8]) -> Result<(), StorageError>
        ensures counts { CountsFailures self.old self.new result }
    {
        let answer = read_all(&self.file, at, buf);
        self.told(answer)
    }

    fn write(&mut self, at: u64, bytes: &[u8]) -> Result<(), StorageError>
        ensures counts { CountsFailures self.old self.new result }
    {
        self.require_room(at.checked_add(bytes.len() as u64))?;
        let answer = self.file.write_all_at(bytes, at);
        self.told(answer)
    }

    fn write_zeroes(&mut self, at: u64, length: u64) -> Result<(), StorageError>
        ensures counts { CountsFailures self.old self.new result }
    {
        let end = self.told(end_of(at, length))?;
        self.require_room(Some(end))?;
        let answer = write_or_grow(&self.file, at, end);
        self.told(answer)
    }

    fn write_allocated_zeroes(&mut self, at: u64, length: u64) -> Result<(), StorageError>
        ensures counts { CountsFailures self.old self.new result }
    {
        let end = self.told(end_of(at, length))?;
        self.require_room(Some(end))?;
        let answer = write_zeros(&self.file, at, end);
        self.told(answer)
    }

    fn resize(&mut self, size: u64, _how: StoragePreallocate) -> Result<(), StorageError>
        ensures counts { CountsFailures self.old self.new result }
    {
        let answer = self.give_size(size);
        self.told(answer)
    }

    fn flush(&mut self) -> Result<(), StorageError>
        ensures no_failure { IsOk result × (self.new ≡ self.old) }
    {
        // No bytes wait here to be written.
        Ok(())
    }

    fn sync(&mut self) -> Result<(), StorageError>
        ensures counts { CountsFailures self.old self.new result }
    {
        let answer = self.file.sync_all();
        self.told(answer)
    }

    fn invalidate_cache(&mut self) -> Result<(), StorageError>
        ensures no_failure { IsOk result × (self.new ≡ self.old) }
    {
        // Nothing is kept of earlier reads.
        Ok(())
    }

    fn req_align(&self) -> usize {
        1
    }

    fn mem_align(&self) -> usize {
        1
    }
}
