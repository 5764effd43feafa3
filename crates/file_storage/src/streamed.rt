ghost use Rattle.std.specs.Prelude.{◌≡◌, ◌+◌, ◌≤◌, ◌++◌, length, take, IsOk, IfOk, OnOk, OnErr, IsTrue, IsFalse};
ghost use Rattle.file_storage.specs.FileStorage.{CountsFailures};
ghost use Rattle.file_storage.specs.StreamedFile.{holding_nothing, StaysHeld, HoldsNoReads, ForgetsReads, LeavesNoneUnwritten, HoldsMore, WritesOrHolds};

use crate::FileStorage;
use crate::progress::Progress;
use image_access::{Storage, StorageError, StoragePreallocate};
use std::alloc::{AllocError, Global};
use std::io;
use std::io::Stdout;
use std::marker::Model;

/// The greatest number of bytes in memory.
const ROOM: usize = 262144;

/// Reads and writes of at least this length are not buffered.
const LONG: usize = 32768;

/// After this many sequential reads, further ones are expected.
const IN_A_ROW: u32 = 16;

/// A storage over a file that is read or written from front to back. Sequential reads are answered from bytes that were read
/// ahead. Adjacent writes are collected in memory, and written as one: before any other
/// write, before each read, and before `size`, `flush` and `sync` return. So at any time the file has the first writes, in order. Bytes that can't
/// be written stay in memory, and each of these calls is a fault until they are written.
#[derive(Drop)]
pub struct StreamedFile {
    file: FileStorage,
    room: Vec<u8>,
    start: u64,
    held: usize,
    is_unwritten: bool,
    next: u64,
    in_a_row: u32,
    progress: Option<Progress>,
    ghost fits: { held ≤ length room.items },
}

impl Model for StreamedFile {
    ghost use Rattle.std.specs.Prelude.{take};
    ghost use Rattle.file_storage.specs.StreamedFile.{Streamed};

    ghost Value = { Streamed };

    ghost view = { λ s. record { file = s.file; start = s.start; held = take s.held s.room.items; is_unwritten = s.is_unwritten } };
}

impl StreamedFile {
    /// Takes an open file. Refused if memory runs out.
    pub fn new(alloc: Global, file: FileStorage) -> Result<StreamedFile, AllocError>
        ensures { IfOk result (λ s. s ≡ holding_nothing file) }
    {
        Ok(StreamedFile {
            file,
            room: vec![in alloc; 0; ROOM]?,
            start: 0,
            held: 0,
            is_unwritten: false,
            next: 0,
            in_a_row: 0,
            progress: None,
        })
    }

    /// The error of the last call that failed; None if none has failed.
    pub fn last_error(&self) -> Option<io::Error>
        ensures last { result ≡ self.now.file.last_error }
    {
        self.file.last_error()
    }

    /// From now on, prints on standard output how much was read or written, in percent of the size that `size` or `resize` last returned or set, at
    /// each further percent. Errors of the output are ignored.
    pub fn shows_progress(&mut self, output: Stdout)
        ensures same { self.new ≡ self.old }
    {
        self.progress = Some(Progress::new(output));
    }

    // Sets the size of everything that will be read or written.
    fn set_total(&mut self, size: u64)
        ensures same { self.new ≡ self.old }
    {
        if let Some(progress) = &mut self.progress {
            progress.set_total(size);
        }
    }

    // Records that everything up to the end of these bytes was read or written.
    fn reach(&mut self, at: u64, count: u64)
        ensures same { self.new ≡ self.old }
    {
        if let Some(progress) = &mut self.progress {
            progress.reach(at.saturating_add(count));
        }
    }

    // Reads bytes, from memory if they are there.
    fn read_piece(&mut self, at: u64, buf: &mut [u8]) -> Result<(), StorageError>
        ensures counts { CountsFailures self.old.file self.new.file result }
        ensures written { LeavesNoneUnwritten self.old self.new result }
    {
        self.write_out()?;
        let is_expected = self.is_expected(at, buf.len());
        if self.reads_held(at, buf) {
            return Ok(());
        }
        if !is_expected || buf.len() >= LONG {
            return self.file.read(at, buf);
        }
        self.read_ahead(at, buf)
    }

    // Writes bytes, or collects them in memory.
    fn write_piece(&mut self, at: u64, bytes: &[u8]) -> Result<(), StorageError>
        ensures counts { CountsFailures self.old.file self.new.file result }
        ensures written { WritesOrHolds self.old self.new at bytes.now result }
        ensures long { LONG ≤ length bytes.now → OnOk result (IsFalse self.new.is_unwritten) }
        ensures forgets { HoldsNoReads self.new }
    {
        self.forget();
        if self.holds(at, bytes) {
            return Ok(());
        }
        // Bytes that don't continue the waiting ones are written after them.
        self.write_out()?;
        if self.holds(at, bytes) {
            return Ok(());
        }
        self.file.write(at, bytes)
    }

    // Writes the bytes in memory.
    fn write_out(&mut self) -> Result<(), StorageError>
        ensures counts { CountsFailures self.old.file self.new.file result }
        ensures written { LeavesNoneUnwritten self.old self.new result }
        ensures stays { OnErr result (StaysHeld self.old self.new) }
        ensures read { IsFalse self.old.is_unwritten → self.new ≡ self.old }
        ensures forgets { HoldsNoReads self.old → HoldsNoReads self.new }
    {
        if !self.is_unwritten {
            return Ok(());
        }
        self.file.write(self.start, &self.room[..self.held])?;
        self.held = 0;
        self.is_unwritten = false;
        Ok(())
    }

    // Drops bytes that were read ahead. Bytes that wait to be written stay.
    fn forget(&mut self)
        ensures forgets { ForgetsReads self.old self.new }
    {
        self.held = if self.is_unwritten { self.held } else { 0 };
    }

    // Collects bytes in memory, if they continue those that are there and there is room. Returns whether it did.
    fn holds(&mut self, at: u64, bytes: &[u8]) -> bool
        ensures holds { IsTrue result → HoldsMore self.old self.new at bytes.now }
        ensures stays { IsFalse result → self.new ≡ self.old }
        ensures long { LONG ≤ length bytes.now → IsFalse result × (self.new ≡ self.old) }
    {
        if bytes.len() >= LONG {
            return false;
        }
        let start = if self.held == 0 { at } else { self.start };
        if start.checked_add(self.held as u64) != Some(at) {
            return false;
        }
        if !put(&mut self.room, self.held, bytes) {
            return false;
        }
        self.start = start;
        self.held += bytes.len();
        self.is_unwritten = true;
        true
    }

    // Fills the buffer with bytes that were read ahead, if they are there. Returns whether it did.
    fn reads_held(&self, at: u64, buf: &mut [u8]) -> bool {
        let Some(from) = at.checked_sub(self.start) else {
            return false;
        };
        let Ok(from) = usize::try_from(from) else {
            return false;
        };
        let Some((_, rest)) = self.room[..self.held].split_at_checked(from) else {
            return false;
        };
        let Some((bytes, _)) = rest.split_at_checked(buf.len()) else {
            return false;
        };
        buf.copy_from_slice(bytes);
        true
    }

    // Fills the buffer with bytes that are read ahead now.
    fn read_ahead(&mut self, at: u64, buf: &mut [u8]) -> Result<(), StorageError>
        ensures counts { CountsFailures self.old.file self.new.file result }
        ensures mark { self.new.is_unwritten ≡ self.old.is_unwritten }
    {
        self.held = 0;
        self.file.read(at, &mut self.room)?;
        self.start = at;
        self.held = self.room.len();
        if self.reads_held(at, buf) {
            return Ok(());
        }
        self.file.read(at, buf)
    }

    // Whether this read continues enough other reads.
    fn is_expected(&mut self, at: u64, count: usize) -> bool
        ensures same { self.new ≡ self.old }
    {
        self.in_a_row = if self.next == at {
            self.in_a_row.saturating_add(1)
        } else {
            0
        };
        self.next = at.saturating_add(count as u64);
        self.in_a_row >= IN_A_ROW
    }
}

// Puts bytes at a place, if there is room for all of them. Returns whether there is.
fn put(room: &mut [u8], place: usize, bytes: &[u8]) -> bool
    ensures long { length room.new ≡ length room.old }
    ensures stays { IsFalse result → room.new ≡ room.old }
    ensures within { IsTrue result → place + length bytes.now ≤ length room.old }
    ensures put { IsTrue result → take (place + length bytes.now) room.new ≡ take place room.old ++ bytes.now }
{
    if place > room.len() || bytes.len() > room.len() - place {
        return false;
    }
    room[place..place + bytes.len()].copy_from_slice(bytes);
    true
}

impl Storage for StreamedFile {
    ghost use Rattle.file_storage.specs.FileStorage.{view_of_file};

    ghost view = { λ s. view_of_file s.file };

    ghost counts_now = { λ s t honest le. absurd honest };

    ghost only_now = { λ s c had. had };

    ghost passes = { λ call old new result. CountsFailures old.file new.file result };

    fn name(&self) -> &str {
        "file"
    }

    fn size(&mut self) -> Result<u64, StorageError>
        ensures counts { CountsFailures self.old.file self.new.file result }
        ensures written { LeavesNoneUnwritten self.old self.new result }
    {
        self.write_out()?;
        let size = self.file.size()?;
        self.set_total(size);
        Ok(size)
    }

    fn read(&mut self, at: u64, buf: &mut [u8]) -> Result<(), StorageError>
        ensures counts { CountsFailures self.old.file self.new.file result }
        ensures written { LeavesNoneUnwritten self.old self.new result }
    {
        self.read_piece(at, buf)?;
        self.reach(at, buf.len() as u64);
        Ok(())
    }

    fn write(&mut self, at: u64, bytes: &[u8]) -> Result<(), StorageError>
        ensures counts { CountsFailures self.old.file self.new.file result }
        ensures written { WritesOrHolds self.old self.new at bytes.now result }
        ensures long { LONG ≤ length bytes.now → OnOk result (IsFalse self.new.is_unwritten) }
        ensures forgets { HoldsNoReads self.new }
    {
        self.write_piece(at, bytes)?;
        self.reach(at, bytes.len() as u64);
        Ok(())
    }

    fn write_zeroes(&mut self, at: u64, length: u64) -> Result<(), StorageError>
        ensures counts { CountsFailures self.old.file self.new.file result }
        ensures written { LeavesNoneUnwritten self.old self.new result }
        ensures forgets { HoldsNoReads self.new }
    {
        self.forget();
        self.write_out()?;
        self.file.write_zeroes(at, length)?;
        self.reach(at, length);
        Ok(())
    }

    fn write_allocated_zeroes(&mut self, at: u64, length: u64) -> Result<(), StorageError>
        ensures counts { CountsFailures self.old.file self.new.file result }
        ensures written { LeavesNoneUnwritten self.old self.new result }
        ensures forgets { HoldsNoReads self.new }
    {
        self.forget();
        self.write_out()?;
        self.file.write_allocated_zeroes(at, length)?;
        self.reach(at, length);
        Ok(())
    }

    fn resize(&mut self, size: u64, how: StoragePreallocate) -> Result<(), StorageError>
        ensures counts { CountsFailures self.old.file self.new.file result }
        ensures written { LeavesNoneUnwritten self.old self.new result }
        ensures forgets { HoldsNoReads self.new }
    {
        // The waiting bytes are written before the size changes.
        self.forget();
        self.write_out()?;
        self.file.resize(size, how)?;
        self.set_total(size);
        Ok(())
    }

    fn flush(&mut self) -> Result<(), StorageError>
        ensures counts { CountsFailures self.old.file self.new.file result }
        ensures written { LeavesNoneUnwritten self.old self.new result }
    {
        // When the file is flushed, it has everything that was written.
        self.write_out()?;
        self.file.flush()
    }

    fn sync(&mut self) -> Result<(), StorageError>
        ensures counts { CountsFailures self.old.file self.new.file result }
        ensures written { LeavesNoneUnwritten self.old self.new result }
    {
        // When the file is synced, it has everything that was written.
        self.write_out()?;
        self.file.sync()
    }

    fn invalidate_cache(&mut self) -> Result<(), StorageError>
        ensures no_failure { IsOk result × (self.new.file ≡ self.old.file) }
        ensures forgets { ForgetsReads self.old self.new }
    {
        // What was read ahead is read again.
        self.forget();
        self.file.invalidate_cache()
    }

    fn req_align(&self) -> usize {
        1
    }

    fn mem_align(&self) -> usize {
        1
    }
}
