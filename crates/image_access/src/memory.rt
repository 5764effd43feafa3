ghost use Rattle.std.specs.Prelude.{◌≡◌, ◌+◌, ◌<◌, ◌≤◌, List, ℕ, length, max, refl, IsOk, OnOk, OnErr};
ghost use Rattle.image_access.specs.Contents.{bytes_at, resized, overwritten, zeroed};

use crate::{Storage, StorageError, StoragePreallocate};
use std::alloc::{AllocError, Global};
use std::marker::Model;

/// A storage in memory. It never fails. A write, zeroing or resize that makes it larger may run out of memory.
#[derive(Drop)]
pub struct MemStorage {
    bytes: Vec<u8>,
}

impl Model for MemStorage {
    ghost Value = { List ℕ };

    ghost view = { λ m. m.bytes.items };
}

impl MemStorage {
    /// A storage with these bytes.
    pub fn new(bytes: Vec<u8>) -> Self
        ensures { result ≡ bytes.items }
    {
        MemStorage { bytes }
    }

    /// All bytes of the storage.
    pub fn as_slice(&self) -> &[u8]
        ensures { result.now ≡ self.now }
    {
        &self.bytes
    }
}

pub(crate) fn copy_from(bytes: &[u8], at: u64, buf: &mut [u8])
    ensures { buf.new ≡ bytes_at bytes.now at (length buf.old) }
{
    let at = at as usize;
    if at >= bytes.len() {
        buf.fill(0);
        return;
    }
    let n = buf.len().min(bytes.len() - at);
    let rest = buf.len() - n;
    put(buf, 0, &bytes[at..at + n]);
    put_zeroes(buf, n, rest);
}

// Overwrites bytes of a slice.
fn put(within: &mut [u8], at: usize, bytes: &[u8])
    requires { at + length bytes.now ≤ length within.old }
    ensures { within.new ≡ overwritten within.old at bytes.now }
{
    let end = at + bytes.len();
    within[at..end].copy_from_slice(bytes);
}

fn put_zeroes(within: &mut [u8], at: usize, count: usize)
    requires { at + count ≤ length within.old }
    ensures { within.new ≡ zeroed within.old at count }
{
    let end = at + count;
    within[at..end].fill(0);
}

// Grows the contents to hold `count` bytes from `at` on.
fn grow(bytes: &mut Vec<u8>, at: usize, count: usize) -> Result<(), AllocError>
    ensures ok { OnOk result (bytes.new.items ≡ resized bytes.old.items (max (length bytes.old.items) (at + count))) }
    ensures err { OnErr result (bytes.new.items ≡ bytes.old.items) }
    ensures grows { OnErr result (length bytes.old.items < at + count) }
{
    let Some(end) = at.checked_add(count) else {
        return Err(AllocError);
    };
    let end = end.max(bytes.len());
    bytes.resize(end, 0)
}

#[tactic(auto, using(crate::proofs::Bytes::lengths))]
pub(crate) fn overwrite(bytes: &mut Vec<u8>, at: u64, new_bytes: &[u8]) -> Result<(), AllocError>
    ensures ok { OnOk result (bytes.new.items ≡ overwritten bytes.old.items at new_bytes.now) }
    ensures err { OnErr result (bytes.new.items ≡ bytes.old.items) }
    ensures grows { OnErr result (length bytes.old.items < length (overwritten bytes.old.items at new_bytes.now)) }
{
    if new_bytes.is_empty() {
        return Ok(());
    }
    let at = at as usize;
    grow(bytes, at, new_bytes.len())?;
    put(bytes, at, new_bytes);
    Ok(())
}

#[tactic(auto, using(crate::proofs::Bytes::lengths))]
pub(crate) fn overwrite_zeroes(bytes: &mut Vec<u8>, at: u64, count: u64) -> Result<(), AllocError>
    ensures ok { OnOk result (bytes.new.items ≡ zeroed bytes.old.items at count) }
    ensures err { OnErr result (bytes.new.items ≡ bytes.old.items) }
    ensures grows { OnErr result (length bytes.old.items < length (zeroed bytes.old.items at count)) }
{
    if count == 0 {
        return Ok(());
    }
    let at = at as usize;
    let count = count as usize;
    grow(bytes, at, count)?;
    put_zeroes(bytes, at, count);
    Ok(())
}

#[tactic(auto, using(crate::proofs::Bytes::lengths))]
pub(crate) fn set_size(bytes: &mut Vec<u8>, size: u64) -> Result<(), AllocError>
    ensures ok { OnOk result (bytes.new.items ≡ resized bytes.old.items size) }
    ensures err { OnErr result (bytes.new.items ≡ bytes.old.items) }
    ensures grows { OnErr result (length bytes.old.items < length (resized bytes.old.items size)) }
{
    bytes.resize(size as usize, 0)
}

impl Storage for MemStorage {
    ghost use Rattle.image_access.specs.MemStorage.{view_of_memory, Grows};

    ghost view = { view_of_memory };

    ghost counts_now = { λ m t h le i. m };

    ghost only_now = { λ m c had. had };

    ghost passes = { λ call old new result. new ≡ old };

    fn name(&self) -> &str {
        "mem"
    }

    fn size(&mut self) -> Result<u64, StorageError>
        ensures size { result ≡ Ok (length self.old) }
        ensures same { self.new ≡ self.old }
    {
        Ok(self.bytes.len() as u64)
    }

    fn read(&mut self, at: u64, buf: &mut [u8]) -> Result<(), StorageError>
        ensures read { IsOk result × (buf.new ≡ bytes_at self.old at (length buf.old)) }
        ensures same { self.new ≡ self.old }
    {
        copy_from(&self.bytes, at, buf);
        Ok(())
    }

    fn write(&mut self, at: u64, bytes: &[u8]) -> Result<(), StorageError>
        ensures written { Grows self.old self.new result (overwritten self.old at bytes.now) }
    {
        overwrite(&mut self.bytes, at, bytes)?;
        Ok(())
    }

    fn write_zeroes(&mut self, at: u64, length: u64) -> Result<(), StorageError>
        ensures zeroed { Grows self.old self.new result (zeroed self.old at length) }
    {
        overwrite_zeroes(&mut self.bytes, at, length)?;
        Ok(())
    }

    fn write_allocated_zeroes(&mut self, at: u64, length: u64) -> Result<(), StorageError>
        ensures zeroed { Grows self.old self.new result (zeroed self.old at length) }
    {
        self.write_zeroes(at, length)
    }

    fn resize(&mut self, size: u64, _how: StoragePreallocate) -> Result<(), StorageError>
        ensures resized { Grows self.old self.new result (resized self.old size) }
    {
        set_size(&mut self.bytes, size)?;
        Ok(())
    }

    fn flush(&mut self) -> Result<(), StorageError>
        ensures ok { IsOk result }
        ensures same { self.new ≡ self.old }
    {
        Ok(())
    }

    fn sync(&mut self) -> Result<(), StorageError>
        ensures ok { IsOk result }
        ensures same { self.new ≡ self.old }
    {
        Ok(())
    }

    fn invalidate_cache(&mut self) -> Result<(), StorageError>
        ensures ok { IsOk result }
        ensures same { self.new ≡ self.old }
    {
        Ok(())
    }

    fn req_align(&self) -> usize {
        1
    }

    fn mem_align(&self) -> usize {
        1
    }
}
