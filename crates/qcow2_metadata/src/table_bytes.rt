//! The bytes of tables, and their 8-byte entries.

ghost use Rattle.std.specs.Prelude.{◌≡◌, ◌+◌, ◌*◌, ◌≤◌, length, replicate, IfOk, IfErr};
ghost use Rattle.image_access.specs.Contents.{bytes_at, overwritten};
ghost use Rattle.image_access.specs.Moments.{ContentsStay, QuietCalls};
ghost use Rattle.qcow2_metadata.specs.MetadataError.{storage_result};
ghost use Rattle.qcow2_metadata.specs.TableBytes.{entry_at as entry_of, ChangesEntry, IsOfStorageOrMemory};

use crate::MetadataError;
use crate::big_endian::read_u64;
use image_access::Storage;
use std::alloc::{AllocError, Global};

pub(crate) fn zeros(alloc: Global, count: usize) -> Result<Vec<u8>, AllocError>
    ensures { IfOk result (λ bytes. bytes.items ≡ replicate count 0) }
{
    vec![in alloc; 0; count]
}

/// Reads bytes of a storage from an offset on.
pub(crate) fn load<S: Storage>(
    alloc: Global,
    storage: &mut S,
    at: u64,
    count: usize,
) -> Result<Vec<u8>, MetadataError>
    ensures bytes { (S.view storage.old).is_honest → IfOk result (λ bytes. bytes.items ≡ bytes_at (S.view storage.old).contents at count) }
    ensures length { IfOk result (λ bytes. length bytes.items ≡ count) }
    ensures causes { IfErr result IsOfStorageOrMemory }
    ensures same { ContentsStay (S.view storage.old) (S.view storage.new) }
    ensures calls { QuietCalls (S.view storage.old) (S.view storage.new) (storage_result result) }
{
    let mut bytes = zeros(alloc, count)?;
    storage.read(at, &mut bytes)?;
    Ok(bytes)
}

/// Overwrites bytes from `place` on.
pub(crate) fn put(within: &mut [u8], place: usize, bytes: &[u8])
    requires { place + length bytes.now ≤ length within.old }
    ensures { within.new ≡ overwritten within.old place bytes.now }
{
    let end = place + bytes.len();
    within[place..end].copy_from_slice(bytes);
}

/// Entry `index` of a table of 8-byte entries.
#[tactic(auto, unfolding(crate::specs::Entries::l2_entry))]
pub fn entry_at(table: &[u8], index: usize) -> u64
    requires { 8 * index + 8 ≤ length table.now }
    ensures { result ≡ entry_of table.now index }
{
    read_u64(table, 8 * index)
}

/// Sets entry `index` of a table.
pub(crate) fn set_entry(table: &mut [u8], index: usize, entry: u64)
    requires { 8 * index + 8 ≤ length table.old }
    ensures { ChangesEntry table.old table.new index entry }
{
    put(table, 8 * index, &entry.to_be_bytes());
}
