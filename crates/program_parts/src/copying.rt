//! Copying raw disks.
ghost use Rattle.std.specs.Prelude.{◌≡◌, ◌↔◌, ◌+◌, ◌<◌, length, replicate, IfErr, IfOk, IsTrue, OnOk};
ghost use Rattle.image_access.specs.Contents.{bytes_at, overwritten};
ghost use Rattle.qcow2_alloc.specs.ImageError.{IsFault};
ghost use Rattle.program_parts.specs.Copies.{CopiesFrom, IsCopiedUpTo, KeepsBoth};

use image_access::{Storage, StoragePreallocate};
use qcow2_image::ImageError;
use std::alloc::Global;

/// The number of bytes that are copied at a time.
const PIECE: usize = 65536;

/// Makes a raw disk equal to another one. It is emptied, and then each piece is written behind the last one; for pieces of
/// zeros no bytes are written. Returns the number of bytes. Refused 14
/// (memory) and 15 (storage) if the work meets them. The target may have any bytes then.
pub fn copy_raw_disk<R: Storage, S: Storage>(
    alloc: Global,
    raw: &mut R,
    copy: &mut S,
) -> Result<u64, ImageError>
    ensures step { KeepsBoth (R.view raw.old) (R.view raw.new) (S.view copy.old) (S.view copy.new) }
    ensures fails { IfErr result IsFault }
    ensures sound { (R.view raw.old).is_honest → (S.view copy.old).is_honest
        → IfOk result (CopiesFrom (R.view raw.old).contents (S.view copy.new).contents) }
{
    copy_by(alloc, raw, copy, PIECE)
}

// Copies this many bytes at a time.
#[tactic(auto, using(crate::proofs::Copied::keeps_raw, crate::proofs::Copied::keeps_resized, crate::proofs::Copied::keeps_then))]
fn copy_by<R: Storage, S: Storage>(
    alloc: Global,
    raw: &mut R,
    copy: &mut S,
    piece: usize,
) -> Result<u64, ImageError>
    requires { 0 < piece }
    ensures step { KeepsBoth (R.view raw.old) (R.view raw.new) (S.view copy.old) (S.view copy.new) }
    ensures fails { IfErr result IsFault }
    ensures sound { (R.view raw.old).is_honest → (S.view copy.old).is_honest
        → IfOk result (CopiesFrom (R.view raw.old).contents (S.view copy.new).contents) }
{
    let zeros = vec![in alloc; 0; piece]?;
    let mut bytes = vec![in alloc; 0; piece]?;
    let size = raw.size()?;
    copy.resize(0, StoragePreallocate::None)?;
    copy_all(raw, copy, size, &mut bytes, &zeros)?;
    copy.flush()?;
    Ok(size)
}

// Copies all pieces to an empty raw disk. The buffers have one piece each.
fn copy_all<R: Storage, S: Storage>(
    raw: &mut R,
    copy: &mut S,
    size: u64,
    bytes: &mut [u8],
    zeros: &[u8],
) -> Result<(), ImageError>
    requires some { 0 < length bytes.old }
    requires zeros { zeros.now ≡ replicate (length bytes.old) 0 }
    ensures step { KeepsBoth (R.view raw.old) (R.view raw.new) (S.view copy.old) (S.view copy.new) }
    ensures fails { IfErr result IsFault }
    ensures sound { (R.view raw.old).is_honest → (S.view copy.old).is_honest
        → length (S.view copy.old).contents ≡ 0
        → OnOk result (IsCopiedUpTo size (R.view raw.old).contents (S.view copy.new).contents) }
{
    let mut at = 0;
    'pieces: while at < size {
        let count = bytes.len().min((size - at) as usize);
        copy_piece(raw, copy, at, &mut bytes[..count], &zeros[..count])?;
        at += count as u64;
    }
    Ok(())
}

// Copies one piece. Zeros take no space if the storage supports that.
fn copy_piece<R: Storage, S: Storage>(
    raw: &mut R,
    copy: &mut S,
    at: u64,
    bytes: &mut [u8],
    zeros: &[u8],
) -> Result<(), ImageError>
    requires zeros { zeros.now ≡ replicate (length bytes.old) 0 }
    ensures step { KeepsBoth (R.view raw.old) (R.view raw.new) (S.view copy.old) (S.view copy.new) }
    ensures fails { IfErr result IsFault }
    ensures sound { (R.view raw.old).is_honest → (S.view copy.old).is_honest
        → OnOk result ((S.view copy.new).contents
        ≡ overwritten (S.view copy.old).contents at (bytes_at (R.view raw.old).contents at (length bytes.old))) }
{
    raw.read(at, bytes)?;
    if is_same(bytes, zeros) {
        copy.write_zeroes(at, bytes.len() as u64)?;
    } else {
        copy.write(at, bytes)?;
    }
    Ok(())
}

fn is_same(left: &[u8], right: &[u8]) -> bool
    ensures { IsTrue result ↔ (left.now ≡ right.now) }
{
    left == right
}
