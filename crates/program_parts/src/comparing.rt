//! Comparing two disks.
ghost use Rattle.std.specs.Prelude.{◌≡◌, ◌+◌, ◌^◌, ◌<◌, length, Ok, IfOk, MatchOption};
ghost use Rattle.program_parts.specs.Disks.{IsComparisonOf, IsComparisonIn, IsKeptQuietly, IsOnlyRead};
ghost use Rattle.program_parts.specs.Comparing.{IsComparedUpTo, IsFirstOther};

use crate::disks::{DiskReader, open_disk};
use image_access::{Format, Storage};
use qcow2_image::ImageError;
use std::alloc::{AllocError, Global};

/// The number of bytes that are compared at a time.
const PIECE: usize = 65536;

/// The result of a comparison of two disks.
#[derive(Clone, Copy, Debug, PartialEq, Eq)]
pub enum Comparison {
    /// The disks have the same size and the same bytes.
    Same,
    /// The disks have different sizes.
    OtherSize,
    /// The first byte that differs is at this offset.
    DiffersAt {
        /// The offset in bytes.
        at: u64,
    },
}

/// Why disks were not compared: one of them can't be read.
#[derive(Drop)]
pub struct Unread {
    /// Whether it is the second disk.
    pub is_other: bool,
    /// Why it can't be read.
    pub cause: ImageError,
}

impl From<AllocError> for Unread {
    fn from(_: AllocError) -> Unread {
        Unread {
            is_other: false,
            cause: ImageError::Memory,
        }
    }
}

/// Compares the disks on two storages, each in a format, and returns the storages, which are only read.
/// Refused if one can't be opened or read: 4 (unaligned table), 7 (compressed), 12 (dependency), 13
/// (limit), 14 (memory), 15 (storage), 19 (metadata).
pub fn compare_storages<S: Storage, T: Storage>(
    alloc: Global,
    one: (S, Format),
    other: (T, Format),
) -> (S, T, Result<Comparison, Unread>)
    ensures step { IsKeptQuietly (S.view one.0) (S.view result.0) × IsKeptQuietly (T.view other.0) (T.view result.1) }
    ensures compared { IfOk result.2 (IsComparisonIn one.1 (S.view one.0) other.1 (T.view other.0)) }
{
    let mut one = match open_disk(alloc, one.0, one.1) {
        Ok(one) => one,
        Err((one, cause)) => return (one, other.0, not_read(false, cause)),
    };
    let mut other = match open_disk(alloc, other.0, other.1) {
        Ok(other) => other,
        Err((other, cause)) => return (one.into_storage(), other, not_read(true, cause)),
    };
    let compared = compare(alloc, &mut one, &mut other);
    (one.into_storage(), other.into_storage(), compared)
}

fn not_read(is_other: bool, cause: ImageError) -> Result<Comparison, Unread>
    ensures { IfOk result (λ compared. ⊥) }
{
    Err(Unread { is_other, cause })
}

/// Compares two disks up to the end, or up to the first byte that differs. Refused if one can't be read: 4 (unaligned table),
/// 7 (compressed), 12 (dependency), 14 (memory), 15 (storage), 16 (failed).
#[tactic(auto, using(crate::proofs::OnlyRead::reads_more))]
pub fn compare<A: DiskReader, B: DiskReader>(
    alloc: Global,
    one: &mut A,
    other: &mut B,
) -> Result<Comparison, Unread>
    ensures step { IsOnlyRead (A.seen one.old) (A.seen one.new) × IsOnlyRead (B.seen other.old) (B.seen other.new) }
    ensures compared { (A.seen one.old).is_honest → (B.seen other.old).is_honest
        → IfOk result (IsComparisonOf (A.seen one.old).disk (B.seen other.old).disk) }
{
    let size = of_disk(false, one.byte_count())?;
    let other_size = of_disk(true, other.byte_count())?;
    if other_size != size {
        return Ok(Comparison::OtherSize);
    }
    let mut bytes = vec![in alloc; 0; PIECE]?;
    let mut others = vec![in alloc; 0; PIECE]?;
    compare_all(one, other, size, &mut bytes, &mut others)
}

// A result of one of the two disks.
fn of_disk<T>(is_other: bool, answer: Result<T, ImageError>) -> Result<T, Unread>
    ensures { IfOk result (λ value. answer ≡ Ok value) }
{
    match answer {
        Ok(value) => Ok(value),
        Err(cause) => Err(Unread { is_other, cause }),
    }
}

// Compares disks of the same size, with buffers of the same length.
#[tactic(auto, using(crate::proofs::OnlyRead::reads_more))]
fn compare_all<A: DiskReader, B: DiskReader>(
    one: &mut A,
    other: &mut B,
    size: u64,
    bytes: &mut [u8],
    others: &mut [u8],
) -> Result<Comparison, Unread>
    requires some { 0 < length bytes.old }
    requires both { length others.old ≡ length bytes.old }
    ensures step { IsOnlyRead (A.seen one.old) (A.seen one.new) × IsOnlyRead (B.seen other.old) (B.seen other.new) }
    ensures compared { (A.seen one.old).is_honest → (B.seen other.old).is_honest → size ≡ (A.seen one.old).disk.size
        → size ≡ (B.seen other.old).disk.size
        → IfOk result (IsComparisonOf (A.seen one.old).disk (B.seen other.old).disk) }
{
    let mut at = 0;
    while at < size {
        let count = bytes.len().min((size - at) as usize);
        match compare_at(one, other, at, &mut bytes[..count], &mut others[..count])? {
            Some(place) => return Ok(Comparison::DiffersAt { at: place }),
            None => at += count as u64,
        }
    }
    Ok(Comparison::Same)
}

// Compares a range of both disks, and returns the first offset in it that differs.
fn compare_at<A: DiskReader, B: DiskReader>(
    one: &mut A,
    other: &mut B,
    at: u64,
    bytes: &mut [u8],
    others: &mut [u8],
) -> Result<Option<u64>, Unread>
    requires both { length others.old ≡ length bytes.old }
    requires reach { at + length bytes.old < 2 ^ 64 }
    ensures step { IsOnlyRead (A.seen one.old) (A.seen one.new) × IsOnlyRead (B.seen other.old) (B.seen other.new) }
    ensures compared { IsComparedUpTo (A.seen one.old) (A.seen one.new) (B.seen other.old) (B.seen other.new) at
        (at + length bytes.old) result }
{
    of_disk(false, one.read_bytes(at, bytes))?;
    of_disk(true, other.read_bytes(at, others))?;
    match first_difference(bytes, others) {
        Some(place) => Ok(Some(at + place as u64)),
        None => Ok(None),
    }
}

// The first index at which two lists of the same length differ.
fn first_difference(bytes: &[u8], others: &[u8]) -> Option<usize>
    requires { length others.now ≡ length bytes.now }
    ensures { MatchOption result (bytes.now ≡ others.now) (IsFirstOther bytes.now others.now) }
{
    if bytes == others {
        return None;
    }
    for i in 0..bytes.len() {
        if bytes[i] != others[i] {
            return Some(i);
        }
    }
    None
}
