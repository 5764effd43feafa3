//! Images of disks. What a disk knows to be zeros isn't read, so that thin disks take no time.
ghost use Rattle.std.specs.Prelude.{◌≡◌, ◌+◌, ◌<◌, ◌≤◌, ◌↔◌, length, replicate, IfErr, IfOk, IsTrue, OnOk};
ghost use Rattle.qcow2_disk.specs.Calls.{Shows};
ghost use Rattle.program_parts.specs.DiskImages.{FillsAt, FillsDisk, FillsUpTo, IsDiskMade, ReplacesByDisk, ShowsNothing};
ghost use Rattle.program_parts.specs.Disks.{IsKeptQuietly, IsOnlyRead, IsSeenAs};
ghost use Rattle.program_parts.specs.Places.{IsNameKept};

use crate::comparing::{Comparison, Unread, compare};
use crate::disks::{DiskReader, open_disk};
use crate::placing::{Place, Unmade, Unplaced};
use image_access::{Format, Storage, WrappedFormat};
use qcow2_image::{ImageError, NoBacking, Qcow2, Qcow2CreateBuilder};
use qcow2_session::write;
use std::alloc::Global;

/// How an image is laid out.
#[derive(Clone, Copy)]
pub struct Layout {
    /// The cluster size in bytes.
    pub cluster: u64,
    /// The refcount width in bits.
    pub width: u64,
}

/// Makes an image of a disk, compares the two if that is asked for, and gives the resulting file its name; until then the name belongs
/// to the old file. Returns the disk, which is only read, and its number of bytes. What the disk knows to be zeros isn't read.
/// Refused as `make_disk_image` is; then `Differs`, `Unread` as `compare` is, and `Unnamed`.
pub fn convert_disk<D: DiskReader, F: Storage, P: Place<F>>(
    alloc: Global,
    disk: D,
    file: F,
    place: &mut P,
    layout: Layout,
    verifies: bool,
) -> (D, Result<u64, Unplaced<F>>)
    ensures step { IsOnlyRead (D.seen disk) (D.seen result.0) }
    ensures fails { IfErr result.1 (λ e. IsNameKept e place.old place.new) }
    ensures sound { (F.view file).is_honest → (P.named place.old).is_honest
        → ReplacesByDisk (D.seen disk) layout (P.named place.old) (P.named place.new) result.1 }
{
    let mut disk = disk;
    let (file, made) = make_disk_image(alloc, &mut disk, file, layout);
    let size = match made {
        Ok(size) => size,
        Err(cause) => return (disk, Err(Unplaced::Unmade(file, Unmade::Refused(cause)))),
    };
    let (file, verified) = verify_image(alloc, &mut disk, file, verifies);
    if let Err(unmade) = verified {
        return (disk, Err(Unplaced::Unmade(file, unmade)));
    }
    match place.finish(file) {
        Ok(()) => (disk, Ok(size)),
        Err(cause) => (disk, Err(Unplaced::Unnamed(cause))),
    }
}

// Compares an image with its disk, if that is asked for, and returns its file.
fn verify_image<D: DiskReader, F: Storage>(
    alloc: Global,
    disk: &mut D,
    file: F,
    verifies: bool,
) -> (F, Result<(), Unmade>)
    ensures { IsOnlyRead (D.seen disk.old) (D.seen disk.new) × IsKeptQuietly (F.view file) (F.view result.0) }
{
    if !verifies {
        return (file, Ok(()));
    }
    let mut image = match open_disk(alloc, file, Format::Qcow2) {
        Ok(image) => image,
        Err((file, cause)) => {
            let unread = Unread {
                is_other: true,
                cause,
            };
            return (file, Err(Unmade::Unread(unread)));
        }
    };
    let found = compare(alloc, disk, &mut image);
    (image.into_storage(), verdict(found))
}

// What a comparison says of an image that was made.
fn verdict(found: Result<Comparison, Unread>) -> Result<(), Unmade> {
    match found {
        Ok(Comparison::Same) => Ok(()),
        Ok(_) => Err(Unmade::Differs),
        Err(unread) => Err(Unmade::Unread(unread)),
    }
}

/// Makes an image with the bytes of a disk, and returns its storage and the number of bytes. The disk is only read, and what it knows to be
/// zeros isn't.
/// Refused as the disk's reads are, and 5 (invalid option) for sizes or widths that images don't have. May be refused 4 (unaligned
/// table), 13 (limit), 14 (memory) or 15 (storage) during the work. If the storage returns other bytes than were written, other refusals are possible.
#[tactic(auto, using(crate::proofs::OnlyRead::reads_then))]
pub fn make_disk_image<D: DiskReader, S: Storage>(
    alloc: Global,
    disk: &mut D,
    storage: S,
    layout: Layout,
) -> (S, Result<u64, ImageError>)
    ensures step { IsOnlyRead (D.seen disk.old) (D.seen disk.new) }
    ensures image { (S.view storage).is_honest → IfOk result.1 (λ n. IsDiskMade (D.seen disk.old) layout n (S.view result.0)) }
{
    let size = match disk.byte_count() {
        Ok(size) => size,
        Err(e) => return (storage, Err(e)),
    };
    let (storage, created) = Qcow2CreateBuilder::new(storage)
        .size(size)
        .cluster_size(layout.cluster)
        .refcount_width(layout.width)
        .create(alloc);
    if let Err(e) = created {
        return (storage, Err(e));
    }
    match Qcow2::<S, NoBacking>::open_alone(alloc, storage, true, 1) {
        Ok(mut image) => {
            let filled = fill_new(alloc, disk, &mut image, size);
            (image.into_storage(), filled)
        }
        Err((storage, e)) => (storage, Err(e)),
    }
}

// Writes the bytes of a disk to an image whose disk is zeros and has the same size, and flushes it.
fn fill_new<D: DiskReader, S: Storage, F: WrappedFormat<S>>(
    alloc: Global,
    disk: &mut D,
    image: &mut Qcow2<S, F>,
    size: u64,
) -> Result<u64, ImageError>
    ensures step { IsOnlyRead (D.seen disk.old) (D.seen disk.new) }
    ensures count { IfOk result (λ n. n ≡ size) }
    ensures filled { ShowsNothing S.view F.backing size image.old
        → IfOk result (λ n. FillsDisk S.view F.backing image.old image.new n (D.seen disk.old)) }
{
    if image.size() != size {
        return Err(ImageError::InvalidOption);
    }
    let cluster = image.cluster_size() as usize;
    let zeros = vec![in alloc; 0; cluster]?;
    let mut bytes = vec![in alloc; 0; cluster]?;
    fill_all(disk, image, size, &mut bytes, &zeros)?;
    image.flush()?;
    Ok(size)
}

// Writes all clusters that aren't zeros. The buffers have one cluster each.
#[tactic(auto, using(crate::proofs::OnlyRead::reads_then, crate::proofs::DiskImages::seen_then))]
fn fill_all<D: DiskReader, S: Storage, F: WrappedFormat<S>>(
    disk: &mut D,
    image: &mut Qcow2<S, F>,
    size: u64,
    bytes: &mut [u8],
    zeros: &[u8],
) -> Result<(), ImageError>
    requires some { 0 < length bytes.old }
    requires zeros { zeros.now ≡ replicate (length bytes.old) 0 }
    ensures step { IsOnlyRead (D.seen disk.old) (D.seen disk.new) }
    ensures filled { ShowsNothing S.view F.backing size image.old
        → OnOk result (FillsUpTo S.view F.backing image.old image.new size (D.seen disk.old)) }
{
    let mut at = 0;
    while at < size {
        let count = fill_some(disk, image, at, size - at, bytes, zeros)?;
        at += count;
    }
    Ok(())
}

// Passes over the clusters that the disk knows to be zeros, up to a limit, or writes the next one unless it is zeros. Returns the number
// of bytes. The buffers have one cluster each.
#[tactic(auto, using(crate::proofs::OnlyRead::reads_then, crate::proofs::DiskImages::seen_then))]
fn fill_some<D: DiskReader, S: Storage, F: WrappedFormat<S>>(
    disk: &mut D,
    image: &mut Qcow2<S, F>,
    at: u64,
    max: u64,
    bytes: &mut [u8],
    zeros: &[u8],
) -> Result<u64, ImageError>
    requires some { (0 < length bytes.old) × (0 < max) }
    requires zeros { zeros.now ≡ replicate (length bytes.old) 0 }
    ensures step { IsOnlyRead (D.seen disk.old) (D.seen disk.new) }
    ensures some { IfOk result (λ n. 0 < n) }
    ensures within { IfOk result (λ n. n ≤ max) }
    ensures same { (D.seen disk.old).is_honest → OnOk result (IsSeenAs (D.seen disk.old).disk (D.seen disk.new)) }
    ensures filled { IfOk result (λ n. FillsAt S.view F.backing image.old image.new at n (D.seen disk.old)) }
{
    let passed = zero_clusters(disk, at, max, bytes.len() as u64)?;
    if passed > 0 {
        return Ok(passed);
    }
    let count = bytes.len().min(max as usize);
    fill_at(disk, image, at, &mut bytes[..count], &zeros[..count])?;
    Ok(count as u64)
}

// How many bytes from an offset on a disk knows to be zeros, in whole clusters, or up to a limit. The first byte is asked for alone,
// since a long range of data may take long to be looked up.
#[tactic(auto, using(crate::proofs::OnlyRead::reads_then, crate::proofs::DiskImages::seen_then))]
fn zero_clusters<D: DiskReader>(
    disk: &mut D,
    at: u64,
    max: u64,
    cluster: u64,
) -> Result<u64, ImageError>
    requires { (0 < cluster) × (0 < max) }
    ensures step { IsOnlyRead (D.seen disk.old) (D.seen disk.new) }
    ensures within { IfOk result (λ n. n ≤ max) }
    ensures zeros { (D.seen disk.old).is_honest → IfOk result (λ n. Shows (D.seen disk.old).disk at (replicate n 0)) }
    ensures same { (D.seen disk.old).is_honest → OnOk result (IsSeenAs (D.seen disk.old).disk (D.seen disk.new)) }
{
    let first = disk.known_zeros(at, 1)?;
    if first == 0 {
        return Ok(0);
    }
    let found = disk.known_zeros(at, max)?;
    if found < max {
        return Ok(found - found % cluster);
    }
    Ok(found)
}

// Writes a range, unless it is zeros.
fn fill_at<D: DiskReader, S: Storage, F: WrappedFormat<S>>(
    disk: &mut D,
    image: &mut Qcow2<S, F>,
    at: u64,
    bytes: &mut [u8],
    zeros: &[u8],
) -> Result<(), ImageError>
    requires { zeros.now ≡ replicate (length bytes.old) 0 }
    ensures step { IsOnlyRead (D.seen disk.old) (D.seen disk.new) }
    ensures same { (D.seen disk.old).is_honest → OnOk result (IsSeenAs (D.seen disk.old).disk (D.seen disk.new)) }
    ensures filled { OnOk result (FillsAt S.view F.backing image.old image.new at (length bytes.old) (D.seen disk.old)) }
{
    disk.read_bytes(at, bytes)?;
    if is_same(bytes, zeros) {
        return Ok(());
    }
    match write(image, at, bytes) {
        Ok(()) => Ok(()),
        Err((refusal, _done)) => Err(refusal),
    }
}

fn is_same(left: &[u8], right: &[u8]) -> bool
    ensures { IsTrue result ↔ (left.now ≡ right.now) }
{
    left == right
}
