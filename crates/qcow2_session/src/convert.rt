//! Conversion of raw disks to images, and of images to raw disks.
ghost use Rattle.qcow2_session.specs.CallSteps.{ExportStep, ImportFails, ImportStep, ReadingParts};
ghost use Rattle.std.specs.Prelude.{◌≡◌, ◌↔◌, ◌+◌, ◌-◌, ◌<◌, ◌≤◌, List, [], Option, None, Err, length, replicate};
ghost use Rattle.std.specs.Prelude.{IfSome, IfErr, IfOk, OnOk, IsTrue};
ghost use Rattle.image_access.specs.Contents.{bytes_at};
ghost use Rattle.qcow2_disk.specs.Calls.{Shows};
ghost use Rattle.qcow2_alloc.specs.ImageFile.{known_in};
ghost use Rattle.qcow2_image.specs.Calls.{AnswersCall};
ghost use Rattle.qcow2_image.specs.Image.{HasNothingToFree, is_writable, size_of};
ghost use Rattle.qcow2_image.specs.ImageInvariant.{abstract_of, Mappings};
ghost use Rattle.qcow2_image.specs.declared.prepared.Prepared.{Prepared};
ghost use Rattle.qcow2_image.specs.MayFail.{MayFailReadingRange};
ghost use Rattle.qcow2_image.specs.Refusals.{refuses_to_read};
ghost use Rattle.qcow2_alloc.specs.declared.error.ImageError.TheVariants.{InvalidOption};
ghost use Rattle.qcow2_session.specs.Sessions.{IsOfReading, IsOfWriting, cluster_size_of};
ghost use Rattle.qcow2_session.specs.Conversions.{DiffersWhereKept, MayFailImporting, IsReasonNotToWrite};
ghost use Rattle.qcow2_session.specs.Conversions.{Imports, ImportsAll, ImportsAt, ImportsAny};
ghost use Rattle.qcow2_session.specs.Conversions.{ImportsAnyAt, ImportsAnyOf, Fills, Exports};

use crate::session::{read_into, write};
use image_access::{Storage, StoragePreallocate, WrappedFormat};
use qcow2_image::{ImageError, MappingKind, Qcow2};
use std::alloc::Global;

/// Makes the disk of an image equal to a raw disk of the same size, cluster by cluster, and flushes the image. Returns the number of bytes.
/// Only clusters that differ are written, and none that reads as zeros in both. After a refusal other than 14 and 15 the disk has the bytes of
/// the raw disk up to a cluster boundary, and its own from there on. If the raw disk returns other bytes than it has, the returned ones are copied.
/// Refused before any work 16 (failed), 12 (dependency), then 5 (invalid option) for unequal sizes. A cluster that differs may be
/// refused 1 (read-only) and 9 (table prepared), as a write is. May be refused 4 (unaligned table), 7 (compressed),
/// 8 (everything is in use), 13 (limit), 14 (memory) or 15 (storage) during the work.
pub fn to_qcow2<R: Storage, S: Storage, F: WrappedFormat<S>>(
    alloc: Global,
    raw: &mut R,
    image: &mut Qcow2<S, F>,
) -> Result<u64, ImageError>
    ensures step { ImportStep S.view F.backing image.old image.new (R.view raw.old) (R.view raw.new) result }
    ensures fails { ImportFails S.view F.backing image.old image.new R.view raw.old raw.new result }
    ensures sees { (R.view raw.old).is_honest → Imports S.view F.backing image.old image.new (R.view raw.old).contents result }
    ensures any { ImportsAny S.view F.backing image.old image.new result }
    ensures emptied { IsTrue (is_writable image.old) → IfOk result (λ n. HasNothingToFree image.new) }
{
    image.check_read(0, 0)?;
    let size = raw.size()?;
    if size != image.size() {
        return Err(ImageError::InvalidOption);
    }
    let cluster = image.cluster_size() as usize;
    let mut wanted = vec![in alloc; 0; cluster]?;
    let mut present = vec![in alloc; 0; cluster]?;
    import_all(raw, image, size, &mut wanted, &mut present)?;
    image.flush()?;
    Ok(size)
}

// Makes all clusters equal to the raw disk. The buffers have one cluster each.
fn import_all<R: Storage, S: Storage, F: WrappedFormat<S>>(
    raw: &mut R,
    image: &mut Qcow2<S, F>,
    size: u64,
    wanted: &mut [u8],
    present: &mut [u8],
) -> Result<(), ImageError>
    requires wanted { length wanted.old ≡ cluster_size_of image.old }
    requires present { length present.old ≡ cluster_size_of image.old }
    requires some { 0 < length wanted.old }
    ensures step { ImportStep S.view F.backing image.old image.new (R.view raw.old) (R.view raw.new) result }
    ensures cause { IfErr result IsOfWriting }
    ensures sees { (R.view raw.old).is_honest → size ≡ length (R.view raw.old).contents
        → ImportsAll S.view F.backing image.old image.new (R.view raw.old).contents result }
    ensures any { ImportsAnyOf S.view F.backing image.old image.new size result }
    ensures late { refuses_to_read image.old 0 0 ≡ None → size ≡ size_of image.old → (out : Mappings)
        → (abstract_of S.view F.backing image.old out).is_sound
        → IfErr result (IsReasonNotToWrite S.view F.backing image.old image.new 0 size out) }
    ensures may_fail { refuses_to_read image.old 0 0 ≡ None → size ≡ size_of image.old → (out : Mappings)
        → (abstract_of S.view F.backing image.old out).is_sound
        → IfErr result (MayFailImporting S.view 0 size image.new out) }
    ensures differs { (R.view raw.old).is_honest → size ≡ length (R.view raw.old).contents
        → IfErr result (DiffersWhereKept S.view F.backing image.old 0 (R.view raw.old).contents) }
{
    let mut at = 0;
    while at < size {
        let count = wanted.len().min((size - at) as usize);
        import_at(raw, image, at, &mut wanted[..count], &mut present[..count])?;
        at += count as u64;
    }
    Ok(())
}

// Makes a range within one cluster equal to the raw disk.
fn import_at<R: Storage, S: Storage, F: WrappedFormat<S>>(
    raw: &mut R,
    image: &mut Qcow2<S, F>,
    at: u64,
    wanted: &mut [u8],
    present: &mut [u8],
) -> Result<(), ImageError>
    requires { length present.old ≡ length wanted.old }
    ensures step { ImportStep S.view F.backing image.old image.new (R.view raw.old) (R.view raw.new) result }
    ensures cause { IfErr result IsOfWriting }
    ensures sees { (R.view raw.old).is_honest
        → ImportsAt S.view F.backing image.old image.new at
        (bytes_at (R.view raw.old).contents at (length wanted.old)) result }
    ensures any { ImportsAnyAt S.view F.backing image.old image.new at (length wanted.old) result }
    ensures late { refuses_to_read image.old at (length wanted.old) ≡ None
        → (out : Mappings)
        → (abstract_of S.view F.backing image.old out).is_sound
        → IfErr result (IsReasonNotToWrite S.view F.backing image.old image.new at (at + length wanted.old) out) }
    ensures may_fail { refuses_to_read image.old at (length wanted.old) ≡ None → (out : Mappings)
        → (abstract_of S.view F.backing image.old out).is_sound
        → IfErr result (MayFailImporting S.view at (at + length wanted.old) image.new out) }
    ensures differs { (R.view raw.old).is_honest
        → IfErr result (DiffersWhereKept S.view F.backing image.old at
        (bytes_at (R.view raw.old).contents at (length wanted.old))) }
{
    raw.read(at, wanted)?;
    read_into(image, at, present)?;
    if is_same(wanted, present) {
        return Ok(());
    }
    match write(image, at, wanted) {
        Ok(()) => Ok(()),
        Err((refusal, _done)) => Err(refusal),
    }
}

/// Makes a raw disk equal to the disk of an image, cluster by cluster. The raw disk is emptied, then resized to the disk's size, and each
/// cluster that isn't all zeros is written. Ranges that the tables map as zeros aren't read: each possible L2 table is looked up once.
/// Returns the number of bytes. The disk of the image stays the same, and an image that was opened for reading isn't written.
/// Refused before any work 16 (failed), 12 (dependency), then 14 (memory) if there is no memory for two clusters. May be refused
/// 4 (unaligned table), 7 (compressed), 8 (everything is in use), 14 or 15 (storage) during the work. The raw disk may have any bytes then.
pub fn to_raw<S: Storage, F: WrappedFormat<S>, R: Storage>(
    alloc: Global,
    image: &mut Qcow2<S, F>,
    raw: &mut R,
) -> Result<u64, ImageError>
    ensures step { ExportStep S.view F.backing image.old image.new (R.view raw.old) (R.view raw.new) result }
    ensures early { IfSome (refuses_to_read image.old 0 0) (λ e. (result ≡ Err e) × (image.new ≡ image.old) × (raw.new ≡ raw.old)) }
    ensures sees { (R.view raw.old).is_honest → IfOk result (λ n. Exports S.view F.backing image.old (R.view raw.new).contents n) }
    ensures cause { IfErr result IsOfReading }
    ensures may_fail { refuses_to_read image.old 0 0 ≡ None → (out : Mappings)
        → (abstract_of S.view F.backing image.old out).is_sound
        → IfErr result (MayFailReadingRange out 0 (size_of image.old) image.old.file.header.fields
        (known_in S.view image.old.file)) }
{
    image.check_read(0, 0)?;
    let size = image.size();
    let cluster = image.cluster_size() as usize;
    let zeros = vec![in alloc; 0; cluster]?;
    let mut bytes = vec![in alloc; 0; cluster]?;
    raw.resize(0, StoragePreallocate::None)?;
    raw.resize(size, StoragePreallocate::None)?;
    export_all(image, raw, size, &mut bytes, &zeros)?;
    Ok(size)
}

// Writes all clusters that aren't zeros. The buffers have one cluster each.
fn export_all<S: Storage, F: WrappedFormat<S>, R: Storage>(
    image: &mut Qcow2<S, F>,
    raw: &mut R,
    size: u64,
    bytes: &mut [u8],
    zeros: &[u8],
) -> Result<(), ImageError>
    requires some { 0 < length bytes.old }
    requires zeros { zeros.now ≡ replicate (length bytes.old) 0 }
    ensures step { ExportStep S.view F.backing image.old image.new (R.view raw.old) (R.view raw.new) result }
    ensures sees { (R.view raw.old).is_honest
        → OnOk result (Fills S.view F.backing image.old 0 size (R.view raw.old).contents (R.view raw.new).contents) }
    ensures cause { IfErr result IsOfReading }
    ensures may_fail { refuses_to_read image.old 0 0 ≡ None → size ≡ size_of image.old → (out : Mappings)
        → (abstract_of S.view F.backing image.old out).is_sound
        → IfErr result (MayFailReadingRange out 0 size image.old.file.header.fields (known_in S.view image.old.file)) }
{
    let mut at = 0;
    while at < size {
        let count = export_some(image, raw, at, size - at, bytes, zeros)?;
        at += count;
    }
    Ok(())
}

// Skips what the tables map as zeros, up to a limit, or writes the next cluster unless it is zeros. Returns the number
// of bytes. The buffers have one cluster each.
fn export_some<S: Storage, F: WrappedFormat<S>, R: Storage>(
    image: &mut Qcow2<S, F>,
    raw: &mut R,
    at: u64,
    max: u64,
    bytes: &mut [u8],
    zeros: &[u8],
) -> Result<u64, ImageError>
    requires some { (0 < length bytes.old) × (0 < max) }
    requires zeros { zeros.now ≡ replicate (length bytes.old) 0 }
    ensures step { ExportStep S.view F.backing image.old image.new (R.view raw.old) (R.view raw.new) result }
    ensures some { IfOk result (λ n. 0 < n) }
    ensures within { IfOk result (λ n. n ≤ max) }
    ensures sees { (R.view raw.old).is_honest
        → IfOk result (λ n. Fills S.view F.backing image.old at (at + n) (R.view raw.old).contents
        (R.view raw.new).contents) }
    ensures cause { IfErr result IsOfReading }
    ensures may_fail { refuses_to_read image.old at max ≡ None → (out : Mappings)
        → (abstract_of S.view F.backing image.old out).is_sound
        → IfErr result (MayFailReadingRange out at (at + max) image.old.file.header.fields (known_in S.view image.old.file)) }
{
    let passed = zero_run(image, at, max)?;
    if passed > 0 {
        return Ok(passed);
    }
    let count = bytes.len().min(max as usize);
    export_at(image, raw, at, &mut bytes[..count], &zeros[..count])?;
    Ok(count as u64)
}

// How many bytes from an offset on the tables map as zeros, up to a limit and within one L2 table. No data are read.
fn zero_run<S: Storage, F: WrappedFormat<S>>(
    image: &mut Qcow2<S, F>,
    at: u64,
    max: u64,
) -> Result<u64, ImageError>
    ensures step { ReadingParts S.view F.backing image.old image.new result }
    ensures within { IfOk result (λ n. n ≤ max) }
    ensures sees { AnswersCall S.view F.backing image.old image.new []
        (λ n old new. Shows old.disk at (replicate n 0) × (new ≡ old)) result }
    ensures cause { IfErr result IsOfReading }
    ensures may_fail { (out : Mappings) → (abstract_of S.view F.backing image.old out).is_sound
        → IfErr result (MayFailReadingRange out at (at + max) image.old.file.header.fields (known_in S.view image.old.file)) }
{
    let (mapping, found) = image.get_mapping(at, max)?;
    match mapping.kind {
        MappingKind::Zero { .. } => Ok(found),
        _ => Ok(0),
    }
}

// Writes a range, unless it is zeros.
fn export_at<S: Storage, F: WrappedFormat<S>, R: Storage>(
    image: &mut Qcow2<S, F>,
    raw: &mut R,
    at: u64,
    bytes: &mut [u8],
    zeros: &[u8],
) -> Result<(), ImageError>
    requires { zeros.now ≡ replicate (length bytes.old) 0 }
    ensures step { ExportStep S.view F.backing image.old image.new (R.view raw.old) (R.view raw.new) result }
    ensures sees { (R.view raw.old).is_honest
        → OnOk result (Fills S.view F.backing image.old at (at + length bytes.old) (R.view raw.old).contents
        (R.view raw.new).contents) }
    ensures cause { IfErr result IsOfReading }
    ensures may_fail { refuses_to_read image.old at (length bytes.old) ≡ None → (out : Mappings)
        → (abstract_of S.view F.backing image.old out).is_sound
        → IfErr result (MayFailReadingRange out at (at + length bytes.old) image.old.file.header.fields
        (known_in S.view image.old.file)) }
{
    read_into(image, at, bytes)?;
    if is_same(bytes, zeros) {
        return Ok(());
    }
    raw.write(at, bytes)?;
    Ok(())
}

fn is_same(left: &[u8], right: &[u8]) -> bool
    ensures { IsTrue result ↔ (left.now ≡ right.now) }
{
    left == right
}
