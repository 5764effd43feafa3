//! Images from raw disks, and raw disks from images.
ghost use Rattle.qcow2_session.specs.CountedFaults.{ConversionCounts};
ghost use Rattle.std.specs.Prelude.{◌≡◌, ◌⊎◌, ◌-◌, ◌<◌, ◌^◌, ℕ, [], length, min, Err, IfErr, IfOk, IsErrAnd, IsTrue, Ok};
ghost use Rattle.image_access.specs.Moments.{ContentsStay, EachMomentSince};
ghost use Rattle.qcow2_disk.specs.AbstractImages.{IsOpened};
ghost use Rattle.qcow2_image.specs.ImageInvariant.{abstract_of, in_image};
ghost use Rattle.qcow2_metadata.specs.Bytes.{byte_at};
ghost use Rattle.qcow2_metadata.specs.Consistent.{IsConsistent};
ghost use Rattle.qcow2_metadata.specs.Header.{header};
ghost use Rattle.qcow2_image.specs.Created.{longest_disk};
ghost use Rattle.qcow2_image.specs.Image.{HasNothingToFree, IsSameImage, is_writable, size_of, storage_of_image};
ghost use Rattle.qcow2_image.specs.Opened.{NeedsAnother};
ghost use Rattle.qcow2_alloc.specs.ImageError.{IsFault};
ghost use Rattle.qcow2_alloc.specs.declared.error.ImageError.TheVariants.{InvalidOption, Limit};
ghost use Rattle.qcow2_alloc.specs.Quiet.{IsQuiet};
ghost use Rattle.qcow2_session.specs.Conversions.{Imports, IsLeft, MayFailImporting, IsOfImporting};
ghost use Rattle.program_parts.specs.Conversions.{CountsBoth, CountsBytes, IsImageMade, IsImageOfSize, IsLayout};
ghost use Rattle.program_parts.specs.Conversions.{MayFailExporting, IsReasonNotToMake, IsRefusedUntouched};
ghost use Rattle.program_parts.specs.Conversions.{IsStopOfMaking, IsUnopened};
ghost use Rattle.program_parts.specs.Conversions.{IsExport, KeepsDisk, OpensToExport, asked_for, reach_of};

use image_access::{Storage, WrappedFormat};
use qcow2_image::{ImageError, NoBacking, Qcow2, Qcow2CreateBuilder};
use qcow2_metadata::HeaderFields;
use qcow2_session::convert::{to_qcow2, to_raw};
use std::alloc::Global;

/// Makes an image with the bytes of a raw disk, with this cluster size in bytes and this refcount width in bits, and returns its storage
/// and the number of bytes.
/// Refused 5 (invalid option) for sizes or widths that images don't have, and then nothing was written. May be refused 13 (limit), 14 (memory) or
/// 15 (storage) during the work. A raw disk that has another size at the end is refused 5 too; then the image is complete. If the storage returns
/// other bytes than were written, other refusals are possible.
pub fn make_image<R: Storage, S: Storage>(
    alloc: Global,
    raw: &mut R,
    storage: S,
    cluster: u64,
    width: u64,
) -> (S, Result<u64, ImageError>)
    ensures image { (S.view storage).is_honest
        → IfOk result.1 (λ n. IsImageMade (R.view raw.old) n (S.view result.0) cluster width) }
    ensures count { (R.view raw.old).is_honest → IfOk result.1 (λ n. n ≡ length (R.view raw.old).contents) }
    ensures raw { IsLeft (R.view raw.old) (R.view raw.new) }
    ensures stops { (R.view raw.old).is_honest → (S.view storage).is_honest
        → EachMomentSince (S.view storage) (S.view result.0)
        (λ c. IsStopOfMaking (length (R.view raw.old).contents) (byte_at c)) }
    ensures refused { ¬ IsLayout cluster width → IsRefusedUntouched InvalidOption storage result }
    ensures limit { (R.view raw.old).is_honest → IsLayout cluster width
        → longest_disk cluster < length (R.view raw.old).contents → IsRefusedUntouched Limit storage result }
    ensures cause { (R.view raw.old).is_honest → (S.view storage).is_honest
        → IfErr result.1 (IsReasonNotToMake S.view
        (asked_for storage (length (R.view raw.old).contents) cluster width) result.0) }
    ensures faults { CountsBoth (S.view storage).faults (S.view result.0).faults (R.view raw.old).faults (R.view raw.new).faults result.1 }
{
    let size = match raw.size() {
        Ok(size) => size,
        Err(e) => return (storage, Err(ImageError::from(e))),
    };
    let (storage, created) = Qcow2CreateBuilder::new(storage)
        .size(size)
        .cluster_size(cluster)
        .refcount_width(width)
        .create(alloc);
    if let Err(e) = created {
        return (storage, Err(e));
    }
    match Qcow2::<S, NoBacking>::open_alone(alloc, storage, true, 1) {
        Ok(mut image) => {
            let imported = fill(alloc, raw, &mut image);
            (image.into_storage(), imported)
        }
        Err((storage, e)) => (storage, Err(e)),
    }
}

// Makes the disk of the image equal to the raw disk, which must have the size that it had before.
fn fill<R: Storage, S: Storage, F: WrappedFormat<S>>(
    alloc: Global,
    raw: &mut R,
    image: &mut Qcow2<S, F>,
) -> Result<u64, ImageError>
    ensures sees { (R.view raw.old).is_honest → IfOk result (λ n. Imports S.view F.backing image.old image.new (R.view raw.old).contents (Ok n)) }
    ensures count { let opened = IsOpened (abstract_of S.view F.backing image.old (in_image [])) in
        IfOk result (CountsBytes (R.view raw.old) opened (size_of image.old)) }
    ensures image { IsSameImage image.old image.new }
    ensures emptied { IsTrue (is_writable image.old) → IfOk result (λ n. HasNothingToFree image.new) }
    ensures raw { IsLeft (R.view raw.old) (R.view raw.new) }
    ensures cause { IfErr result IsOfImporting }
    ensures stops { (n : ℕ) → IsOpened (abstract_of S.view F.backing image.old (in_image []))
        → IsImageOfSize n (byte_at (S.view (storage_of_image image.old)).contents)
        → EachMomentSince (S.view (storage_of_image image.old)) (S.view (storage_of_image image.new))
        (λ c. IsImageOfSize n (byte_at c)) }
    ensures stands { (n : ℕ) → IsOpened (abstract_of S.view F.backing image.old (in_image []))
        → IsImageOfSize n (byte_at (S.view (storage_of_image image.old)).contents)
        → IsImageOfSize n (byte_at (S.view (storage_of_image image.new)).contents) }
    ensures may_fail { (R.view raw.old).is_honest → length (R.view raw.old).contents ≡ size_of image.old
        → IsOpened (abstract_of S.view F.backing image.old (in_image []))
        → IfErr result (MayFailImporting S.view 0 (size_of image.old) image.new (in_image [])) }
    ensures faults { ConversionCounts S.view F.backing image.old image.new (R.view raw.old).faults (R.view raw.new).faults result }
{
    let count = to_qcow2(alloc, raw, image)?;
    if raw.size()? != count {
        return Err(ImageError::InvalidOption);
    }
    Ok(count)
}

/// The size of an image's disk in bytes, by its header. The image is only read. Refused 19 (metadata) and 13 (limit) for an unreadable header,
/// and 14 (memory) or 15 (storage) during the work.
pub fn disk_size<S: Storage>(alloc: Global, storage: &mut S) -> Result<u64, ImageError>
    ensures size { (S.view storage.old).is_honest
        → IfOk result (λ n. n ≡ (header (byte_at (S.view storage.old).contents)).size) }
    ensures reading { ContentsStay (S.view storage.old) (S.view storage.new) }
{
    let fields = HeaderFields::load(alloc, storage)?;
    Ok(fields.size)
}

/// The offset from which on the tables of an image map nothing, by its header: the L1 table has no entries there. The image is only read. Refused
/// as `disk_size` is.
pub fn mapped_end<S: Storage>(alloc: Global, storage: &mut S) -> Result<u64, ImageError>
    ensures end { (S.view storage.old).is_honest
        → IfOk result (λ n. n ≡ min (2 ^ 64 - 1) (reach_of (header (byte_at (S.view storage.old).contents)))) }
    ensures reading { ContentsStay (S.view storage.old) (S.view storage.new) }
{
    let fields = HeaderFields::load(alloc, storage)?;
    let cluster = 1u64 << fields.cluster_bits;
    Ok((cluster * cluster / 8).saturating_mul(u64::from(fields.l1_entries)))
}

/// Makes a raw disk from an image, which is only read and never written, and returns the image's storage and the number of bytes.
/// An image that doesn't open alone is refused as by `open_alone`: 19 (metadata), 13 (limit), 4 (unaligned table), 12 (dependency). The raw disk
/// then stays unchanged. May be refused 4, 7 (compressed), 14 (memory) or 15 (storage) during the work.
pub fn make_raw_disk<S: Storage, R: Storage>(
    alloc: Global,
    storage: S,
    raw: &mut R,
) -> (S, Result<u64, ImageError>)
    ensures raw { (R.view raw.old).is_honest → (S.view storage).is_honest → IsConsistent (byte_at (S.view storage).contents)
        → IfOk result.1 (λ n. IsExport (S.view storage).contents n (R.view raw.new).contents) }
    ensures honest { (R.view raw.old).is_honest → (R.view raw.new).is_honest }
    ensures image { (S.view storage).is_honest → IsConsistent (byte_at (S.view storage).contents) → KeepsDisk (S.view storage) (S.view result.0) }
    ensures another { (S.view storage).is_honest → NeedsAnother (S.view storage).contents
        → ContentsStay (S.view storage) (S.view result.0) × (raw.new ≡ raw.old) }
    ensures unreadable { (S.view storage).is_honest → ¬ OpensToExport (S.view storage).contents
        → IsErrAnd result.1 (IsUnopened (S.view storage).contents raw.old raw.new) }
    ensures cause { (S.view storage).is_honest
        → IfErr result.1 (λ e. IsUnopened (S.view storage).contents raw.old raw.new e
        ⊎ MayFailExporting (S.view storage).contents e) }
    ensures quiet { (S.view storage).is_honest → IsQuiet (S.view storage) (S.view result.0) }
    ensures faults { CountsBoth (S.view storage).faults (S.view result.0).faults (R.view raw.old).faults (R.view raw.new).faults result.1 }
{
    match Qcow2::<S, NoBacking>::open_alone(alloc, storage, false, 1) {
        Ok(mut image) => {
            let copied = to_raw(alloc, &mut image, raw);
            let exported = flushed(raw, copied);
            (image.into_storage(), exported)
        }
        Err((storage, e)) => (storage, Err(e)),
    }
}

// Flushes a raw disk that is complete, so that bytes in memory are written before success is reported.
fn flushed<R: Storage>(raw: &mut R, copied: Result<u64, ImageError>) -> Result<u64, ImageError>
    ensures same { ContentsStay (R.view raw.old) (R.view raw.new) }
    ensures honest { (R.view raw.old).is_honest → (R.view raw.new).is_honest }
    ensures told { IfOk result (λ n. copied ≡ Ok n) }
    ensures cause { IfErr result (λ e. (copied ≡ Err e) ⊎ IsFault e) }
    ensures faults { (before now raw_before : ℕ) → CountsBoth before now raw_before (R.view raw.old).faults copied
        → CountsBoth before now raw_before (R.view raw.new).faults result }
{
    let count = copied?;
    raw.flush()?;
    Ok(count)
}
