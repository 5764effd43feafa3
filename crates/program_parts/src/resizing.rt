//! Resizing the disk of an image.
ghost use Rattle.std.specs.Prelude.{◌≡◌, ◌-◌, ◌<◌, ◌≤◌, [], Err, IsFalse, OnOk};
ghost use Rattle.image_access.specs.Moments.{EachMomentSince};
ghost use Rattle.image_access.specs.declared.storage.PreallocateMode.{PreallocateMode};
ghost use Rattle.qcow2_metadata.specs.Bytes.{byte_at};
ghost use Rattle.qcow2_disk.specs.AbstractImages.{IsOpened};
ghost use Rattle.qcow2_image.specs.Image.{size_of, storage_of_image};
ghost use Rattle.qcow2_image.specs.ImageInvariant.{abstract_of, in_image};
ghost use Rattle.program_parts.specs.Resizing.{IsStopOfResizing, Resizes};
ghost use Rattle.program_parts.specs.declared.resizing.NotResized.TheVariants.{WouldShrink};

use image_access::{PreallocateMode, Storage, WrappedFormat};
use qcow2_image::{ImageError, Qcow2};

/// Why a disk was not resized.
#[derive(Drop)]
pub enum NotResized {
    /// A call of the driver was refused.
    Refused(ImageError),
    /// The disk would lose this many bytes, and that isn't allowed.
    WouldShrink(u64),
}

impl From<ImageError> for NotResized {
    fn from(refusal: ImageError) -> NotResized {
        NotResized::Refused(refusal)
    }
}

/// Gives the disk of an image a size, and flushes it. A larger disk is allocated as the mode says, and has what the mode says behind its old
/// end; a smaller one must be allowed. At each moment the image is consistent, has the old size or the new one, and the old bytes below both.
/// Refused as `resize_grow` and `resize_shrink` are, and as `flush` is.
pub fn resize_disk<S: Storage, F: WrappedFormat<S>>(
    image: &mut Qcow2<S, F>,
    size: u64,
    mode: PreallocateMode,
    may_shrink: bool,
) -> Result<(), NotResized>
    ensures kept { IsFalse may_shrink → size < size_of image.old
        → (result ≡ Err (WouldShrink (size_of image.old - size))) × (image.new ≡ image.old) }
    ensures done { OnOk result (Resizes S.view F.backing size mode image.old image.new) }
    ensures moments { IsOpened (abstract_of S.view F.backing image.old (in_image []))
        → EachMomentSince (S.view (storage_of_image image.old)) (S.view (storage_of_image image.new))
        (λ c. IsStopOfResizing S.view F.backing size image.old (byte_at c)) }
{
    let old = image.size();
    if size >= old {
        grow_to(image, size, mode)?;
        return Ok(());
    }
    if !may_shrink {
        return Err(NotResized::WouldShrink(old - size));
    }
    shrink_to(image, size)?;
    Ok(())
}

// Gives the disk of an image a size that isn't smaller, and flushes it.
fn grow_to<S: Storage, F: WrappedFormat<S>>(
    image: &mut Qcow2<S, F>,
    size: u64,
    mode: PreallocateMode,
) -> Result<(), ImageError>
    requires { size_of image.old ≤ size }
    ensures done { OnOk result (Resizes S.view F.backing size mode image.old image.new) }
    ensures moments { IsOpened (abstract_of S.view F.backing image.old (in_image []))
        → EachMomentSince (S.view (storage_of_image image.old)) (S.view (storage_of_image image.new))
        (λ c. IsStopOfResizing S.view F.backing size image.old (byte_at c)) }
{
    image.resize_grow(size, mode)?;
    image.flush()?;
    Ok(())
}

// Gives the disk of an image a smaller size, and flushes it.
fn shrink_to<S: Storage, F: WrappedFormat<S>>(
    image: &mut Qcow2<S, F>,
    size: u64,
) -> Result<(), ImageError>
    requires { size < size_of image.old }
    ensures done { (mode : PreallocateMode) → OnOk result (Resizes S.view F.backing size mode image.old image.new) }
    ensures moments { IsOpened (abstract_of S.view F.backing image.old (in_image []))
        → EachMomentSince (S.view (storage_of_image image.old)) (S.view (storage_of_image image.new))
        (λ c. IsStopOfResizing S.view F.backing size image.old (byte_at c)) }
{
    image.resize_shrink(size)?;
    image.flush()?;
    Ok(())
}
