//! The subcommand `resize`.
ghost use Rattle.std.specs.Prelude.{◌≡◌, ◌<◌, ◌≤◌};
ghost use Rattle.qimg_tools.specs.Changed.{size_after};

use crate::sizes::SizeChange;
use image_access::{PreallocateMode, Storage};
use program_parts::{NotResized, resize_disk};
use qcow2_image::{ImageError, NoBacking, Qcow2};
use qcow2_session::{read, write};
use std::alloc::Global;

/// The settings of a resize.
#[derive(Clone, Copy)]
pub struct Resizing {
    /// The new size, or its change.
    pub change: SizeChange,
    /// How a larger disk is allocated.
    pub preallocate: PreallocateMode,
    /// Whether the disk may lose its last bytes.
    pub shrinks: bool,
}

/// Why a disk was not resized.
#[derive(Drop)]
pub enum Unresized {
    /// A call of the driver was refused.
    Refused(ImageError),
    /// The disk would lose this many bytes, and that isn't allowed.
    WouldShrink(u64),
    /// The new size would be negative, or not fit into 64 bits.
    NoSize,
}

impl From<ImageError> for Unresized {
    fn from(refusal: ImageError) -> Unresized {
        Unresized::Refused(refusal)
    }
}

impl From<NotResized> for Unresized {
    fn from(cause: NotResized) -> Unresized {
        match cause {
            NotResized::Refused(refusal) => Unresized::Refused(refusal),
            NotResized::WouldShrink(bytes) => Unresized::WouldShrink(bytes),
        }
    }
}

/// Resizes the disk of an image, syncs it, and returns its storage and the new size. New bytes read as zeros, except those of
/// a compressed cluster at the old end. Refused as `open_alone` is for writing, which leaves the storage unchanged: 19 (metadata),
/// 13 (limit), 4 (unaligned table), 12 (dependency); then `NoSize`, and `WouldShrink`; for a larger size also 13 if no L1 table
/// is long enough. Refused 14 (memory) and 15 (storage) if the work meets them, and in modes that allocate as `resize_grow` is.
pub fn resize<S: Storage>(
    alloc: Global,
    storage: S,
    how: &Resizing,
) -> (S, Result<u64, Unresized>) {
    match Qcow2::<S, NoBacking>::open_alone(alloc, storage, true, 1) {
        Ok(mut image) => {
            let resized = resize_image(alloc, &mut image, how);
            let mut storage = image.into_storage();
            let done = synced(&mut storage, resized);
            (storage, done)
        }
        Err((storage, e)) => (storage, Err(Unresized::Refused(e))),
    }
}

fn resize_image<S: Storage>(
    alloc: Global,
    image: &mut Qcow2<S, NoBacking>,
    how: &Resizing,
) -> Result<u64, Unresized> {
    let old = image.size();
    let Some(size) = changed(old, how.change) else {
        return Err(Unresized::NoSize);
    };
    resize_disk(image, size, how.preallocate, how.shrinks)?;
    clear_last(alloc, image, old, size)?;
    image.flush()?;
    Ok(size)
}

// Syncs an image that was resized, since the system reports some errors only then.
fn synced<S: Storage>(storage: &mut S, resized: Result<u64, Unresized>) -> Result<u64, Unresized> {
    let size = resized?;
    storage.sync().map_err(ImageError::from)?;
    Ok(size)
}

// The size after a change, if it fits into 64 bits.
fn changed(old: u64, change: SizeChange) -> Option<u64>
    ensures { result ≡ size_after old change }
{
    match change {
        SizeChange::To(size) => Some(size),
        SizeChange::More(bytes) => old.checked_add(bytes),
        SizeChange::Fewer(bytes) => old.checked_sub(bytes),
    }
}

// Makes the bytes behind an old end zeros, up to the end of its cluster: the disk may have been larger before.
fn clear_last<S: Storage>(
    alloc: Global,
    image: &mut Qcow2<S, NoBacking>,
    old: u64,
    size: u64,
) -> Result<(), ImageError> {
    let cluster = image.cluster_size();
    let used = old % cluster;
    if used == 0 || size <= old {
        return Ok(());
    }
    let count = (cluster - used).min(size - old);
    let mut bytes = match read(alloc, image, old, count) {
        Ok(bytes) => bytes,
        Err(ImageError::Compressed) => return Ok(()),
        Err(refusal) => return Err(refusal),
    };
    if bytes.iter().all(|byte| *byte == 0) {
        return Ok(());
    }
    bytes.as_mut_slice().fill(0);
    match write(image, old, &bytes) {
        Ok(()) => Ok(()),
        Err((refusal, _done)) => Err(refusal),
    }
}
