//! Opening an overlay.
use image_access::{Storage, WrappedFormat};
use qcow2_image::{ImageError, Qcow2};
use std::alloc::Global;

/// Opens an image for writing over its backing disk, which is read where the image is unmapped, and never written. An image
/// with a data file is refused, and stays unchanged.
pub fn open_over<S: Storage, F: WrappedFormat<S>>(
    alloc: Global,
    storage: S,
    number: u64,
    below: F,
) -> Result<Qcow2<S, F>, ImageError> {
    let builder = Qcow2::builder(storage, number).write(true);
    match builder.backing(Some(below)).open(alloc) {
        Ok(image) => Ok(image),
        Err((_storage, refusal)) => Err(refusal),
    }
}
