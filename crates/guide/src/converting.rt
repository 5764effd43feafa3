//! Converting a raw disk to an image, and an image to a raw disk.
use crate::opening::make;
use image_access::Storage;
use qcow2_image::{ImageError, Qcow2};
use qcow2_session::convert::{to_qcow2, to_raw};
use std::alloc::Global;

/// Makes an image with the bytes of a raw disk.
pub fn import<R: Storage, S: Storage>(
    alloc: Global,
    raw: &mut R,
    storage: S,
    number: u64,
) -> Result<Qcow2<S>, ImageError> {
    let size = raw.size()?;
    let mut image = make(alloc, storage, size, number)?;
    to_qcow2(alloc, raw, &mut image)?;
    Ok(image)
}

/// Makes a raw disk from an image, and returns its size.
pub fn export<S: Storage, R: Storage>(
    alloc: Global,
    image: &mut Qcow2<S>,
    raw: &mut R,
) -> Result<u64, ImageError> {
    to_raw(alloc, image, raw)
}
