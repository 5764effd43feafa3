//! Opening and creating an image.
use image_access::Storage;
use qcow2_image::{ImageError, Qcow2, Qcow2CreateBuilder};
use std::alloc::Global;

/// Opens an image for writing. Images that are open together must have different numbers.
pub fn open<S: Storage>(alloc: Global, storage: S, number: u64) -> Result<Qcow2<S>, ImageError> {
    match Qcow2::builder(storage, number).write(true).open(alloc) {
        Ok(image) => Ok(image),
        Err((_storage, refusal)) => Err(refusal),
    }
}

/// Creates an image of this size, with clusters of 65,536 bytes, and opens it.
pub fn make<S: Storage>(
    alloc: Global,
    storage: S,
    size: u64,
    number: u64,
) -> Result<Qcow2<S>, ImageError> {
    let builder = Qcow2CreateBuilder::new(storage).size(size);
    match builder.create_open(alloc, |made| Ok(Qcow2::builder(made, number))) {
        Ok(image) => Ok(image),
        Err((_storage, refusal)) => Err(refusal),
    }
}
