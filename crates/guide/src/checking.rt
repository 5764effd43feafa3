//! A checker.
use image_access::Storage;
use qcow2_image::ImageError;
use qcow2_session::check;
use std::alloc::Global;

/// The number of leaked clusters of an image, or None if it isn't consistent. The image is only read.
pub fn leaked<S: Storage>(alloc: Global, storage: &mut S) -> Result<Option<usize>, ImageError> {
    let report = check(alloc, storage)?;
    if !report.breaches.is_empty() {
        return Ok(None);
    }
    Ok(Some(report.leaks.len()))
}
