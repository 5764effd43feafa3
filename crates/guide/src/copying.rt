//! A chain manager, which merges an overlay into the image below it.
use image_access::Storage;
use qcow2_image::{ImageError, MappingKind, Qcow2};
use qcow2_session::{read, write};
use std::alloc::Global;

const CHUNK: u64 = 65536;

// Writes the bytes of a range, or returns why not.
fn write_all<S: Storage>(
    image: &mut Qcow2<S>,
    offset: u64,
    bytes: &[u8],
) -> Result<(), ImageError> {
    match write(image, offset, bytes) {
        Ok(()) => Ok(()),
        Err((refusal, _done)) => Err(refusal),
    }
}

// Whether the image has the range itself: it is neither unmapped nor one of the backing disk.
fn is_own(kind: &MappingKind) -> bool {
    !matches!(
        kind,
        MappingKind::Indirect { .. } | MappingKind::Zero { explicit: false }
    )
}

/// Writes the ranges that the overlay has itself into the image below, and flushes. Both have the same size.
pub fn merge<S: Storage, T: Storage>(
    alloc: Global,
    overlay: &mut Qcow2<S>,
    below: &mut Qcow2<T>,
) -> Result<(), ImageError> {
    let mut at = 0;
    for _ in 0..u64::MAX {
        if at >= overlay.size() {
            break;
        }
        let (mapping, length) = overlay.get_mapping(at, CHUNK)?;
        if length == 0 {
            return Err(ImageError::BeyondSize);
        }
        if is_own(&mapping.kind) {
            let bytes = read(alloc, overlay, at, length)?;
            write_all(below, at, &bytes)?;
        }
        let Some(next) = at.checked_add(length) else {
            return Err(ImageError::BeyondSize);
        };
        at = next;
    }
    below.flush()
}
