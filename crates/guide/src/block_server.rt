//! A block server: requests of a client, one after another, on one open image.
use image_access::Storage;
use qcow2_image::{ImageError, Qcow2};
use qcow2_session::{read, write};
use std::alloc::Global;

const CHUNK: u64 = 65536;

/// A request of a client.
#[derive(Drop)]
pub enum Request {
    Read { offset: u64, length: u64 },
    Write { offset: u64, bytes: Vec<u8> },
    Zero { offset: u64, length: u64 },
    Discard { offset: u64, length: u64 },
    Flush,
}

/// Answers a request, with the bytes that were read. The number of a refusal goes to the client, who asks `size` for the disk's size.
pub fn serve<S: Storage>(
    alloc: Global,
    image: &mut Qcow2<S>,
    request: &Request,
) -> Result<Vec<u8>, ImageError> {
    match request {
        Request::Read { offset, length } => return read(alloc, image, *offset, *length),
        Request::Write { offset, bytes } => write_all(image, *offset, bytes)?,
        Request::Zero { offset, length } => zero(alloc, image, *offset, *length)?,
        Request::Discard { offset, length } => discard(image, *offset, *length)?,
        Request::Flush => image.flush()?,
    }
    Ok(Vec::new(alloc))
}

fn write_all<S: Storage>(
    image: &mut Qcow2<S>,
    offset: u64,
    bytes: &[u8],
) -> Result<(), ImageError> {
    match write(image, offset, bytes) {
        Ok(()) => Ok(()),
        Err((refusal, _done)) => Err(refusal),
    }
}

// Makes a range read as zeros: whole clusters as zero clusters, the rest by written zeros. Version 2 has no zero clusters.
fn zero<S: Storage>(
    alloc: Global,
    image: &mut Qcow2<S>,
    offset: u64,
    length: u64,
) -> Result<(), ImageError> {
    match offset.checked_add(length) {
        Some(end) if end <= image.size() => {}
        _ => return Err(ImageError::BeyondSize),
    }
    let mut at = offset;
    let mut rest = length;
    for _ in 0..u64::MAX {
        let (from, count) = match image.ensure_zero_mapping(at, rest) {
            Err(ImageError::Version) => (at, 0),
            answer => answer?,
        };
        if count == 0 {
            break;
        }
        write_zeros(alloc, image, at, from.saturating_sub(at))?;
        let next = from.saturating_add(count);
        rest = rest.saturating_sub(next.saturating_sub(at));
        at = next;
    }
    write_zeros(alloc, image, at, rest)
}

fn write_zeros<S: Storage>(
    alloc: Global,
    image: &mut Qcow2<S>,
    offset: u64,
    length: u64,
) -> Result<(), ImageError> {
    let zeros = vec![in alloc; 0; length.min(CHUNK) as usize]?;
    let mut at = offset;
    let mut rest = length;
    for _ in 0..u64::MAX {
        if rest < CHUNK {
            break;
        }
        write_all(image, at, &zeros)?;
        at = at.saturating_add(CHUNK);
        rest = rest.saturating_sub(CHUNK);
    }
    match zeros.get(..rest as usize) {
        Some(last) => write_all(image, at, last),
        None => Ok(()),
    }
}

// Frees the whole clusters of a range. Other bytes stay.
fn discard<S: Storage>(image: &mut Qcow2<S>, offset: u64, length: u64) -> Result<(), ImageError> {
    let mut at = offset;
    let mut rest = length;
    for _ in 0..u64::MAX {
        let (from, count) = match image.discard_to_any_unsafe(at, rest) {
            Err(ImageError::Version) => (at, 0),
            answer => answer?,
        };
        if count == 0 {
            break;
        }
        let next = from.saturating_add(count);
        rest = rest.saturating_sub(next.saturating_sub(at));
        at = next;
    }
    Ok(())
}
