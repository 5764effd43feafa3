//! Headers that the library doesn't read: what the file is, and what its header says.
ghost use Rattle.std.specs.Prelude.{◌≤◌, IfSome};
ghost use Rattle.image_access.specs.Moments.{ContentsStay};

use image_access::Storage;
use qcow2_metadata::MAGIC;
use std::alloc::Global;

/// The number of bytes that are read: the header of version 3, with its first additional field.
const LENGTH: usize = 112;

/// The greatest length of a backing file name, in bytes.
const LONGEST_NAME: u32 = 1023;

/// The offset of the incompatible feature bits.
const FEATURES: usize = 72;

/// Whether a file begins with the magic number of qcow2, in any version; None if it can't be read.
pub fn begins_qcow2<S: Storage>(storage: &mut S) -> Option<bool> {
    let mut bytes = [0; LENGTH];
    match storage.read(0, &mut bytes) {
        Ok(()) => Some(number_at(&bytes, 0) == MAGIC),
        Err(_) => None,
    }
}

/// What a file is whose header was refused, and what to do; None if it can't be read, or nothing more is known.
pub fn explained<S: Storage>(storage: &mut S) -> Option<&'static str> {
    let mut bytes = [0; LENGTH];
    if matches!(storage.size(), Ok(0)) {
        return Some("the file is empty");
    }
    storage.read(0, &mut bytes).ok()?;
    if number_at(&bytes, 0) == MAGIC {
        explained_image(&bytes)
    } else {
        Some(other_format(&bytes))
    }
}

/// The fields of a header that the library doesn't read.
#[derive(Drop)]
pub struct Unread {
    /// The version: 2 or 3.
    pub version: u32,
    /// The binary logarithm of the cluster size in bytes.
    pub cluster_bits: u32,
    /// The size of the disk, in bytes.
    pub size: u64,
    /// Whether the data are encrypted.
    pub is_encrypted: bool,
    /// Incompatible feature bits.
    pub incompatible: u64,
    /// Compatible feature bits.
    pub compatible: u64,
    /// The binary logarithm of the refcount width in bits.
    pub refcount_order: u32,
    /// Whether data are compressed with zstd.
    pub is_zstd: bool,
    /// The name of the backing file.
    pub backing_name: Option<String>,
}

/// The fields of a header of version 2 or 3 with a valid cluster size and refcount width; None for any other.
pub fn numbers_of_unread<S: Storage>(alloc: Global, storage: &mut S) -> Option<Unread>
    ensures bits { IfSome result (λ found. found.cluster_bits ≤ 21) }
    ensures order { IfSome result (λ found. found.refcount_order ≤ 6) }
    ensures reading { ContentsStay (S.view storage.old) (S.view storage.new) }
{
    let mut bytes = [0; LENGTH];
    storage.read(0, &mut bytes).ok()?;
    let version = number_at(&bytes, 4);
    let is_new = version == 3;
    let cluster_bits = number_at(&bytes, 20);
    let refcount_order = if is_new { number_at(&bytes, 96) } else { 4 };
    if number_at(&bytes, 0) != MAGIC || !(is_new || version == 2) {
        return None;
    }
    if !(9..=21).contains(&cluster_bits) || refcount_order > 6 {
        return None;
    }
    let incompatible = if is_new { long_at(&bytes, FEATURES) } else { 0 };
    Some(Unread {
        version,
        cluster_bits,
        size: long_at(&bytes, 24),
        is_encrypted: number_at(&bytes, 32) != 0,
        incompatible,
        compatible: if is_new { long_at(&bytes, 80) } else { 0 },
        refcount_order,
        is_zstd: incompatible & 8 != 0 && bytes[104] == 1,
        backing_name: name_at(alloc, storage, long_at(&bytes, 8), number_at(&bytes, 16)),
    })
}

// A name at an offset, which is 0 for none. A name that isn't UTF-8 is left out.
fn name_at<S: Storage>(alloc: Global, storage: &mut S, offset: u64, length: u32) -> Option<String>
    ensures reading { ContentsStay (S.view storage.old) (S.view storage.new) }
{
    if offset == 0 || length > LONGEST_NAME {
        return None;
    }
    let mut bytes = vec![in alloc; 0; length as usize].ok()?;
    storage.read(offset, &mut bytes).ok()?;
    let name = std::str::from_utf8(&bytes).ok()?;
    String::from_str(alloc, name).ok()
}

// The big-endian number of eight bytes at an offset.
fn long_at(bytes: &[u8], place: usize) -> u64
    requires { place ≤ 104 }
{
    u64::from(number_at(bytes, place)) << 32 | u64::from(number_at(bytes, place + 4))
}

// The big-endian number of four bytes at an offset; 0 if there are no four bytes.
fn number_at(bytes: &[u8], place: usize) -> u32 {
    match bytes.get(place..).and_then(|rest| rest.first_chunk::<4>()) {
        Some(four) => u32::from_be_bytes(*four),
        None => 0,
    }
}

// What a file is that isn't a qcow2 image, by its first bytes.
fn other_format(bytes: &[u8]) -> &'static str {
    if bytes.starts_with(b"KDMV") || bytes.starts_with(b"# Disk Desc") {
        "it is a VMDK image: qemu-img convert makes a qcow2 image of it"
    } else if bytes.starts_with(b"vhdxfile") || bytes.starts_with(b"conectix") {
        "it is an image of Hyper-V: qemu-img convert makes a qcow2 image of it"
    } else if bytes.starts_with(b"QED\0") || bytes.starts_with(b"<<< ") {
        "it is an image of another format: qemu-img convert makes a qcow2 image of it"
    } else if bytes.starts_with(b"LUKS") {
        "it is encrypted by LUKS"
    } else {
        "it doesn't begin as a qcow2 image: it may be a raw disk"
    }
}

// Why a qcow2 image isn't read.
fn explained_image(bytes: &[u8]) -> Option<&'static str> {
    match number_at(bytes, 4) {
        2 if number_at(bytes, 32) == 0 => None,
        3 if number_at(bytes, 32) == 0 => {
            explained_features(number_at(bytes, FEATURES), number_at(bytes, FEATURES + 4))
        }
        2 | 3 => Some("its data are encrypted"),
        _ => Some(
            "it is a qcow image of a version other than 2 and 3: qemu-img convert makes a newer one of it",
        ),
    }
}

// Which incompatible feature isn't known, by the upper and the lower bits.
fn explained_features(upper: u32, lower: u32) -> Option<&'static str> {
    if upper != 0 || lower > 31 {
        Some("it has a feature that this program doesn't know")
    } else if lower & 2 != 0 {
        Some("it is marked corrupt: qemu-img check -r all repairs it")
    } else if lower & 1 != 0 {
        Some(
            "it is marked dirty, as its last writer didn't close it: qemu-img check -r all repairs it",
        )
    } else if lower & 16 != 0 {
        Some("it has extended L2 entries: qemu-img convert -O qcow2 makes an image without them")
    } else if lower & 8 != 0 {
        Some(
            "it is compressed otherwise than by zlib: qemu-img convert -O qcow2 makes an image that isn't",
        )
    } else {
        None
    }
}
