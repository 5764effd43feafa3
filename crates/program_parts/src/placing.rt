//! Conversions to a file that gets its name when it is complete.
ghost use Rattle.std.specs.Prelude.{◌≡◌, IfErr, IfOk, IsTrue, OnOk};
ghost use Rattle.program_parts.specs.Disks.{HoldsSameDisks, IsKeptQuietly};
ghost use Rattle.qcow2_session.specs.Conversions.{IsLeft};
ghost use Rattle.program_parts.specs.Places.{IsMade, IsNameKept, NameView, Renames, Replaces};
ghost use Rattle.program_parts.specs.Places.{source_format, target_format};

use crate::comparing::{Comparison, Unread, compare_storages};
use crate::conversions::{make_image, make_raw_disk};
use crate::copying::copy_raw_disk;
use image_access::{Format, Storage};
use qcow2_image::ImageError;
use std::alloc::Global;
use std::io;

/// A name in a folder, for a file that gets it when it is complete. Until then the file has another name.
pub trait Place<F: Storage>: Drop {
    /// The view of the name in contracts.
    ghost named: { Self → NameView };

    /// Syncs a file, gives it the name in place of the old file, and closes it. Refused with the system's
    /// error: then the name stays the same, or the file got it all the same.
    fn finish(&mut self, file: F) -> io::Result<()>
        ensures { (named self.old).is_honest → (F.view file).is_honest
            → Renames result (F.view file).contents (named self.old) (named self.new) };
}

/// A kind of conversion.
#[derive(Clone, Copy)]
pub enum Conversion {
    /// A raw disk from an image.
    ImageToRaw,
    /// An image from a raw disk.
    RawToImage {
        /// The cluster size in bytes.
        cluster: u64,
        /// The refcount width in bits.
        width: u64,
    },
    /// A raw disk from another raw disk.
    RawToRaw,
}

impl Conversion {
    /// The format of the source.
    pub fn source(&self) -> Format
        ensures { result ≡ source_format self.now }
    {
        match self {
            Conversion::ImageToRaw => Format::Qcow2,
            _ => Format::Raw,
        }
    }

    /// The format of the target.
    pub fn target(&self) -> Format
        ensures { result ≡ target_format self.now }
    {
        match self {
            Conversion::RawToImage { .. } => Format::Qcow2,
            _ => Format::Raw,
        }
    }
}

/// Why the result is not complete.
#[derive(Drop)]
pub enum Unmade {
    /// Reading or writing was refused.
    Refused(ImageError),
    /// The result reads otherwise than its source.
    Differs,
    /// The result could not be compared with its source.
    Unread(Unread),
}

/// Why the result doesn't have its name.
#[derive(Drop)]
pub enum Unplaced<F: Storage> {
    /// The result is not complete. The file is returned.
    Unmade(F, Unmade),
    /// The result is complete, and the system refused the name.
    Unnamed(io::Error),
}

/// Makes an image or a raw disk from another one, compares the two if that is asked for, and gives the resulting file
/// its name; until then the name belongs to the old file. Returns the source, and the number
/// of bytes of the disk.
/// Refused as `make_raw_disk`, `make_image` and `copy_raw_disk` are: 4 (unaligned table), 5 (invalid option), 7
/// (compressed), 12 (dependency), 13 (limit), 14 (memory), 15 (storage), 19 (metadata); then `Differs`, `Unread` as
/// `compare_storages` is, and `Unnamed`.
pub fn convert<S: Storage, F: Storage, P: Place<F>>(
    alloc: Global,
    source: S,
    file: F,
    place: &mut P,
    how: Conversion,
    verifies: bool,
) -> (S, Result<u64, Unplaced<F>>)
    ensures step { IsLeft (S.view source) (S.view result.0) }
    ensures fails { IfErr result.1 (λ e. IsNameKept e place.old place.new) }
    ensures sound { (F.view file).is_honest → (P.named place.old).is_honest
        → Replaces how (S.view source) (P.named place.old) (P.named place.new) result.1 }
{
    let (source, file, made) = make(alloc, source, file, how);
    let size = match made {
        Ok(size) => size,
        Err(cause) => return (source, Err(Unplaced::Unmade(file, Unmade::Refused(cause)))),
    };
    let (source, file, verified) = verify(alloc, source, file, how, verifies);
    if let Err(unmade) = verified {
        return (source, Err(Unplaced::Unmade(file, unmade)));
    }
    match place.finish(file) {
        Ok(()) => (source, Ok(size)),
        Err(cause) => (source, Err(Unplaced::Unnamed(cause))),
    }
}

// Writes the result to a file, and returns both files.
fn make<S: Storage, F: Storage>(
    alloc: Global,
    source: S,
    file: F,
    how: Conversion,
) -> (S, F, Result<u64, ImageError>)
    ensures step { IsLeft (S.view source) (S.view result.0) }
    ensures sound { (F.view file).is_honest → IfOk result.2 (λ n. IsMade how n (S.view source) (F.view result.1)) }
{
    let mut source = source;
    let mut file = file;
    match how {
        Conversion::ImageToRaw => {
            let (source, made) = make_raw_disk(alloc, source, &mut file);
            (source, file, made)
        }
        Conversion::RawToImage { cluster, width } => {
            let (file, made) = make_image(alloc, &mut source, file, cluster, width);
            (source, file, made)
        }
        Conversion::RawToRaw => {
            let made = copy_raw_disk(alloc, &mut source, &mut file);
            (source, file, made)
        }
    }
}

// Compares the result with its source, if that is asked for, and returns both.
fn verify<S: Storage, F: Storage>(
    alloc: Global,
    source: S,
    file: F,
    how: Conversion,
    verifies: bool,
) -> (S, F, Result<(), Unmade>)
    ensures step { IsKeptQuietly (S.view source) (S.view result.0) × IsKeptQuietly (F.view file) (F.view result.1) }
    ensures same { IsTrue verifies
        → OnOk result.2 (HoldsSameDisks (source_format how) (S.view source) (target_format how) (F.view file)) }
{
    if !verifies {
        return (source, file, Ok(()));
    }
    let (source, file, found) = compare_storages(
        alloc,
        (source, how.source()),
        (file, how.target()),
    );
    match found {
        Ok(Comparison::Same) => (source, file, Ok(())),
        Ok(_) => (source, file, Err(Unmade::Differs)),
        Err(unread) => (source, file, Err(Unmade::Unread(unread))),
    }
}
