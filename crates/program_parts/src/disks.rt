//! Disks to be read: of images, and raw ones.
ghost use Rattle.std.specs.Prelude.{◌≡◌, ◌+◌, ◌≤◌, length, replicate, IfOk, MatchResult, OnOk};
ghost use Rattle.qcow2_disk.specs.Calls.{Shows};
ghost use Rattle.program_parts.specs.Disks.{IsKeptQuietly, IsOnlyRead, IsOpenedAs, IsSeenAs, LiesOn, SeenDisk};
ghost use Rattle.program_parts.specs.Disks.{seen_open, storage_under};

use image_access::{Format, Storage, WrappedFormat};
use qcow2_image::{ImageError, MappingKind, NoBacking, Qcow2};
use qcow2_session::read_into;
use std::alloc::Global;

/// A disk that can be read.
pub trait DiskReader: Drop {
    /// The view of the disk in contracts.
    ghost seen: { Self → SeenDisk };

    /// The size in bytes.
    fn byte_count(&mut self) -> Result<u64, ImageError>
        ensures step { IsOnlyRead (seen self.old) (seen self.new) }
        ensures size { (seen self.old).is_honest → IfOk result (λ n. n ≡ (seen self.old).disk.size) }
        ensures same { (seen self.old).is_honest → OnOk result (IsSeenAs (seen self.old).disk (seen self.new)) };

    /// Fills the buffer with the bytes from an offset on. They must lie below the disk's end. After a refusal the buffer may hold any bytes.
    fn read_bytes(&mut self, at: u64, bytes: &mut [u8]) -> Result<(), ImageError>
        ensures step { IsOnlyRead (seen self.old) (seen self.new) }
        ensures read { (seen self.old).is_honest → at + length bytes.old ≤ (seen self.old).disk.size
            → OnOk result (Shows (seen self.old).disk at bytes.new) }
        ensures same { (seen self.old).is_honest → OnOk result (IsSeenAs (seen self.old).disk (seen self.new)) };

    /// How many bytes from an offset on are known to be zeros without being read, up to a limit. 0 where that isn't known.
    fn known_zeros(&mut self, at: u64, max: u64) -> Result<u64, ImageError>
        ensures step { IsOnlyRead (seen self.old) (seen self.new) }
        ensures within { IfOk result (λ n. n ≤ max) }
        ensures zeros { (seen self.old).is_honest → IfOk result (λ n. Shows (seen self.old).disk at (replicate n 0)) }
        ensures same { (seen self.old).is_honest → OnOk result (IsSeenAs (seen self.old).disk (seen self.new)) };
}

/// A raw disk: the bytes of a storage.
#[derive(Drop)]
pub struct RawDisk<R: Storage> {
    storage: R,
}

impl<R: Storage> DiskReader for RawDisk<R> {
    ghost use Rattle.program_parts.specs.Disks.{seen_raw};

    ghost seen = { λ raw. seen_raw (R.view raw.storage) };

    fn byte_count(&mut self) -> Result<u64, ImageError> {
        Ok(self.storage.size()?)
    }

    fn read_bytes(&mut self, at: u64, bytes: &mut [u8]) -> Result<(), ImageError> {
        self.storage.read(at, bytes)?;
        Ok(())
    }

    fn known_zeros(&mut self, _at: u64, _max: u64) -> Result<u64, ImageError> {
        Ok(0)
    }
}

impl<S: Storage, F: WrappedFormat<S>> DiskReader for Qcow2<S, F> {
    ghost use Rattle.program_parts.specs.Disks.{seen_image};

    ghost seen = { λ image. seen_image S.view F.backing image };

    fn byte_count(&mut self) -> Result<u64, ImageError> {
        Ok(self.size())
    }

    fn read_bytes(&mut self, at: u64, bytes: &mut [u8]) -> Result<(), ImageError> {
        read_into(self, at, bytes)
    }

    fn known_zeros(&mut self, at: u64, max: u64) -> Result<u64, ImageError> {
        let (mapping, found) = self.get_mapping(at, max)?;
        match mapping.kind {
            MappingKind::Zero { .. } => Ok(found),
            _ => Ok(0),
        }
    }
}

/// The disk on a storage: a raw disk, or the disk of an image.
#[derive(Drop)]
pub enum OpenDisk<S: Storage> {
    /// A raw disk.
    Raw(RawDisk<S>),
    /// An image, opened for reading.
    Image(Qcow2<S, NoBacking>),
}

impl<S: Storage> OpenDisk<S> {
    /// The storage.
    pub fn into_storage(self) -> S
        ensures { result ≡ storage_under self }
    {
        match self {
            OpenDisk::Raw(disk) => disk.storage,
            OpenDisk::Image(image) => image.into_storage(),
        }
    }
}

impl<S: Storage> DiskReader for OpenDisk<S> {
    ghost use Rattle.program_parts.specs.Disks.{seen_open};

    ghost seen = { seen_open S.view };

    fn byte_count(&mut self) -> Result<u64, ImageError> {
        match self {
            OpenDisk::Raw(disk) => disk.byte_count(),
            OpenDisk::Image(image) => image.byte_count(),
        }
    }

    fn read_bytes(&mut self, at: u64, bytes: &mut [u8]) -> Result<(), ImageError> {
        match self {
            OpenDisk::Raw(disk) => disk.read_bytes(at, bytes),
            OpenDisk::Image(image) => image.read_bytes(at, bytes),
        }
    }

    fn known_zeros(&mut self, at: u64, max: u64) -> Result<u64, ImageError> {
        match self {
            OpenDisk::Raw(disk) => disk.known_zeros(at, max),
            OpenDisk::Image(image) => image.known_zeros(at, max),
        }
    }
}

/// Opens the disk on a storage in a format, for reading. An image that needs another file is refused 12 (dependency). Otherwise it is
/// refused as by `open_alone`: 19 (metadata), 13 (limit), 4 (unaligned table), 14 (memory), 15 (storage).
pub fn open_disk<S: Storage>(
    alloc: Global,
    storage: S,
    format: Format,
) -> Result<OpenDisk<S>, (S, ImageError)>
    ensures step { MatchResult result (λ disk. LiesOn (S.view storage) (seen_open S.view disk))
        (λ refused. IsKeptQuietly (S.view storage) (S.view refused.0)) }
    ensures opened { IfOk result (λ disk. IsOpenedAs format (S.view storage) (seen_open S.view disk)) }
{
    match format {
        Format::Raw => Ok(OpenDisk::Raw(RawDisk { storage })),
        Format::Qcow2 => match Qcow2::<S, NoBacking>::open_alone(alloc, storage, false, 1) {
            Ok(image) => Ok(OpenDisk::Image(image)),
            Err(refused) => Err(refused),
        },
    }
}
