//! An image as a block device.
ghost use Rattle.std.specs.Prelude.{◌≡◌};
ghost use Rattle.qimg_nbd.specs.Images.{Flushes, Syncs, device_of, error_of, told_state};

use image_access::{Storage, WrappedFormat};
use nbd_protocol::{Device, Errno, State};
use qcow2_image::{ImageError, MappingKind, Qcow2};
use qcow2_session::{read_into, write};

/// An image as a device for a server.
pub struct ImageDevice<S: Storage, F: WrappedFormat<S>> {
    image: Qcow2<S, F>,
}

impl<S: Storage, F: WrappedFormat<S>> ImageDevice<S, F> {
    /// A device for an image.
    pub fn new(image: Qcow2<S, F>) -> Self
        ensures { result.image ≡ image }
    {
        ImageDevice { image }
    }

    /// The image.
    pub fn into_image(self) -> Qcow2<S, F>
        ensures { result ≡ self.image }
    {
        let ImageDevice { image } = self;
        image
    }
}

// The error number that a client is sent for a refusal: 12 for memory, 28 for lack of room, 1 for a read-only image, 22 for a range beyond the
// size, and 5 for all others.
fn errno_of(refusal: &ImageError) -> Errno
    ensures { result ≡ error_of refusal.now }
{
    match refusal {
        ImageError::ReadOnly => Errno::NotPermitted,
        ImageError::BeyondSize => Errno::Invalid,
        ImageError::Limit => Errno::NoSpace,
        ImageError::Memory => Errno::NoMemory,
        _ => Errno::Io,
    }
}

// The state for the mapping of a run. Zero clusters may be allocated.
fn state_of(kind: &MappingKind) -> State
    ensures { result ≡ told_state kind.now }
{
    match kind {
        MappingKind::Zero { explicit: true } => State::Zero,
        MappingKind::Zero { explicit: false } => State::Hole,
        _ => State::Data,
    }
}

impl<S: Storage, F: WrappedFormat<S>> Device for ImageDevice<S, F> {
    ghost view = { λ d. device_of S.view F.backing d.image };

    ghost Flushed = { λ old new. Flushes S.view F.backing old.image new.image };

    ghost Synced = { λ old new. Syncs S.view F.backing old.image new.image };

    fn size(&self) -> u64 {
        self.image.size()
    }

    fn is_read_only(&self) -> bool {
        !self.image.writable()
    }

    fn can_clear(&self) -> bool {
        self.image.zero_granularity().is_some()
    }

    fn read(&mut self, offset: u64, bytes: &mut [u8]) -> Result<(), Errno> {
        match read_into(&mut self.image, offset, bytes) {
            Ok(()) => Ok(()),
            Err(refusal) => Err(errno_of(&refusal)),
        }
    }

    fn write(&mut self, offset: u64, bytes: &[u8]) -> Result<(), Errno> {
        match write(&mut self.image, offset, bytes) {
            Ok(()) => Ok(()),
            Err((refusal, _)) => Err(errno_of(&refusal)),
        }
    }

    fn discard(&mut self, offset: u64, length: u64) -> Result<(u64, u64), Errno> {
        match self.image.discard_to_zero_unsafe(offset, length) {
            Ok(part) => Ok(part),
            Err(refusal) => Err(errno_of(&refusal)),
        }
    }

    fn zero(&mut self, offset: u64, length: u64) -> Result<(u64, u64), Errno> {
        match self.image.ensure_zero_mapping(offset, length) {
            Ok(part) => Ok(part),
            Err(refusal) => Err(errno_of(&refusal)),
        }
    }

    fn look_up(&mut self, offset: u64, max: u64) -> Result<(State, u64), Errno> {
        match self.image.get_mapping(offset, max) {
            Ok((mapping, length)) => Ok((state_of(&mapping.kind), length)),
            Err(refusal) => Err(errno_of(&refusal)),
        }
    }

    fn flush(&mut self) -> Result<(), Errno> {
        match self.image.flush() {
            Ok(()) => Ok(()),
            Err(refusal) => Err(errno_of(&refusal)),
        }
    }

    fn sync(&mut self) -> Result<(), Errno> {
        match self.image.sync() {
            Ok(()) => Ok(()),
            Err(refusal) => Err(errno_of(&refusal)),
        }
    }
}
