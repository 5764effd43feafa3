//! The block device that a server serves.
ghost use Rattle.std.specs.Prelude.{◌≡◌, ◌↔◌, ◌+◌, ◌^◌, ◌<◌, ◌≤◌, IsTrue, OnOk, length};
ghost use Rattle.nbd_protocol.specs.Devices.{Acts, Clears, DeviceView, Fails, IsFault, IsSameDevice, MayWrite, RefusesToChange, RefusesToRead, Shows, Stays, Tells, Writes, error_number, state_number};
ghost use Rattle.nbd_protocol.specs.declared.device.Errno.TheVariants.{NoMemory};

use std::alloc::{AllocError, AllocFailed};

/// Why a request is refused, as an error of the system.
#[derive(Clone, Copy, Debug, PartialEq, Eq)]
pub enum Errno {
    /// 1: the export is read-only.
    NotPermitted,
    /// 5: the device failed.
    Io,
    /// 12: an allocation of memory failed.
    NoMemory,
    /// 22: the request is invalid, or its range ends past the end of the disk.
    Invalid,
    /// 28: there is no room left, or a write ends past the end of the disk.
    NoSpace,
    /// 95: the device doesn't support this.
    NotSupported,
}

impl Errno {
    /// The number that a client is sent.
    pub fn number(self) -> u32
        ensures { result ≡ error_number self }
    {
        match self {
            Errno::NotPermitted => 1,
            Errno::Io => 5,
            Errno::NoMemory => 12,
            Errno::Invalid => 22,
            Errno::NoSpace => 28,
            Errno::NotSupported => 95,
        }
    }
}

/// The state of a run of the disk.
#[derive(Clone, Copy, Debug, PartialEq, Eq)]
pub enum State {
    /// Data.
    Data,
    /// Zeros that are allocated in the file.
    Zero,
    /// Zeros that are not allocated.
    Hole,
}

impl From<AllocError> for Errno {
    ghost from_gives = { λ _ e. e ≡ NoMemory };

    fn from(_e: AllocError) -> Errno {
        Errno::NoMemory
    }
}

impl<T: Drop> From<AllocFailed<T>> for Errno {
    ghost from_gives = { λ _ e. e ≡ NoMemory };

    fn from(_e: AllocFailed<T>) -> Errno {
        Errno::NoMemory
    }
}

impl State {
    /// The number that a client is sent: 0, 2 or 3.
    pub fn number(self) -> u32
        ensures { result ≡ state_number self }
    {
        match self {
            State::Data => 0,
            State::Zero => 2,
            State::Hole => 3,
        }
    }
}

/// A disk of bytes. Offsets, lengths and sizes are in bytes.
pub trait Device {
    /// The view of the device in contracts.
    ghost view: { Self → DeviceView };

    /// What a successful flush did.
    ghost Flushed: { Self → Self → Type 0 };

    /// What a successful sync did.
    ghost Synced: { Self → Self → Type 0 };

    /// The size of the disk.
    fn size(&self) -> u64
        ensures { (view self.now).is_sound → result ≡ (view self.now).size };

    /// Whether every change is refused.
    fn is_read_only(&self) -> bool
        ensures { result ≡ (view self.now).is_read_only };

    /// Fills the buffer with the bytes from an offset on. After a refusal it may hold any bytes.
    fn read(&mut self, offset: u64, bytes: &mut [u8]) -> Result<(), Errno>
        ensures step { IsSameDevice (view self.old) (view self.new) }
        ensures fails { Fails (view self.old) (RefusesToRead (view self.old) (offset + length bytes.old)) result }
        ensures sound { Acts (view self.old) (view self.new)
            (λ done. Shows (view self.old) offset bytes.new × Stays (view self.old) (view self.new))
            (Stays (view self.old) (view self.new)) result };

    /// Writes bytes from an offset on. After a refusal some of them may be written.
    fn write(&mut self, offset: u64, bytes: &[u8]) -> Result<(), Errno>
        ensures step { IsSameDevice (view self.old) (view self.new) }
        ensures fails { Fails (view self.old) (RefusesToChange (view self.old) (offset + length bytes.now)) result }
        ensures sound { Acts (view self.old) (view self.new)
            (λ done. Writes offset bytes.now (view self.old) (view self.new))
            (MayWrite offset bytes.now (view self.old) (view self.new)) result };

    /// Whether `discard` and `zero` can do anything.
    fn can_clear(&self) -> bool;

    /// Zeroes whole units of a range, such as clusters, and releases their space. Returns the offset of the first unit and the number of bytes that
    /// were zeroed: those of the first whole units of the range, 0 if it has none.
    fn discard(&mut self, offset: u64, length: u64) -> Result<(u64, u64), Errno>
        ensures step { IsSameDevice (view self.old) (view self.new) }
        ensures fails { Fails (view self.old) (RefusesToChange (view self.old) (offset + length)) result }
        ensures sound { Acts (view self.old) (view self.new)
            (λ part. Clears offset length part (view self.old) (view self.new))
            (Stays (view self.old) (view self.new)) result };

    /// Like `discard`, but keeps the space allocated if possible.
    fn zero(&mut self, offset: u64, length: u64) -> Result<(u64, u64), Errno>
        ensures step { IsSameDevice (view self.old) (view self.new) }
        ensures fails { Fails (view self.old) (RefusesToChange (view self.old) (offset + length)) result }
        ensures sound { Acts (view self.old) (view self.new)
            (λ part. Clears offset length part (view self.old) (view self.new))
            (Stays (view self.old) (view self.new)) result };

    /// The state of the disk from an offset on, and for how many bytes, up to `max`, it is known to be the same.
    fn look_up(&mut self, offset: u64, max: u64) -> Result<(State, u64), Errno>
        ensures step { IsSameDevice (view self.old) (view self.new) }
        ensures fails { Fails (view self.old) IsFault result }
        ensures sound { Acts (view self.old) (view self.new)
            (λ found. Tells offset max found (view self.old) × Stays (view self.old) (view self.new))
            (Stays (view self.old) (view self.new)) result };

    /// Hands everything that was written to the file.
    fn flush(&mut self) -> Result<(), Errno>
        ensures step { IsSameDevice (view self.old) (view self.new) }
        ensures fails { Fails (view self.old) IsFault result }
        ensures flushed { OnOk result (Flushed self.old self.new) }
        ensures sound { Acts (view self.old) (view self.new) (λ done. Stays (view self.old) (view self.new))
            (Stays (view self.old) (view self.new)) result };

    /// Returns once everything that was flushed would survive a power loss.
    fn sync(&mut self) -> Result<(), Errno>
        ensures step { IsSameDevice (view self.old) (view self.new) }
        ensures fails { Fails (view self.old) IsFault result }
        ensures synced { OnOk result (Synced self.old self.new) }
        ensures sound { Acts (view self.old) (view self.new) (λ done. Stays (view self.old) (view self.new))
            (Stays (view self.old) (view self.new)) result };
}
