//! What a request does to a device.
ghost use Rattle.std.specs.Prelude.{◌≡◌, ◌+◌, ◌^◌, ◌<◌, ◌≤◌, ◌==◌, ◌&&◌, ◌||◌, All, IfOk, IsTrue, OnErr, OnOk, length, nat_lt, not, true};
ghost use Rattle.nbd_protocol.specs.Commands.{AreExtents, Does, HasPayload, IsChecked, IsLookedUp, MayDo, PersistsLast, Refused, changes, end_of, is_done, most, past_end, persists, refuses};
ghost use Rattle.nbd_protocol.specs.Devices.{Acts, ChangeFails, Clears, Fails, IsFault, IsSameDevice, MayZero, Persists, Shows, Stays, Tells, Trims, Zeroes};
ghost use Rattle.nbd_protocol.specs.declared.request.Command.TheVariants.{Write};

use crate::device::{Device, Errno, State};
use crate::replies::Extent;
use crate::request::{Command, Request};
use std::alloc::Global;

/// The greatest payload, in bytes.
pub(crate) const MOST: u32 = 32 << 20;

// The greatest number of zeros in one write.
const CHUNK: u64 = 65536;

// The greatest number of runs of the disk in one reply.
const EXTENTS: usize = 1024;

/// Flushes, and then syncs.
pub(crate) fn persist<D: Device>(device: &mut D) -> Result<(), Errno>
    ensures step { IsSameDevice (D.view device.old) (D.view device.new) }
    ensures fails { Fails (D.view device.old) IsFault result }
    ensures persisted { OnOk result (Persists D.Flushed D.Synced device.old device.new) }
    ensures last { OnOk result (PersistsLast D.Flushed D.Synced device.new) }
    ensures stays { Acts (D.view device.old) (D.view device.new) (λ done. Stays (D.view device.old) (D.view device.new))
        (Stays (D.view device.old) (D.view device.new)) result }
{
    device.flush()?;
    device.sync()
}

fn changes(command: Command) -> bool
    ensures { result ≡ changes command }
{
    matches!(
        command,
        Command::Write | Command::Trim | Command::WriteZeroes
    )
}

// The error for a range that ends past the end of the disk.
fn past_end(command: Command) -> Errno
    ensures { result ≡ past_end command }
{
    match command {
        Command::Write | Command::WriteZeroes => Errno::NoSpace,
        _ => Errno::Invalid,
    }
}

fn is_done(command: Command) -> bool
    ensures { result ≡ is_done command }
{
    matches!(
        command,
        Command::Write | Command::Flush | Command::Trim | Command::Cache | Command::WriteZeroes
    )
}

// Whether the range of a request ends past the end of the disk.
fn passes(request: &Request, size: u64) -> bool
    ensures { result ≡ nat_lt size (end_of request.now) }
{
    match request.offset.checked_add(u64::from(request.length)) {
        Some(end) => size < end,
        None => true,
    }
}

// Whether the command would change a read-only disk.
fn is_forbidden(read_only: bool, command: Command) -> bool
    ensures { result ≡ (changes command && read_only) }
{
    changes(command) && read_only
}

// Why a request is refused before anything is done.
fn refusal(read_only: bool, size: u64, meaningless: bool, request: &Request) -> Option<Errno>
    ensures { result ≡ refuses read_only size meaningless request.now }
{
    if request.flags.unknown {
        return Some(Errno::Invalid);
    }
    if is_forbidden(read_only, request.command) {
        return Some(Errno::NotPermitted);
    }
    if passes(request, size) {
        return Some(past_end(request.command));
    }
    if meaningless {
        return Some(Errno::Invalid);
    }
    None
}

/// Refuses a request that has an unknown flag, changes a read-only disk, has a range that ends past the end of the disk, or is meaningless.
pub(crate) fn check<D: Device>(
    device: &D,
    request: &Request,
    meaningless: bool,
) -> Result<(), Errno>
    ensures fits { OnOk result (end_of request.now < 2 ^ 64) }
    ensures within { OnOk result ((D.view device.now).is_sound → end_of request.now ≤ (D.view device.now).size) }
    ensures writable { OnOk result ((D.view device.now).is_read_only ≡ true → changes request.now.command ≡ true → ⊥) }
    ensures checked { IsChecked (D.view device.now) meaningless request.now result }
{
    match refusal(device.is_read_only(), device.size(), meaningless, request) {
        Some(error) => Err(error),
        None => Ok(()),
    }
}

// Discards the whole units of a range, until it has no more, if the device can.
fn trim<D: Device>(device: &mut D, offset: u64, length: u32) -> Result<(), Errno>
    requires { offset + length < 2 ^ 64 }
    ensures step { IsSameDevice (D.view device.old) (D.view device.new) }
    ensures fails { ChangeFails (D.view device.old) (offset + length) result }
    ensures sound { Acts (D.view device.old) (D.view device.new)
        (λ done. Trims offset (offset + length) (D.view device.old) (D.view device.new))
        (Trims offset (offset + length) (D.view device.old) (D.view device.new)) result }
{
    let mut at = offset;
    let mut rest = u64::from(length);
    for _ in 0..u64::MAX {
        if !device.can_clear() {
            break;
        }
        let (from, count) = device.discard(at, rest)?;
        if count == 0 {
            break;
        }
        let next = from.saturating_add(count);
        rest = rest.saturating_sub(next.saturating_sub(at));
        at = next;
    }
    Ok(())
}

// Zeroes whole units of a range.
fn clear<D: Device>(
    device: &mut D,
    offset: u64,
    length: u64,
    keeps_place: bool,
) -> Result<(u64, u64), Errno>
    ensures step { IsSameDevice (D.view device.old) (D.view device.new) }
    ensures fails { ChangeFails (D.view device.old) (offset + length) result }
    ensures sound { Acts (D.view device.old) (D.view device.new)
        (λ part. Clears offset length part (D.view device.old) (D.view device.new))
        (Stays (D.view device.old) (D.view device.new)) result }
{
    if keeps_place {
        device.zero(offset, length)
    } else {
        device.discard(offset, length)
    }
}

// Writes zeros to a range, piece by piece.
fn write_zeros<D: Device>(
    device: &mut D,
    zeros: &[u8],
    offset: u64,
    count: u64,
) -> Result<(), Errno>
    requires zeros { All (λ b. b ≡ 0) zeros.now }
    requires some { 0 < length zeros.now }
    requires fits { offset + count < 2 ^ 64 }
    ensures step { IsSameDevice (D.view device.old) (D.view device.new) }
    ensures fails { ChangeFails (D.view device.old) (offset + count) result }
    ensures sound { Acts (D.view device.old) (D.view device.new)
        (λ done. Zeroes offset (offset + count) (D.view device.old) (D.view device.new))
        (MayZero offset (offset + count) (D.view device.old) (D.view device.new)) result }
{
    let mut at = offset;
    let mut rest = count;
    while rest > 0 {
        let some = rest.min(zeros.len() as u64);
        device.write(at, &zeros[..some as usize])?;
        at += some;
        rest -= some;
    }
    Ok(())
}

// Makes a range read as zeros, from its start on: whole units are zeroed, and the bytes between them are written. Returns up to where.
fn zero_units<D: Device>(
    device: &mut D,
    zeros: &[u8],
    offset: u64,
    count: u64,
    keeps_place: bool,
) -> Result<u64, Errno>
    requires zeros { All (λ b. b ≡ 0) zeros.now }
    requires some { 0 < length zeros.now }
    requires fits { offset + count < 2 ^ 64 }
    ensures step { IsSameDevice (D.view device.old) (D.view device.new) }
    ensures fails { ChangeFails (D.view device.old) (offset + count) result }
    ensures within { IfOk result (λ at. (offset ≤ at) × (at ≤ offset + count)) }
    ensures zeroes { Acts (D.view device.old) (D.view device.new)
        (λ at. Zeroes offset at (D.view device.old) (D.view device.new))
        (MayZero offset (offset + count) (D.view device.old) (D.view device.new)) result }
{
    let mut at = offset;
    let mut rest = count;
    for _ in 0..u64::MAX {
        let (from, cleared) = clear(device, at, rest, keeps_place)?;
        if cleared == 0 {
            break;
        }
        let cut = from.saturating_sub(at).min(rest);
        write_zeros(device, zeros, at, cut)?;
        let done = cut.saturating_add(cleared).min(rest);
        at += done;
        rest -= done;
    }
    Ok(at)
}

// Makes a range read as zeros: whole units without a write, if the device can, and the rest by writes.
fn zero<D: Device>(
    device: &mut D,
    zeros: &[u8],
    offset: u64,
    count: u64,
    keeps_place: bool,
) -> Result<(), Errno>
    requires zeros { All (λ b. b ≡ 0) zeros.now }
    requires some { 0 < length zeros.now }
    requires fits { offset + count < 2 ^ 64 }
    ensures step { IsSameDevice (D.view device.old) (D.view device.new) }
    ensures fails { ChangeFails (D.view device.old) (offset + count) result }
    ensures sound { Acts (D.view device.old) (D.view device.new)
        (λ done. Zeroes offset (offset + count) (D.view device.old) (D.view device.new))
        (MayZero offset (offset + count) (D.view device.old) (D.view device.new)) result }
{
    if count == 0 || !device.can_clear() {
        return write_zeros(device, zeros, offset, count);
    }
    let at = zero_units(device, zeros, offset, count, keeps_place)?;
    write_zeros(device, zeros, at, offset + count - at)
}

// Fills a buffer with zeros, and writes them if nothing else can zero a range.
fn write_zeroes<D: Device>(
    device: &mut D,
    request: &Request,
    buffer: &mut Vec<u8>,
) -> Result<(), Errno>
    requires { end_of request.now < 2 ^ 64 }
    ensures step { IsSameDevice (D.view device.old) (D.view device.new) }
    ensures fails { ChangeFails (D.view device.old) (end_of request.now) result }
    ensures sound { Acts (D.view device.old) (D.view device.new)
        (λ done. Zeroes request.now.offset (end_of request.now) (D.view device.old) (D.view device.new))
        (MayZero request.now.offset (end_of request.now) (D.view device.old) (D.view device.new)) result }
{
    let length = u64::from(request.length);
    buffer.clear();
    buffer.resize(CHUNK as usize, 0)?;
    zero(
        device,
        buffer,
        request.offset,
        length,
        request.flags.keeps_place,
    )
}

// Whether the request is FLUSH or has FUA.
fn persists(request: &Request) -> bool
    ensures { result ≡ persists request.now }
{
    request.flags.durable || matches!(request.command, Command::Flush)
}

/// Does what a request without a payload in its reply asks for. The buffer holds the payload of a write, and any bytes afterwards.
pub(crate) fn perform<D: Device>(
    device: &mut D,
    request: &Request,
    buffer: &mut Vec<u8>,
) -> Result<(), Errno>
    ensures step { IsSameDevice (D.view device.old) (D.view device.new) }
    ensures fails { HasPayload request.now buffer.old.items
        → Refused (D.view device.old) (not (is_done request.now.command)) request.now result }
    ensures does { Acts (D.view device.old) (D.view device.new)
        (λ done. Does request.now.command request.now buffer.old.items (D.view device.old) (D.view device.new))
        (MayDo request.now.command request.now buffer.old.items (D.view device.old) (D.view device.new)) result }
    ensures persisted { IsTrue (persists request.now) → OnOk result (PersistsLast D.Flushed D.Synced device.new) }
{
    check(device, request, !is_done(request.command))?;
    change(device, request, buffer)?;
    if persists(request) {
        return persist(device);
    }
    Ok(())
}

// The change that a request asks for.
fn change<D: Device>(device: &mut D, request: &Request, buffer: &mut Vec<u8>) -> Result<(), Errno>
    requires { end_of request.now < 2 ^ 64 }
    ensures step { IsSameDevice (D.view device.old) (D.view device.new) }
    ensures fails { HasPayload request.now buffer.old.items → IsTrue (is_done request.now.command)
        → ChangeFails (D.view device.old) (end_of request.now) result }
    ensures changes { IsTrue (is_done request.now.command) → OnErr result (IsTrue (changes request.now.command)) }
    ensures failed { IsTrue (D.view device.old).is_failed → request.now.command ≡ Write → OnOk result ⊥ }
    ensures does { Acts (D.view device.old) (D.view device.new)
        (λ done. Does request.now.command request.now buffer.old.items (D.view device.old) (D.view device.new))
        (MayDo request.now.command request.now buffer.old.items (D.view device.old) (D.view device.new)) result }
{
    match request.command {
        Command::Write => device.write(request.offset, buffer),
        Command::Trim => trim(device, request.offset, request.length),
        Command::WriteZeroes => write_zeroes(device, request, buffer),
        Command::Flush => Ok(()),
        Command::Cache => Ok(()),
        _ => Err(Errno::Invalid),
    }
}

/// Fills a buffer with the bytes that a read asks for. After a refusal it may hold any bytes.
pub(crate) fn read_disk<D: Device>(
    device: &mut D,
    request: &Request,
    buffer: &mut Vec<u8>,
) -> Result<(), Errno>
    ensures step { IsSameDevice (D.view device.old) (D.view device.new) }
    ensures fails { Refused (D.view device.old) (request.now.length == 0 || nat_lt most request.now.length)
        request.now result }
    ensures count { OnOk result (length buffer.new.items ≡ request.now.length) }
    ensures within { OnOk result ((D.view device.old).is_sound → end_of request.now ≤ (D.view device.old).size) }
    ensures few { OnOk result (request.now.length ≤ most) }
    ensures shows { Acts (D.view device.old) (D.view device.new)
        (λ done. Shows (D.view device.old) request.now.offset buffer.new.items
        × Stays (D.view device.old) (D.view device.new))
        (Stays (D.view device.old) (D.view device.new)) result }
{
    check(
        device,
        request,
        request.length == 0 || request.length > MOST,
    )?;
    buffer.resize(request.length as usize, 0)?;
    device.read(request.offset, buffer)
}

// The state of the disk from an offset on, and for how many bytes it is the same, by one lookup after another.
fn run_at<D: Device>(device: &mut D, offset: u64, max: u64) -> Result<(State, u64), Errno>
    requires { offset + max < 2 ^ 64 }
    ensures step { IsSameDevice (D.view device.old) (D.view device.new) }
    ensures fails { Fails (D.view device.old) IsFault result }
    ensures within { IfOk result (λ found. found.1 ≤ max) }
    ensures sound { Acts (D.view device.old) (D.view device.new)
        (λ found. Tells offset max found (D.view device.old) × Stays (D.view device.old) (D.view device.new))
        (Stays (D.view device.old) (D.view device.new)) result }
{
    let (state, count) = device.look_up(offset, max)?;
    let mut done = count.min(max);
    for _ in 0..EXTENTS {
        if done == max {
            break;
        }
        let (next, count) = device.look_up(offset + done, max - done)?;
        if next != state || count == 0 {
            break;
        }
        done += count.min(max - done);
    }
    Ok((state, done))
}

/// The runs of the disk that a request asks for: one, or all of the range, up to 1,024.
pub(crate) fn extents<D: Device>(
    alloc: Global,
    device: &mut D,
    request: &Request,
) -> Result<Vec<Extent>, Errno>
    ensures step { IsSameDevice (D.view device.old) (D.view device.new) }
    ensures fails { Refused (D.view device.old) (request.now.length == 0) request.now result }
    ensures answer { IfOk result (λ found. IsLookedUp request.now found.items) }
    ensures sound { Acts (D.view device.old) (D.view device.new) (λ found.
        AreExtents (D.view device.old) request.now.offset found.items × Stays (D.view device.old) (D.view device.new))
        (Stays (D.view device.old) (D.view device.new)) result }
{
    check(device, request, request.length == 0)?;
    let most = if request.flags.one_extent { 1 } else { EXTENTS };
    let mut found = Vec::new(alloc);
    let mut done = 0;
    for _ in 0..most {
        let rest = u64::from(request.length - done);
        let (state, count) = run_at(device, request.offset + u64::from(done), rest)?;
        if count == 0 {
            break;
        }
        found.push(Extent {
            length: count as u32,
            state,
        })?;
        done += count as u32;
    }
    if found.is_empty() {
        return Err(Errno::Io);
    }
    Ok(found)
}
