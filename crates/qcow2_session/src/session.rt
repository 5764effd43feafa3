//! Commands, one after another, on one image.
ghost use Rattle.qcow2_session.specs.CallSteps.{AnswersCommand, ReadingParts, RefusesToRead, RunStep};
ghost use Rattle.qcow2_session.specs.CallSteps.{RefusesToWrite, ReleasingStep, SpecialStep, WriteFails, WriteStep};
ghost use Rattle.qcow2_session.specs.CallSteps.{WritesPart, WritesPartSoundly, WritingParts, WroteSoundly};
ghost use Rattle.std.specs.Prelude.{◌≡◌, ◌+◌, ◌≤◌, ◌<◌, ◌++◌, ◌∷◌, List, [], length, vec_len, IfSome};
ghost use Rattle.std.specs.Prelude.{IfErr, IfOk, OnOk, Option, None, Some, Err, true, ◌-◌, replicate};
ghost use Rattle.qcow2_alloc.specs.declared.error.ImageError.TheVariants.{Memory, OutdatedMapping};
ghost use Rattle.qcow2_alloc.specs.ImageFile.{known_in};
ghost use Rattle.qcow2_image.specs.BehindHeader.{PreservesHeaderCluster};
ghost use Rattle.qcow2_image.specs.Found.{IsFoundWhole, further_by};
ghost use Rattle.qcow2_image.specs.MayFail.{IsCacheHeld, MayFailMapped, MayFailReadingRange};
ghost use Rattle.qcow2_image.specs.HeldMappings.{RefusesHeld};
ghost use Rattle.qcow2_image.specs.Image.{IsSameImage, is_failed, number_of, KeepsWholeHeader};
ghost use Rattle.qcow2_image.specs.Prepared.{image_of};
ghost use Rattle.qcow2_image.specs.ImageInvariant.{abstract_of, Mappings};
ghost use Rattle.qcow2_image.specs.Calls.{Discards};
ghost use Rattle.qcow2_image.specs.LookupCauses.{MayFailReadingFound};
ghost use Rattle.qcow2_session.specs.ReadCauses.{MayFailReadingFrom};
ghost use Rattle.qcow2_image.specs.Refusals.{unusable, refuses_mapping, refuses_to_read};
ghost use Rattle.qcow2_image.specs.Faults.{SameFaults};
ghost use Rattle.qcow2_session.specs.Sessions.{IsRightlyBeyond, IsOfReading};
ghost use Rattle.qcow2_session.specs.Sessions.{Reads, ReadsInto};
ghost use Rattle.qcow2_session.specs.Sessions.{ReadsFirst, Writes, WritesFirst, ReleasesMappings};
ghost use Rattle.qcow2_session.specs.Sessions.{RunsThrough, RunRefinesDisk, LookupsFindContents};
ghost use Rattle.qcow2_image.specs.declared.mapping.Mapping.{Mapping};
ghost use Rattle.qcow2_image.specs.Ranges.{ReleasesOneMapping};
ghost use Rattle.qcow2_session.specs.Commands.{reply_of_write};
ghost use Rattle.qcow2_session.specs.Told.{StaysQuiet};
ghost use Rattle.qcow2_session.specs.Told.{ReportsMatchImage};
ghost use Rattle.qcow2_image.specs.declared.prepared.Prepared.{Prepared};

use crate::clearing::{discard_to_any, discard_to_backing, discard_to_zero, ensure_zero};
use crate::sizing::{grow, shrink};
use crate::slots::Slots;
use crate::special::{readv_special, try_readv_special};
use image_access::{PreallocateMode, Storage, WrappedFormat};
use qcow2_image::{CommitRefused, ImageError, Mapping, Prepared, Qcow2};
use std::alloc::Global;

/// A call on an image. There are 256 slots for prepared mappings, and 256 for lookups. Offsets, lengths and sizes are in bytes. The reply
/// to a refused call is `Refused`, except for `Write` and `Fill`.
#[derive(Drop)]
pub enum Command {
    /// `read` from a guest offset on. Reply: `Bytes`.
    Read {
        offset: u64,
        length: u64,
    },
    /// `write` from a guest offset on. Reply: `Done` or `WriteRefused`.
    Write {
        offset: u64,
        bytes: Vec<u8>,
    },
    /// `fill`: writes the same byte over a range. Reply: `Done` or `WriteRefused`.
    Fill {
        offset: u64,
        length: u64,
        byte: u8,
    },
    /// `get_mapping` from a guest offset on, up to `max` bytes, into a slot for lookups. Reply: `Mapping`.
    GetMapping {
        slot: u8,
        offset: u64,
        max: u64,
    },
    /// `read_mapped` from offset `at` in the lookup of a slot on. Reply: `Bytes` or `Misuse`.
    ReadMapped {
        slot: u8,
        at: u64,
        length: u64,
    },
    /// `prepare_data_mapping` of a range, into an empty slot. Reply: `Prepared` or `Misuse`.
    PrepareDataMapping {
        slot: u8,
        offset: u64,
        length: u64,
        overwrite: bool,
    },
    /// `write_mapped` from offset `at` in the prepared mapping of a slot on. Reply: `Done` or `Misuse`.
    WriteMapped {
        slot: u8,
        at: u64,
        bytes: Vec<u8>,
    },
    /// `commit_data_mapping` of the mapping in a slot, which is then empty, unless the mapping is returned. Reply: `Done` or `Misuse`.
    CommitDataMapping {
        slot: u8,
    },
    /// `discard_data_mapping` of the mapping in a slot, which is then empty. Reply: `Done` or `Misuse`.
    DiscardDataMapping {
        slot: u8,
    },
    /// `ensure_zero_mapping` of a range. Reply: `Range`.
    EnsureZeroMapping {
        offset: u64,
        length: u64,
    },
    /// `discard_to_zero_unsafe` of a range. Reply: `Range`.
    DiscardToZero {
        offset: u64,
        length: u64,
    },
    /// `discard_to_any_unsafe` of a range. Reply: `Range`.
    DiscardToAny {
        offset: u64,
        length: u64,
    },
    /// `discard_to_backing_unsafe` of a range. Reply: `Range`.
    DiscardToBacking {
        offset: u64,
        length: u64,
    },
    /// `readv_special` from a guest offset on. Reply: `Done`.
    ReadvSpecial {
        offset: u64,
        length: u64,
    },
    /// `try_readv_special` from a guest offset on. Reply: `NotCompressed`.
    TryReadvSpecial {
        offset: u64,
        length: u64,
    },
    /// `flush`. Reply: `Done`.
    Flush,
    /// `sync`. Reply: `Done`.
    Sync,
    /// `invalidate_cache`, which drops everything that is not flushed. Reply: `Done`.
    InvalidateCache,
    /// `resize_grow` to a size, in a mode. Reply: `Done`.
    ResizeGrow {
        size: u64,
        mode: PreallocateMode,
    },
    /// `resize_shrink` to a size. Reply: `Shrunk`.
    ResizeShrink {
        size: u64,
    },
    /// `size`, which is never refused. Reply: `Size`.
    Size,
    /// `leaked_clusters`, which is never refused. Reply: `Leaked`.
    Leaked,
}

/// The reply to a command.
#[derive(Debug, PartialEq, Drop)]
pub enum Reply {
    /// The call succeeded.
    Done,
    /// The bytes that were read.
    Bytes(Vec<u8>),
    /// The mapping of a range, with its length.
    Mapping(Mapping),
    /// The host offset and the length of a prepared mapping, and whether it is existing.
    Prepared {
        offset: u64,
        length: u64,
        existing: bool,
    },
    /// Where the first whole cluster of a range begins, and how many bytes from there on were zeroed or discarded.
    Range {
        offset: u64,
        length: u64,
    },
    /// The offset of a range that doesn't begin in a compressed cluster; None for no bytes.
    NotCompressed(Option<u64>),
    /// The offset up to which the tail of a smaller disk was discarded, or the old size if the disk isn't smaller.
    Shrunk(u64),
    /// The size of the guest's disk, in bytes.
    Size(u64),
    /// How many clusters could not be freed.
    Leaked(u64),
    /// The call was refused.
    Refused(ImageError),
    /// A write was refused after this many leading bytes were written.
    WriteRefused(ImageError, u64),
    /// The slot is empty or already in use, or the range passes the end of the slot's mapping. No call was made.
    Misuse,
}

/// Reads bytes of the guest's disk, from an offset in bytes on.
/// Refused in this order: 16 (failed), 12 (dependency), 2 (beyond size) for a range of at least one byte that ends past the size. May be refused
/// 4 (unaligned table), 7 (compressed), 8 (everything is in use), 14 (memory) or 15 (storage) during the work, and 14 if there is
/// no memory for the bytes.
pub fn read<S: Storage, F: WrappedFormat<S>>(
    alloc: Global,
    image: &mut Qcow2<S, F>,
    offset: u64,
    length: u64,
) -> Result<Vec<u8>, ImageError>
    ensures step { ReadingParts S.view F.backing image.old image.new result }
    ensures fails { RefusesToRead S.view F.backing image.old image.new result offset length }
    ensures sees { Reads S.view F.backing image.old image.new offset length result }
{
    image.check_read(offset, length)?;
    let Ok(count) = usize::try_from(length) else {
        return Err(ImageError::Memory);
    };
    let mut bytes = zeros(alloc, count)?;
    read_into(image, offset, &mut bytes)?;
    Ok(bytes)
}

// A list of zeros. An empty one needs no memory.
pub(crate) fn zeros(alloc: Global, count: usize) -> Result<Vec<u8>, ImageError>
    ensures len { IfOk result (λ bytes. vec_len bytes ≡ count) }
    ensures cause { IfErr result (λ e. (e ≡ Memory) × (0 < count)) }
{
    repeated(alloc, 0, count)
}

// A list that repeats a byte. An empty one needs no memory.
fn repeated(alloc: Global, byte: u8, count: usize) -> Result<Vec<u8>, ImageError>
    ensures items { IfOk result (λ bytes. bytes.items ≡ replicate count byte) }
    ensures cause { IfErr result (λ e. (e ≡ Memory) × (0 < count)) }
{
    if count == 0 {
        return Ok(Vec::new(alloc));
    }
    Ok(vec![in alloc; byte; count]?)
}

/// Fills the buffer with the guest's bytes, from an offset in bytes on. The range may cross clusters and tables. After a refusal the
/// buffer may hold any bytes.
/// Refused in this order: 16 (failed), 12 (dependency), 2 (beyond size) for a range of at least one byte that ends past the size. May be refused
/// 4 (unaligned table), 7 (compressed), 8 (everything is in use), 14 (memory) or 15 (storage) during the work.
pub fn read_into<S: Storage, F: WrappedFormat<S>>(
    image: &mut Qcow2<S, F>,
    offset: u64,
    bytes: &mut [u8],
) -> Result<(), ImageError>
    ensures step { ReadingParts S.view F.backing image.old image.new result }
    ensures fails { RefusesToRead S.view F.backing image.old image.new result offset (length bytes.old) }
    ensures sees { ReadsInto S.view F.backing image.old image.new offset bytes.new result }
{
    image.check_read(offset, bytes.len() as u64)?;
    let mut done = 0;
    while done < bytes.len() {
        let Some(at) = offset.checked_add(done as u64) else {
            return Err(ImageError::BeyondSize);
        };
        done += read_some(image, at, &mut bytes[done..])?;
    }
    Ok(())
}

// Reads at least the first bytes, and returns how many.
fn read_some<S: Storage, F: WrappedFormat<S>>(
    image: &mut Qcow2<S, F>,
    offset: u64,
    bytes: &mut [u8],
) -> Result<usize, ImageError>
    ensures step { ReadingParts S.view F.backing image.old image.new result }
    ensures some { IfOk result (λ n. 0 < n) }
    ensures within { IfOk result (λ n. n ≤ length bytes.old) }
    ensures late { refuses_to_read image.old offset (length bytes.old) ≡ None → 0 < length bytes.old
        → IfErr result (MayFailReadingFrom image.new offset (offset + length bytes.old)) }
    ensures may_fail { refuses_to_read image.old offset (length bytes.old) ≡ None → 0 < length bytes.old
        → (out : Mappings) → (abstract_of S.view F.backing image.old out).is_sound
        → IfErr result (MayFailReadingRange out offset (offset + length bytes.old) image.old.file.header.fields
        (known_in S.view image.old.file)) }
    ensures beyond { 0 < length bytes.old → IfErr result (IsRightlyBeyond image.old offset (length bytes.old)) }
    ensures cause { IfErr result IsOfReading }
    ensures sees { ReadsFirst S.view F.backing image.old image.new offset bytes.new result }
{
    let (mapping, found) = image.get_mapping(offset, bytes.len() as u64)?;
    let count = found as usize;
    if count == 0 {
        return Err(ImageError::BeyondSize);
    }
    image.read_mapped(&mapping, 0, &mut bytes[..count])?;
    Ok(count)
}

/// Writes bytes to the guest's disk, from an offset in bytes on. A refusal says how many leading bytes were written. On a sound image
/// these are none, or end at a cluster boundary.
/// Refused in this order: 16 (failed), 12 (dependency), 2 (beyond size) for a range of at least one byte that ends past the size,
/// 1 (read-only) for at least one byte; then 9 (table prepared), if a mapping that isn't existing is prepared in an L2 table of
/// the range. May be refused 4 (unaligned table), 7 (compressed), 8 (everything is in use), 13 (limit), 14 (memory) or
/// 15 (storage) during the work, and 20 (overflow) if an L1 entry past 64 bits would have to be written.
pub fn write<S: Storage, F: WrappedFormat<S>>(
    image: &mut Qcow2<S, F>,
    offset: u64,
    bytes: &[u8],
) -> Result<(), (ImageError, u64)>
    ensures step { WriteStep S.view F.backing image.old image.new result }
    ensures fails { WriteFails S.view F.backing image.old image.new result offset (length bytes.now) }
    ensures sound { (out : Mappings) → (abstract_of S.view F.backing image.old out).is_sound
        → WroteSoundly S.view F.backing image.old image.new result offset bytes.now out }
    ensures sees { Writes S.view F.backing image.old image.new offset bytes.now result }
{
    let mut done = match write_some(image, offset, bytes) {
        Ok(count) => count,
        Err(refusal) => return Err((refusal, 0)),
    };
    while done < bytes.len() {
        let Some(at) = offset.checked_add(done as u64) else {
            return Err((ImageError::BeyondSize, done as u64));
        };
        match write_some(image, at, &bytes[done..]) {
            Ok(count) => done += count,
            Err(refusal) => return Err((refusal, done as u64)),
        }
    }
    Ok(())
}

/// Writes the same byte over a range of the guest's disk, by one `write` of as many bytes. A refusal says how many leading bytes were written.
/// Refused as `write`. Refusals 16, 12, 2 and 1 come before memory for the bytes is allocated. If there is none, the call is refused 14, and the
/// image stays the same.
pub fn fill<S: Storage, F: WrappedFormat<S>>(
    alloc: Global,
    image: &mut Qcow2<S, F>,
    offset: u64,
    length: u64,
    byte: u8,
) -> Result<(), (ImageError, u64)>
    ensures step { WriteStep S.view F.backing image.old image.new result }
    ensures fails { WriteFails S.view F.backing image.old image.new result offset length }
    ensures sound { (out : Mappings) → (abstract_of S.view F.backing image.old out).is_sound
        → WroteSoundly S.view F.backing image.old image.new result offset (replicate length byte) out }
    ensures sees { Writes S.view F.backing image.old image.new offset (replicate length byte) result }
{
    if let Err(refusal) = image.check_prepare(offset, length) {
        return Err((refusal, 0));
    }
    match repeated(alloc, byte, length as usize) {
        Ok(bytes) => write(image, offset, &bytes),
        Err(lacking) => Err((lacking, 0)),
    }
}

// Writes at least the first bytes, and returns how many. For no bytes, checks whether they could be written.
fn write_some<S: Storage, F: WrappedFormat<S>>(
    image: &mut Qcow2<S, F>,
    offset: u64,
    bytes: &[u8],
) -> Result<usize, ImageError>
    ensures step { WritingParts S.view F.backing image.old image.new result }
    ensures fails { RefusesToWrite S.view F.backing image.old image.new result offset (length bytes.now) }
    ensures answers { WritesPart S.view F.backing image.old image.new offset bytes.now result }
    ensures sound { (out : Mappings) → (abstract_of S.view F.backing image.old out).is_sound
        → WritesPartSoundly S.view F.backing image.old image.new offset bytes.now out result }
    ensures sees { WritesFirst S.view F.backing image.old image.new offset bytes.now result }
{
    let prepared = image.prepare_data_mapping(offset, bytes.len() as u64, true)?;
    let count = bytes.len().min(prepared.length() as usize);
    if let Err(refusal) = image.write_mapped(&prepared, 0, &bytes[..count]) {
        release(image, prepared);
        return Err(refusal);
    }
    match image.commit_data_mapping(prepared) {
        Ok(()) => Ok(count),
        Err(CommitRefused::Spent(refusal)) => Err(refusal),
        Err(CommitRefused::Kept(refusal, prepared)) => {
            release(image, prepared);
            Err(refusal)
        }
    }
}

// Drops a mapping of the image.
fn release<S: Storage, F: WrappedFormat<S>>(image: &mut Qcow2<S, F>, prepared: Prepared)
    requires { image_of prepared ≡ number_of image.old }
    ensures image { IsSameImage image.old image.new }
    ensures rest { ReleasesOneMapping S.view image.old image.new }
    ensures faults { SameFaults S.view F.backing image.old image.new }
    ensures header { KeepsWholeHeader image.old image.new }
    ensures header_cluster { PreservesHeaderCluster S.view image.old image.new }
    ensures marks { is_failed image.new ≡ is_failed image.old }
    ensures sees { Discards S.view F.backing image.old image.new prepared }
{
    match image.discard_data_mapping(prepared) {
        Ok(()) => {}
        Err((_, _kept)) => unreachable!(),
    }
}

/// Answers each command. If there is no memory for the replies or the slots, the result is empty, and no call was made. Mappings that are
/// in slots at the end are dropped.
pub fn run<S: Storage, F: WrappedFormat<S>>(
    alloc: Global,
    image: &mut Qcow2<S, F>,
    commands: &[Command],
) -> Vec<Reply>
    ensures step { RunStep S.view F.backing image.old image.new commands.now result }
    ensures runs { RunsThrough S.view F.backing image.old image.new commands.now result.items }
    ensures means { RunRefinesDisk S.view F.backing image.old image.new commands.now result.items }
    ensures reports { ReportsMatchImage S.view F.backing image.old image.new commands.now result.items }
    ensures maps { LookupsFindContents S.view F.backing image.old image.new commands.now result.items }
    ensures quiet { StaysQuiet S.view image.old image.new }
{
    let Ok(mut replies) = Vec::with_capacity(alloc, commands.len()) else {
        return Vec::new(alloc);
    };
    let Some(mut slots) = Slots::new(alloc, image.number()) else {
        return Vec::new(alloc);
    };
    for command in commands {
        let reply = step(alloc, image, &mut slots, command);
        replies.push_reserved(reply);
    }
    discard_all(image, slots);
    replies
}

// Answers one command.
fn step<S: Storage, F: WrappedFormat<S>>(
    alloc: Global,
    image: &mut Qcow2<S, F>,
    slots: &mut Slots,
    command: &Command,
) -> Reply
    requires { slots.old.image ≡ number_of image.old }
    ensures { AnswersCommand S.view F.backing image.old image.new slots.old slots.new command.now result }
{
    match command {
        Command::Read { offset, length } => match read(alloc, image, *offset, *length) {
            Ok(bytes) => Reply::Bytes(bytes),
            Err(refusal) => Reply::Refused(refusal),
        },
        Command::Write { offset, bytes } => write_reply(write(image, *offset, bytes)),
        Command::Fill {
            offset,
            length,
            byte,
        } => write_reply(fill(alloc, image, *offset, *length, *byte)),
        Command::GetMapping { slot, offset, max } => {
            get_mapping(image, slots, *slot, *offset, *max)
        }
        Command::ReadMapped { slot, at, length } => {
            read_mapped(alloc, image, slots, *slot, *at, *length)
        }
        Command::PrepareDataMapping {
            slot,
            offset,
            length,
            overwrite,
        } => prepare(image, slots, *slot, *offset, *length, *overwrite),
        Command::WriteMapped { slot, at, bytes } => write_mapped(image, slots, *slot, *at, bytes),
        Command::CommitDataMapping { slot } => commit(image, slots, *slot),
        Command::DiscardDataMapping { slot } => discard(image, slots, *slot),
        Command::EnsureZeroMapping { offset, length } => ensure_zero(image, *offset, *length),
        Command::DiscardToZero { offset, length } => discard_to_zero(image, *offset, *length),
        Command::DiscardToAny { offset, length } => discard_to_any(image, *offset, *length),
        Command::DiscardToBacking { offset, length } => discard_to_backing(image, *offset, *length),
        Command::ReadvSpecial { offset, length } => readv_special(alloc, image, *offset, *length),
        Command::TryReadvSpecial { offset, length } => {
            try_readv_special(alloc, image, *offset, *length)
        }
        Command::Flush => flush(image),
        Command::Sync => sync(image),
        Command::InvalidateCache => invalidate(image),
        Command::ResizeGrow { size, mode } => grow(image, *size, *mode),
        Command::ResizeShrink { size } => shrink(image, *size),
        Command::Size => Reply::Size(image.size()),
        Command::Leaked => Reply::Leaked(image.leaked_clusters()),
    }
}

fn write_reply(answer: Result<(), (ImageError, u64)>) -> Reply
    ensures { result ≡ reply_of_write answer }
{
    match answer {
        Ok(()) => Reply::Done,
        Err((refusal, done)) => Reply::WriteRefused(refusal, done),
    }
}

fn get_mapping<S: Storage, F: WrappedFormat<S>>(
    image: &mut Qcow2<S, F>,
    slots: &mut Slots,
    slot: u8,
    offset: u64,
    max: u64,
) -> Reply
    requires { slots.old.image ≡ number_of image.old }
    ensures { AnswersCommand S.view F.backing image.old image.new slots.old slots.new
        (Command.GetMapping slot offset max) result }
{
    match image.get_mapping(offset, max) {
        Ok((mapping, _)) => {
            slots.mappings[usize::from(slot)] = Some(mapping);
            Reply::Mapping(mapping)
        }
        Err(refusal) => Reply::Refused(refusal),
    }
}

fn read_mapped<S: Storage, F: WrappedFormat<S>>(
    alloc: Global,
    image: &mut Qcow2<S, F>,
    slots: &Slots,
    slot: u8,
    at: u64,
    length: u64,
) -> Reply
    requires { slots.now.image ≡ number_of image.old }
    ensures { AnswersCommand S.view F.backing image.old image.new slots.now slots.now
        (Command.ReadMapped slot at length) result }
{
    let Some(mapping) = slots.mappings[usize::from(slot)] else {
        return Reply::Misuse;
    };
    if at > mapping.length || length > mapping.length - at {
        return Reply::Misuse;
    }
    match read_range(alloc, image, &mapping, at, length) {
        Ok(bytes) => Reply::Bytes(bytes),
        Err(refusal) => Reply::Refused(refusal),
    }
}

// Reads a part of a mapping.
fn read_range<S: Storage, F: WrappedFormat<S>>(
    alloc: Global,
    image: &mut Qcow2<S, F>,
    mapping: &Mapping,
    at: u64,
    length: u64,
) -> Result<Vec<u8>, ImageError>
    requires { at + length ≤ mapping.now.length }
    ensures step { SpecialStep S.view F.backing image.old image.new result }
    ensures early { IfSome (unusable image.old) (λ e. (result ≡ Err e) × (image.new ≡ image.old)) }
    ensures late { refuses_mapping image.old mapping.now.image ≡ None → IfErr result (λ e.
        MayFailReadingFound image.old image.new (mapping.now.offset + at) length e × (0 < length)
        × RefusesHeld image.old image.new (mapping.now.offset + at) (further_by at mapping.now.kind) length e) }
    ensures may_fail { refuses_mapping image.old mapping.now.image ≡ None → (out : Mappings)
        → (abstract_of S.view F.backing image.old out).is_sound
        → IfErr result (MayFailMapped (IsCacheHeld image.old out) (further_by at mapping.now.kind)
        (IsFoundWhole S.view image.old (mapping.now.offset + at) (further_by at mapping.now.kind) length)) }
    ensures outdated { (out : Mappings) → (abstract_of S.view F.backing image.old out).is_sound → result ≡ Err OutdatedMapping
        → ¬ IsFoundWhole S.view image.old (mapping.now.offset + at) (further_by at mapping.now.kind) length }
    ensures mapped { 0 < length → (out : Mappings) → (abstract_of S.view F.backing image.old out).is_sound
        → OnOk result (IsFoundWhole S.view image.old (mapping.now.offset + at)
        (further_by at mapping.now.kind) length) }
    ensures sees { Reads S.view F.backing image.old image.new (mapping.now.offset + at) length result }
{
    image.check_read(0, 0)?;
    let mut bytes = zeros(alloc, length as usize)?;
    image.read_mapped(mapping, at, &mut bytes)?;
    Ok(bytes)
}

fn prepare<S: Storage, F: WrappedFormat<S>>(
    image: &mut Qcow2<S, F>,
    slots: &mut Slots,
    slot: u8,
    offset: u64,
    length: u64,
    overwrite: bool,
) -> Reply
    requires { slots.old.image ≡ number_of image.old }
    ensures { AnswersCommand S.view F.backing image.old image.new slots.old slots.new
        (Command.PrepareDataMapping slot offset length overwrite) result }
{
    if slots.get(slot).is_some() {
        return Reply::Misuse;
    }
    match image.prepare_data_mapping(offset, length, overwrite) {
        Err(refusal) => Reply::Refused(refusal),
        Ok(prepared) => {
            let reply = Reply::Prepared {
                offset: prepared.offset(),
                length: prepared.length(),
                existing: prepared.is_nonblocking(),
            };
            slots.fill(slot, prepared);
            reply
        }
    }
}

fn write_mapped<S: Storage, F: WrappedFormat<S>>(
    image: &mut Qcow2<S, F>,
    slots: &Slots,
    slot: u8,
    at: u64,
    bytes: &Vec<u8>,
) -> Reply
    requires { slots.now.image ≡ number_of image.old }
    ensures { AnswersCommand S.view F.backing image.old image.new slots.now slots.now
        (Command.WriteMapped slot at bytes.now) result }
{
    let Some(prepared) = slots.get(slot) else {
        return Reply::Misuse;
    };
    let length = prepared.length();
    if at > length || bytes.len() as u64 > length - at {
        return Reply::Misuse;
    }
    match image.write_mapped(prepared, at, bytes) {
        Ok(()) => Reply::Done,
        Err(refusal) => Reply::Refused(refusal),
    }
}

fn commit<S: Storage, F: WrappedFormat<S>>(
    image: &mut Qcow2<S, F>,
    slots: &mut Slots,
    slot: u8,
) -> Reply
    requires { slots.old.image ≡ number_of image.old }
    ensures { AnswersCommand S.view F.backing image.old image.new slots.old slots.new
        (Command.CommitDataMapping slot) result }
{
    let Some(prepared) = slots.put(slot, None) else {
        return Reply::Misuse;
    };
    match image.commit_data_mapping(prepared) {
        Ok(()) => Reply::Done,
        Err(CommitRefused::Spent(refusal)) => Reply::Refused(refusal),
        Err(CommitRefused::Kept(refusal, prepared)) => {
            slots.fill(slot, prepared);
            Reply::Refused(refusal)
        }
    }
}

fn discard<S: Storage, F: WrappedFormat<S>>(
    image: &mut Qcow2<S, F>,
    slots: &mut Slots,
    slot: u8,
) -> Reply
    requires { slots.old.image ≡ number_of image.old }
    ensures { AnswersCommand S.view F.backing image.old image.new slots.old slots.new
        (Command.DiscardDataMapping slot) result }
{
    match slots.put(slot, None) {
        None => Reply::Misuse,
        Some(prepared) => {
            release(image, prepared);
            Reply::Done
        }
    }
}

fn flush<S: Storage, F: WrappedFormat<S>>(image: &mut Qcow2<S, F>) -> Reply
    ensures { (slots : Slots) → AnswersCommand S.view F.backing image.old image.new slots slots Command.Flush result }
{
    if let Err(refusal) = image.flush() {
        return Reply::Refused(refusal);
    }
    Reply::Done
}

fn sync<S: Storage, F: WrappedFormat<S>>(image: &mut Qcow2<S, F>) -> Reply
    ensures { (slots : Slots) → AnswersCommand S.view F.backing image.old image.new slots slots Command.Sync result }
{
    if let Err(refusal) = image.sync() {
        return Reply::Refused(refusal);
    }
    Reply::Done
}

fn invalidate<S: Storage, F: WrappedFormat<S>>(image: &mut Qcow2<S, F>) -> Reply
    ensures { (slots : Slots) → AnswersCommand S.view F.backing image.old image.new slots slots Command.InvalidateCache result }
{
    if let Err(refusal) = image.invalidate_cache() {
        return Reply::Refused(refusal);
    }
    Reply::Done
}

// Drops the mapping in a slot.
fn release_slot<S: Storage, F: WrappedFormat<S>>(image: &mut Qcow2<S, F>, slot: Option<Prepared>)
    requires { IfSome slot (λ p. image_of p ≡ number_of image.old) }
    ensures step { ReleasingStep S.view F.backing image.old image.new }
    ensures sees { (out : List (Option Prepared)) → ReleasesMappings S.view F.backing image.old image.new (out ++ slot ∷ []) out }
{
    if let Some(prepared) = slot {
        release(image, prepared);
    }
}

// Drops all mappings that are left.
fn discard_all<S: Storage, F: WrappedFormat<S>>(image: &mut Qcow2<S, F>, slots: Slots)
    requires { slots.image ≡ number_of image.old }
    ensures step { ReleasingStep S.view F.backing image.old image.new }
    ensures sees { ReleasesMappings S.view F.backing image.old image.new slots.prepared.items [] }
{
    let Slots {
        image: _,
        mut prepared,
        mappings: _,
    } = slots;
    while let Some(slot) = prepared.pop() {
        release_slot(image, slot);
    }
    prepared.destroy_empty();
}
