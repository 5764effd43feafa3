//! Reading and writing mapped ranges.
ghost use Rattle.qcow2_image.specs.WriteSteps.{ChecksInPlace, ChecksRange, ChecksWhether, KeepingStep, PutsBytes};
ghost use Rattle.qcow2_image.specs.WriteSteps.{PutsInMapping, PutsInPlace, PuttingCall, ReadsMapping, ReadsRange};
ghost use Rattle.qcow2_image.specs.WriteSteps.{ReadsSpecial, RefusesOrSkips, RefusesPut, TriesSpecial};
ghost use Rattle.qcow2_image.specs.ImageSteps.{FailsUnlimited, ImageFails, ImageStep, ReadingCall};
ghost use Rattle.qcow2_image.specs.ImageSteps.{ReadingStep};
ghost use Rattle.std.specs.Prelude.{◌≡◌, ◌≢◌, ◌+◌, ◌^◌, ◌<◌, ◌≤◌, List, [], Option, length, ◌⊎◌, IfOk};
ghost use Rattle.std.specs.Prelude.{IfErr, IsErr, IsSome, MatchOption, Ok, Err, Some, None};
ghost use Rattle.std.specs.Prelude.{is_some, true, OnOk};
ghost use Rattle.qcow2_alloc.specs.ImageError.{IsFault};
ghost use Rattle.qcow2_image.specs.MayFail.{IsSpecial, MayFailReading, MayFailWriting};
ghost use Rattle.qcow2_image.specs.LookupCauses.{MayFailFindingAgain, MayFailPuttingAt, MayFailReadingFound, MayFailTelling};
ghost use Rattle.qcow2_disk.specs.Calls.{Shows};
ghost use Rattle.qcow2_laws.specs.CrashInvariant.{Pending};
ghost use Rattle.qcow2_image.specs.Calls.{AnswersCall, Puts};
ghost use Rattle.qcow2_image.specs.Faults.{IsNotOfStorage};
ghost use Rattle.qcow2_image.specs.Found.{AreBytesOf, IsMappedAs, further_by};
ghost use Rattle.image_access.specs.Contents.{overwritten};
ghost use Rattle.qcow2_image.specs.CallParts.{WritesData, WritesOwnData};
ghost use Rattle.qcow2_image.specs.HeldMappings.{FitsTables, IsCompressedInTables, KeepsHeld, ReadsAs};
ghost use Rattle.qcow2_image.specs.InternalSteps.{InternalStep};
ghost use Rattle.qcow2_image.specs.ImageInvariant.{IsHonestBacking, ImageInvariant, backing_bytes, disk_of, Mappings};
ghost use Rattle.qcow2_image.specs.declared.mapping.MappingKind.TheVariants.{Eof, Raw};
ghost use Rattle.qcow2_image.specs.declared.prepared.Prepared.{Prepared};
ghost use Rattle.qcow2_image.specs.Image.{size_of};
ghost use Rattle.qcow2_image.specs.Prepared.{image_of, table_of};
ghost use Rattle.qcow2_image.specs.Refusals.{unusable, refuses_mapping, refuses_to_read, MayFailToRead};
ghost use Rattle.qcow2_alloc.specs.declared.error.ImageError.TheVariants.{Compressed, NotCompressed, OutdatedMapping};
ghost use Rattle.qcow2_alloc.specs.declared.error.ImageError.TheVariants.{ReadOnly};
ghost use Rattle.qcow2_image.specs.Noted.{PutsOnce};
ghost use Rattle.qcow2_image.specs.Unwritten.{LooksQuietly, OnlyLooks};
ghost use Rattle.qcow2_alloc.specs.Quiet.{WritesNothing};

use crate::mappings::passes;
use crate::{Mapping, MappingKind, Prepared, Qcow2};
use image_access::{Storage, WrappedFormat};
use qcow2_alloc::{ImageError, WriteKind};

#[tactic(auto, using(crate::proofs::Call::FailingErrors::tables_met, crate::proofs::Call::FailingErrors::fault_met, crate::proofs::Call::FailingErrors::storage_met, crate::proofs::Call::FailingErrors::tables_read, crate::proofs::Call::FailingErrors::storage_read, crate::proofs::Call::FailingErrors::read_met))]
impl<S: Storage, F: WrappedFormat<S>> Qcow2<S, F> {
    /// Refuses a range that can't be read, in this order: 16 (failed), 12 (dependency), 2 (beyond size). Refusal 2 is for a range of at least one
    /// byte that ends past the disk's size. Nothing is read.
    pub fn check_read(&self, offset: u64, length: u64) -> Result<(), ImageError>
        ensures refusal { MatchOption (refuses_to_read self.now offset length) (result ≡ Ok tt) (λ e. result ≡ Err e) }
        ensures end { IfOk result (λ done. offset + length < 2 ^ 64) }
        ensures faults { IfErr result IsNotOfStorage }
    {
        self.check_usable()?;
        if passes(self.size(), offset, length) {
            return Err(ImageError::BeyondSize);
        }
        Ok(())
    }

    /// Reads bytes of a mapping, from offset `at` in it on. They must lie within its length. After a refusal the buffer may hold any bytes.
    /// Refused in this order: 16 (failed), 12 (dependency), 11 (foreign state) for a mapping of another image. A read of no bytes succeeds then.
    /// Otherwise 10 (outdated mapping) if the range is mapped differently by now, then 7 (compressed). May be refused 4 (unaligned table),
    /// 8 (everything is in use), 14 (memory) or 15 (storage) during the work.
    pub fn read_mapped(
        &mut self,
        mapping: &Mapping,
        at: u64,
        bytes: &mut [u8],
    ) -> Result<(), ImageError>
        requires { at + length bytes.old ≤ mapping.now.length }
        ensures step { ReadingCall S.view F.backing self.old self.new result }
        ensures refusals { RefusesOrSkips self.old self.new result (refuses_mapping self.old mapping.now.image)
            (length bytes.old) tt
            (MayFailReadingFound self.old self.new (mapping.now.offset + at) (length bytes.old)) }
        ensures sound { ReadsMapping S.view F.backing self.old self.new mapping.now.image (mapping.now.offset + at)
            (length bytes.old) (further_by at mapping.now.kind) result }
        ensures sees { AnswersCall S.view F.backing self.old self.new []
            (λ done old new. (new ≡ old) × Shows old.disk (mapping.now.offset + at) bytes.new) result }
        ensures held { refuses_mapping self.old mapping.now.image ≡ None → 0 < length bytes.old
            → FitsTables self.old self.new (mapping.now.offset + at) (further_by at mapping.now.kind)
            (length bytes.old) result }
        ensures quiet { LooksQuietly S.view (mapping.now.offset + at) self.old self.new }
        ensures reads { 0 < length bytes.old
            → OnOk result (ReadsAs S.view self.old self.new (further_by at mapping.now.kind) bytes.new) }
    {
        self.check_usable()?;
        if mapping.image != self.number {
            return Err(ImageError::ForeignState);
        }
        if bytes.is_empty() {
            return Ok(());
        }
        self.begin_call();
        let done = self.read_current(mapping, at, bytes);
        self.mark_failure(done)
    }

    fn read_current(
        &mut self,
        mapping: &Mapping,
        at: u64,
        bytes: &mut [u8],
    ) -> Result<(), ImageError>
        ensures step { ReadingStep S.view self.old self.new }
        ensures fails { ImageFails S.view F.backing self.old self.new result
            (MayFailReadingFound self.old self.new (mapping.now.offset + at) (length bytes.old)) }
        ensures sound { ReadsRange S.view F.backing self.old self.new (mapping.now.offset + at) (length bytes.old)
            (further_by at mapping.now.kind) bytes.new result }
        ensures held { 0 < length bytes.old
            → FitsTables self.old self.new (mapping.now.offset + at) (further_by at mapping.now.kind)
            (length bytes.old) result }
        ensures quiet { LooksQuietly S.view (mapping.now.offset + at) self.old self.new }
        ensures reads { OnOk result (ReadsAs S.view self.old self.new (further_by at mapping.now.kind) bytes.new) }
    {
        let offset = self.place_within(mapping.offset, at)?;
        let kind = mapping.kind.further(at);
        self.check_mapped(offset, bytes.len() as u64, &kind)?;
        self.read_as(offset, &kind, bytes)
    }

    // The offset of a byte of a range. Nothing is mapped past the end of the disk.
    fn place_within(&self, offset: u64, at: u64) -> Result<u64, ImageError>
        ensures place { IfOk result (λ place. place ≡ offset + at) }
        ensures cause { IfErr result (λ e. e ≡ OutdatedMapping) }
        ensures past { IfErr result (λ e. size_of self.now ≤ offset + at) }
        ensures faults { IfErr result IsNotOfStorage }
    {
        let size = self.size();
        if offset >= size || at >= size - offset {
            return Err(ImageError::OutdatedMapping);
        }
        Ok(offset + at)
    }

    // Refuses a range that is mapped differently by now.
    fn check_mapped(
        &mut self,
        offset: u64,
        length: u64,
        wanted: &MappingKind,
    ) -> Result<(), ImageError>
        ensures step { ReadingStep S.view self.old self.new }
        ensures fails { ImageFails S.view F.backing self.old self.new result
            (MayFailFindingAgain self.old self.new offset length) }
        ensures sound { ChecksRange S.view F.backing self.old self.new offset length wanted.now result }
        ensures held { 0 < length → FitsTables self.old self.new offset wanted.now length result }
        ensures special { OnOk result (IsSpecial wanted.now → IsCompressedInTables self.new offset) }
        ensures looks { OnlyLooks S.view offset self.old self.new }
    {
        let (kind, found) = self.look_up(offset, length)?;
        if found >= length && wanted.is(&kind) {
            return Ok(());
        }
        Err(ImageError::OutdatedMapping)
    }

    // Reads bytes of a range with this mapping.
    #[tactic(auto, using(crate::proofs::Call::FailingErrors::tables_met, crate::proofs::Call::FailingErrors::fault_met, crate::proofs::Call::FailingErrors::storage_met, crate::proofs::Call::FailingErrors::tables_read, crate::proofs::Call::FailingErrors::storage_read, crate::proofs::Call::FailingErrors::read_met, crate::proofs::Call::Unlimited::storage_unlimited))]
    pub(crate) fn read_as(
        &mut self,
        offset: u64,
        kind: &MappingKind,
        bytes: &mut [u8],
    ) -> Result<(), ImageError>
        ensures step { ReadingStep S.view self.old self.new }
        ensures fails { FailsUnlimited S.view F.backing self.old self.new result (MayFailReading kind.now) }
        ensures allocator { self.new.allocator ≡ self.old.allocator }
        ensures keeps { (p : Pending) (out : Mappings) → ImageInvariant S.view F.backing p self.old out
            → InternalStep S.view F.backing p p self.old self.new out }
        ensures outdated { result ≡ Err OutdatedMapping → (kind.now ≡ Eof) × (self.new ≡ self.old) }
        ensures shows { (p : Pending) (out : Mappings) → ImageInvariant S.view F.backing p self.old out
            → IsMappedAs S.view self.old offset kind.now (length bytes.old)
            → IfOk result (λ done. Shows (disk_of S.view F.backing out.place self.new) offset bytes.new) }
        ensures tables { KeepsHeld self.old self.new }
        ensures quiet { WritesNothing S.view self.old.file.storage self.new.file.storage }
        ensures reads { OnOk result (ReadsAs S.view self.old self.new kind.now bytes.new) }
    {
        match kind {
            MappingKind::Raw {
                place: _,
                offset,
                writable: _,
            } => self.read_data(*offset, bytes),
            MappingKind::Indirect { offset } => self.read_backing(*offset, bytes),
            MappingKind::Zero { explicit: _ } => {
                bytes.fill(0);
                Ok(())
            }
            MappingKind::Special { offset: _ } => Err(ImageError::Compressed),
            MappingKind::Eof => Err(ImageError::OutdatedMapping),
        }
    }

    #[tactic(auto, using(crate::proofs::Call::FailingErrors::tables_met, crate::proofs::Call::FailingErrors::fault_met, crate::proofs::Call::FailingErrors::storage_met, crate::proofs::Call::FailingErrors::tables_read, crate::proofs::Call::FailingErrors::storage_read, crate::proofs::Call::FailingErrors::read_met, crate::proofs::Call::Unlimited::storage_unlimited))]
    pub(crate) fn read_backing(&mut self, offset: u64, bytes: &mut [u8]) -> Result<(), ImageError>
        ensures step { ImageStep S.view self.old self.new }
        ensures fails { FailsUnlimited S.view F.backing self.old self.new result MayFailToRead }
        ensures fault { IfErr result IsFault }
        ensures file { self.new.file ≡ self.old.file }
        ensures allocator { self.new.allocator ≡ self.old.allocator }
        ensures table { self.new.l1_table ≡ self.old.l1_table }
        ensures keeps { (p : Pending) (out : Mappings) → ImageInvariant S.view F.backing p self.old out
            → InternalStep S.view F.backing p p self.old self.new out }
        ensures reads { IsHonestBacking S.view F.backing self.old.backing
            → IfOk result (λ done. (length bytes.new ≡ length bytes.old)
            × AreBytesOf (backing_bytes S.view F.backing self.old.backing) offset bytes.new) }
        ensures below { is_some self.new.backing ≡ is_some self.old.backing }
    {
        let Some(backing) = &mut self.backing else {
            bytes.fill(0);
            return Ok(());
        };
        backing.read(offset, bytes)?;
        Ok(())
    }

    /// Reads a compressed range, from a guest offset on. A read of no bytes succeeds at any offset. The buffer stays the same.
    /// Refused 16 (failed), 12 (dependency), in this order; then 7 (compressed) if the range begins in a compressed cluster, also past the
    /// disk's size, and otherwise 18 (not compressed) with the offset. May be refused 4 (unaligned table), 8 (everything is in use),
    /// 14 (memory) or 15 (storage) during the work.
    pub fn readv_special(&mut self, bytes: &mut [u8], offset: u64) -> Result<(), ImageError>
        ensures step { ReadingCall S.view F.backing self.old self.new result }
        ensures refusals { RefusesOrSkips self.old self.new result (unusable self.old) (length bytes.old) tt
            (λ e. MayFailTelling self.old self.new offset 1 e
            ⊎ ((e ≡ NotCompressed offset) × ¬ IsCompressedInTables self.new offset)) }
        ensures sound { ReadsSpecial S.view F.backing self.old self.new offset (length bytes.old) result }
        ensures some { 0 < length bytes.old → IsErr result }
        ensures slice { bytes.new ≡ bytes.old }
        ensures sees { AnswersCall S.view F.backing self.old self.new [] (λ done was is. is ≡ was) result }
        ensures quiet { LooksQuietly S.view offset self.old self.new }
    {
        match self.try_readv_special(bytes, offset)? {
            None => Ok(()),
            Some(offset) => Err(ImageError::NotCompressed { offset }),
        }
    }

    /// Like `readv_special`, but returns the offset where `readv_special` refuses 18, and None for no bytes.
    /// Refused 16 (failed), 12 (dependency), in this order; then 7 (compressed) if the range begins in a compressed cluster, also past the
    /// disk's size. May be refused 4 (unaligned table), 8 (everything is in use), 14 (memory) or 15 (storage) during the work.
    pub fn try_readv_special(
        &mut self,
        bytes: &mut [u8],
        offset: u64,
    ) -> Result<Option<u64>, ImageError>
        ensures step { ReadingCall S.view F.backing self.old self.new result }
        ensures refusals { RefusesOrSkips self.old self.new result (unusable self.old) (length bytes.old) None
            (MayFailTelling self.old self.new offset 1) }
        ensures sound { TriesSpecial S.view F.backing self.old self.new offset (length bytes.old) result }
        ensures some { 0 < length bytes.old → IfOk result (λ at. at ≡ Some offset) }
        ensures plain { 0 < length bytes.old → OnOk result (¬ IsCompressedInTables self.new offset) }
        ensures slice { bytes.new ≡ bytes.old }
        ensures sees { AnswersCall S.view F.backing self.old self.new [] (λ at was is. is ≡ was) result }
        ensures quiet { LooksQuietly S.view offset self.old self.new }
    {
        self.check_usable()?;
        if bytes.is_empty() {
            return Ok(None);
        }
        self.begin_call();
        let plain = self.check_not_compressed(offset);
        self.mark_failure(plain)
    }

    // The offset, if its guest cluster is not compressed. It may lie past the disk's size.
    fn check_not_compressed(&mut self, offset: u64) -> Result<Option<u64>, ImageError>
        ensures step { ReadingStep S.view self.old self.new }
        ensures fails { ImageFails S.view F.backing self.old self.new result
            (MayFailTelling self.old self.new offset 1) }
        ensures sound { ChecksWhether S.view F.backing self.old self.new offset result }
        ensures answer { IfOk result (λ at. at ≡ Some offset) }
        ensures plain { OnOk result (¬ IsCompressedInTables self.new offset) }
        ensures quiet { LooksQuietly S.view offset self.old self.new }
    {
        let (kind, _length) = self.run_from(offset, 1)?;
        if kind.is_special() {
            return Err(ImageError::Compressed);
        }
        Ok(Some(offset))
    }

    /// Writes bytes into a prepared mapping, from offset `at` in it on. They must lie within its length. The storage gets them as guest data.
    /// Refused in this order: 16 (failed), 12 (dependency), 11 (foreign state) for a mapping of another image. A write of no bytes succeeds then.
    /// Otherwise 1 (read-only), and 10 (outdated mapping) for an existing mapping that is no longer copied data at its place. May be refused
    /// 14 (memory) or 15 (storage) during the work, and for an existing mapping 4 (unaligned table), 8 (everything is in use), and
    /// 20 (overflow) if its place passes 64 bits.
    pub fn write_mapped(
        &mut self,
        prepared: &Prepared,
        at: u64,
        bytes: &[u8],
    ) -> Result<(), ImageError>
        requires { at + length bytes.now ≤ prepared.now.length }
        ensures step { PuttingCall S.view F.backing self.old self.new result }
        ensures refusals { RefusesPut self.old self.new result (refuses_mapping self.old (image_of prepared.now))
            (length bytes.now) (MayFailPuttingAt self.old self.new prepared.now at (length bytes.now)) }
        ensures sound { PutsInMapping S.view F.backing self.old self.new prepared.now at (length bytes.now) result }
        ensures private { IsSome (table_of prepared.now) → result ≢ Err OutdatedMapping }
        ensures sees { Puts S.view F.backing self.old self.new prepared.now at bytes.now result }
        ensures held { refuses_mapping self.old (image_of prepared.now) ≡ None → table_of prepared.now ≡ None
            → 0 < length bytes.now → FitsTables self.old self.new (prepared.now.guest + at)
            (Raw prepared.now.place (prepared.now.offset + at) true) (length bytes.now) result }
        ensures once { PutsOnce S.view F.backing prepared.now at bytes.now self.old self.new result }
    {
        self.check_usable()?;
        if prepared.image != self.number {
            return Err(ImageError::ForeignState);
        }
        if bytes.is_empty() {
            return Ok(());
        }
        if !self.writable() {
            return Err(ImageError::ReadOnly);
        }
        self.begin_call();
        let done = self.write_current(prepared, at, bytes);
        self.mark_failure(done)
    }

    fn write_current(
        &mut self,
        prepared: &Prepared,
        at: u64,
        bytes: &[u8],
    ) -> Result<(), ImageError>
        ensures step { KeepingStep S.view self.old self.new }
        ensures fails { ImageFails S.view F.backing self.old self.new result
            (MayFailPuttingAt self.old self.new prepared.now at (length bytes.now)) }
        ensures in_place { PutsInPlace S.view F.backing self.old self.new prepared.now at (length bytes.now) result }
        ensures puts { PutsBytes S.view F.backing self.old self.new prepared.now at bytes.now result }
        ensures private { IsSome (table_of prepared.now) → result ≢ Err OutdatedMapping }
        ensures held { table_of prepared.now ≡ None → 0 < length bytes.now
            → FitsTables self.old self.new (prepared.now.guest + at)
            (Raw prepared.now.place (prepared.now.offset + at) true) (length bytes.now) result }
        ensures once { PutsOnce S.view F.backing prepared.now at bytes.now self.old self.new result }
    {
        let Some(host) = prepared.offset.checked_add(at) else {
            return Err(ImageError::Overflow);
        };
        self.check_in_place(prepared, at, host, bytes.len() as u64)?;
        self.write_data(host, bytes)
    }

    // Refuses a part of an existing mapping that is no longer copied data at its place. Other mappings are not checked.
    fn check_in_place(
        &mut self,
        prepared: &Prepared,
        at: u64,
        host: u64,
        length: u64,
    ) -> Result<(), ImageError>
        ensures step { KeepingStep S.view self.old self.new }
        ensures fails { ImageFails S.view F.backing self.old self.new result (λ e. (table_of prepared.now ≡ None)
            × MayFailFindingAgain self.old self.new (prepared.now.guest + at) length e) }
        ensures sound { ChecksInPlace S.view F.backing self.old self.new prepared.now at host length result }
        ensures private { IsSome (table_of prepared.now) → (result ≡ Ok tt) × (self.new ≡ self.old) }
        ensures held { table_of prepared.now ≡ None → 0 < length
            → FitsTables self.old self.new (prepared.now.guest + at) (Raw prepared.now.place host true) length result }
        ensures looks { OnlyLooks S.view (prepared.now.guest + at) self.old self.new }
    {
        if prepared.table.is_some() {
            return Ok(());
        }
        let guest = self.place_within(prepared.guest, at)?;
        let wanted = MappingKind::Raw {
            place: prepared.place,
            offset: host,
            writable: true,
        };
        self.check_mapped(guest, length, &wanted)
    }

    // Writes bytes as data, to the data file if there is one. In the image's own file a place in the header's cluster, which no entry
    // and no mapping has, is refused 19 (metadata).
    pub(crate) fn write_data(&mut self, host: u64, bytes: &[u8]) -> Result<(), ImageError>
        ensures step { ImageStep S.view self.old self.new }
        ensures fails { FailsUnlimited S.view F.backing self.old self.new result MayFailWriting }
        ensures puts { WritesData S.view self.old self.new host bytes.now
            (λ b. overwritten b host bytes.now) result }
    {
        match &mut self.data_file {
            Some(file) => {
                let done = file.write(host, bytes);
                self.record_data_write(done)
            }
            None => self.write_own_data(host, bytes),
        }
    }

    // Writes bytes as data to the image's own file. A place in the header's cluster, which no entry and no mapping has, is refused 19 (metadata).
    fn write_own_data(&mut self, host: u64, bytes: &[u8]) -> Result<(), ImageError>
        ensures step { ImageStep S.view self.old self.new }
        ensures fails { FailsUnlimited S.view F.backing self.old self.new result MayFailWriting }
        ensures puts { WritesOwnData S.view self.old self.new host bytes.now result }
    {
        if host < self.file.header.cluster_size() {
            return Err(ImageError::Metadata);
        }
        self.file.storage.set_write_kind(WriteKind::Data);
        self.file.storage.write_data(host, bytes)?;
        Ok(())
    }
}
