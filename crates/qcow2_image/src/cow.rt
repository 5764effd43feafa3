//! Copy on write: filling a new cluster with the bytes that the guest saw before.
ghost use Rattle.qcow2_image.specs.WriteSteps.{FillingStep, FillsPending};
ghost use Rattle.qcow2_image.specs.ImageSteps.{FailsUnlimited, ImageStep};
ghost use Rattle.std.specs.Prelude.{◌≡◌, ◌/◌, ◌^◌, ◌<◌, ◌≤◌, ℕ, List, Option, None, Some, true, false, replicate, IfOk};
ghost use Rattle.std.specs.Prelude.{IfErr, IfSome, ◌⊎◌};
ghost use Rattle.qcow2_alloc.specs.ImageError.{IsFault};
ghost use Rattle.qcow2_image.specs.MayFail.{HasUnannounced, IsCopiedCompressed};
ghost use Rattle.qcow2_image.specs.MayFail.{MayFailCopying, MayFailFilling, MayFailReading};
ghost use Rattle.qcow2_laws.specs.CrashInvariant.{Pending};
ghost use Rattle.qcow2_alloc.specs.ImageFile.{known_in};
ghost use Rattle.image_access.specs.Contents.{zeroed};
ghost use Rattle.qcow2_image.specs.CallParts.{WritesData, WritesOwnData};
ghost use Rattle.qcow2_image.specs.InternalSteps.{InternalFillingStep, HoldsAll, IsCopied, IsFilled, IsKeptAlone};
ghost use Rattle.qcow2_image.specs.InternalSteps.{IsInHeldCluster, is_announced};
ghost use Rattle.qcow2_image.specs.CopyRange.{HasByte};
ghost use Rattle.qcow2_image.specs.ImageInvariant.{ImageInvariant, Mappings};
ghost use Rattle.qcow2_image.specs.Found.{IsMappedAs};
ghost use Rattle.qcow2_image.specs.declared.prepared.Prepared.{Prepared};
ghost use Rattle.qcow2_image.specs.Refusals.{MayFailUncopied};
ghost use Rattle.qcow2_metadata.specs.L2Mapping.{IsHostCluster, IsInReach, greatest_offset};
ghost use Rattle.qcow2_metadata.specs.Cover.{cover};
ghost use Rattle.qcow2_metadata.specs.Header.{cluster_size};

use crate::copy_range::{CopyRange, announced_range, copy_range};
use crate::{MappingKind, Qcow2};
use image_access::{Storage, WrappedFormat};
use qcow2_alloc::{ImageError, WriteKind};
use qcow2_metadata::{GuestOffset, HostCluster, L2Mapping};

#[tactic(auto, using(crate::proofs::Call::FailingErrors::tables_met, crate::proofs::Call::FailingErrors::fault_met, crate::proofs::Call::FailingErrors::storage_met, crate::proofs::Call::FailingErrors::reading_copied, crate::proofs::Call::FailingErrors::writing_met))]
impl<S: Storage, F: WrappedFormat<S>> Qcow2<S, F> {
    // Fills the new cluster of an offset with what its old mapping shows, except where the caller promised to overwrite.
    pub(crate) fn fill_cluster(
        &mut self,
        cluster: HostCluster,
        offset: u64,
        length: u64,
        overwrite: bool,
        old: &L2Mapping,
    ) -> Result<(), ImageError>
        requires nameable { IsHostCluster self.old.file.header.fields.cluster_bits cluster }
        requires reach { IsInReach old.now }
        ensures step { FillingStep S.view self.old self.new }
        ensures fails { FailsUnlimited S.view F.backing self.old self.new result
            (MayFailFilling self.old self.new old.now) }
        ensures may_fail { 0 < cluster → IfErr result
            (λ e. IsFault e ⊎ ((e ≡ ImageError.Compressed)
            × IsCopiedCompressed self.old.file.header.fields old.now offset length overwrite)) }
        ensures sound { FillsPending S.view F.backing self.old self.new cluster offset length overwrite old.now result }
    {
        let Some(range) = self.part_to_fill(offset, length, overwrite) else {
            return Ok(());
        };
        let bits = self.file.header.cluster_bits();
        let start = GuestOffset::new(offset).in_cluster_offset(bits);
        let at = cluster.offset(bits).value() + range.start;
        let Some(guest) = (offset - start).checked_add(range.start) else {
            return Err(ImageError::Overflow);
        };
        let kind = self.kind_of(*old, guest);
        self.copy_old(at, guest, &kind, range.end - range.start)
    }

    // Fills the host cluster that the zero entry of an offset keeps with zeros, except where the caller promised to overwrite.
    pub(crate) fn fill_kept(
        &mut self,
        host: u64,
        offset: u64,
        length: u64,
        overwrite: bool,
    ) -> Result<(), ImageError>
        requires reach { host ≤ greatest_offset }
        ensures step { ImageStep S.view self.old self.new }
        ensures fails { FailsUnlimited S.view F.backing self.old self.new result (MayFailUncopied self.new) }
        ensures fault { cluster_size self.old.file.header.fields ≤ host → IfErr result IsFault }
        ensures rest { self.new ≡ record self.old {
          file = record self.old.file { storage = self.new.file.storage };
          data_file = self.new.data_file;
        } }
        ensures image_step { (p : Pending) (out : Mappings)
            → ImageInvariant S.view F.backing p self.old out → HoldsAll S.view F.backing p out
            → IsKeptAlone S.view F.backing self.old out offset host
            → InternalFillingStep S.view F.backing p p self.old self.new out }
        ensures fills { (p : Pending) (out : Mappings) → ImageInvariant S.view F.backing p self.old out
            → cover self.old.file.header.fields (known_in S.view self.old.file)
            (offset / cluster_size self.old.file.header.fields) ≡ L2Mapping.Zero (Some (host, true))
            → IfOk result (λ done. IsFilled S.view F.backing out.place self.old self.new
            (host / cluster_size self.old.file.header.fields) offset length overwrite) }
    {
        match self.part_to_fill(offset, length, overwrite) {
            None => Ok(()),
            Some(range) => self.write_zeros(host + range.start, range.end - range.start),
        }
    }

    // The part of the offset's cluster to fill: all of it, except a part at its start or its end that the caller promised to overwrite.
    fn part_to_fill(&self, offset: u64, length: u64, overwrite: bool) -> Option<CopyRange>
        ensures within { IfSome result (λ r. (r.start < r.end) × (r.end ≤ cluster_size self.now.file.header.fields)) }
        ensures few { IfSome result (λ r. r.end ≤ 2 ^ 21) }
        ensures all { (i : ℕ) → i < cluster_size self.now.file.header.fields
            → is_announced (cluster_size self.now.file.header.fields) offset length overwrite i ≡ false
            → HasByte result i }
        ensures left { IfSome result (λ r. HasUnannounced (cluster_size self.now.file.header.fields) offset length overwrite) }
    {
        let size = self.file.header.cluster_size();
        let start = GuestOffset::new(offset).in_cluster_offset(self.file.header.cluster_bits());
        let alignment = self.data_alignment();
        let announced = announced_range(size, start, length, overwrite);
        copy_range(size, alignment, announced)
    }

    // Copies what a guest sees from an offset on, where the range has this mapping. Zeros need no buffer.
    fn copy_old(
        &mut self,
        at: u64,
        guest: u64,
        kind: &MappingKind,
        length: u64,
    ) -> Result<(), ImageError>
        ensures step { FillingStep S.view self.old self.new }
        ensures fails { FailsUnlimited S.view F.backing self.old self.new result (MayFailCopying self.new kind.now) }
        ensures may_fail { cluster_size self.old.file.header.fields ≤ at → IfErr result (MayFailReading kind.now) }
        ensures image_step { (p : Pending) (out : Mappings) (cluster : ℕ)
            → ImageInvariant S.view F.backing p self.old out → HoldsAll S.view F.backing p out
            → IsInHeldCluster S.view F.backing p self.old out cluster at length
            → InternalFillingStep S.view F.backing p p self.old self.new out }
        ensures copies { (p : Pending) (out : Mappings) → ImageInvariant S.view F.backing p self.old out
            → IsMappedAs S.view self.old guest kind.now length
            → IfOk result (λ done. IsCopied S.view F.backing out.place self.old self.new at guest length) }
    {
        if let MappingKind::Zero { explicit: _ } = kind {
            return self.write_zeros(at, length);
        }
        let mut bytes = vec![in self.file.alloc; 0; length as usize]?;
        let bytes = bytes.as_mut_slice();
        self.read_as(guest, kind, bytes)?;
        self.write_data(at, bytes)
    }

    // Writes zeros as data, to the data file if there is one. In the image's own file a place in cluster 0, which no entry has, is
    // refused 19 (metadata).
    fn write_zeros(&mut self, at: u64, length: u64) -> Result<(), ImageError>
        ensures step { ImageStep S.view self.old self.new }
        ensures fails { FailsUnlimited S.view F.backing self.old self.new result (MayFailUncopied self.new) }
        ensures puts { WritesData S.view self.old self.new at (replicate length 0)
            (λ b. zeroed b at length) result }
    {
        match &mut self.data_file {
            Some(file) => {
                let done = file.write_zeroes(at, length);
                self.record_data_write(done)
            }
            None => self.write_own_zeros(at, length),
        }
    }

    // Writes zeros as data to the image's own file. A place in cluster 0, which no entry has, is refused 19 (metadata).
    fn write_own_zeros(&mut self, at: u64, length: u64) -> Result<(), ImageError>
        ensures step { ImageStep S.view self.old self.new }
        ensures fails { FailsUnlimited S.view F.backing self.old self.new result (MayFailUncopied self.new) }
        ensures puts { WritesOwnData S.view self.old self.new at (replicate length 0) result }
    {
        if at < self.file.header.cluster_size() {
            return Err(ImageError::Metadata);
        }
        self.file.storage.set_write_kind(WriteKind::Data);
        self.file.storage.write_zero_data(at, length)?;
        Ok(())
    }
}
