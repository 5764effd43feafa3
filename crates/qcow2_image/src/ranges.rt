//! The clusters of a prepared range after its first one.
ghost use Rattle.qcow2_image.specs.WriteSteps.{AllocatesAt, AllocatingStep, FillingStep, GainsClusterAt, SharesCluster};
ghost use Rattle.qcow2_image.specs.SoundParts.{BehindSoundly, RestSoundly};
ghost use Rattle.qcow2_image.specs.ImageSteps.{ImageFails};
ghost use Rattle.std.specs.Prelude.{ℕ, List, Option, ◌≡◌, ◌≢◌, ◌+◌, ◌-◌, ◌*◌, ◌%◌, ◌<◌, min, true, Some, None, Ok};
ghost use Rattle.std.specs.Prelude.{slice_get, vec_len, vec_capacity, IfOk, IsTrue, IsSome, ◌/◌};
ghost use Rattle.qcow2_metadata.specs.L2Mapping.{IsHostCluster, IsInReach};
ghost use Rattle.qcow2_metadata.specs.Header.{cluster_size};
ghost use Rattle.qcow2_disk.specs.Found.{rest_of_table};
ghost use Rattle.qcow2_image.specs.Image.{is_writable};
ghost use Rattle.qcow2_image.specs.MayFail.{MayFailFilling};
ghost use Rattle.qcow2_image.specs.Refusals.{MayFailOn, MayFailUncopied};
ghost use Rattle.qcow2_image.specs.declared.prepared.Prepared.{Prepared};
ghost use Rattle.qcow2_image.specs.declared.image.Qcow2.{Qcow2};
ghost use Rattle.qcow2_image.specs.CallParts.{IsReadied};
ghost use Rattle.qcow2_image.specs.ImageInvariant.{pending_in, ImageInvariant, Mappings};
ghost use Rattle.qcow2_image.specs.InternalSteps.{ListGrows};
ghost use Rattle.qcow2_image.specs.Ranges.{FindsBehind, GoesNext, GoesOn, HasRoomForRange, IsLongerMapping};
ghost use Rattle.qcow2_image.specs.Ranges.{IsNext, EndsWithCluster, MayGoOn};

use crate::mappings::{copied_offset, keeps};
use crate::prepared::ClusterMapping;
use crate::{Prepared, Qcow2};
use image_access::{Storage, WrappedFormat};
use qcow2_alloc::{ClustersToFreeList, ImageError, PendingClusters};
use qcow2_metadata::{GuestOffset, HostCluster, HostOffset, L2Mapping};

#[tactic(auto, using(crate::proofs::Call::FailingErrors::tables_met, crate::proofs::Call::FailingErrors::fault_met, crate::proofs::Call::FailingErrors::storage_met))]
impl<S: Storage, F: WrappedFormat<S>> Qcow2<S, F> {
    // For how many clusters memory is allocated: at least those of a range within its first L2 table.
    pub(crate) fn clusters_in(&self, offset: u64, length: u64) -> usize
        ensures some { 0 < result }
        ensures enough { offset % cluster_size self.now.file.header.fields + min length
            (rest_of_table self.now.file.header.fields offset) < result * cluster_size self.now.file.header.fields }
    {
        let bits = self.file.header.cluster_bits();
        let size = self.file.header.cluster_size();
        let within = GuestOffset::new(offset).in_cluster_offset(bits)
            + length.min(self.rest_of_table(offset));
        (within / size + 1) as usize
    }

    // Extends a mapping by the clusters after it, up to the end of the range, as long as they can be contiguous in the file.
    pub(crate) fn prepare_rest(
        &mut self,
        prepared: &mut Prepared,
        table: HostCluster,
        length: u64,
        overwrite: bool,
    ) -> Result<(), ImageError>
        requires writable { IsTrue (is_writable self.old) }
        requires whole { EndsWithCluster self.old.file.header.fields prepared.old }
        requires room { HasRoomForRange self.old.file.header.fields length prepared.old }
        ensures step { AllocatingStep S.view self.old self.new }
        ensures fails { ImageFails S.view F.backing self.old self.new result (MayFailOn self.new) }
        ensures sound { (start : Qcow2 S F) (out : Mappings) (k : ℕ) → slice_get out.slots k ≡ Some None
            → prepared.old.table ≡ Some table
            → IsReadied S.view F.backing start self.old out k prepared.old.guest length overwrite prepared.old
            → RestSoundly S.view F.backing start length overwrite prepared.old prepared.new self.old self.new out
            result
            (GoesOn S.view F.backing start self.new out k length overwrite prepared.new result) }
        ensures longer { IsLongerMapping self.old.file.header.fields length prepared.old prepared.new }
    {
        let end = length.min(self.rest_of_table(prepared.guest));
        while prepared.length < end {
            if !self.prepare_next(prepared, table, length, overwrite)? {
                return Ok(());
            }
        }
        Ok(())
    }

    // Extends a mapping by the cluster after it, if that can be contiguous in the file. Returns whether it did.
    fn prepare_next(
        &mut self,
        prepared: &mut Prepared,
        table: HostCluster,
        length: u64,
        overwrite: bool,
    ) -> Result<bool, ImageError>
        requires writable { IsTrue (is_writable self.old) }
        requires room { vec_len prepared.old.clusters < vec_capacity prepared.old.clusters }
        ensures step { AllocatingStep S.view self.old self.new }
        ensures fails { ImageFails S.view F.backing self.old self.new result (MayFailOn self.new) }
        ensures sound { (out : Mappings) (k : ℕ) → slice_get out.slots k ≡ Some (Some prepared.old)
            → MayGoOn self.old.file.header.fields length table prepared.old
            → ImageInvariant S.view F.backing (pending_in S.view F.backing self.old out) self.old out
            → BehindSoundly S.view F.backing prepared.old length overwrite self.old self.new out result
            (GoesNext S.view F.backing self.old self.new out k length overwrite prepared.old prepared.new result) }
        ensures same { result ≢ Ok true → prepared.new ≡ prepared.old }
        ensures room { vec_capacity prepared.new.clusters ≡ vec_capacity prepared.old.clusters }
        ensures next { result ≡ Ok true → IsNext self.old.file.header.fields length prepared.old prepared.new }
    {
        let Some(cluster_mapping) = self.cluster_mapping_behind(prepared, table, length, overwrite)?
        else {
            return Ok(false);
        };
        let size = self.file.header.cluster_size();
        prepared.length = length.min(prepared.length.saturating_add(size));
        prepared.clusters.push_reserved(cluster_mapping);
        Ok(true)
    }

    // The mapping of the next cluster, if it can be contiguous in the file.
    fn cluster_mapping_behind(
        &mut self,
        prepared: &Prepared,
        table: HostCluster,
        length: u64,
        overwrite: bool,
    ) -> Result<Option<ClusterMapping>, ImageError>
        requires writable { IsTrue (is_writable self.old) }
        ensures step { AllocatingStep S.view self.old self.new }
        ensures fails { ImageFails S.view F.backing self.old self.new result (MayFailOn self.new) }
        ensures sound { (out : Mappings) (k : ℕ) → slice_get out.slots k ≡ Some (Some prepared.now)
            → MayGoOn self.old.file.header.fields length table prepared.now
            → ImageInvariant S.view F.backing (pending_in S.view F.backing self.old out) self.old out
            → BehindSoundly S.view F.backing prepared.now length overwrite self.old self.new out result
            (FindsBehind S.view F.backing self.old self.new out length overwrite prepared.now result) }
    {
        let Some(next) = prepared.guest.checked_add(prepared.length) else {
            return Err(ImageError::Overflow);
        };
        let Some(host) = prepared.offset.checked_add(prepared.length) else {
            return Err(ImageError::Overflow);
        };
        let cluster = GuestOffset::new(next).cluster(self.file.header.cluster_bits());
        let old = self.cover_in(table, cluster)?;
        let left = length.saturating_sub(prepared.length);
        match copied_offset(&old) {
            Some(place) if place == host => Ok(Some(ClusterMapping::InPlace)),
            Some(_) => Ok(None),
            None if keeps(&old, host) => {
                self.fill_kept(host, next, left, overwrite)?;
                Ok(Some(ClusterMapping::Kept))
            }
            None if self.is_placed_by_guest() => {
                self.cluster_mapping_at_guest(host, next, left, overwrite, &old)
            }
            None => self.cluster_mapping_at(host, next, left, overwrite, &old),
        }
    }

    // The mapping of a guest cluster that isn't copied data, at its guest offset in the data file. None if that isn't the given place, or
    // an L2 entry can't hold it.
    fn cluster_mapping_at_guest(
        &mut self,
        host: u64,
        offset: u64,
        length: u64,
        overwrite: bool,
        old: &L2Mapping,
    ) -> Result<Option<ClusterMapping>, ImageError>
        requires reach { IsInReach old.now }
        ensures step { FillingStep S.view self.old self.new }
        ensures fails { ImageFails S.view F.backing self.old self.new result
            (MayFailFilling self.old self.new old.now) }
    {
        if host != offset {
            return Ok(None);
        }
        let Some(cluster) = self.cluster_of_guest(offset) else {
            return Ok(None);
        };
        self.fill_cluster(cluster, offset, length, overwrite, old)?;
        Ok(Some(ClusterMapping::Kept))
    }

    // The mapping of a guest cluster that isn't copied data, at a place in the file. None if that place can't be allocated.
    fn cluster_mapping_at(
        &mut self,
        host: u64,
        offset: u64,
        length: u64,
        overwrite: bool,
        old: &L2Mapping,
    ) -> Result<Option<ClusterMapping>, ImageError>
        requires writable { IsTrue (is_writable self.old) }
        requires reach { IsInReach old.now }
        ensures step { AllocatingStep S.view self.old self.new }
        ensures fails { ImageFails S.view F.backing self.old self.new result
            (MayFailFilling self.old self.new old.now) }
        ensures sound { SharesCluster S.view F.backing self.old self.new host offset length overwrite old.now result }
    {
        let bits = self.file.header.cluster_bits();
        let Some(cluster) = HostOffset::new(host).checked_cluster(bits) else {
            return Ok(None);
        };
        let old_data = self.named_by(old)?;
        let Some(pending) = self.new_cluster_at(cluster, offset, length, overwrite, old)? else {
            return Ok(None);
        };
        let mut taken = ClustersToFreeList::new();
        pending.hand_back(&mut taken);
        Ok(Some(ClusterMapping::New { taken, old_data }))
    }

    // Allocates a cluster for the one at an offset, whose old mapping is known, at this place. None if it can't be allocated. Fills it with
    // the old bytes, except where the caller promised to overwrite.
    fn new_cluster_at(
        &mut self,
        cluster: HostCluster,
        offset: u64,
        length: u64,
        overwrite: bool,
        old: &L2Mapping,
    ) -> Result<Option<PendingClusters>, ImageError>
        requires writable { IsTrue (is_writable self.old) }
        requires reach { IsInReach old.now }
        ensures step { AllocatingStep S.view self.old self.new }
        ensures fails { ImageFails S.view F.backing self.old self.new result
            (MayFailFilling self.old self.new old.now) }
        ensures sound { GainsClusterAt S.view F.backing self.old self.new cluster offset length overwrite
            old.now result }
        ensures nameable { IfOk result (λ run. IsSome run → IsHostCluster self.old.file.header.fields.cluster_bits cluster) }
    {
        let Some(pending) = self.allocate_data_cluster_at(cluster)? else {
            return Ok(None);
        };
        match self.fill_cluster(cluster, offset, length, overwrite, old) {
            Ok(()) => Ok(Some(pending)),
            Err(refusal) => {
                self.hand_back(pending);
                Err(refusal)
            }
        }
    }

    // Allocates this cluster for data, if it can be.
    fn allocate_data_cluster_at(
        &mut self,
        cluster: HostCluster,
    ) -> Result<Option<PendingClusters>, ImageError>
        requires writable { IsTrue (is_writable self.old) }
        ensures step { AllocatingStep S.view self.old self.new }
        ensures fails { ImageFails S.view F.backing self.old self.new result (MayFailUncopied self.new) }
        ensures sound { AllocatesAt S.view F.backing self.old self.new cluster result }
        ensures nameable { IfOk result (λ run. IsSome run → IsHostCluster self.old.file.header.fields.cluster_bits cluster) }
        ensures list { ListGrows self.old self.new }
    {
        let Some(allocator) = &mut self.allocator else {
            unreachable!();
        };
        allocator.allocate_data_at(&mut self.file, cluster)
    }
}
