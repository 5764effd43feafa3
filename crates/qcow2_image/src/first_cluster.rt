//! The first cluster of a prepared range.
ghost use Rattle.qcow2_image.specs.WriteSteps.{AllocatesOne, BeginsFirst, BeginsIn, FillingStep, GainsCluster};
ghost use Rattle.qcow2_image.specs.WriteSteps.{HasMemoryOf, HasRoomForOne, IsBegunIn, IsNotInPlace, LoadsTable};
ghost use Rattle.qcow2_image.specs.WriteSteps.{AllocatingStep, AllocatingStepWhere, keeping};
ghost use Rattle.qcow2_image.specs.ImageSteps.{FailsUnlimited, ImageFails, ImageStepWhere};
ghost use Rattle.std.specs.Prelude.{◌≡◌, ◌+◌, ◌-◌, ◌%◌, ◌^◌, ◌<◌, ◌≤◌, Some, [], ◌∷◌, true};
ghost use Rattle.std.specs.Prelude.{vec_capacity, IfOk, IfErr, IsSome, IsTrue, OnOk};
ghost use Rattle.qcow2_metadata.specs.L2Mapping.{IsHostCluster, IsInReach, greatest_offset};
ghost use Rattle.qcow2_metadata.specs.Header.{cluster_size};
ghost use Rattle.qcow2_alloc.specs.CachePins.{l2_pins};
ghost use Rattle.qcow2_alloc.specs.MetadataCaches.{l2_at};
ghost use Rattle.qcow2_alloc.specs.declared.error.ImageError.TheVariants.{TablePrepared};
ghost use Rattle.qcow2_image.specs.Image.{ImageStays, is_beside, is_writable, number_of, place_in};
ghost use Rattle.qcow2_image.specs.Prepared.{image_of, length_of, offset_of};
ghost use Rattle.qcow2_image.specs.MayFail.{MayFailFilling};
ghost use Rattle.qcow2_image.specs.Refusals.{MayFailPreparing, MayFailUncopied};
ghost use Rattle.qcow2_image.specs.declared.prepared.Prepared.{Prepared};
ghost use Rattle.qcow2_image.specs.PreparedPlaces.{IsOwn, IsPlacedBehind};
ghost use Rattle.qcow2_image.specs.Ranges.{BeginsInKept, HasRoomForRange};
ghost use Rattle.qcow2_image.specs.InternalSteps.{ListGrows, Pins};

use crate::mappings::{copied_offset, preallocated_offset};
use crate::prepared::ClusterMapping;
use crate::{Prepared, Qcow2};
use image_access::{Storage, WrappedFormat};
use qcow2_alloc::{ClustersToFreeList, ImageError, PendingClusters};
use qcow2_metadata::{ClusterCount, GuestOffset, HostCluster, L2Mapping};

// A list of one cluster mapping, in the given memory.
fn of_one(cluster_mapping: ClusterMapping, mut room: Vec<ClusterMapping>) -> Vec<ClusterMapping>
    requires room { HasRoomForOne room }
    ensures one { result.items ≡ cluster_mapping ∷ [] }
    ensures room { vec_capacity result ≡ vec_capacity room }
{
    room.push_reserved(cluster_mapping);
    room
}

#[tactic(auto, using(crate::proofs::Call::FailingErrors::tables_met, crate::proofs::Call::FailingErrors::fault_met, crate::proofs::Call::FailingErrors::storage_met))]
impl<S: Storage, F: WrappedFormat<S>> Qcow2<S, F> {
    // Prepares the first cluster of a range, with memory for the mappings of the clusters after it.
    pub(crate) fn prepare_first(
        &mut self,
        table: HostCluster,
        offset: u64,
        length: u64,
        overwrite: bool,
    ) -> Result<Prepared, ImageError>
        requires writable { IsTrue (is_writable self.old) }
        ensures step { AllocatingStepWhere S.view (0 < table) self.old self.new }
        ensures fails { ImageFails S.view F.backing self.old self.new result (MayFailPreparing self.new) }
        ensures sound { BeginsFirst S.view F.backing self.old self.new table offset length overwrite result }
        ensures begins { IfOk result (IsBegunIn self.old offset table
            (HasRoomForRange self.old.file.header.fields length)) }
        ensures taken { IfErr result (λ e. e ≡ TablePrepared → 0 < l2_pins self.old.file.caches table) }
        ensures unpinned { OnOk result (l2_pins self.old.file.caches table ≡ 0) }
    {
        if self.file.caches.l2_is_pinned(table) {
            return Err(ImageError::TablePrepared);
        }
        let room = Vec::with_capacity(self.file.alloc, self.clusters_in(offset, length))?;
        let cluster = GuestOffset::new(offset).cluster(self.file.header.cluster_bits());
        let old = self.cover_in(table, cluster)?;
        match copied_offset(&old) {
            Some(host) => Ok(self.prepare_at(table, offset, host, ClusterMapping::InPlace, room)),
            None => self.prepare_private(table, offset, length, overwrite, &old, room),
        }
    }

    // Prepares a range whose first cluster isn't copied data: in the host cluster that its zero entry keeps, at its guest offset in the
    // data file, or in a new one.
    fn prepare_private(
        &mut self,
        table: HostCluster,
        offset: u64,
        length: u64,
        overwrite: bool,
        old: &L2Mapping,
        room: Vec<ClusterMapping>,
    ) -> Result<Prepared, ImageError>
        requires writable { IsTrue (is_writable self.old) }
        requires other { IsNotInPlace self.old old.now }
        requires room { HasRoomForOne room }
        ensures step { AllocatingStepWhere S.view (0 < table) self.old self.new }
        ensures fails { ImageFails S.view F.backing self.old self.new result
            (MayFailFilling self.old self.new old.now) }
        ensures sound { BeginsIn S.view F.backing self.old self.new table offset length overwrite old.now result }
        ensures begins { IfOk result (IsBegunIn self.old offset table (HasMemoryOf (vec_capacity room))) }
        ensures kept { IfOk result (BeginsInKept self.old.file.header.fields offset old.now) }
    {
        match preallocated_offset(old) {
            Some(host) => self.prepare_kept(table, offset, length, overwrite, host, room),
            None if self.is_placed_by_guest() => {
                self.prepare_at_guest(table, offset, length, overwrite, old, room)
            }
            None => self.prepare_new(table, offset, length, overwrite, old, room),
        }
    }

    // Prepares a range in the host cluster that a zero entry keeps.
    fn prepare_kept(
        &mut self,
        table: HostCluster,
        offset: u64,
        length: u64,
        overwrite: bool,
        host: u64,
        room: Vec<ClusterMapping>,
    ) -> Result<Prepared, ImageError>
        requires reach { host ≤ greatest_offset }
        requires behind { IsPlacedBehind self.old host }
        requires room { HasRoomForOne room }
        ensures step { FillingStep S.view self.old self.new }
        ensures fails { FailsUnlimited S.view F.backing self.old self.new result (MayFailUncopied self.new) }
        ensures sound { BeginsIn S.view F.backing self.old self.new table offset length overwrite
            (keeping host) result }
        ensures begins { IfOk result (IsBegunIn self.old offset table (HasMemoryOf (vec_capacity room))) }
        ensures place { IfOk result (λ p. offset_of p ≡ host + offset % cluster_size self.old.file.header.fields) }
    {
        self.fill_kept(host, offset, length, overwrite)?;
        Ok(self.prepare_at(table, offset, host, ClusterMapping::Kept, room))
    }

    // Prepares a range at its guest offset in the data file.
    fn prepare_at_guest(
        &mut self,
        table: HostCluster,
        offset: u64,
        length: u64,
        overwrite: bool,
        old: &L2Mapping,
        room: Vec<ClusterMapping>,
    ) -> Result<Prepared, ImageError>
        requires beside { is_beside self.old ≡ true }
        requires other { IsNotInPlace self.old old.now }
        requires room { HasRoomForOne room }
        ensures step { FillingStep S.view self.old self.new }
        ensures fails { ImageFails S.view F.backing self.old self.new result
            (MayFailFilling self.old self.new old.now) }
        ensures begins { IfOk result (IsBegunIn self.old offset table (HasMemoryOf (vec_capacity room))) }
        ensures place { IfOk result (λ p. offset_of p ≡ offset) }
    {
        let Some(cluster) = self.cluster_of_guest(offset) else {
            return Err(ImageError::Limit);
        };
        self.fill_cluster(cluster, offset, length, overwrite, old)?;
        let place = cluster.offset(self.file.header.cluster_bits()).value();
        Ok(self.prepare_at(table, offset, place, ClusterMapping::Kept, room))
    }

    // Prepares a range in a new cluster.
    fn prepare_new(
        &mut self,
        table: HostCluster,
        offset: u64,
        length: u64,
        overwrite: bool,
        old: &L2Mapping,
        room: Vec<ClusterMapping>,
    ) -> Result<Prepared, ImageError>
        requires writable { IsTrue (is_writable self.old) }
        requires other { IsNotInPlace self.old old.now }
        requires room { HasRoomForOne room }
        ensures step { AllocatingStepWhere S.view (0 < table) self.old self.new }
        ensures fails { ImageFails S.view F.backing self.old self.new result
            (MayFailFilling self.old self.new old.now) }
        ensures sound { BeginsIn S.view F.backing self.old self.new table offset length overwrite old.now result }
        ensures begins { IfOk result (IsBegunIn self.old offset table (HasMemoryOf (vec_capacity room))) }
    {
        let old_data = self.named_by(old)?;
        let pending = self.new_cluster(offset, length, overwrite, old)?;
        match self.load_l2(table) {
            Ok(()) => {
                let bits = self.file.header.cluster_bits();
                let host = pending.cluster().offset(bits).value();
                let mut taken = ClustersToFreeList::new();
                pending.hand_back(&mut taken);
                let cluster_mapping = ClusterMapping::New { taken, old_data };
                Ok(self.prepare_at(table, offset, host, cluster_mapping, room))
            }
            Err(refusal) => {
                self.hand_back(pending);
                Err(refusal)
            }
        }
    }

    // Loads a table into the cache.
    #[tactic(auto, using(crate::proofs::Call::CacheErrors::in_use_met))]
    fn load_l2(&mut self, table: HostCluster) -> Result<(), ImageError>
        ensures step { ImageStepWhere S.view (0 < table) self.old self.new }
        ensures fails { ImageFails S.view F.backing self.old self.new result (MayFailUncopied self.new) }
        ensures rest { self.new ≡ record self.old {
          file = record self.old.file {
            storage = self.new.file.storage;
            caches = self.new.file.caches;
          };
        } }
        ensures sound { LoadsTable S.view F.backing self.old self.new table result }
        ensures cached { OnOk result (IsSome (l2_at self.new.file.caches table)) }
    {
        self.file
            .caches
            .l2_get_or_insert(&mut self.file.storage, table)
    }

    // The mapping of the rest of a cluster, at a place in the file. Its table is pinned.
    fn prepare_at(
        &mut self,
        table: HostCluster,
        offset: u64,
        host: u64,
        cluster_mapping: ClusterMapping,
        room: Vec<ClusterMapping>,
    ) -> Prepared
        requires near { host < 2 ^ 63 }
        requires room { HasRoomForOne room }
        ensures stays { ImageStays self.old self.new }
        ensures pins { Pins table self.old self.new }
        ensures own { IsOwn self.old result }
        ensures some { 0 < length_of result }
        ensures cluster_mapping { result.clusters.items ≡ cluster_mapping ∷ [] }
        ensures room { vec_capacity result.clusters ≡ vec_capacity room }
        ensures value { result ≡ record result {
          image = self.old.number;
          guest = offset;
          offset = host + offset % cluster_size self.old.file.header.fields;
          length = cluster_size self.old.file.header.fields - offset % cluster_size self.old.file.header.fields;
          table = Some table;
        } }
    {
        let bits = self.file.header.cluster_bits();
        let guest = GuestOffset::new(offset);
        self.file.caches.l2_pin(table);
        Prepared {
            image: self.number,
            guest: offset,
            place: self.place(),
            offset: host + guest.in_cluster_offset(bits),
            length: guest.remaining_in_cluster(bits),
            table: Some(table),
            clusters: of_one(cluster_mapping, room),
        }
    }

    // Allocates a cluster for the one at an offset, whose old mapping is known, and fills it with the old bytes, except where the caller
    // promised to overwrite.
    fn new_cluster(
        &mut self,
        offset: u64,
        length: u64,
        overwrite: bool,
        old: &L2Mapping,
    ) -> Result<PendingClusters, ImageError>
        requires writable { IsTrue (is_writable self.old) }
        requires reach { IsInReach old.now }
        ensures step { AllocatingStep S.view self.old self.new }
        ensures fails { ImageFails S.view F.backing self.old self.new result
            (MayFailFilling self.old self.new old.now) }
        ensures nameable { IfOk result (λ p. IsHostCluster self.old.file.header.fields.cluster_bits p.first_cluster) }
        ensures elsewhere { IfOk result (λ p. 0 < p.first_cluster) }
        ensures sound { GainsCluster S.view F.backing self.old self.new offset length overwrite old.now result }
    {
        let pending = self.allocate_data_cluster()?;
        match self.fill_cluster(pending.cluster(), offset, length, overwrite, old) {
            Ok(()) => Ok(pending),
            Err(refusal) => {
                self.hand_back(pending);
                Err(refusal)
            }
        }
    }

    // Allocates a cluster for data.
    fn allocate_data_cluster(&mut self) -> Result<PendingClusters, ImageError>
        requires writable { IsTrue (is_writable self.old) }
        ensures step { AllocatingStep S.view self.old self.new }
        ensures fails { ImageFails S.view F.backing self.old self.new result (MayFailUncopied self.new) }
        ensures nameable { IfOk result (λ p. IsHostCluster self.old.file.header.fields.cluster_bits p.first_cluster) }
        ensures elsewhere { IfOk result (λ p. 0 < p.first_cluster) }
        ensures list { ListGrows self.old self.new }
        ensures sound { AllocatesOne S.view F.backing self.old self.new result }
    {
        let Some(allocator) = &mut self.allocator else {
            unreachable!();
        };
        allocator.allocate_data(&mut self.file, ClusterCount::new(1))
    }
}
