//! Preparing a guest range for writing, and committing it.
ghost use Rattle.qcow2_image.specs.WriteSteps.{AnswersPrepare, CommitCall, CommitsMapping, PreparesMapping};
ghost use Rattle.qcow2_image.specs.WriteSteps.{RefusesAfter, RefusesCommit, RefusesPrepare, AllocatingStepWhere};
ghost use Rattle.qcow2_image.specs.SoundParts.{InTableSoundly, PreparesSoundly};
ghost use Rattle.qcow2_image.specs.ImageSteps.{CallStep, ImageFails, ImageStep};
ghost use Rattle.qcow2_image.specs.BehindHeader.{PreservesHeaderCluster};
ghost use Rattle.qcow2_image.specs.PreparedPlaces.{HasBytesBehind, IsMarkedBehind, IsOwn, IsPlacedBehind, MarkedIsBehind};
ghost use Rattle.std.specs.Prelude.{◌↔◌, ℕ, List, Option, ◌≡◌, ◌⊎◌, ◌≢◌, ◌+◌, ◌*◌, ◌-◌, ◌/◌, ◌%◌, true, Some, ◌^◌, ◌<◌};
ghost use Rattle.std.specs.Prelude.{◌≤◌, [], ◌∷◌, ◌++◌, length, slice_get, IfOk, IfErr, IfSome, OnOk, IsOk, IsNone};
ghost use Rattle.std.specs.Prelude.{IsSome, IsTrue, IsFalse, MatchOption, Ok, Err, None, false};
ghost use Rattle.qcow2_image.specs.Growing.{Lasts};
ghost use Rattle.qcow2_metadata.specs.EntryTable.{entry_count};
ghost use Rattle.qcow2_image.specs.MayFail.{KeepsL1Place};
ghost use Rattle.qcow2_metadata.specs.L2Mapping.{IsInReach, greatest_offset, named_run};
ghost use Rattle.qcow2_disk.specs.Mappings.{is_copied_data};
ghost use Rattle.qcow2_image.specs.Image.{HasNothingToFree, ImageStays, KeepsRest, is_failed, is_writable};
ghost use Rattle.qcow2_image.specs.Image.{number_of, place_in, size_of, KeepsWholeHeader};
ghost use Rattle.qcow2_image.specs.Prepared.{image_of, length_of, offset_of, table_of};
ghost use Rattle.qcow2_image.specs.Preparing.{IsPlaceOf};
ghost use Rattle.qcow2_image.specs.Ranges.{ReleasesOneMapping, Reaches};
ghost use Rattle.qcow2_laws.specs.CrashInvariant.{Pending};
ghost use Rattle.qcow2_alloc.specs.MetadataCaches.{IsEntryAt, l2_at};
ghost use Rattle.qcow2_alloc.specs.ImageFile.{known_in, FileInvariant};
ghost use Rattle.qcow2_image.specs.L1Entries.{HasOwnTable};
ghost use Rattle.qcow2_image.specs.PinnedTables.{ExistsInTables, IsWritableInTables, LiesInOwn, PreparesUnpinned, own_table};
ghost use Rattle.qcow2_alloc.specs.ImageStorage.{storage_of};
ghost use Rattle.qcow2_image.specs.declared.prepared.Prepared.{Prepared};
ghost use Rattle.qcow2_image.specs.Calls.{Commits, Discards, Prepares, reason_of};
ghost use Rattle.qcow2_image.specs.CallParts.{EntersAll, IsEntered, IsExisting, RefusedCall};
ghost use Rattle.qcow2_alloc.specs.CachePins.{l2_pins};
ghost use Rattle.qcow2_alloc.specs.ImageError.{IsFault, IsFaultOrLimit};
ghost use Rattle.qcow2_image.specs.Faults.{CountsImageFaults, IsNotOfStorage, SameFaults};
ghost use Rattle.qcow2_image.specs.declared.image.Qcow2.{Qcow2};
ghost use Rattle.qcow2_image.specs.Found.{l1_index_of, l2_index_of};
ghost use Rattle.qcow2_image.specs.InternalSteps.{DropsNothing, HoldsTable, EntersCluster, EntersMapping, FreesLater};
ghost use Rattle.qcow2_image.specs.InternalSteps.{Unpins, old_data_by, freed_by};
ghost use Rattle.qcow2_image.specs.ImageInvariant.{ImageInvariant, listed_run, pending_in, Mappings};
ghost use Rattle.qcow2_metadata.specs.Header.{entries_per_cluster, cluster_size};
ghost use Rattle.qcow2_metadata.specs.Cover.{cover};
ghost use Rattle.qcow2_image.specs.declared.mapping.Place.TheVariants.{Image};
ghost use Rattle.qcow2_image.specs.ChangeCauses.{HasCompressedCached};
ghost use Rattle.qcow2_disk.specs.Found.{IsCompressed};
ghost use Rattle.qcow2_image.specs.UnalignedTables.{KeepsOffsets};
ghost use Rattle.qcow2_image.specs.Refusals.{FreesRefused, MayFailOn, passes as passes_size, refuses_to_prepare};
ghost use Rattle.qcow2_image.specs.Refusals.{IsUnlimited, MayFailOn, MayFailPreparing};
ghost use Rattle.qcow2_image.specs.declared.prepared.CommitRefused.TheVariants.{Kept, Spent};
ghost use Rattle.qcow2_image.specs.declared.prepared.ClusterMapping.TheVariants.{InPlace};
ghost use Rattle.qcow2_alloc.specs.declared.error.ImageError.TheVariants.{Failed, ForeignState, TablePrepared};

use crate::prepared::ClusterMapping;
use crate::{CommitRefused, Prepared, Qcow2};
use image_access::{Storage, WrappedFormat};
use qcow2_alloc::{ClustersToFreeEntry, ClustersToFreeList, ImageError, PendingClusters};
use qcow2_metadata::{GuestCluster, GuestOffset, HostCluster, HostOffset, L2Mapping};

// Whether a range is not empty and ends past a size.
pub(crate) fn passes(size: u64, offset: u64, length: u64) -> bool
    ensures answer { result ≡ passes_size size offset length }
    ensures end { result ≡ false → offset + length < 2 ^ 64 }
{
    length > 0 && (offset > size || length > size - offset)
}

// A refused commit. If nothing was changed, it returns the mapping.
fn refused_commit(refusal: ImageError, prepared: Prepared, is_changed: bool) -> CommitRefused
    ensures failed { IsTrue is_changed → result ≡ Spent refusal }
    ensures kept { IsFalse is_changed → result ≡ Kept refusal prepared }
    ensures reason { reason_of result ≡ refusal }
{
    if is_changed {
        let Prepared {
            image: _,
            guest: _,
            place: _,
            offset: _,
            length: _,
            table: _,
            clusters: _,
        } = prepared;
        return CommitRefused::Spent(refusal);
    }
    CommitRefused::Kept(refusal, prepared)
}

// Whether a call ends at once after this refusal, without freeing clusters.
fn is_last(refusal: &ImageError) -> bool
    ensures fault { IsFault refusal.now → IsTrue result }
    ensures taken { refusal.now ≡ TablePrepared → IsTrue result }
    ensures last { IsTrue result → IsFault refusal.now ⊎ (refusal.now ≡ TablePrepared) }
{
    refusal.is_fault() || matches!(refusal, ImageError::TablePrepared)
}

// The host offset of copied data.
pub(crate) fn copied_offset(mapping: &L2Mapping) -> Option<u64>
    requires { IsInReach mapping.now }
    ensures place { IfSome result (λ host. (mapping.now ≡ L2Mapping.Data host true) × (host < 2 ^ 57)) }
    ensures none { IsNone result → is_copied_data mapping.now ≡ false }
{
    match mapping {
        L2Mapping::Data { host, copied } => { if *copied { Some(host.value()) } else { None } }
        L2Mapping::Zero { .. } | L2Mapping::Compressed { .. } | L2Mapping::Uncovered => None,
    }
}

// The host offset that a zero entry keeps, marked copied.
pub(crate) fn preallocated_offset(mapping: &L2Mapping) -> Option<u64>
    requires { IsInReach mapping.now }
    ensures place { IfSome result (λ host. (mapping.now ≡ L2Mapping.Zero (Some (host, true))) × (host ≤ greatest_offset)) }
    ensures none { IsNone result → (host : ℕ) → mapping.now ≢ L2Mapping.Zero (Some (host, true)) }
{
    match mapping {
        L2Mapping::Zero {
            kept: Some((host, marked)),
        } => { if *marked { Some(host.value()) } else { None } }
        L2Mapping::Zero { kept: None }
        | L2Mapping::Data { .. }
        | L2Mapping::Compressed { .. }
        | L2Mapping::Uncovered => None,
    }
}

// Whether the host cluster of a mapping that is marked copied lies past the header's cluster.
fn is_behind_header(mapping: &L2Mapping, size: u64) -> bool
    ensures { IsTrue result ↔ MarkedIsBehind size mapping.now }
{
    match mapping.host() {
        Some(host) => !mapping.is_marked_copied() || host.value() >= size,
        None => true,
    }
}

// A place in the file, unless it lies in the header's cluster.
fn behind_header(place: Option<u64>, size: u64) -> Option<u64>
    ensures behind { IfSome result (λ host. size ≤ host) }
    ensures same { IfSome place (λ host. size ≤ host) → result ≡ place }
    ensures own { IfSome result (λ host. place ≡ Some host) }
{
    match place {
        Some(host) => { if host >= size { Some(host) } else { None } }
        None => None,
    }
}

// Whether a zero entry keeps the host cluster at a place, marked copied.
pub(crate) fn keeps(mapping: &L2Mapping, place: u64) -> bool
    requires { IsInReach mapping.now }
    ensures answer { IsTrue result ↔ (mapping.now ≡ L2Mapping.Zero (Some (place, true))) }
    ensures reach { IsTrue result → place ≤ greatest_offset }
{
    preallocated_offset(mapping) == Some(place)
}

#[tactic(auto, using(crate::proofs::Call::FailingErrors::tables_met, crate::proofs::Call::FailingErrors::fault_met, crate::proofs::Call::FailingErrors::storage_met))]
impl<S: Storage, F: WrappedFormat<S>> Qcow2<S, F> {
    /// Prepares a range to be written at one place in the file, or in the data file if there is one. With `overwrite` the caller promises to
    /// write all of it, and old bytes are not copied. The mapping may be shorter than the range, and must be committed or discarded. A mapping
    /// that isn't existing has at least the rest of its first cluster. None of its bytes lies in the image's header. A mapping is existing
    /// only where the tables in memory mark all of the range as copied data. If the header requires a data file, the mapping lies at
    /// its own guest offset in it.
    /// Refused in this order: 16 (failed), 12 (dependency), 2 (beyond size), 1 (read-only). A length of 0 succeeds before 1. Then
    /// 9 (table prepared), if another mapping that isn't existing is prepared in the same L2 table. May be refused
    /// 4 (unaligned table), 7 (compressed) if a compressed cluster would have to be copied, 8 (everything is in use), 13 (limit),
    /// 14 (memory) or 15 (storage) during the work, and 20 (overflow) if an L1 entry past 64 bits would have to be written.
    pub fn prepare_data_mapping(
        &mut self,
        offset: u64,
        length: u64,
        overwrite: bool,
    ) -> Result<Prepared, ImageError>
        ensures step { CallStep S.view F.backing self.old self.new result }
        ensures refusals { RefusesPrepare self.old self.new offset length result }
        ensures sound { PreparesMapping S.view F.backing self.old self.new offset length overwrite result }
        ensures answer { AnswersPrepare self.old self.new offset length result }
        ensures sees { Prepares S.view F.backing self.old self.new offset length overwrite result }
        ensures pinned { 0 < length → refuses_to_prepare self.old offset length ≡ None → HasOwnTable self.old offset
            → PreparesUnpinned self.old offset result }
        ensures existing { 0 < length → refuses_to_prepare self.old offset length ≡ None
            → ExistsInTables self.new offset length result }
    {
        self.check_prepare(offset, length)?;
        if length == 0 {
            return Ok(self.existing_at(offset, 0, 0));
        }
        self.begin_call();
        let prepared = self.prepare(offset, length, overwrite);
        self.mark_failure(prepared)
    }

    /// Refuses a range that can't be prepared, in this order: 16 (failed), 12 (dependency), 2 (beyond size), 1 (read-only). Refusals 2 and 1 are for
    /// a range of at least one byte. Nothing is read.
    pub fn check_prepare(&self, offset: u64, length: u64) -> Result<(), ImageError>
        ensures refusal { MatchOption (refuses_to_prepare self.now offset length) (result ≡ Ok tt) (λ e. result ≡ Err e) }
        ensures writable { result ≡ Ok tt → 0 < length → IsTrue (is_writable self.now) }
        ensures end { IfOk result (λ done. offset + length < 2 ^ 64) }
        ensures faults { IfErr result IsNotOfStorage }
    {
        self.check_usable()?;
        if passes(self.file.header.size(), offset, length) {
            return Err(ImageError::BeyondSize);
        }
        if length > 0 && !self.writable() {
            return Err(ImageError::ReadOnly);
        }
        Ok(())
    }

    fn existing_at(&self, guest: u64, offset: u64, length: u64) -> Prepared
        ensures own { IsOwn self.now result }
        ensures length { length_of result ≡ length }
        ensures offset { offset_of result ≡ offset }
        ensures existing { IsExisting result self.now.number guest length }
    {
        Prepared {
            image: self.number,
            guest,
            place: self.place(),
            offset,
            length,
            table: None,
            clusters: Vec::new(self.file.alloc),
        }
    }

    // Prepares a range. After a refusal, the clusters on the list are freed, except after a fault and after 9.
    pub(crate) fn prepare(
        &mut self,
        offset: u64,
        length: u64,
        overwrite: bool,
    ) -> Result<Prepared, ImageError>
        requires writable { IsTrue (is_writable self.old) }
        ensures step { ImageStep S.view self.old self.new }
        ensures fails { ImageFails S.view F.backing self.old self.new result (MayFailPreparing self.new) }
        ensures sound { 0 < length → (out : Mappings)
            → ImageInvariant S.view F.backing (pending_in S.view F.backing self.old out) self.old out
            → PreparesSoundly S.view F.backing offset length overwrite self.old self.new out result }
        ensures l1_place { l1_index_of self.old.file.header.fields offset < entry_count self.old.l1_table
            → OnOk result (KeepsL1Place self.old.file.header.fields self.new.file.header.fields) }
        ensures own { IfOk result (IsOwn self.old) }
        ensures some { IfOk result (λ p. 0 < length → HasBytesBehind self.new p) }
        ensures freed { 0 < length → (out : Mappings)
            → ImageInvariant S.view F.backing (pending_in S.view F.backing self.old out) self.old out
            → IfErr result (FreesRefused self.new) }
        ensures pinned { HasOwnTable self.old offset → PreparesUnpinned self.old offset result }
        ensures existing { 0 < length → offset + length ≤ size_of self.old
            → ExistsInTables self.new offset length result }
    {
        match self.prepare_range(offset, length, overwrite) {
            Ok(prepared) => Ok(prepared),
            Err(refusal) => Err(self.process_free_list_after(refusal)),
        }
    }

    // Prepares a range: in place, or in its L2 table.
    fn prepare_range(
        &mut self,
        offset: u64,
        length: u64,
        overwrite: bool,
    ) -> Result<Prepared, ImageError>
        requires writable { IsTrue (is_writable self.old) }
        ensures step { ImageStep S.view self.old self.new }
        ensures fails { ImageFails S.view F.backing self.old self.new result (MayFailPreparing self.new) }
        ensures sound { 0 < length → (out : Mappings)
            → ImageInvariant S.view F.backing (pending_in S.view F.backing self.old out) self.old out
            → PreparesSoundly S.view F.backing offset length overwrite self.old self.new out result }
        ensures l1_place { l1_index_of self.old.file.header.fields offset < entry_count self.old.l1_table
            → OnOk result (KeepsL1Place self.old.file.header.fields self.new.file.header.fields) }
        ensures own { IfOk result (IsOwn self.old) }
        ensures some { IfOk result (λ p. 0 < length → HasBytesBehind self.new p) }
        ensures pinned { HasOwnTable self.old offset → PreparesUnpinned self.old offset result }
        ensures existing { 0 < length → offset + length ≤ size_of self.old
            → ExistsInTables self.new offset length result }
    {
        let table = self.writable_l2_table(offset)?;
        match self.existing_host(table, offset, length)? {
            Some(host) => Ok(self.existing_at(offset, host, length)),
            None => self.prepare_in(table, offset, length, overwrite),
        }
    }

    // Frees the clusters on the list after a refusal, and returns the refusal to report. Nothing is freed after a fault and
    // after 9.
    pub(crate) fn process_free_list_after(&mut self, refusal: ImageError) -> ImageError
        ensures step { ImageStep S.view self.old self.new }
        ensures keeps_rest { KeepsRest self.old self.new }
        ensures offsets { KeepsOffsets self.old self.new }
        ensures refused { RefusesAfter self.old self.new refusal result }
        ensures told { ((result ≡ refusal) ⊎ IsFaultOrLimit result) × ((out : Mappings)
            → ImageInvariant S.view F.backing (pending_in S.view F.backing self.old out) self.old out
            → (result ≡ refusal) ⊎ IsFault result) }
        ensures emptied { IsTrue (is_writable self.old) → (out : Mappings)
            → ImageInvariant S.view F.backing (pending_in S.view F.backing self.old out) self.old out
            → FreesRefused self.new result }
        ensures frees { (out : Mappings)
            → ImageInvariant S.view F.backing (pending_in S.view F.backing self.old out) self.old out
            → RefusedCall S.view F.backing self.old self.new out result }
        ensures lasts { (out : Mappings)
            → ImageInvariant S.view F.backing (pending_in S.view F.backing self.old out) self.old out
            → Lasts S.view self.old self.new [] }
        ensures faults { (start : Qcow2 S F)
            → CountsImageFaults S.view F.backing {T = Unit {0}} start self.old (Err refusal)
            → CountsImageFaults S.view F.backing {T = Unit {0}} start self.new (Err result) }
    {
        if is_last(&refusal) {
            return refusal;
        }
        match self.process_free_list() {
            Ok(()) => refusal,
            Err(fault) => fault,
        }
    }

    // The host offset of the range, if all of it is copied data, contiguous in the file, in the cached table that covers it.
    fn existing_host(
        &self,
        table: HostCluster,
        offset: u64,
        length: u64,
    ) -> Result<Option<u64>, ImageError>
        requires cached { IsSome (l2_at self.now.file.caches table) }
        ensures cause { IfErr result (MayFailOn self.now) }
        ensures reads { (p : Pending) → FileInvariant S.view p self.now.file
            → IsEntryAt self.now.file.header.fields (known_in S.view self.now.file)
            (l1_index_of self.now.file.header.fields offset) table (l2_index_of self.now.file.header.fields offset)
            → IsOk result }
        ensures limited { IfErr result IsUnlimited }
        ensures place { (p : Pending) → FileInvariant S.view p self.now.file
            → self.now.file.header.fields.incompatible ≡ 0 → self.now.data_file ≡ None
            → IsEntryAt self.now.file.header.fields (known_in S.view self.now.file)
            (l1_index_of self.now.file.header.fields offset) table (l2_index_of self.now.file.header.fields offset)
            → 0 < length → IfOk result (IsPlaceOf self.now.file.header.fields
            (known_in S.view self.now.file) offset length) }
        ensures behind { IfOk result (λ place. IfSome place (IsPlacedBehind self.now)) }
        ensures held { LiesInOwn self.now offset length → table ≡ own_table self.now offset
            → IfOk result (λ place. IfSome place (IsWritableInTables self.now offset length)) }
        ensures faults { IfErr result IsNotOfStorage }
    {
        let max = length.min(self.rest_of_table(offset));
        let (kind, found) = self.run_in_table(table, offset, max)?;
        if found < length {
            return Ok(None);
        }
        let place = kind.writable_place();
        if self.data_file.is_some() {
            return Ok(place);
        }
        Ok(behind_header(place, self.file.header.cluster_size()))
    }

    // Prepares a range in a cached table that no other mapping pins: its first cluster, and those after it that can be contiguous.
    fn prepare_in(
        &mut self,
        table: HostCluster,
        offset: u64,
        length: u64,
        overwrite: bool,
    ) -> Result<Prepared, ImageError>
        requires writable { IsTrue (is_writable self.old) }
        ensures step { AllocatingStepWhere S.view (0 < table) self.old self.new }
        ensures fails { ImageFails S.view F.backing self.old self.new result (MayFailPreparing self.new) }
        ensures sound { (out : Mappings)
            → ImageInvariant S.view F.backing (pending_in S.view F.backing self.old out) self.old out
            → HoldsTable S.view F.backing self.old offset table
            → InTableSoundly S.view F.backing table offset length overwrite self.old self.new out result }
        ensures taken { IfErr result (λ e. e ≡ TablePrepared → 0 < l2_pins self.old.file.caches table) }
        ensures unpinned { OnOk result (l2_pins self.old.file.caches table ≡ 0) }
        ensures own { IfOk result (IsOwn self.old) }
        ensures some { IfOk result (HasBytesBehind self.new) }
        ensures pins { IfOk result (λ p. IsSome (table_of p)) }
        ensures reaches { (out : Mappings) (k : ℕ) → slice_get out.slots k ≡ Some None
            → ImageInvariant S.view F.backing (pending_in S.view F.backing self.old out) self.old out
            → HoldsTable S.view F.backing self.old offset table → IfOk result (Reaches S.view self.new offset length) }
    {
        let mut prepared = self.prepare_first(table, offset, length, overwrite)?;
        match self.prepare_rest(&mut prepared, table, length, overwrite) {
            Ok(()) => Ok(prepared),
            Err(refusal) => {
                self.release_prepared(prepared);
                Err(refusal)
            }
        }
    }

    // The mapping of a guest cluster in a cached table. An entry that is marked copied in the header's cluster is refused 19 (metadata),
    // unless data are in a data file.
    #[tactic(auto, using(crate::proofs::Call::FailingErrors::tables_met, crate::proofs::Call::FailingErrors::fault_met, crate::proofs::Call::FailingErrors::storage_met, crate::proofs::Call::Unlimited::unaligned_unlimited))]
    pub(crate) fn cover_in(
        &self,
        table: HostCluster,
        cluster: GuestCluster,
    ) -> Result<L2Mapping, ImageError>
        ensures reach { IfOk result IsInReach }
        ensures behind { IfOk result (IsMarkedBehind self.now) }
        ensures held { IfOk result (λ mapping. IsCompressed mapping → HasCompressedCached self.now.file.caches) }
        ensures cause { IfErr result (MayFailOn self.now) }
        ensures limited { IfErr result IsUnlimited }
        ensures reads { (p : Pending) (i : ℕ) → FileInvariant S.view p self.now.file
            → self.now.file.header.fields.incompatible ≡ 0
            → IsEntryAt self.now.file.header.fields (known_in S.view self.now.file) i table
            (cluster % entries_per_cluster self.now.file.header.fields)
            → cluster / entries_per_cluster self.now.file.header.fields ≡ i → IsSome (l2_at self.now.file.caches table)
            → IsOk result }
        ensures says { (p : Pending) (i : ℕ) → FileInvariant S.view p self.now.file
            → IsEntryAt self.now.file.header.fields (known_in S.view self.now.file) i table
            (cluster % entries_per_cluster self.now.file.header.fields)
            → cluster / entries_per_cluster self.now.file.header.fields ≡ i
            → IfOk result (λ mapping. cover self.now.file.header.fields
            (known_in S.view self.now.file) cluster ≡ mapping) }
        ensures faults { IfErr result IsNotOfStorage }
    {
        let Some(held) = self.file.caches.l2_peek(table) else {
            return Err(ImageError::InUse);
        };
        let mapping = held.get_mapping(cluster)?;
        if self.data_file.is_none()
            && !is_behind_header(&mapping, self.file.header.cluster_size())
        {
            return Err(ImageError::Metadata);
        }
        Ok(mapping)
    }

    // The host clusters of a mapping, as clusters to free.
    pub(crate) fn named_by(&self, mapping: &L2Mapping) -> Result<ClustersToFreeList, ImageError>
        requires { IsInReach mapping.now }
        ensures list { IfOk result (λ list. list ≡ listed_run (named_run self.now.file.header.fields.cluster_bits mapping.now)) }
        ensures fault { IfErr result IsFault }
        ensures faults { IfErr result IsNotOfStorage }
    {
        let mut list = ClustersToFreeList::new();
        let mapping = *mapping;
        if let Some((first, count)) = mapping.host_clusters(self.file.header.cluster_bits()) {
            list.push(self.file.alloc, ClustersToFreeEntry::data(first, count))?;
        }
        Ok(list)
    }

    // Puts allocated clusters on the list of clusters to free.
    pub(crate) fn hand_back(&mut self, pending: PendingClusters)
        ensures { FreesLater (pending ∷ []) self.old self.new }
    {
        pending.hand_back(&mut self.file.free_list);
    }

    /// Makes a prepared mapping visible. If it isn't existing, the clusters on the list are freed then. A refusal that leaves the mapping unchanged
    /// returns it (`Kept`).
    /// Refused 11 (foreign state) for a mapping of another image, then 16 (failed). Refused 14 (memory) and 15 (storage)
    /// if clusters can't be freed.
    pub fn commit_data_mapping(&mut self, mut prepared: Prepared) -> Result<(), CommitRefused>
        ensures step { CommitCall S.view F.backing self.old self.new result }
        ensures refusals { RefusesCommit S.view F.backing self.old self.new prepared result }
        ensures stands { CommitsMapping S.view F.backing self.old self.new prepared result }
        ensures existing { image_of prepared ≡ number_of self.old → is_failed self.old ≡ false
            → IsNone (table_of prepared) → (result ≡ Ok tt) × ReleasesOneMapping S.view self.old self.new }
        ensures sees { Commits S.view F.backing self.old self.new prepared result }
        ensures emptied { image_of prepared ≡ number_of self.old → IsSome (table_of prepared)
            → IsTrue (is_writable self.old) → OnOk result (HasNothingToFree self.new) }
        ensures quiet { HasNothingToFree self.old → DropsNothing prepared
            → storage_of self.new.file.storage ≡ storage_of self.old.file.storage }
    {
        if prepared.image != self.number {
            return Err(CommitRefused::Kept(ImageError::ForeignState, prepared));
        }
        if self.is_failed {
            return Err(CommitRefused::Kept(ImageError::Failed, prepared));
        }
        if prepared.table.is_none() {
            self.release_prepared(prepared);
            return Ok(());
        }
        self.begin_call();
        let entered = self.enter_mappings(&mut prepared);
        match self.process_free_list_at_end() {
            Ok(()) => {
                self.release_prepared(prepared);
                Ok(())
            }
            Err(refusal) => Err(refused_commit(refusal, prepared, entered || self.is_failed)),
        }
    }

    // Enters the clusters of a mapping in its cached L2 table. Returns whether one wasn't in place.
    pub(crate) fn enter_mappings(&mut self, prepared: &mut Prepared) -> bool
        ensures step { ImageStep S.view self.old self.new }
        ensures none { IsFalse result → (self.new ≡ self.old) × (prepared.new ≡ prepared.old) }
        ensures enters { EntersAll S.view F.backing self.old self.new prepared.old prepared.new result }
        ensures in_place { IsEntered prepared.old prepared.new }
        ensures left { freed_by prepared.new.clusters.items ≡ [] }
        ensures header { self.new.file.header ≡ self.old.file.header }
        ensures rest { self.new ≡ record self.old {
          file = record self.old.file {
            caches = self.new.file.caches;
            free_list = self.new.file.free_list;
          };
        } }
        ensures quiet { DropsNothing prepared.old → self.new.file.free_list ≡ self.old.file.free_list }
        ensures faults { SameFaults S.view F.backing self.old self.new }
    {
        let mut entered = false;
        for i in 0..prepared.clusters.len() {
            if self.enter_mapping(prepared, i) {
                entered = true;
            }
        }
        entered
    }

    // Enters one cluster of a mapping in its L2 table. False if it is in place.
    fn enter_mapping(&mut self, prepared: &mut Prepared, i: usize) -> bool
        requires { i < length prepared.old.clusters.items }
        ensures stays { ImageStays self.old self.new }
        ensures none { IsFalse result → (self.new ≡ self.old) × (prepared.new ≡ prepared.old)
            × (slice_get prepared.old.clusters.items i ≡ Some InPlace) }
        ensures enters { IsTrue result → EntersMapping i prepared.old prepared.new self.old self.new }
    {
        if !prepared.clusters[i].is_entered() {
            return false;
        }
        let cluster_mapping = std::mem::replace(&mut prepared.clusters[i], ClusterMapping::InPlace);
        let bits = self.file.header.cluster_bits();
        let index = GuestOffset::new(prepared.guest).l2_index(bits);
        let first = HostOffset::new(prepared.offset).cluster(bits).value();
        let cluster = HostCluster::new(first.saturating_add(i as u64));
        self.enter_cluster(prepared.table, index.saturating_add(i), cluster);
        self.drop_former(cluster_mapping);
        true
    }

    // Puts the host clusters that an entered cluster replaced on the list of clusters to free.
    fn drop_former(&mut self, cluster_mapping: ClusterMapping)
        ensures { FreesLater (old_data_by cluster_mapping) self.old self.new }
    {
        if let ClusterMapping::New {
            taken: _,
            mut old_data,
        } = cluster_mapping
        {
            old_data.take().hand_back(&mut self.file.free_list);
        }
    }

    fn enter_cluster(&mut self, table: Option<HostCluster>, index: usize, cluster: HostCluster)
        ensures { EntersCluster table index cluster self.old self.new }
    {
        if let Some(table) = table {
            let _nothing = self.file.caches.l2_map_cluster(table, index, cluster);
        }
    }

    /// Drops a prepared mapping: its new clusters wait to be freed. This works on a failed image too. Refused 11 (foreign state) for a mapping of
    /// another image, which is returned.
    pub fn discard_data_mapping(&mut self, prepared: Prepared) -> Result<(), (ImageError, Prepared)>
        ensures own { image_of prepared ≡ number_of self.old → IsOk result }
        ensures foreign { image_of prepared ≢ number_of self.old → (result ≡ Err (ForeignState, prepared)) × (self.new ≡ self.old) }
        ensures stays { ImageStays self.old self.new }
        ensures header { KeepsWholeHeader self.old self.new }
        ensures sees { IfOk result (λ done. Discards S.view F.backing self.old self.new prepared) }
        ensures rest { IfOk result (λ done. ReleasesOneMapping S.view self.old self.new) }
        ensures header_cluster { PreservesHeaderCluster S.view self.old self.new }
        ensures faults { SameFaults S.view F.backing self.old self.new }
    {
        if prepared.image != self.number {
            return Err((ImageError::ForeignState, prepared));
        }
        self.release_prepared(prepared);
        Ok(())
    }

    // Drops a mapping: its new clusters wait to be freed.
    pub(crate) fn release_prepared(&mut self, prepared: Prepared)
        ensures step { ImageStep S.view self.old self.new }
        ensures header { self.new.file.header ≡ self.old.file.header }
        ensures list { self.new.file.free_list ≡ self.old.file.free_list ++ freed_by prepared.clusters.items }
        ensures rest { ReleasesOneMapping S.view self.old self.new }
        ensures sees { Discards S.view F.backing self.old self.new prepared }
        ensures faults { SameFaults S.view F.backing self.old self.new }
    {
        let Prepared {
            image: _,
            guest: _,
            place: _,
            offset: _,
            length: _,
            table,
            clusters,
        } = prepared;
        self.list_new_clusters(clusters);
        self.unpin(table);
    }

    // Puts the new clusters of a mapping on the list of clusters to free.
    fn list_new_clusters(&mut self, clusters: Vec<ClusterMapping>)
        ensures { FreesLater (freed_by clusters.items) self.old self.new }
    {
        for cluster_mapping in clusters {
            self.free_mapping(cluster_mapping);
        }
    }

    fn free_mapping(&mut self, cluster_mapping: ClusterMapping)
        ensures { FreesLater (freed_by (cluster_mapping ∷ [])) self.old self.new }
    {
        if let ClusterMapping::New {
            mut taken,
            old_data: _,
        } = cluster_mapping
        {
            taken.take().hand_back(&mut self.file.free_list);
        }
    }

    // Unpins the L2 table of a mapping.
    fn unpin(&mut self, table: Option<HostCluster>)
        ensures { Unpins table self.old self.new }
    {
        if let Some(table) = table {
            self.file.caches.l2_unpin(table);
        }
    }
}
