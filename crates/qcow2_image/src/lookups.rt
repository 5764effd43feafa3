//! Lookups: the mapping of a guest offset, and how many bytes are mapped alike.
ghost use Rattle.qcow2_image.specs.WriteSteps.{FindsInTable, FindsRun, IsLookedUp, LooksUp, RefusesLookup};
ghost use Rattle.qcow2_image.specs.ImageSteps.{ImageFails, ReadingCall, ReadingStep};
ghost use Rattle.qcow2_disk.specs.Alike.{IsAlike};
ghost use Rattle.std.specs.Prelude.{◌↔◌, ◌⊎◌, Bool, List, Option, is_some, ◌≡◌, ◌+◌, ◌*◌, ◌-◌, ◌%◌, true, Some, ◌^◌, ◌<◌, ◌≤◌, []};
ghost use Rattle.std.specs.Prelude.{length, IfOk, IfErr, IfSome, IsOk, IsSome, IsTrue, Ok, Err, None, false};
ghost use Rattle.std.specs.Prelude.{MatchOption, min, ℕ};
ghost use Rattle.qcow2_metadata.specs.L2Mapping.{HasAlignedHost, IsInReach};
ghost use Rattle.qcow2_image.specs.Image.{is_beside, size_of};
ghost use Rattle.qcow2_laws.specs.CrashInvariant.{Pending};
ghost use Rattle.qcow2_alloc.specs.MetadataCaches.{IsEntryAt, l2_at};
ghost use Rattle.qcow2_alloc.specs.ImageFile.{known_in, FileInvariant};
ghost use Rattle.qcow2_image.specs.declared.prepared.Prepared.{Prepared};
ghost use Rattle.qcow2_image.specs.Calls.{AnswersCall};
ghost use Rattle.qcow2_alloc.specs.declared.error.ImageError.TheVariants.{UnalignedTable};
ghost use Rattle.qcow2_image.specs.LookupCauses.{HasUnalignedAt, HasUnalignedBehind};
ghost use Rattle.qcow2_image.specs.LookupCauses.{IsKindIn, IsTableUnaligned, IsUnalignedIn, MayFailFinding};
ghost use Rattle.qcow2_disk.specs.Found.{rest_of_table};
ghost use Rattle.qcow2_image.specs.Faults.{IsNotOfStorage};
ghost use Rattle.qcow2_image.specs.Found.{found_kind, further_by, kind_in, mapping_of, IsRunBehind, NamesL2Table, IsRunFrom};
ghost use Rattle.qcow2_image.specs.Found.{l1_index_of, l2_index_of};
ghost use Rattle.qcow2_image.specs.HeldMappings.{IsCompressedInTables, IsHeldFrom, IsHeldRun, named_place};
ghost use Rattle.qcow2_image.specs.MayFail.{IsSpecial};
ghost use Rattle.qcow2_image.specs.PinnedTables.{own_table};
ghost use Rattle.qcow2_image.specs.ImageInvariant.{HasL1Table, ImageInvariant, Mappings};
ghost use Rattle.qcow2_metadata.specs.Header.{cluster_size};
ghost use Rattle.qcow2_image.specs.declared.mapping.MappingKind.TheVariants.{Eof};
ghost use Rattle.qcow2_image.specs.Unwritten.{LooksQuietly, OnlyLooks};

use crate::{Mapping, MappingKind, Qcow2};
use image_access::{Storage, WrappedFormat};
use qcow2_alloc::ImageError;
use qcow2_metadata::{GuestCluster, GuestOffset, HostCluster, L2Mapping, L2Table};

// Whether a guest cluster is mapped like an earlier one, `distance` bytes before it.
fn is_alike(first: &L2Mapping, mapping: &L2Mapping, distance: u64) -> bool
    requires reach { IsInReach first.now }
    requires near { distance ≤ 2 ^ 42 }
    ensures { IsTrue result ↔ IsAlike distance first.now mapping.now }
{
    match mapping {
        L2Mapping::Data { host, copied } => match first {
            L2Mapping::Data {
                host: first_host,
                copied: first_copied,
            } => host.value() == first_host.value() + distance && *copied == *first_copied,
            _ => false,
        },
        L2Mapping::Zero { .. } => matches!(first, L2Mapping::Zero { .. }),
        L2Mapping::Compressed { .. } => matches!(first, L2Mapping::Compressed { .. }),
        L2Mapping::Uncovered => matches!(first, L2Mapping::Uncovered),
    }
}

// The cluster size.
fn cluster_size(table: &L2Table) -> u64
    ensures value { result ≡ 2 ^ table.now.cluster_bits }
    ensures some { 0 < result }
    ensures few { result ≤ 2 ^ 21 }
{
    1 << table.cluster_bits()
}

impl<S: Storage, F: WrappedFormat<S>> Qcow2<S, F> {
    /// Returns the mapping of a guest offset, and how many bytes, up to `max`, are mapped alike: within one L2 table, and below the disk's
    /// size. At or past the size it is `Eof`, with 0 bytes.
    /// Refused 16 (failed), 12 (dependency), in this order. During the work it may be refused 14 (memory) or 15 (storage), 8 (everything
    /// is in use) if all cached L2 tables are pinned, and 4 (unaligned table) if its L2 table or a cluster that is looked at is not aligned.
    pub fn get_mapping(&mut self, offset: u64, max: u64) -> Result<(Mapping, u64), ImageError>
        ensures step { ReadingCall S.view F.backing self.old self.new result }
        ensures refusals { RefusesLookup self.old self.new offset max result }
        ensures sound { LooksUp S.view F.backing self.old self.new offset max result }
        ensures found { IfOk result (IsLookedUp self.old offset max) }
        ensures sees { AnswersCall S.view F.backing self.old self.new [] (λ found old new. new ≡ old) result }
        ensures held { offset < size_of self.old → IfOk result (λ (mapping, n). IsHeldRun self.new offset max mapping.kind n) }
        ensures quiet { LooksQuietly S.view offset self.old self.new }
    {
        self.check_usable()?;
        self.begin_call();
        let found = self.look_up(offset, max);
        let (kind, length) = self.mark_failure(found)?;
        let mapping = Mapping {
            image: self.number,
            offset,
            length,
            kind,
        };
        Ok((mapping, length))
    }

    pub(crate) fn look_up(
        &mut self,
        offset: u64,
        max: u64,
    ) -> Result<(MappingKind, u64), ImageError>
        ensures step { ReadingStep S.view self.old self.new }
        ensures fails { ImageFails S.view F.backing self.old self.new result
            (MayFailFinding self.old self.new offset max) }
        ensures sound { FindsRun S.view F.backing self.old self.new offset max result }
        ensures within { IfOk result (λ (kind, n). n ≤ max) }
        ensures some { IfOk result (λ (kind, n). offset < size_of self.old → 0 < max → 0 < n) }
        ensures past { size_of self.old ≤ offset → result ≡ Ok (Eof, 0) }
        ensures held { offset < size_of self.old → IfOk result (λ (kind, n). IsHeldRun self.new offset max kind n) }
        ensures kind { IfOk result (λ (kind, n). IsKindIn self.new offset kind) }
        ensures looks { OnlyLooks S.view offset self.old self.new }
    {
        let size = self.file.header.size();
        if offset >= size {
            return Ok((MappingKind::Eof, 0));
        }
        self.run_from(offset, max.min(size - offset))
    }

    // The run of clusters that are mapped alike from an offset on, within one L2 table. The range may lie past the disk's size.
    pub(crate) fn run_from(
        &mut self,
        offset: u64,
        max: u64,
    ) -> Result<(MappingKind, u64), ImageError>
        ensures step { ReadingStep S.view self.old self.new }
        ensures fails { ImageFails S.view F.backing self.old self.new result
            (MayFailFinding self.old self.new offset max) }
        ensures sound { FindsInTable S.view F.backing self.old self.new offset max result }
        ensures within { IfOk result (λ (kind, n). n ≤ max) }
        ensures some { IfOk result (λ (kind, n). 0 < max → 0 < n) }
        ensures held { (limit : ℕ) → max ≡ min limit (size_of self.old - offset) → offset < size_of self.old
            → IfOk result (λ (kind, n). IsHeldRun self.new offset limit kind n) }
        ensures kind { IfOk result (λ (kind, n). IsKindIn self.new offset kind) }
        ensures plain { IfOk result (λ (kind, n). IsCompressedInTables self.new offset → IsSpecial kind) }
        ensures looks { OnlyLooks S.view offset self.old self.new }
    {
        let max = max.min(self.rest_of_table(offset));
        match self.l2_cluster(offset)? {
            None => Ok((self.uncovered(offset), max)),
            Some(table) => {
                self.file
                    .caches
                    .l2_get_or_insert(&mut self.file.storage, table)?;
                self.run_in_table(table, offset, max)
            }
        }
    }

    // The number of bytes from an offset to the end of what its L2 table covers.
    pub(crate) fn rest_of_table(&self, offset: u64) -> u64
        ensures value { result ≡ rest_of_table self.now.file.header.fields offset }
        ensures some { 0 < result }
        ensures bounded { result ≤ 2 ^ 40 }
    {
        let covered = self.file.header.cluster_size() * self.file.header.l2_entries() as u64;
        covered - offset % covered
    }

    // The cluster of the L2 table of an offset, or None if there is none.
    fn l2_cluster(&self, offset: u64) -> Result<Option<HostCluster>, ImageError>
        ensures cause { IfErr result (λ e. (e ≡ UnalignedTable) × IsTableUnaligned self.now offset) }
        ensures reads { (p : Pending) (out : Mappings) → ImageInvariant S.view F.backing p self.now out → IsOk result }
        ensures names { HasL1Table S.view F.backing self.now.file self.now.l1_table → IfOk result (NamesL2Table S.view self.now offset) }
        ensures elsewhere { IfOk result (λ table. IfSome table (λ cluster. 0 < cluster)) }
        ensures faults { IfErr result IsNotOfStorage }
        ensures own { IfOk result (λ table. MatchOption table
            (named_place self.now.file.header.fields self.now.l1_table offset ≡ 0)
            (λ cluster. (cluster ≡ own_table self.now offset)
            × ¬ (named_place self.now.file.header.fields self.now.l1_table offset ≡ 0))) }
    {
        let bits = self.file.header.cluster_bits();
        let Some(entry) = self.l1_table.get(GuestOffset::new(offset).l1_index(bits)) else {
            return Ok(None);
        };
        match entry.offset.checked_cluster(bits) {
            Some(cluster) => Ok(Some(cluster)),
            None => Err(ImageError::UnalignedTable),
        }
    }

    fn uncovered(&self, offset: u64) -> MappingKind
        ensures value { (beside : Bool) → found_kind result
            ≡ kind_in self.now.file.header.fields beside (is_some self.now.backing) offset L2Mapping.Uncovered }
        ensures whole { further_by 0 result ≡ result }
    {
        match &self.backing {
            Some(_) => MappingKind::Indirect { offset },
            None => MappingKind::Zero { explicit: false },
        }
    }

    // The run of clusters that are mapped alike from an offset on, in the cached table that covers it.
    pub(crate) fn run_in_table(
        &self,
        table: HostCluster,
        offset: u64,
        max: u64,
    ) -> Result<(MappingKind, u64), ImageError>
        requires near { max ≤ 2 ^ 40 }
        requires cached { IsSome (l2_at self.now.file.caches table) }
        ensures cause { IfErr result (λ e. (e ≡ UnalignedTable)
            × HasUnalignedAt self.now.file.header.fields self.now.file.caches table offset max) }
        ensures reads { (p : Pending) → FileInvariant S.view p self.now.file
            → IsEntryAt self.now.file.header.fields (known_in S.view self.now.file)
            (l1_index_of self.now.file.header.fields offset) table (l2_index_of self.now.file.header.fields offset)
            → max ≤ rest_of_table self.now.file.header.fields offset → IsOk result }
        ensures within { IfOk result (λ (kind, n). n ≤ max) }
        ensures some { IfOk result (λ (kind, n). 0 < max → 0 < n) }
        ensures run { (p : Pending) → FileInvariant S.view p self.now.file → self.now.data_file ≡ None
            → IsEntryAt self.now.file.header.fields (known_in S.view self.now.file)
            (l1_index_of self.now.file.header.fields offset) table (l2_index_of self.now.file.header.fields offset)
            → max ≤ rest_of_table self.now.file.header.fields offset
            → IfOk result (λ (kind, n). IsRunFrom S.view self.now offset max kind n) }
        ensures faults { IfErr result IsNotOfStorage }
        ensures held { table ≡ own_table self.now offset
            → ¬ (named_place self.now.file.header.fields self.now.l1_table offset ≡ 0)
            → IfOk result (λ (kind, n). IsHeldFrom self.now offset max kind n) }
    {
        let bits = self.file.header.cluster_bits();
        let Some(table) = self.file.caches.l2_peek(table) else {
            unreachable!();
        };
        let guest = GuestOffset::new(offset);
        let first = table.get_mapping(guest.cluster(bits))?;
        let rest = guest.remaining_in_cluster(bits);
        let behind = self.alike_behind(table, guest.cluster(bits), max.saturating_sub(rest))?;
        Ok((self.kind_of(first, offset), (rest + behind).min(max)))
    }

    // Whether two guest clusters of a table, `distance` bytes apart, are mapped alike.
    fn are_alike(
        &self,
        table: &L2Table,
        first: GuestCluster,
        next: GuestCluster,
        distance: u64,
    ) -> Result<bool, ImageError>
        requires near { distance ≤ 2 ^ 42 }
        ensures alike { IfOk result (λ alike. IsTrue alike ↔ IsAlike distance (mapping_of table.now first) (mapping_of table.now next)) }
        ensures cause { IfErr result (λ e. (e ≡ UnalignedTable)
            × (IsUnalignedIn table.now first ⊎ IsUnalignedIn table.now next)) }
        ensures reads { ((g : ℕ) → HasAlignedHost table.now.cluster_bits (mapping_of table.now g)) → IsOk result }
        ensures faults { IfErr result IsNotOfStorage }
    {
        let first = table.get_mapping(first)?;
        let next = table.get_mapping(next)?;
        Ok(is_alike(&first, &next, distance))
    }

    // How many bytes, at least up to `max`, are in clusters after one that are mapped like it.
    fn alike_behind(
        &self,
        table: &L2Table,
        cluster: GuestCluster,
        max: u64,
    ) -> Result<u64, ImageError>
        requires few { max ≤ 2 ^ 40 }
        requires near { cluster < 2 ^ 62 }
        ensures bounded { IfOk result (λ n. n ≤ 2 ^ 41) }
        ensures run { IfOk result (IsRunBehind table.now cluster max) }
        ensures cause { IfErr result (λ e. (e ≡ UnalignedTable) × HasUnalignedBehind table.now cluster max) }
        ensures reads { ((g : ℕ) → HasAlignedHost table.now.cluster_bits (mapping_of table.now g)) → IsOk result }
        ensures faults { IfErr result IsNotOfStorage }
    {
        let size = cluster_size(table);
        let mut count = 0;
        while count * size < max {
            let next = GuestCluster::new(cluster.value() + count + 1);
            if !self.are_alike(table, cluster, next, (count + 1) * size)? {
                break;
            }
            count += 1;
        }
        Ok(count * size)
    }

    pub(crate) fn kind_of(&self, mapping: L2Mapping, offset: u64) -> MappingKind
        requires { IsInReach mapping }
        ensures value { found_kind result ≡ kind_in self.now.file.header.fields (is_beside self.now)
            (is_some self.now.backing) offset mapping }
        ensures whole { further_by 0 result ≡ result }
    {
        let within = GuestOffset::new(offset).in_cluster_offset(self.file.header.cluster_bits());
        match mapping {
            L2Mapping::Data { host, copied } => MappingKind::Raw {
                place: self.place(),
                offset: host.value() + within,
                writable: copied,
            },
            L2Mapping::Zero { .. } => MappingKind::Zero { explicit: true },
            L2Mapping::Compressed { .. } => MappingKind::Special { offset },
            L2Mapping::Uncovered => self.uncovered(offset),
        }
    }
}
