ghost use Rattle.qcow2_image.specs.ImageInvariant.{Mappings, in_image};
ghost use Rattle.qcow2_image.specs.ImageSteps.{CallStep, ImageFails, ImageStep};
ghost use Rattle.qcow2_alloc.specs.BehindHeader.{LeaveHeaderCluster};
ghost use Rattle.qcow2_image.specs.BehindHeader.{IsL1TableBehind, NamesTablesBehind};
ghost use Rattle.qcow2_image.specs.BehindHeader.{PreservesHeaderCluster, TablesBehindHeader};
ghost use Rattle.qcow2_alloc.specs.SparedHeaders.{StandsBehindHeader};
ghost use Rattle.std.specs.Prelude.{◌≡◌, ◌<◌};
ghost use Rattle.qcow2_image.specs.Opened.{needs_missing, needs_another as needs_another_of};

use image_access::{BackingDisk, Format, Storage, WrappedFormat};
use qcow2_alloc::{
    Allocator, ClustersToFreeList, ImageError, ImageFile, ImageStorage, MetadataCaches, WriteKind,
};
use qcow2_metadata::{Header, HostCluster, L1Table, MAGIC};
use std::alloc::Global;

/// The number of L2 tables that are cached.
const L2_TABLES: usize = 128;

/// The number of refblocks that are cached.
const REFBLOCKS: usize = 32;

/// An open image with storage `S` and backing disk `F`. Offsets, lengths and sizes are in bytes. A call that is refused 15 (storage), or 14
/// (memory) after its first change, fails the image: from then on only `discard_data_mapping` and the getters work.
#[derive(Drop)]
pub struct Qcow2<S: Storage, F: WrappedFormat<S> = Box<dyn BackingDisk>> {
    pub(crate) number: u64,
    pub(crate) is_failed: bool,
    pub(crate) file: ImageFile<S>,
    pub(crate) l1_table: L1Table,
    // Present if the image is writable.
    pub(crate) allocator: Option<Allocator>,
    pub(crate) backing: Option<F>,
    // If present, guests' data are in it, and not in the image's own file.
    pub(crate) data_file: Option<S>,
}

// The tables that are loaded besides the header.
#[derive(Drop)]
struct Tables {
    l1_table: L1Table,
    allocator: Option<Allocator>,
}

// Whether the data are in an external file, or the header names a backing file.
fn needs_another(header: &Header) -> bool
    ensures { result ≡ needs_another_of header.now }
{
    header.has_data_file() || header.backing_name().is_some()
}

/// Which of the files that an image may need are missing when it is opened. An image that needs one of them is refused.
#[derive(Clone, Copy, Debug, PartialEq, Eq)]
pub enum Missing {
    /// None is missing.
    Nothing,
    /// The external data file.
    DataFile,
    /// The backing file that the header names.
    BackingFile,
    /// The external data file, and the backing file that the header names.
    OtherFiles,
}

// Whether an image needs a file that is missing.
fn lacks_another(missing: Missing, header: &Header) -> bool
    ensures { result ≡ needs_missing missing header.now }
{
    match missing {
        Missing::Nothing => false,
        Missing::DataFile => header.has_data_file(),
        Missing::BackingFile => header.backing_name().is_some(),
        Missing::OtherFiles => needs_another(header),
    }
}

#[tactic(auto, using(crate::proofs::Call::FailingErrors::tables_met, crate::proofs::Call::FailingErrors::fault_met, crate::proofs::Call::FailingErrors::storage_met, crate::proofs::Call::FailingErrors::memory_met, crate::proofs::Call::FailingErrors::length_met, crate::proofs::Call::FailingErrors::reftable_met))]
impl<S: Storage, F: WrappedFormat<S>> Qcow2<S, F> {
    ghost use Rattle.std.specs.Prelude.{◌≡◌, ◌≤◌, [], IfOk, IfErr, OnOk, IsTrue, MatchOption, MatchResult, true, Ok, Err, Some, None, false, nat_le, option_map, if◌then◌else◌, List, Option};
    ghost use Rattle.std.specs.String.{string_bytes};
    ghost use Rattle.qcow2_metadata.specs.Header.{header, cluster_size, has_data_file};
    ghost use Rattle.qcow2_alloc.specs.declared.error.ImageError.TheVariants.{Failed};
    ghost use Rattle.qcow2_alloc.specs.Faults.{FaultsReported};
    ghost use Rattle.qcow2_alloc.specs.LoadedTables.{IsReasonAgainstL1Table, IsReasonAgainstReftable, L1TableReads, ReftableReads};
    ghost use Rattle.qcow2_image.specs.Readable.{IsNewlyOpened, IsReasonAgainstTables, NeededTablesRead, OpeningStep};
    ghost use Rattle.qcow2_image.specs.Faults.{CountsImageFaults, SameFaults};
    ghost use Rattle.qcow2_image.specs.Image.{storage_of_image, HasNothingToFree, ImageStays, IsBegun, KeepsRest, IsSameImage, is_failed, is_writable, has_noted_change, leaked_by, leaked_in, number_of, size_of, KeepsWholeHeader};
    ghost use Rattle.qcow2_disk.specs.AbstractImages.{guest_of};
    ghost use Rattle.qcow2_image.specs.declared.prepared.Prepared.{Prepared};
    ghost use Rattle.qcow2_laws.specs.CrashInvariant.{Pending};
    ghost use Rattle.qcow2_image.specs.ImageInvariant.{abstract_of, pending_in, ImageInvariant, HasL1Table};
    ghost use Rattle.qcow2_image.specs.CallParts.{EndsFreeing};
    ghost use Rattle.qcow2_alloc.specs.ImageError.{IsFault, IsFaultOrLimit};
    ghost use Rattle.qcow2_image.specs.Calls.{FlushesImage};
    ghost use Rattle.qcow2_image.specs.SizeSteps.{FlushFails, WritesTables};
    ghost use Rattle.qcow2_alloc.specs.ImageFile.{contents_in, known_in, view_in};
    ghost use Rattle.qcow2_image.specs.InternalSteps.{InternalStep, FreesListed};
    ghost use Rattle.qcow2_alloc.specs.FreeList.{with_listed};
    ghost use Rattle.qcow2_alloc.specs.ImageStorage.{storage_of, SameNotes};
    ghost use Rattle.qcow2_image.specs.UnalignedTables.{KeepsOffsets};
    ghost use Rattle.qcow2_image.specs.Refusals.{unusable, MayFail, MarksFailed, MarksRefused};
    ghost use Rattle.image_access.specs.Moments.{ContentsStay, EachMomentSince, IsLeftBy};
    ghost use Rattle.qcow2_metadata.specs.Bytes.{byte_at};
    ghost use Rattle.qcow2_metadata.specs.Consistent.{IsConsistent};
    ghost use Rattle.qcow2_alloc.specs.KeptAllocators.{IsAllocatorOf};
    ghost use Rattle.qcow2_alloc.specs.KeptMarks.{KeepsFileNotes};
    ghost use Rattle.qcow2_image.specs.Created.{begins_image};
    ghost use Rattle.qcow2_image.specs.Growing.{SameFormat, WritesBack};
    ghost use Rattle.qcow2_image.specs.Unwritten.{ReadsQuietly};
    ghost use Rattle.qcow2_image.specs.Opened.{IsFresh, StaysFresh, IsLoaded, IsKeptSince, LoadingStep, SameNames, Opens};
    ghost use Rattle.std.specs.Option.{is_some};

    /// Whether a storage begins like an image of version 2 or 3. Refused 14 (memory) or 15 (storage) if the storage refuses.
    pub fn probe(storage: &mut S) -> Result<bool, ImageError>
        ensures answer { (S.view storage.old).is_honest
            → IfOk result (λ found. found ≡ begins_image (byte_at (S.view storage.old).contents)) }
        ensures same { ContentsStay (S.view storage.old) (S.view storage.new) }
        ensures honest { (S.view storage.old).is_honest → (S.view storage.new).is_honest }
        ensures faults { FaultsReported (S.view storage.old).faults (S.view storage.new).faults result }
        ensures time { EachMomentSince (S.view storage.old) (S.view storage.new) (IsLeftBy (S.view storage.new)) }
        ensures cause { IfErr result IsFault }
    {
        let mut first = [0u8; 8];
        storage.read(0, &mut first)?;
        let magic = u32::from_be_bytes([first[0], first[1], first[2], first[3]]);
        let version = u32::from_be_bytes([first[4], first[5], first[6], first[7]]);
        Ok(magic == MAGIC && (version == 2 || version == 3))
    }

    /// Opens an image, whether or not it needs other files. A refusal returns the storage. Images that are
    /// open together must have different numbers.
    /// Refused for the header 19 (metadata), 13 (limit), 4 (unaligned table), in this order; then for the L1 table 19; and for writing, for the
    /// reftable 13 if it would end past 64 bits, and 19. May be refused 14 (memory) or 15 (storage) during the work.
    pub fn open_image(
        alloc: Global,
        metadata: S,
        writable: bool,
        number: u64,
    ) -> Result<Qcow2<S, F>, (S, ImageError)>
        ensures step { OpeningStep S.view (S.view metadata) writable Missing.Nothing result }
        ensures image { IfOk result (IsNewlyOpened (S.view metadata) writable number) }
        ensures opens { IfOk result (Opens S.view F.backing (S.view metadata)) }
        ensures below { IfOk result (λ image. (is_some image.backing ≡ false) × (image.data_file ≡ None)) }
    {
        Self::open(
            alloc,
            ImageStorage::new(metadata),
            writable,
            number,
            Missing::Nothing,
        )
    }

    /// Opens an image that needs no other file. One that needs a data file, or names a backing file, is refused
    /// 12 (dependency), and its bytes stay the same.
    /// Otherwise it is refused as `open_image` is: for the header 19 (metadata), 13 (limit), 4 (unaligned table), before 12; then
    /// 19 for its tables, and 13 for the reftable. May be refused 14 (memory) or 15 (storage) during the work.
    pub fn open_alone(
        alloc: Global,
        metadata: S,
        writable: bool,
        number: u64,
    ) -> Result<Qcow2<S, F>, (S, ImageError)>
        ensures step { OpeningStep S.view (S.view metadata) writable Missing.OtherFiles result }
        ensures image { IfOk result (IsNewlyOpened (S.view metadata) writable number) }
        ensures opens { IfOk result (Opens S.view F.backing (S.view metadata)) }
        ensures below { IfOk result (λ image. (is_some image.backing ≡ false) × (image.data_file ≡ None)) }
    {
        Self::open(
            alloc,
            ImageStorage::new(metadata),
            writable,
            number,
            Missing::OtherFiles,
        )
    }

    // Opens the image of a wrapped storage, with these files missing.
    pub(crate) fn open(
        alloc: Global,
        mut storage: ImageStorage<S>,
        writable: bool,
        number: u64,
        missing: Missing,
    ) -> Result<Qcow2<S, F>, (S, ImageError)>
        ensures step { OpeningStep S.view (S.view (storage_of storage)) writable missing result }
        ensures image { IfOk result (IsNewlyOpened (S.view (storage_of storage)) writable number) }
        ensures opens { IfOk result (Opens S.view F.backing (S.view (storage_of storage))) }
        ensures below { IfOk result (λ image. (is_some image.backing ≡ false) × (image.data_file ≡ None)) }
        ensures list { (S.view (storage_of storage)).is_honest
            → IsConsistent (byte_at (S.view (storage_of storage)).contents) → IfOk result HasNothingToFree }
    {
        let header = match Header::load(alloc, &mut storage, writable) {
            Ok(header) => header,
            Err(e) => return Err((storage.into_inner(), ImageError::from(e))),
        };
        if lacks_another(missing, &header) {
            return Err((storage.into_inner(), ImageError::Dependency));
        }
        let caches = match MetadataCaches::new(alloc, &header, L2_TABLES, REFBLOCKS) {
            Ok(caches) => caches,
            Err(e) => return Err((storage.into_inner(), ImageError::from(e))),
        };
        let mut file = ImageFile {
            alloc,
            storage,
            header,
            caches,
            free_list: ClustersToFreeList::new(),
        };
        match Self::load_tables(&mut file, writable) {
            Ok(
                Tables {
                    l1_table,
                    allocator,
                },
            ) => Ok(Qcow2 {
                number,
                is_failed: false,
                file,
                l1_table,
                allocator,
                backing: None,
                data_file: None,
            }),
            Err(e) => Err((file.into_storage(), e)),
        }
    }

    // Loads the L1 table. A table without entries has no place.
    pub(crate) fn load_l1_table(file: &mut ImageFile<S>) -> Result<L1Table, ImageError>
        ensures rest { file.new ≡ record file.old { storage = file.new.storage } }
        ensures honest { (view_in S.view file.old).is_honest → (view_in S.view file.new).is_honest }
        ensures faults { FaultsReported (view_in S.view file.old).faults (view_in S.view file.new).faults result }
        ensures same { ContentsStay (view_in S.view file.old) (view_in S.view file.new) }
        ensures time { EachMomentSince (view_in S.view file.old) (view_in S.view file.new)
            (IsLeftBy (view_in S.view file.new)) }
        ensures table { (view_in S.view file.old).is_honest → IfOk result (HasL1Table S.view F.backing file.new) }
        ensures cause { IfErr result MayFail }
        ensures why { (view_in S.view file.old).is_honest
            → MatchResult result (λ table. L1TableReads file.old.header.fields (contents_in S.view file.old))
            (IsReasonAgainstL1Table file.old.header.fields (contents_in S.view file.old)) }
        ensures unrecorded { SameNotes file.old.storage file.new.storage }
        ensures header_cluster { NamesTablesBehind file.old.header.fields
            → IfOk result (IsL1TableBehind file.old.header.fields.cluster_bits) }
    {
        let bits = file.header.cluster_bits();
        let Some(cluster) = file.header.l1_table_offset().checked_cluster(bits) else {
            return Err(ImageError::UnalignedTable);
        };
        let entries = file.header.l1_table_entries() as usize;
        if entries == 0 {
            return Ok(L1Table::new_cleared(file.alloc, &file.header, 0)?);
        }
        let table = file
            .storage
            .load_l1_table(file.alloc, &file.header, cluster, entries)?;
        Ok(table)
    }

    // Loads the reftable, and clears the autoclear bits last. Called for writing.
    fn load_allocator(file: &mut ImageFile<S>) -> Result<Allocator, ImageError>
        ensures format { OnOk result (SameFormat file.old.header.fields file.new.header.fields) }
        ensures names { OnOk result (SameNames file.old.header file.new.header) }
        ensures step { LoadingStep S.view true file.old file.new result }
        ensures faults { FaultsReported (view_in S.view file.old).faults (view_in S.view file.new).faults result }
        ensures sound { (p : Pending) → IsFresh S.view F.backing p file.old
            → IsKeptSince (view_in S.view file.old) (view_in S.view file.new)
            × IfOk result (λ allocator. StaysFresh S.view F.backing p file.old file.new
            × IsAllocatorOf S.view file.new allocator) }
        ensures cause { IfErr result MayFail }
        ensures why { (view_in S.view file.old).is_honest
            → MatchResult result (λ allocator. ReftableReads file.old.header.fields (contents_in S.view file.old))
            (IsReasonAgainstReftable file.old.header.fields (contents_in S.view file.old)) }
        ensures header_cluster { LeaveHeaderCluster file.old.header.fields.cluster_bits file.old.caches
            → NamesTablesBehind file.new.header.fields
            → IfOk result (λ allocator. NamesTablesBehind file.old.header.fields
            × StandsBehindHeader file.new.header.fields.cluster_bits allocator.reftable file.new) }
        ensures leaks { IfOk result (λ allocator. leaked_by (Some allocator) ≡ 0) }
    {
        let allocator = Allocator::new(file)?;
        file.storage.set_write_kind(WriteKind::Other);
        file.storage.clear_autoclear(&mut file.header)?;
        Ok(allocator)
    }

    // Loads the L1 table and, for writing, the reftable. The clusters that these refer to are never allocated then, even if their refcounts are
    // 0.
    fn load_tables(file: &mut ImageFile<S>, writable: bool) -> Result<Tables, ImageError>
        ensures allocator { IfOk result (λ tables. is_some tables.allocator ≡ writable) }
        ensures step { LoadingStep S.view writable file.old file.new result }
        ensures format { OnOk result (SameFormat file.old.header.fields file.new.header.fields) }
        ensures names { OnOk result (SameNames file.old.header file.new.header) }
        ensures faults { FaultsReported (view_in S.view file.old).faults (view_in S.view file.new).faults result }
        ensures sound { (p : Pending) → IsFresh S.view F.backing p file.old
            → IsKeptSince (view_in S.view file.old) (view_in S.view file.new)
            × IfOk result (λ tables. IsLoaded S.view F.backing p file.new tables.l1_table tables.allocator) }
        ensures cause { IfErr result MayFail }
        ensures why { (view_in S.view file.old).is_honest
            → MatchResult result (λ tables. NeededTablesRead file.old.header.fields
            (contents_in S.view file.old) writable)
            (IsReasonAgainstTables file.old.header.fields (contents_in S.view file.old) writable) }
        ensures header_cluster { LeaveHeaderCluster file.old.header.fields.cluster_bits file.old.caches
            → NamesTablesBehind file.new.header.fields
            → IfOk result (λ tables. TablesBehindHeader file.new.header.fields.cluster_bits
            file.new.header.fields.cluster_bits tables.l1_table file.new.caches tables.allocator) }
        ensures leaks { IfOk result (λ tables. leaked_by tables.allocator ≡ 0) }
    {
        let l1_table = Self::load_l1_table(file)?;
        if !writable {
            return Ok(Tables {
                l1_table,
                allocator: None,
            });
        }
        let mut allocator = Self::load_allocator(file)?;
        allocator.spare_named(file, &l1_table);
        Ok(Tables {
            l1_table,
            allocator: Some(allocator),
        })
    }

    /// Closes the image and returns its storage. Everything that was not flushed is lost.
    pub fn into_storage(self) -> S
        ensures { result ≡ storage_of_image self }
    {
        let Qcow2 {
            number: _,
            is_failed: _,
            file,
            l1_table: _,
            allocator: _,
            backing: _,
            data_file: _,
        } = self;
        file.into_storage()
    }

    /// The number that the image was opened with.
    pub fn number(&self) -> u64
        ensures { result ≡ number_of self.now }
    {
        self.number
    }

    /// The format: qcow2.
    pub fn format(&self) -> Format
        ensures { result ≡ Format.Qcow2 }
    {
        Format::Qcow2
    }

    /// The size of the guest's disk, in bytes.
    pub fn size(&self) -> u64
        ensures value { result ≡ size_of self.now }
        ensures sees { (out : Mappings) → (abstract_of S.view F.backing self.now out).is_sound
            → result ≡ (guest_of (abstract_of S.view F.backing self.now out)).disk.size }
    {
        self.file.header.size()
    }

    /// Whether the image was opened for writing.
    pub fn writable(&self) -> bool
        ensures { result ≡ is_writable self.now }
    {
        self.allocator.is_some()
    }

    /// The size of a cluster, in bytes: a power of two from 512 to 2 MiB.
    pub fn cluster_size(&self) -> u64
        ensures value { result ≡ cluster_size self.now.file.header.fields }
        ensures low { 512 ≤ result }
        ensures high { result ≤ 2097152 }
    {
        self.file.header.cluster_size()
    }

    /// The smallest number of bytes that can be zeroed: a cluster, from version 3 on.
    pub fn zero_granularity(&self) -> Option<u64>
        ensures { result ≡ (if nat_le 3 self.now.file.header.fields.version
            then Some (cluster_size self.now.file.header.fields) else None) }
    {
        if self.file.header.version() >= 3 {
            Some(self.file.header.cluster_size())
        } else {
            None
        }
    }

    /// Whether the header requires an external data file.
    pub fn requires_external_data_file(&self) -> bool
        ensures { result ≡ has_data_file self.now.file.header.fields }
    {
        self.file.header.has_data_file()
    }

    /// The name of the external data file, if the header has one.
    pub fn implicit_external_data_file(&self) -> Option<&String>
        ensures { option_map (λ s. string_bytes s.now) result ≡ self.now.file.header.data_file_name }
    {
        self.file.header.data_file_name()
    }

    /// The name of the backing file, if the header has one.
    pub fn implicit_backing_file(&self) -> Option<&String>
        ensures { option_map (λ s. string_bytes s.now) result ≡ self.now.file.header.backing_name }
    {
        self.file.header.backing_name()
    }

    /// The format of the backing file, if the header has one.
    pub fn implicit_backing_format(&self) -> Option<&String>
        ensures { option_map (λ s. string_bytes s.now) result ≡ self.now.file.header.backing_format }
    {
        self.file.header.backing_format()
    }

    /// How many clusters could not be freed. The counter stops at the greatest `u64`.
    pub fn leaked_clusters(&self) -> u64
        ensures { result ≡ leaked_in self.now }
    {
        match &self.allocator {
            Some(allocator) => allocator.leaked_clusters(),
            None => 0,
        }
    }

    /// Frees the clusters that wait to be freed, writes the cached tables, and flushes the storage, then the data file. Refused 16 (failed), and
    /// 14 (memory) or 15 (storage) during the work.
    pub fn flush(&mut self) -> Result<(), ImageError>
        ensures step { CallStep S.view F.backing self.old self.new result }
        ensures early { IsTrue (is_failed self.old) → (result ≡ Err Failed) × (self.new ≡ self.old) }
        ensures fails { FlushFails S.view F.backing self.old result }
        ensures header { KeepsWholeHeader self.old self.new }
        ensures sees { FlushesImage S.view F.backing self.old self.new result }
        ensures emptied { IsTrue (is_writable self.old) → OnOk result (HasNothingToFree self.new) }
        ensures writes { (p : Pending)
            → ImageInvariant S.view F.backing (with_listed p self.old.file.free_list) self.old (in_image [])
            → WritesBack S.view F.backing p self.old self.new result }
        ensures quiet { is_writable self.old ≡ false → ReadsQuietly S.view self.old self.new }
    {
        if self.is_failed {
            return Err(ImageError::Failed);
        }
        self.begin_call();
        let done = self.write_back();
        self.mark_failure(done)
    }

    // Frees the clusters that wait to be freed, writes the cached tables, and flushes the storage, then the data file.
    fn write_back(&mut self) -> Result<(), ImageError>
        ensures step { ImageStep S.view self.old self.new }
        ensures fails { ImageFails S.view F.backing self.old self.new result IsFaultOrLimit }
        ensures tables { WritesTables S.view F.backing self.old self.new result }
    {
        self.flush_image()?;
        self.flush_data_file()
    }

    // Frees the clusters that wait to be freed, writes the cached tables, and flushes the image's own storage.
    #[tactic(auto, using(crate::proofs::Call::FailingErrors::storage_or_limit, crate::proofs::Call::FailingErrors::fault_or_limit))]
    fn flush_image(&mut self) -> Result<(), ImageError>
        ensures step { ImageStep S.view self.old self.new }
        ensures fails { ImageFails S.view F.backing self.old self.new result IsFaultOrLimit }
        ensures tables { WritesTables S.view F.backing self.old self.new result }
    {
        self.process_free_list()?;
        self.file.caches.flush_all(&mut self.file.storage)?;
        self.file.storage.flush()?;
        Ok(())
    }

    // Frees the clusters on the list. After a refusal, those that were not freed stay on it. Does nothing if the list is empty.
    pub(crate) fn process_free_list(&mut self) -> Result<(), ImageError>
        ensures step { ImageStep S.view self.old self.new }
        ensures keeps_rest { KeepsRest self.old self.new }
        ensures offsets { KeepsOffsets self.old self.new }
        ensures cause { IfErr result IsFaultOrLimit }
        ensures emptied { IsTrue (is_writable self.old) → OnOk result (HasNothingToFree self.new) }
        ensures frees { (p : Pending) (out : Mappings)
            → ImageInvariant S.view F.backing (with_listed p self.old.file.free_list) self.old out
            → FreesListed S.view F.backing p self.old self.new out result }
        ensures faults { (p : Pending) (out : Mappings)
            → ImageInvariant S.view F.backing (with_listed p self.old.file.free_list) self.old out
            → IfErr result IsFault }
        ensures idle { HasNothingToFree self.old → (result ≡ Ok tt) × (self.new ≡ self.old) }
        ensures untouched { is_writable self.old ≡ false → self.new ≡ self.old }
        ensures counts { CountsImageFaults S.view F.backing self.old self.new result }
    {
        if self.file.free_list.is_empty() {
            return Ok(());
        }
        let Some(allocator) = &mut self.allocator else {
            return Ok(());
        };
        allocator.free(&mut self.file)
    }

    // Frees the clusters on the list, at the end of a call that changed an entry. Does nothing if the list is empty.
    pub(crate) fn process_free_list_at_end(&mut self) -> Result<(), ImageError>
        ensures fails { ImageFails S.view F.backing self.old self.new result IsFaultOrLimit }
        ensures image { IsSameImage self.old self.new }
        ensures notes { KeepsFileNotes S.view self.old.file self.new.file }
        ensures header_cluster { PreservesHeaderCluster S.view self.old self.new }
        ensures marks { MarksFailed self.old self.new result }
        ensures emptied { IsTrue (is_writable self.old) → OnOk result (HasNothingToFree self.new) }
        ensures frees { (out : Mappings)
            → ImageInvariant S.view F.backing (pending_in S.view F.backing self.old out) self.old out
            → EndsFreeing S.view F.backing self.old self.new out result }
        ensures idle { self.old.file.free_list ≡ [] → (result ≡ Ok tt) × (self.new ≡ self.old) }
        ensures table { self.new.l1_table ≡ self.old.l1_table }
        ensures header { self.new.file.header ≡ self.old.file.header }
    {
        let freed = self.process_free_list();
        self.mark_failure(freed)
    }

    // Begins a call: no change is recorded yet.
    pub(crate) fn begin_call(&mut self)
        ensures unrecorded { has_noted_change self.new ≡ false }
        ensures stays { ImageStays self.old self.new }
        ensures list { self.new.file.free_list ≡ self.old.file.free_list }
        ensures faults { SameFaults S.view F.backing self.old self.new }
        ensures storage { storage_of self.new.file.storage ≡ storage_of self.old.file.storage }
        ensures keeps { (p : Pending) (out : Mappings) → ImageInvariant S.view F.backing p self.old out
            → InternalStep S.view F.backing p p self.old self.new out }
        ensures known { (p : Pending) (out : Mappings) → ImageInvariant S.view F.backing p self.old out
            → known_in S.view self.new.file ≡ known_in S.view self.old.file }
        ensures rest { self.new ≡ record self.old {
          file = record self.old.file {
            storage = self.new.file.storage;
            caches = self.new.file.caches;
          };
        } }
        ensures begun { IsBegun self.old self.new }
    {
        self.file.storage.begin_call();
        self.file.caches.begin_call();
    }

    // Refuses calls on guest data: after an earlier failure, or if the header requires a data file and there is none.
    pub(crate) fn check_usable(&self) -> Result<(), ImageError>
        ensures { MatchOption (unusable self.now) (result ≡ Ok tt) (λ e. result ≡ Err e) }
    {
        if self.is_failed {
            return Err(ImageError::Failed);
        }
        if self.file.header.has_data_file() && self.data_file.is_none() {
            return Err(ImageError::Dependency);
        }
        Ok(())
    }

    // Marks the image as failed after an I/O error, or if memory ran out after the call's first change.
    pub(crate) fn mark_if_failed(&mut self, refusal: &ImageError)
        ensures image { IsSameImage self.old self.new }
        ensures marks { MarksRefused self.old self.new refusal.now }
        ensures rest { self.new ≡ record self.old { is_failed = is_failed self.new } }
    {
        match refusal {
            ImageError::Storage => self.is_failed = true,
            ImageError::Memory => {
                if self.file.is_changed() {
                    self.is_failed = true;
                }
            }
            _ => {}
        }
    }

    pub(crate) fn mark_failure<T>(&mut self, done: Result<T, ImageError>) -> Result<T, ImageError>
        ensures answer { result ≡ done }
        ensures image { IsSameImage self.old self.new }
        ensures marks { MarksFailed self.old self.new done }
        ensures rest { self.new ≡ record self.old { is_failed = is_failed self.new } }
    {
        if let Err(refusal) = &done {
            self.mark_if_failed(refusal);
        }
        done
    }
}
