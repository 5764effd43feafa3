//! Creating an image.
ghost use Rattle.qcow2_image.specs.declared.mapping.Place.TheVariants.{Image};
ghost use Rattle.qcow2_image.specs.Limits.{IfLimit, IsLimited};
ghost use Rattle.std.specs.Prelude.{ℕ, ◌≡◌, ◌≢◌, ◌⊎◌, ◌↔◌, ◌^◌, ◌<◌, ◌≤◌, [], None, IfSome, IfNone, IfOk, IfErr, IsNone, OnOk};
ghost use Rattle.std.specs.Prelude.{IsSome, IsTrue, Ok, is_some, false};
ghost use Rattle.image_access.specs.Moments.{ContentsStay, EachMomentSince, IsLeftBy};
ghost use Rattle.qcow2_metadata.specs.HeaderLoad.{IsHeaderIn};
ghost use Rattle.qcow2_metadata.specs.HeaderWrite.{HasNewNames};
ghost use Rattle.qcow2_metadata.specs.Bytes.{byte_at};
ghost use Rattle.qcow2_alloc.specs.ImageStorage.{storage_of};
ghost use Rattle.qcow2_alloc.specs.ImageFile.{view_in};
ghost use Rattle.qcow2_disk.specs.AbstractImages.{IsOpened};
ghost use Rattle.qcow2_alloc.specs.Faults.{CountsFaults, FaultsReported};
ghost use Rattle.qcow2_image.specs.Faults.{CountsImageFaults, IsNotOfStorage};
ghost use Rattle.qcow2_alloc.specs.declared.error.ImageError.TheVariants.{Limit};
ghost use Rattle.qcow2_metadata.specs.Header.{header as header_at};
ghost use Rattle.qcow2_laws.specs.NewImages.{IsNewImage};
ghost use Rattle.qcow2_image.specs.Image.{is_beside, is_writable};
ghost use Rattle.qcow2_alloc.specs.ImageError.{IsFault};
ghost use Rattle.qcow2_image.specs.Refusals.{IsFaultOrLimit};
ghost use Rattle.qcow2_image.specs.Resizing.{all_given_by_grow, boundary_in, refuses_to_resize};
ghost use Rattle.qcow2_image.specs.ImageInvariant.{abstract_of, in_image};
ghost use Rattle.qcow2_image.specs.Growing.{LeavesSound};
ghost use Rattle.qcow2_laws.specs.Opened.{HasNoLeaks};
ghost use Rattle.qcow2_image.specs.Created.{longest_disk, IsUnmapped, IsUnwritten, IsNewHeader, CountsThree, NamesOne};
ghost use Rattle.qcow2_image.specs.Created.{IsThreeWith, WritesThree, CantEnlarge, Enlarges, OpensGrown, RefusesGrown};

use crate::image::Missing;
use crate::{Qcow2, Qcow2OpenBuilder};
use image_access::{BackingDisk, PreallocateMode, Storage, StorageError, WrappedFormat};
use qcow2_alloc::{ImageError, ImageStorage, WriteKind};
use qcow2_metadata::{GuestOffset, Header, HostCluster, MAX_L1_ENTRIES, RefBlock, RefTable};
use std::alloc::{AllocError, Global};

/// The settings of a new image. They are checked only by `create` and `create_open`.
#[derive(Drop)]
pub struct Qcow2CreateBuilder<S: Storage> {
    image: S,
    size: u64,
    preallocate: PreallocateMode,
    cluster_size: u64,
    refcount_width: u64,
    backing_name: Option<String>,
    backing_format: Option<String>,
    data_file_name: Option<String>,
    data_file: Option<S>,
}

/// The backing disk of an image that has none: it has no bytes, and never fails.
#[derive(Drop)]
pub struct NoBacking;

impl BackingDisk for NoBacking {
    ghost use Rattle.std.specs.Prelude.{[]};

    ghost backing = { λ _. record { bytes = []; faults = 0; is_honest = Unit {0} } };

    fn size(&self) -> u64 {
        0
    }

    fn read(&mut self, _at: u64, buf: &mut [u8]) -> Result<(), StorageError> {
        buf.fill(0);
        Ok(())
    }
}

impl<S> WrappedFormat<S> for NoBacking {
    ghost use Rattle.std.specs.Prelude.{[]};

    ghost dependencies = { λ _. [] };

    fn storage_dependencies(&self, alloc: Global) -> Result<Vec<&S>, AllocError> {
        Ok(Vec::new(alloc))
    }
}

// The binary logarithm of a number, if it is a power of two.
fn power_of_two(number: u64) -> Option<u32>
    ensures some { IfSome result (λ bits. number ≡ 2 ^ bits) }
    ensures none { IfNone result ((bits : ℕ) → bits < 64 → number ≢ 2 ^ bits) }
{
    let bits = number.trailing_zeros();
    if bits < 64 && 1 << bits == number {
        Some(bits)
    } else {
        None
    }
}

// Whether an L1 table of the greatest length covers a disk of this size.
fn has_l1_entries(cluster_bits: u32, size: u64) -> bool
    requires low { 9 ≤ cluster_bits }
    requires high { cluster_bits ≤ 21 }
    ensures { IsTrue result ↔ (size ≤ longest_disk (2 ^ cluster_bits)) }
{
    GuestOffset::new(size.saturating_sub(1)).l1_index(cluster_bits) < MAX_L1_ENTRIES
}

impl<S: Storage> Qcow2CreateBuilder<S> {
    ghost use Rattle.std.specs.Prelude.{Err};
    ghost use Rattle.qcow2_alloc.specs.declared.error.ImageError.TheVariants.{InvalidOption, Preallocation};
    ghost use Rattle.qcow2_image.specs.Created.{GrewFromNew, HasLogarithms, HasNoDataFile, IsAllowed, IsCreated, IsMade, IsMadeClosed};
    ghost use Rattle.qcow2_image.specs.Created.{IsMadeOpen, IsMadeUngrown, IsMadeUnopened, IsNotMade};
    ghost use Rattle.qcow2_image.specs.Created.{IsReasonAgainst, IsReasonNotToCreate, StopsCreating, allocates_over};
    ghost use Rattle.std.specs.Prelude.{None, Some, false, true};

    /// A builder for a storage: a disk of size 0, no preallocation, clusters of 65,536 bytes and refcounts of 16 bits.
    pub fn new(image: S) -> Qcow2CreateBuilder<S>
        ensures { result ≡ record {
          image = image;
          size = 0;
          preallocate = PreallocateMode.None;
          cluster_size = 65536;
          refcount_width = 16;
          backing_name = None;
          backing_format = None;
          data_file_name = None;
          data_file = None;
        } }
    {
        Qcow2CreateBuilder {
            image,
            size: 0,
            preallocate: PreallocateMode::None,
            cluster_size: 65536,
            refcount_width: 16,
            backing_name: None,
            backing_format: None,
            data_file_name: None,
            data_file: None,
        }
    }

    /// The size of the disk, in bytes. A size that an L1 table of 4,194,304 entries does not cover is refused 13 (limit).
    pub fn size(mut self, size: u64) -> Qcow2CreateBuilder<S>
        ensures { result ≡ record self { size = size } }
    {
        self.size = size;
        self
    }

    /// The preallocation mode.
    pub fn preallocate(mut self, mode: PreallocateMode) -> Qcow2CreateBuilder<S>
        ensures { result ≡ record self { preallocate = mode } }
    {
        self.preallocate = mode;
        self
    }

    /// The size of the disk, in bytes.
    pub fn get_size(&self) -> u64
        ensures { result ≡ self.now.size }
    {
        self.size
    }

    /// The preallocation mode.
    pub fn get_preallocate(&self) -> PreallocateMode
        ensures { result ≡ self.now.preallocate }
    {
        self.preallocate
    }

    /// The cluster size in bytes: a power of two from 512 to 2,097,152. Any other is refused 5 (invalid option).
    pub fn cluster_size(mut self, cluster_size: u64) -> Qcow2CreateBuilder<S>
        ensures { result ≡ record self { cluster_size = cluster_size } }
    {
        self.cluster_size = cluster_size;
        self
    }

    /// The refcount width in bits: a power of two from 1 to 64. Any other is refused 5 (invalid option).
    pub fn refcount_width(mut self, refcount_width: u64) -> Qcow2CreateBuilder<S>
        ensures { result ≡ record self { refcount_width = refcount_width } }
    {
        self.refcount_width = refcount_width;
        self
    }

    /// The name of the backing file and the name of its format, for the header. Names that don't fit into the header's cluster are
    /// refused 5 (invalid option). A mode that allocates clusters is then refused 6 (preallocation).
    pub fn backing(mut self, name: String, format: String) -> Qcow2CreateBuilder<S>
        ensures { result ≡ record self { backing_name = Some name; backing_format = Some format } }
    {
        self.backing_name = Some(name);
        self.backing_format = Some(format);
        self
    }

    /// The name of the data file, for the header, and the data file itself, which holds guests' data then. A name that doesn't fit into the
    /// header's cluster beside the others is refused 5 (invalid option).
    pub fn data_file(mut self, name: String, file: S) -> Qcow2CreateBuilder<S>
        ensures { result ≡ record self { data_file_name = Some name; data_file = Some file } }
    {
        self.data_file_name = Some(name);
        self.data_file = Some(file);
        self
    }

    // Whether clusters are to be allocated for a disk over a backing file.
    fn allocates_over(&self) -> bool
        ensures { result ≡ allocates_over self.now }
    {
        match self.preallocate {
            PreallocateMode::None | PreallocateMode::Zero => false,
            PreallocateMode::FormatAllocate
            | PreallocateMode::FullAllocate
            | PreallocateMode::WriteData => self.backing_name.is_some(),
        }
    }

    // The binary logarithms of the cluster size and of the refcount width. Settings that no image may have are refused.
    fn check(&self) -> Result<(u32, u32), ImageError>
        ensures fits { IfOk result (HasLogarithms self.now) }
        ensures refused { ¬ IsAllowed self.now → result ≡ Err InvalidOption }
        ensures over { IsAllowed self.now → IsTrue (allocates_over self.now) → result ≡ Err Preallocation }
        ensures limit { IsAllowed self.now → allocates_over self.now ≡ false → longest_disk self.now.cluster_size < self.now.size
            → result ≡ Err Limit }
        ensures cause { IfErr result (IsReasonAgainst self.now) }
    {
        let Some(cluster_bits) = power_of_two(self.cluster_size) else {
            return Err(ImageError::InvalidOption);
        };
        let Some(refcount_order) = power_of_two(self.refcount_width) else {
            return Err(ImageError::InvalidOption);
        };
        let name = self.backing_name.as_deref();
        let format = self.backing_format.as_deref();
        let data_file = self.data_file_name.as_deref();
        if !Header::fits(cluster_bits, refcount_order, name, format, data_file) {
            return Err(ImageError::InvalidOption);
        }
        if self.allocates_over() {
            return Err(ImageError::Preallocation);
        }
        if !has_l1_entries(cluster_bits, self.size) {
            return Err(ImageError::Limit);
        }
        Ok((cluster_bits, refcount_order))
    }

    // Writes the new image, with a disk of no bytes, and returns its storage and the data file. Nothing is written if the settings are refused.
    fn make(self, alloc: Global) -> (S, Option<S>, Result<(), ImageError>)
        ensures file { result.1 ≡ self.data_file }
        ensures made { HasNoDataFile self → (S.view self.image).is_honest → IfOk result.2 (λ done. IsMade S.view self result.0) }
        ensures stops { HasNoDataFile self → (S.view self.image).is_honest
            → StopsCreating PreallocateMode.None 0 (S.view self.image) (S.view result.0) }
        ensures cause { IfErr result.2 (λ e. IsReasonAgainst self e ⊎ IsFault e) }
        ensures refused { ¬ IsAllowed self → (result.2 ≡ Err InvalidOption) × (result.0 ≡ self.image) }
        ensures over { IsAllowed self → IsTrue (allocates_over self) → (result.2 ≡ Err Preallocation) × (result.0 ≡ self.image) }
        ensures limit { IsAllowed self → allocates_over self ≡ false → longest_disk self.cluster_size < self.size
            → (result.2 ≡ Err Limit) × (result.0 ≡ self.image) }
        ensures faults { FaultsReported (S.view self.image).faults (S.view result.0).faults result.2 }
    {
        let checked = self.check();
        let Qcow2CreateBuilder {
            image,
            size: _,
            preallocate: _,
            cluster_size: _,
            refcount_width: _,
            backing_name,
            backing_format,
            data_file_name,
            data_file,
        } = self;
        let (bits, order) = match checked {
            Ok(logarithms) => logarithms,
            Err(refusal) => return (image, data_file, Err(refusal)),
        };
        let header = Header::new(bits, order, backing_name, backing_format, data_file_name);
        let mut storage = ImageStorage::new(image);
        let done = write_new_image(alloc, &mut storage, &header);
        (storage.into_inner(), data_file, done)
    }

    /// Writes the new image, and returns its storage. The data file grows with the disk, and is dropped. The disk reads as zeros, and is
    /// allocated as the mode says. Refused 5 (invalid option) for cluster sizes or refcount widths that images don't have, and for names that
    /// don't fit; then 6 (preallocation) for a mode that allocates clusters after `backing` was called; then 13 (limit) for a size that
    /// is too large. Nothing was written then. May be refused 13, 14 (memory) or 15 (storage) during the work. If the storage returns other
    /// bytes than were written, the refusals of `open_image` and `resize_grow` are possible too.
    pub fn create(self, alloc: Global) -> (S, Result<(), ImageError>)
        ensures stops { HasNoDataFile self → (S.view self.image).is_honest
            → StopsCreating self.preallocate self.size (S.view self.image) (S.view result.0) }
        ensures created { HasNoDataFile self → (S.view self.image).is_honest
            → IfOk result.1 (λ done. IsCreated self (S.view result.0)) }
        ensures grew { HasNoDataFile self → (S.view self.image).is_honest
            → IfOk result.1 (λ done. GrewFromNew S.view self result.0) }
        ensures refused { ¬ IsAllowed self → (result.1 ≡ Err InvalidOption) × (result.0 ≡ self.image) }
        ensures over { IsAllowed self → IsTrue (allocates_over self) → (result.1 ≡ Err Preallocation) × (result.0 ≡ self.image) }
        ensures limit { IsAllowed self → allocates_over self ≡ false → longest_disk self.cluster_size < self.size
            → (result.1 ≡ Err Limit) × (result.0 ≡ self.image) }
        ensures cause { HasNoDataFile self → (S.view self.image).is_honest
            → IfErr result.1 (IsReasonNotToCreate S.view self result.0) }
        ensures faults { HasNoDataFile self → FaultsReported (S.view self.image).faults (S.view result.0).faults result.1 }
    {
        let (size, mode) = (self.size, self.preallocate);
        let (storage, file, done) = self.make(alloc);
        if let Err(refusal) = done {
            return (storage, Err(refusal));
        }
        if let Some(file) = file {
            return grow_new_image_beside::<S, NoBacking>(alloc, storage, file, size, mode);
        }
        grow_new_image::<S, NoBacking>(alloc, ImageStorage::new(storage), size, mode)
    }

    /// Writes the new image, with a disk of no bytes, and gives its storage to the closure. Opens for writing what the closure's builder
    /// says, with the data file of this builder if there is one, and grows the disk to its size. The image is not flushed. Refused as
    /// `create` and `resize_grow` are, and as that builder's `open` is; the storage is returned then. It isn't if the closure refuses.
    pub fn create_open<
        F: WrappedFormat<S>,
        C: FnOnce(S) -> Result<Qcow2OpenBuilder<S, F>, ImageError>,
    >(self, alloc: Global, builder: C) -> Result<Qcow2<S, F>, (Option<S>, ImageError)>
        requires { C.IsAlwaysCallable builder }
        ensures opens { HasNoDataFile self → (S.view self.image).is_honest
            → IfOk result (IsMadeOpen S.view F.backing self (λ storage answer. C.post builder storage answer)) }
        ensures refused { ¬ IsAllowed self → result ≡ Err (Some self.image, InvalidOption) }
        ensures over { IsAllowed self → IsTrue (allocates_over self) → result ≡ Err (Some self.image, Preallocation) }
        ensures limit { IsAllowed self → allocates_over self ≡ false → longest_disk self.cluster_size < self.size
            → result ≡ Err (Some self.image, Limit) }
        ensures closed { HasNoDataFile self → IfErr result (λ refused. IsNone refused.0
            → IsMadeClosed S.view F.backing self (λ made answer. C.post builder made answer) refused.1) }
        ensures cause { HasNoDataFile self → (S.view self.image).is_honest
            → IfErr result (λ refused. IfSome refused.0 (λ storage.
            IsNotMade S.view self storage refused.1
            ⊎ IsMadeUnopened S.view F.backing self (λ made answer. C.post builder made answer) storage refused.1
            ⊎ IsMadeUngrown S.view F.backing self (λ made answer. C.post builder made answer) storage refused.1)) }
    {
        let (size, mode) = (self.size, self.preallocate);
        let (made, file, done) = self.make(alloc);
        if let Err(refusal) = done {
            return Err((Some(made), refusal));
        }
        let opener = match builder(made) {
            Ok(opener) => opener,
            Err(refusal) => return Err((None, refusal)),
        };
        match open_grown(alloc, with_data_file(opener, file), size, mode) {
            Ok(image) => Ok(image),
            Err((storage, refusal)) => Err((Some(storage), refusal)),
        }
    }
}

// Hands a data file to a builder, if there is one.
fn with_data_file<S: Storage, F: WrappedFormat<S>>(
    opener: Qcow2OpenBuilder<S, F>,
    file: Option<S>,
) -> Qcow2OpenBuilder<S, F>
    ensures none { file ≡ None → result ≡ opener }
{
    match file {
        Some(file) => opener.data_file(Some(file)),
        None => opener,
    }
}

// Opens for writing what a builder says, and grows the disk.
fn open_grown<S: Storage, F: WrappedFormat<S>>(
    alloc: Global,
    opener: Qcow2OpenBuilder<S, F>,
    size: u64,
    mode: PreallocateMode,
) -> Result<Qcow2<S, F>, (S, ImageError)>
    ensures opens { IfOk result (λ image. OpensGrown S.view F.backing opener mode size image (Ok tt)) }
    ensures refused { IfErr result (RefusesGrown S.view F.backing opener mode size) }
{
    let mut image = match opener.write(true).open(alloc) {
        Ok(image) => image,
        Err(refused) => return Err(refused),
    };
    match image.resize_grow(size, mode) {
        Ok(()) => Ok(image),
        Err(refusal) => Err((image.into_storage(), refusal)),
    }
}

impl<S: Storage, F: WrappedFormat<S>> Qcow2<S, F> {
    ghost use Rattle.std.specs.Prelude.{None};

    /// A builder that creates an image in a storage, as `Qcow2CreateBuilder::new`.
    pub fn create_builder(image: S) -> Qcow2CreateBuilder<S>
        ensures { result ≡ record {
          image = image;
          size = 0;
          preallocate = PreallocateMode.None;
          cluster_size = 65536;
          refcount_width = 16;
          backing_name = None;
          backing_format = None;
          data_file_name = None;
          data_file = None;
        } }
    {
        Qcow2CreateBuilder::new(image)
    }
}

// Makes the storage empty.
fn clear<S: Storage>(storage: &mut ImageStorage<S>) -> Result<(), ImageError>
    ensures honest { (S.view (storage_of storage.old)).is_honest → (S.view (storage_of storage.new)).is_honest }
    ensures time { (S.view (storage_of storage.old)).is_honest
        → EachMomentSince (S.view (storage_of storage.old)) (S.view (storage_of storage.new)) (λ c. c ≡ []) }
    ensures cleared { (S.view (storage_of storage.old)).is_honest → OnOk result ((S.view (storage_of storage.new)).contents ≡ []) }
    ensures fault { IfErr result IsFault }
    ensures faults { CountsFaults S.view storage.old storage.new result }
{
    if storage.size()? == 0 {
        return Ok(());
    }
    storage.set_write_kind(WriteKind::Other);
    storage.clear()?;
    Ok(())
}

// The refblock of a new image, which counts its three clusters.
fn first_refblock(alloc: Global, header: &Header) -> Result<RefBlock, ImageError>
    ensures counts { IfOk result (CountsThree header.now.fields) }
    ensures fault { IfErr result IsFault }
    ensures faults { IfErr result IsNotOfStorage }
{
    let mut block = RefBlock::new_cleared(alloc, header)?;
    for index in 0..3 {
        if index < block.counts() {
            block.increment(index);
        }
    }
    block.set_cluster(HostCluster::new(2));
    Ok(block)
}

// The reftable of a new image, with an entry for that refblock.
fn first_reftable(alloc: Global, header: &Header) -> Result<RefTable, ImageError>
    ensures names { IfOk result (NamesOne header.now.fields) }
    ensures fault { IfErr result IsFault }
    ensures faults { IfErr result IsNotOfStorage }
{
    let mut reftable = RefTable::new_cleared(alloc, header, header.l2_entries())?;
    reftable.set_cluster(HostCluster::new(1));
    reftable.enter_refblock(0, HostCluster::new(2));
    Ok(reftable)
}

// Writes the header to cluster 0, the reftable to cluster 1 and the refblock to cluster 2. The header is written last: before that, this is no image.
fn write_three<S: Storage>(
    alloc: Global,
    storage: &mut ImageStorage<S>,
    header: &Header,
    block: &RefBlock,
    reftable: &RefTable,
) -> Result<(), ImageError>
    requires block { IsSome block.now.cluster }
    requires reftable { IsSome reftable.now.cluster }
    ensures writes { (S.view (storage_of storage.old)).is_honest → (S.view (storage_of storage.old)).contents ≡ []
        → IsNewHeader header.now → CountsThree header.now.fields block.now → NamesOne header.now.fields reftable.now
        → WritesThree header.now.fields (S.view (storage_of storage.old)) (S.view (storage_of storage.new)) result }
    ensures stands { (S.view (storage_of storage.old)).is_honest → HasNewNames header.now
        → OnOk result (IsHeaderIn header.now (S.view (storage_of storage.new)).contents) }
    ensures alone { (S.view (storage_of storage.old)).is_honest → (S.view (storage_of storage.old)).contents ≡ []
        → IsNewHeader header.now → CountsThree header.now.fields block.now → NamesOne header.now.fields reftable.now
        → OnOk result (IsThreeWith header.now (S.view (storage_of storage.new)).contents) }
    ensures fault { IfErr result IsFault }
    ensures faults { CountsFaults S.view storage.old storage.new result }
{
    storage.set_write_kind(WriteKind::Other);
    storage.write_new_refblock(block)?;
    storage.set_write_kind(WriteKind::Other);
    storage.write_reftable(reftable)?;
    storage.set_write_kind(WriteKind::Other);
    storage.write_new_header(alloc, header)?;
    Ok(())
}

fn write_new_image<S: Storage>(
    alloc: Global,
    storage: &mut ImageStorage<S>,
    header: &Header,
) -> Result<(), ImageError>
    ensures writes { (S.view (storage_of storage.old)).is_honest → IsNewHeader header.now
        → WritesThree header.now.fields (S.view (storage_of storage.old)) (S.view (storage_of storage.new)) result }
    ensures stands { (S.view (storage_of storage.old)).is_honest → HasNewNames header.now
        → OnOk result (IsHeaderIn header.now (S.view (storage_of storage.new)).contents) }
    ensures alone { (S.view (storage_of storage.old)).is_honest → IsNewHeader header.now
        → OnOk result (IsThreeWith header.now (S.view (storage_of storage.new)).contents) }
    ensures fault { IfErr result IsFault }
    ensures faults { CountsFaults S.view storage.old storage.new result }
{
    clear(storage)?;
    let block = first_refblock(alloc, header)?;
    let reftable = first_reftable(alloc, header)?;
    write_three(alloc, storage, header, &block, &reftable)
}

// Flushes a new image whose disk stays empty.
fn flush_new_image<S: Storage>(storage: &mut ImageStorage<S>) -> Result<(), ImageError>
    ensures same { ContentsStay (S.view (storage_of storage.old)) (S.view (storage_of storage.new)) }
    ensures time { EachMomentSince (S.view (storage_of storage.old)) (S.view (storage_of storage.new))
        (IsLeftBy (S.view (storage_of storage.new))) }
    ensures fault { IfErr result IsFault }
    ensures faults { CountsFaults S.view storage.old storage.new result }
{
    storage.flush()?;
    Ok(())
}

// Opens the new image, grows its disk and flushes it. A disk of no bytes is there already.
fn grow_new_image<S: Storage, F: WrappedFormat<S>>(
    alloc: Global,
    storage: ImageStorage<S>,
    size: u64,
    mode: PreallocateMode,
) -> (S, Result<(), ImageError>)
    ensures enlarges { (S.view (storage_of storage)).is_honest
        → IsUnwritten 0 (byte_at (S.view (storage_of storage)).contents)
        → Enlarges mode size (S.view (storage_of storage)) (S.view result.0) result.1 }
    ensures leaks { (S.view (storage_of storage)).is_honest
        → IsUnwritten 0 (byte_at (S.view (storage_of storage)).contents)
        → HasNoLeaks (byte_at (S.view (storage_of storage)).contents)
        → OnOk result.1 (HasNoLeaks (byte_at (S.view result.0).contents)) }
    ensures fault { (S.view (storage_of storage)).is_honest
        → IsUnwritten 0 (byte_at (S.view (storage_of storage)).contents)
        → (header_at (byte_at (S.view (storage_of storage)).contents)).version ≡ 3 → IfErr result.1 IsFaultOrLimit }
    ensures limit { (S.view (storage_of storage)).is_honest
        → IsUnwritten 0 (byte_at (S.view (storage_of storage)).contents)
        → IsNewImage (header_at (byte_at (S.view (storage_of storage)).contents))
        (byte_at (S.view (storage_of storage)).contents)
        → (header_at (byte_at (S.view (storage_of storage)).contents)).autoclear ≡ 0
        → IfLimit result.1 (CantEnlarge S.view F.backing mode size (S.view (storage_of storage)).contents result.0) }
    ensures faults { ((below : F) → (F.backing below).faults ≡ 0)
        → FaultsReported (S.view (storage_of storage)).faults (S.view result.0).faults result.1 }
    ensures stays { size ≡ 0 → (S.view (storage_of storage)).is_honest
        → OnOk result.1 ((S.view result.0).contents ≡ (S.view (storage_of storage)).contents) }
{
    if size == 0 {
        let mut storage = storage;
        let flushed = flush_new_image(&mut storage);
        return (storage.into_inner(), flushed);
    }
    match Qcow2::<S, F>::open(alloc, storage, true, 0, Missing::Nothing) {
        Err((storage, refusal)) => (storage, Err(refusal)),
        Ok(mut image) => {
            let done = grow_and_flush(&mut image, size, mode);
            (image.into_storage(), done)
        }
    }
}

// Opens the new image with its data file, grows its disk and flushes both.
fn grow_new_image_beside<S: Storage, F: WrappedFormat<S>>(
    alloc: Global,
    storage: S,
    file: S,
    size: u64,
    mode: PreallocateMode,
) -> (S, Result<(), ImageError>) {
    match Qcow2::<S, F>::open(alloc, ImageStorage::new(storage), true, 0, Missing::Nothing) {
        Err((storage, refusal)) => (storage, Err(refusal)),
        Ok(mut opened) => {
            opened.data_file = Some(file);
            let grown = grow_and_flush(&mut opened, size, mode);
            (opened.into_storage(), grown)
        }
    }
}

fn grow_and_flush<S: Storage, F: WrappedFormat<S>>(
    image: &mut Qcow2<S, F>,
    size: u64,
    mode: PreallocateMode,
) -> Result<(), ImageError>
    ensures enlarges { IsOpened (abstract_of S.view F.backing image.old (in_image [])) → IsTrue (is_writable image.old)
        → is_some image.old.backing ≡ false → IsUnwritten 0 (byte_at (view_in S.view image.old.file).contents)
        → Enlarges mode size (view_in S.view image.old.file) (view_in S.view image.new.file) result }
    ensures leaks { IsOpened (abstract_of S.view F.backing image.old (in_image [])) → IsTrue (is_writable image.old)
        → ((c : ℕ) → (abstract_of S.view F.backing image.old (in_image [])).surplus c ≡ 0)
        → OnOk result (HasNoLeaks (byte_at (view_in S.view image.new.file).contents)) }
    ensures fault { refuses_to_resize image.old ≡ None → IsTrue (is_writable image.old)
        → is_some image.old.backing ≡ false → (abstract_of S.view F.backing image.old (in_image [])).is_sound
        → IsUnmapped S.view image.old → IfErr result IsFaultOrLimit }
    ensures limit { refuses_to_resize image.old ≡ None → (abstract_of S.view F.backing image.old (in_image [])).is_sound
        → IfLimit result (IsLimited S.view F.backing
        (all_given_by_grow S.view F.backing Image image.old size mode) (boundary_in image.old size)
        image.old (in_image [])
        × LeavesSound S.view F.backing image.old image.new) }
    ensures faults { CountsImageFaults S.view F.backing image.old image.new result }
    ensures beside { is_beside image.new ≡ is_beside image.old }
{
    image.resize_grow(size, mode)?;
    image.flush()
}
