//! Dropping everything cached of a file, and reading the tables again.
ghost use Rattle.std.specs.Prelude.{◌≡◌, ◌↔◌, ◌<◌, ◌≤◌, ◌*◌, IfErr, IfOk, IfSome, IsTrue, List, []};
ghost use Rattle.std.specs.Prelude.{OnErr, OnOk, Option};
ghost use Rattle.qcow2_alloc.specs.ImageError.{IsOfTables};
ghost use Rattle.qcow2_alloc.specs.ImageFile.{view_in, contents_in, HasReftable};
ghost use Rattle.qcow2_laws.specs.CrashInvariant.{Pending};
ghost use Rattle.qcow2_metadata.specs.Header.{entries_per_cluster, header, with_fields, with_tables_of};
ghost use Rattle.qcow2_image.specs.Image.{is_writable, HasNothingToFree};
ghost use Rattle.qcow2_image.specs.ImageInvariant.{HasL1Table, ImageInvariant, Mappings};
ghost use Rattle.qcow2_image.specs.ImageSteps.{ImageFails, ImageStep};
ghost use Rattle.qcow2_image.specs.Invalidated.{ArePlacesFor, DropsCached, RespectsPrepared, HoldsNoTable, IsAsStored};
ghost use Rattle.qcow2_image.specs.Invalidated.{IsAtRest, KeepsTables, ReplacesTables};
ghost use Rattle.qcow2_image.specs.Invalidated.{IsReasonAgainstPlaces, IsReasonAgainstReading};
ghost use Rattle.qcow2_image.specs.Invalidated.{ReadsPlaces, ReadsTables};
ghost use Rattle.qcow2_image.specs.Invalidated.{InvalidatesSoundly, InvalidatingFails, InvalidatingStep};
ghost use Rattle.qcow2_image.specs.Invalidated.{IsOfPrepared, MayFailToInvalidate, ReadsAnew};
ghost use Rattle.qcow2_image.specs.Readable.{IsReasonAgainstTables};
ghost use Rattle.qcow2_image.specs.Refusals.{MayFail};
ghost use Rattle.qcow2_image.specs.InternalSteps.{InternalStep};
ghost use Rattle.qcow2_image.specs.declared.prepared.Prepared.{Prepared};

use crate::{ImageError, Qcow2};
use image_access::{Storage, WrappedFormat};
use qcow2_metadata::{Header, MAX_REFTABLE_ENTRIES};
use std::mem;

// Whether the other header's reftable exceeds the limit with the cluster size of this header.
fn is_too_long(header: &Header, other: &Header) -> bool
    ensures { IsTrue result ↔ (1048576 < other.now.fields.reftable_clusters * entries_per_cluster header.now.fields) }
{
    let entries = u64::from(other.reftable_clusters()) * (header.cluster_size() / 8);
    entries > MAX_REFTABLE_ENTRIES as u64
}

// Takes the pointers to the L1 table and the reftable from another header, whose reftable is within the limit.
fn copy_table_pointers(header: &mut Header, other: &Header)
    requires { other.now.fields.reftable_clusters * entries_per_cluster header.old.fields ≤ 1048576 }
    ensures { header.new ≡ with_fields header.old (with_tables_of header.old.fields other.now.fields) }
{
    match header.update(other) {
        Ok(()) => {}
        Err(_) => unreachable!(),
    }
}

#[tactic(auto, using(crate::proofs::Call::FailingErrors::tables_met, crate::proofs::Call::FailingErrors::fault_met, crate::proofs::Call::FailingErrors::storage_met, crate::proofs::Call::FailingErrors::reftable_met, crate::proofs::Call::FailingErrors::header_anew, crate::proofs::Call::FailingErrors::prepared_anew))]
impl<S: Storage, F: WrappedFormat<S>> Qcow2<S, F> {
    /// Drops everything that is cached, unwritten, and reads the pointers to the tables, the L1 table and the reftable again:
    /// for an image that another program wrote to. Call `flush` before, with no mapping prepared: everything that is not flushed is
    /// lost, and clusters that wait to be freed stay leaked. The backing disk stays the same. After a refusal the header, the L1 table
    /// and the reftable in memory are unchanged.
    /// Refused 16 (failed); then 21 (still in use) while a mapping is prepared that isn't existing. By then the list of clusters to
    /// free is empty, and only the L2 tables of such mappings are left. Then 19 (metadata), 13 (limit) and
    /// 4 (unaligned table) for what is read. May be refused 14 (memory) or 15 (storage) during the work.
    pub fn invalidate_cache(&mut self) -> Result<(), ImageError>
        ensures step { InvalidatingStep S.view F.backing self.old self.new result }
        ensures fails { InvalidatingFails S.view F.backing self.old self.new result }
        ensures sound { InvalidatesSoundly S.view F.backing self.old self.new result }
    {
        if self.is_failed {
            return Err(ImageError::Failed);
        }
        self.begin_call();
        let done = self.drop_and_read();
        self.mark_failure(done)
    }

    fn drop_and_read(&mut self) -> Result<(), ImageError>
        ensures step { ReadsAnew S.view self.old self.new }
        ensures fails { ImageFails S.view F.backing self.old self.new result MayFailToInvalidate }
        ensures prepared { RespectsPrepared self.old result }
        ensures kept { OnErr result (KeepsTables self.old self.new) }
        ensures why { (view_in S.view self.old.file).is_honest
            → IfErr result (IsReasonAgainstReading S.view self.old self.new) }
        ensures list { HasNothingToFree self.new }
        ensures dropped { OnOk result (HoldsNoTable self.new) }
        ensures read { (view_in S.view self.old.file).is_honest → OnOk result (IsAsStored S.view F.backing self.new) }
        ensures keeps { IsAtRest S.view self.old → (p : Pending) (out : Mappings)
            → ImageInvariant S.view F.backing p self.old out → InternalStep S.view F.backing p p self.old self.new out }
    {
        self.drop_cached()?;
        let places = self.read_places_anew()?;
        self.replace_tables(places)
    }

    // Empties the list of clusters to free, and drops the L2 tables, then the refblocks.
    fn drop_cached(&mut self) -> Result<(), ImageError>
        ensures step { ImageStep S.view self.old self.new }
        ensures rest { DropsCached self.old self.new }
        ensures fails { ImageFails S.view F.backing self.old self.new result IsOfPrepared }
        ensures prepared { RespectsPrepared self.old result }
        ensures why { IfErr result (IsReasonAgainstReading S.view self.old self.new) }
        ensures dropped { OnOk result (HoldsNoTable self.new) }
        ensures keeps { IsAtRest S.view self.old → (p : Pending) (out : Mappings)
            → ImageInvariant S.view F.backing p self.old out → InternalStep S.view F.backing p p self.old self.new out }
    {
        let _forgotten = self.file.free_list.take();
        self.file.caches.invalidate_l2()?;
        match &mut self.allocator {
            Some(allocator) => allocator.invalidate_rb_cache(&mut self.file),
            None => self.file.caches.invalidate_rb(),
        }
    }

    // Drops cached reads of the data file and of the storage, and reads the pointers to the L1 table and the reftable. Returns the header in
    // memory with these pointers, without its names.
    fn read_places_anew(&mut self) -> Result<Header, ImageError>
        ensures step { ReadsPlaces S.view self.old self.new }
        ensures fails { ImageFails S.view F.backing self.old self.new result MayFailToInvalidate }
        ensures places { IfOk result (ArePlacesFor self.old) }
        ensures read { (view_in S.view self.old.file).is_honest
            → IfOk result (λ places. with_tables_of self.old.file.header.fields
            (header (contents_in S.view self.old.file)) ≡ places.fields) }
        ensures why { (view_in S.view self.old.file).is_honest → IfErr result (IsReasonAgainstPlaces
            self.old.file.header.fields (contents_in S.view self.old.file) (is_writable self.old)) }
        ensures keeps { (p : Pending) (out : Mappings) → ImageInvariant S.view F.backing p self.old out
            → InternalStep S.view F.backing p p self.old self.new out }
    {
        self.invalidate_data_file()?;
        self.read_places()
    }

    // Reads the pointers to the L1 table and the reftable. Returns the header in memory with these pointers, without its names.
    fn read_places(&mut self) -> Result<Header, ImageError>
        ensures step { ReadsPlaces S.view self.old self.new }
        ensures fails { ImageFails S.view F.backing self.old self.new result MayFailToInvalidate }
        ensures places { IfOk result (ArePlacesFor self.old) }
        ensures read { (view_in S.view self.old.file).is_honest
            → IfOk result (λ places. with_tables_of self.old.file.header.fields
            (header (contents_in S.view self.old.file)) ≡ places.fields) }
        ensures why { (view_in S.view self.old.file).is_honest → IfErr result (IsReasonAgainstPlaces
            self.old.file.header.fields (contents_in S.view self.old.file) (is_writable self.old)) }
        ensures keeps { (p : Pending) (out : Mappings) → ImageInvariant S.view F.backing p self.old out
            → InternalStep S.view F.backing p p self.old self.new out }
    {
        self.file.storage.invalidate_cache()?;
        let writable = self.allocator.is_some();
        let header = self.file.storage.load_header(self.file.alloc, writable)?;
        if is_too_long(&self.file.header, &header) {
            return Err(ImageError::Limit);
        }
        let mut places = self.file.header.without_names();
        copy_table_pointers(&mut places, &header);
        Ok(places)
    }

    // Reads the L1 table and the reftable at these pointers. Replaces the tables and pointers in memory by them, or none if it is refused.
    fn replace_tables(&mut self, places: Header) -> Result<(), ImageError>
        requires { ArePlacesFor self.old places }
        ensures step { ReplacesTables S.view self.old self.new }
        ensures fails { ImageFails S.view F.backing self.old self.new result MayFail }
        ensures kept { OnErr result (KeepsTables self.old self.new) }
        ensures taken { OnOk result (self.new.file.header.fields ≡ places.fields) }
        ensures read { (view_in S.view self.old.file).is_honest
            → OnOk result (HasL1Table S.view F.backing self.new.file self.new.l1_table
            × IfSome self.new.allocator (λ a. HasReftable S.view self.new.file a.reftable)) }
        ensures why { (view_in S.view self.old.file).is_honest → IfErr result (IsReasonAgainstTables
            places.fields (contents_in S.view self.old.file) (is_writable self.old)) }
        ensures keeps { places.fields ≡ self.old.file.header.fields → (p : Pending) (out : Mappings)
            → ImageInvariant S.view F.backing p self.old out
            → InternalStep S.view F.backing p p self.old self.new out }
    {
        let named = mem::replace(&mut self.file.header, places);
        let read = self.read_tables();
        let places = mem::replace(&mut self.file.header, named);
        read?;
        copy_table_pointers(&mut self.file.header, &places);
        Ok(())
    }

    // Reads the L1 table and, for writing, the reftable, and replaces those in memory if all could be read. The clusters that these refer
    // to are not allocated then, even if their refcounts are 0.
    fn read_tables(&mut self) -> Result<(), ImageError>
        ensures step { ReadsTables S.view self.old self.new }
        ensures fails { ImageFails S.view F.backing self.old self.new result MayFail }
        ensures refused { OnErr result ((self.new.l1_table ≡ self.old.l1_table)
            × (self.new.allocator ≡ self.old.allocator)) }
        ensures read { (view_in S.view self.old.file).is_honest
            → OnOk result (HasL1Table S.view F.backing self.new.file self.new.l1_table
            × IfSome self.new.allocator (λ a. HasReftable S.view self.new.file a.reftable)) }
        ensures why { (view_in S.view self.old.file).is_honest → IfErr result (IsReasonAgainstTables
            self.old.file.header.fields (contents_in S.view self.old.file) (is_writable self.old)) }
        ensures keeps { (p : Pending) (out : Mappings) → ImageInvariant S.view F.backing p self.old out
            → InternalStep S.view F.backing p p self.old self.new out }
    {
        let table = Self::load_l1_table(&mut self.file)?;
        let Some(allocator) = &mut self.allocator else {
            self.l1_table = table;
            return Ok(());
        };
        allocator.load_anew(&mut self.file)?;
        allocator.spare_named(&self.file, &table);
        self.l1_table = table;
        Ok(())
    }
}
