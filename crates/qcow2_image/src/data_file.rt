//! The data file of an image: another file, which holds guests' data.
ghost use Rattle.std.specs.Prelude.{◌≡◌, ◌↔◌, ◌<◌, ◌/◌, IfErr, IfOk, IfSome, IsErr, IsTrue, List, MatchResult, OnOk, Option};
ghost use Rattle.std.specs.Prelude.{Err, None, Ok, false, length};
ghost use Rattle.image_access.specs.Contents.{bytes_at, resized};
ghost use Rattle.image_access.specs.Moments.{SyncCall};
ghost use Rattle.qcow2_alloc.specs.ImageFile.{view_in};
ghost use Rattle.qcow2_alloc.specs.ImageStorage.{RecordsWrite};
ghost use Rattle.qcow2_metadata.specs.Header.{cluster_size};
ghost use Rattle.qcow2_metadata.specs.L2Mapping.{IsHostCluster};
ghost use Rattle.qcow2_alloc.specs.ImageError.{IsFault, of_storage};
ghost use Rattle.qcow2_alloc.specs.declared.error.ImageError.TheVariants.{Failed, MappingPrepared};
ghost use Rattle.qcow2_image.specs.Backings.{HasPinnedMapping};
ghost use Rattle.qcow2_image.specs.CallParts.{WritesBeside};
ghost use Rattle.qcow2_image.specs.DataFiles.{CallsBeside, DataFileStep, ReadsData};
ghost use Rattle.qcow2_image.specs.HeldMappings.{ReadsFrom};
ghost use Rattle.qcow2_image.specs.Image.{HasPinnedTable, is_failed, is_placed_by_guest, place_in, storage_of_image};
ghost use Rattle.qcow2_image.specs.ImageInvariant.{abstract_of, Mappings};
ghost use Rattle.qcow2_image.specs.ImageSteps.{ImageFails, ReadingStep};
ghost use Rattle.qcow2_image.specs.Storages.{PassesBeside};
ghost use Rattle.qcow2_image.specs.declared.prepared.Prepared.{Prepared};

use crate::{ImageError, Place, Qcow2};
use image_access::{Storage, StorageError, StoragePreallocate, WrappedFormat};
use qcow2_metadata::{GuestOffset, HostCluster};

// The greatest offset of a cluster that an L2 entry can hold.
const MAX_OFFSET: u64 = 0x00ff_ffff_ffff_fe00;

impl<S: Storage, F: WrappedFormat<S>> Qcow2<S, F> {
    /// Sets the data file of the image, or none. The old one is dropped. Guests' data are read from it and written to it from now on, whether the
    /// header asks for one or not. Refused 16 (failed), and 17 (mapping prepared) while a mapping is prepared that isn't existing. A refusal
    /// returns the file.
    pub fn set_data_file(&mut self, file: Option<S>) -> Result<(), (Option<S>, ImageError)>
        ensures failed { IsTrue (is_failed self.old) → (result ≡ Err (file, Failed)) × (self.new ≡ self.old) }
        ensures refused { is_failed self.old ≡ false
            → IfErr result (λ refused. (refused ≡ (file, MappingPrepared)) × (self.new ≡ self.old)) }
        ensures prepared { is_failed self.old ≡ false → (out : Mappings)
            → (abstract_of S.view F.backing self.old out).is_sound → IsErr result ↔ HasPinnedMapping out }
        ensures pinned { is_failed self.old ≡ false → IsErr result ↔ HasPinnedTable self.old }
        ensures done { OnOk result (self.new ≡ record self.old { data_file = file }) }
    {
        if self.is_failed {
            return Err((file, ImageError::Failed));
        }
        if self.file.caches.first_pinned_l2().is_some() {
            return Err((file, ImageError::MappingPrepared));
        }
        self.data_file = file;
        Ok(())
    }

    // The file that holds guests' data.
    pub(crate) fn place(&self) -> Place
        ensures { result ≡ place_in self.now }
    {
        match &self.data_file {
            Some(_) => Place::DataFile,
            None => Place::Image,
        }
    }

    // Whether data are at their guest offsets, in a data file that the header asks for. They aren't counted then.
    pub(crate) fn is_placed_by_guest(&self) -> bool
        ensures { result ≡ is_placed_by_guest self.now }
    {
        self.file.header.has_data_file() && self.data_file.is_some()
    }

    // The alignment of the file that holds guests' data.
    pub(crate) fn data_alignment(&self) -> u64
        ensures { 0 < result }
    {
        match &self.data_file {
            Some(file) => file.req_align() as u64,
            None => self.file.storage.req_align() as u64,
        }
    }

    // Reads guests' data, from a place in the file that holds them.
    pub(crate) fn read_data(&mut self, at: u64, bytes: &mut [u8]) -> Result<(), ImageError>
        ensures step { ReadingStep S.view self.old self.new }
        ensures fails { ImageFails S.view F.backing self.old self.new result IsFault }
        ensures data { ReadsData S.view F.backing self.old self.new }
        ensures own { self.old.data_file ≡ None → (view_in S.view self.old.file).is_honest
            → IfOk result (λ done. bytes.new ≡ bytes_at (view_in S.view self.old.file).contents at (length bytes.old)) }
        ensures reads { OnOk result (ReadsFrom S.view self.old self.new at bytes.new) }
    {
        match &mut self.data_file {
            Some(file) => {
                file.read(at, bytes)?;
                Ok(())
            }
            None => self.read_own_data(at, bytes),
        }
    }

    // Reads guests' data, from a place in the image's own file.
    fn read_own_data(&mut self, at: u64, bytes: &mut [u8]) -> Result<(), ImageError>
        ensures step { ReadingStep S.view self.old self.new }
        ensures fails { ImageFails S.view F.backing self.old self.new result IsFault }
        ensures data { ReadsData S.view F.backing self.old self.new }
        ensures own { (view_in S.view self.old.file).is_honest
            → IfOk result (λ done. bytes.new ≡ bytes_at (view_in S.view self.old.file).contents at (length bytes.old)) }
        ensures reads { OnOk result ((view_in S.view self.old.file).is_honest
            → bytes.new ≡ bytes_at (view_in S.view self.new.file).contents at (length bytes.new)) }
    {
        self.file.storage.read(at, bytes)?;
        Ok(())
    }

    // Records a write to the data file as a change of the call.
    pub(crate) fn record_data_write(
        &mut self,
        done: Result<(), StorageError>,
    ) -> Result<(), ImageError>
        ensures rest { self.new ≡ record self.old { file = record self.old.file { storage = self.new.file.storage } } }
        ensures storage { storage_of_image self.new ≡ storage_of_image self.old }
        ensures recorded { RecordsWrite self.old.file.storage self.new.file.storage done }
        ensures answer { MatchResult done (λ done. result ≡ Ok tt) (λ e. result ≡ Err (of_storage e)) }
    {
        self.file.storage.record_change(done)?;
        Ok(())
    }

    // Flushes the data file, if there is one.
    pub(crate) fn flush_data_file(&mut self) -> Result<(), ImageError>
        ensures beside { CallsBeside S.view F.backing self.old self.new result }
    {
        if let Some(file) = &mut self.data_file {
            file.flush()?;
        }
        Ok(())
    }

    // Syncs the data file, if there is one.
    pub(crate) fn sync_data_file(&mut self) -> Result<(), ImageError>
        ensures beside { CallsBeside S.view F.backing self.old self.new result }
        ensures passes { OnOk result (PassesBeside S.passes SyncCall self.old self.new) }
    {
        if let Some(file) = &mut self.data_file {
            file.sync()?;
        }
        Ok(())
    }

    // Drops cached reads of the data file, if there is one.
    pub(crate) fn invalidate_data_file(&mut self) -> Result<(), ImageError>
        ensures beside { CallsBeside S.view F.backing self.old self.new result }
    {
        if let Some(file) = &mut self.data_file {
            file.invalidate_cache()?;
        }
        Ok(())
    }

    // Resizes the data file, if there is one, as a change of the call.
    pub(crate) fn resize_data_file(&mut self, size: u64) -> Result<(), ImageError>
        ensures step { DataFileStep S.view F.backing self.old self.new IsFault result }
        ensures none { self.old.data_file ≡ None → (result ≡ Ok tt) × (self.new ≡ self.old) }
        ensures resizes { IfSome self.old.data_file
            (WritesBeside S.view self.old self.new (λ b. resized b size) result) }
    {
        if let Some(file) = &mut self.data_file {
            let done = file.resize(size, StoragePreallocate::None);
            return self.record_data_write(done);
        }
        Ok(())
    }

    // Resizes a data file that has data at their guest offsets, as a change of the call.
    pub(crate) fn resize_placed_data(&mut self, size: u64) -> Result<(), ImageError>
        ensures step { DataFileStep S.view F.backing self.old self.new IsFault result }
        ensures none { self.old.data_file ≡ None → (result ≡ Ok tt) × (self.new ≡ self.old) }
    {
        if self.is_placed_by_guest() {
            return self.resize_data_file(size);
        }
        Ok(())
    }

    // The cluster of a data file that holds the data of a guest offset. None if an L2 entry can't hold its offset.
    pub(crate) fn cluster_of_guest(&self, offset: u64) -> Option<HostCluster>
        ensures nameable { IfSome result (IsHostCluster self.now.file.header.fields.cluster_bits) }
        ensures own { IfSome result (λ cluster. cluster ≡ offset / cluster_size self.now.file.header.fields) }
    {
        let bits = self.file.header.cluster_bits();
        let guest = GuestOffset::new(offset);
        if offset - guest.in_cluster_offset(bits) > MAX_OFFSET {
            return None;
        }
        Some(HostCluster::new(guest.cluster(bits).value()))
    }
}
