//! The storages of an image: its own, those of its backing disk, and its data file.
ghost use Rattle.qcow2_image.specs.ImageSteps.{ImageFails, ReadingCall, ReadingStep};
ghost use Rattle.std.specs.Prelude.{◌≡◌, List, [], None, Option, map, false, IfOk, IfErr, IsTrue, OnOk, Ok, Err};
ghost use Rattle.image_access.specs.Moments.{SyncCall};
ghost use Rattle.qcow2_alloc.specs.ImageError.{IsFault};
ghost use Rattle.qcow2_alloc.specs.ImageFile.{view_in};
ghost use Rattle.qcow2_alloc.specs.declared.error.ImageError.TheVariants.{Failed, Memory};
ghost use Rattle.qcow2_laws.specs.CrashInvariant.{Pending};
ghost use Rattle.qcow2_image.specs.Calls.{AnswersCall};
ghost use Rattle.qcow2_image.specs.Image.{is_failed, storage_of_image};
ghost use Rattle.qcow2_image.specs.ImageInvariant.{ImageInvariant, Mappings};
ghost use Rattle.qcow2_image.specs.Storages.{PassesOn, storages_of};
ghost use Rattle.qcow2_image.specs.InternalSteps.{InternalStep};
ghost use Rattle.qcow2_image.specs.Unwritten.{ContentsStayThroughout};
ghost use Rattle.qcow2_image.specs.declared.prepared.Prepared.{Prepared};

use crate::Qcow2;
use image_access::{Storage, WrappedFormat};
use qcow2_alloc::ImageError;
use std::alloc::Global;
use std::fmt;

impl<S: Storage, F: WrappedFormat<S>> Qcow2<S, F> {
    /// Returns once everything that was written to the storage and to the data file would survive a power loss. Cached tables are not
    /// written: call `flush` before. Refused 16 (failed), then 14 (memory) and 15 (storage), as the two refuse.
    pub fn sync(&mut self) -> Result<(), ImageError>
        ensures step { ReadingCall S.view F.backing self.old self.new result }
        ensures early { IsTrue (is_failed self.old) → (result ≡ Err Failed) × (self.new ≡ self.old) }
        ensures late { is_failed self.old ≡ false → IfErr result IsFault }
        ensures silent { (view_in S.view self.old.file).is_honest
            → ContentsStayThroughout (view_in S.view self.old.file) (view_in S.view self.new.file) }
        ensures sees { AnswersCall S.view F.backing self.old self.new [] (λ done was is. is ≡ was) result }
        ensures passes { OnOk result (PassesOn S.passes SyncCall self.old self.new) }
    {
        if self.is_failed {
            return Err(ImageError::Failed);
        }
        self.begin_call();
        let done = self.sync_storages();
        self.mark_failure(done)
    }

    // Syncs the storage, then the data file.
    fn sync_storages(&mut self) -> Result<(), ImageError>
        ensures step { ReadingStep S.view self.old self.new }
        ensures fails { ImageFails S.view F.backing self.old self.new result IsFault }
        ensures silent { (view_in S.view self.old.file).is_honest
            → ContentsStayThroughout (view_in S.view self.old.file) (view_in S.view self.new.file) }
        ensures keeps { (p : Pending) (out : Mappings) → ImageInvariant S.view F.backing p self.old out
            → InternalStep S.view F.backing p p self.old self.new out }
        ensures passes { OnOk result (PassesOn S.passes SyncCall self.old self.new) }
    {
        self.sync_storage()?;
        self.sync_data_file()
    }

    fn sync_storage(&mut self) -> Result<(), ImageError>
        ensures step { ReadingStep S.view self.old self.new }
        ensures fails { ImageFails S.view F.backing self.old self.new result IsFault }
        ensures silent { (view_in S.view self.old.file).is_honest
            → ContentsStayThroughout (view_in S.view self.old.file) (view_in S.view self.new.file) }
        ensures keeps { (p : Pending) (out : Mappings) → ImageInvariant S.view F.backing p self.old out
            → InternalStep S.view F.backing p p self.old self.new out }
        ensures passes { OnOk result
            (S.passes SyncCall (storage_of_image self.old) (storage_of_image self.new) (Ok tt)) }
        ensures data_file { self.new.data_file ≡ self.old.data_file }
    {
        self.file.storage.sync()?;
        Ok(())
    }

    /// The storages of the image: those of its backing disk, then its own, then the data file. A failed image returns them too.
    /// Refused 14 (memory).
    pub fn collect_storage_dependencies(&self, alloc: Global) -> Result<Vec<&S>, ImageError>
        ensures listed { IfOk result (λ found. map (λ s. s.now) found.items ≡ storages_of F.dependencies self.now) }
        ensures cause { IfErr result (λ e. e ≡ Memory) }
    {
        let mut found = self.storages_without_data_file(alloc)?;
        if let Some(file) = &self.data_file {
            found.push(file)?;
        }
        Ok(found)
    }

    // The storages of the backing disk, and the image's own.
    fn storages_without_data_file(&self, alloc: Global) -> Result<Vec<&S>, ImageError>
        ensures listed { IfOk result (λ found. map (λ s. s.now) found.items
            ≡ storages_of F.dependencies (record self.now { data_file = None })) }
        ensures cause { IfErr result (λ e. e ≡ Memory) }
    {
        let mut found = match &self.backing {
            Some(backing) => backing.storage_dependencies(alloc)?,
            None => Vec::new(alloc),
        };
        found.push(self.file.storage.inner())?;
        Ok(found)
    }
}

/// Prints `qcow2[`, the name of the storage, `]`.
impl<S: Storage, F: WrappedFormat<S>> fmt::Display for Qcow2<S, F> {
    ghost use Rattle.std.specs.Prelude.{Some};
    ghost use Rattle.qcow2_image.specs.Storages.{name_of};

    ghost output = { λ image. Some (name_of S.view image) };

    fn fmt<W: fmt::Write>(&self, f: &mut fmt::Formatter<W>) -> fmt::Result {
        let name = self.file.storage.name();
        write!(f, "qcow2[{name}]")
    }
}
