//! Opening an image.
ghost use Rattle.std.specs.Prelude.{◌≡◌, false, None, Option, Some, IfOk};
ghost use Rattle.std.specs.Option.{option_flatten};
ghost use Rattle.qcow2_image.specs.ImageInvariant.{IsHonestBacking};
ghost use Rattle.qcow2_image.specs.Opened.{Opens};
ghost use Rattle.qcow2_image.specs.Readable.{IsNewlyOpened, OpeningStep, files_missing};

use crate::Qcow2;
use crate::image::Missing;
use image_access::{BackingDisk, Storage, WrappedFormat};
use qcow2_alloc::{ImageError, ImageStorage};
use std::alloc::Global;

/// A builder that opens an image.
#[derive(Drop)]
pub struct Qcow2OpenBuilder<S: Storage, F: WrappedFormat<S> = Box<dyn BackingDisk>> {
    image: S,
    number: u64,
    writable: bool,
    // None if `backing` wasn't called; `Some(None)` if the backing file is waived.
    backing: Option<Option<F>>,
    // None if `data_file` wasn't called; `Some(None)` if the data file is waived.
    data_file: Option<Option<S>>,
}

impl<S: Storage, F: WrappedFormat<S>> Qcow2OpenBuilder<S, F> {
    /// A builder for the image in a storage: for reading, without a backing disk and without a data file. Images that are open together
    /// must have different numbers.
    pub fn new(image: S, number: u64) -> Qcow2OpenBuilder<S, F>
        ensures { result ≡ record { image = image; number = number; writable = false; backing = None; data_file = None } }
    {
        Qcow2OpenBuilder {
            image,
            number,
            writable: false,
            backing: None,
            data_file: None,
        }
    }

    /// Whether to open the image for writing.
    pub fn write(mut self, writable: bool) -> Qcow2OpenBuilder<S, F>
        ensures { result ≡ record self { writable = writable } }
    {
        self.writable = writable;
        self
    }

    /// The backing disk. With None the backing file that the header names is waived: ranges that belong to it read as zeros.
    pub fn backing(mut self, backing: Option<F>) -> Qcow2OpenBuilder<S, F>
        ensures { result ≡ record self { backing = Some backing } }
    {
        self.backing = Some(backing);
        self
    }

    /// The data file, which then holds guests' data, whether the header asks for one or not. With None a data file that the header
    /// requires is waived: calls on guests' data are refused 12 (dependency) then.
    pub fn data_file(mut self, data_file: Option<S>) -> Qcow2OpenBuilder<S, F>
        ensures { result ≡ record self { data_file = Some data_file } }
    {
        self.data_file = Some(data_file);
        self
    }

    /// Whether the image will be opened for writing.
    pub fn get_writable(&self) -> bool
        ensures { result ≡ self.now.writable }
    {
        self.writable
    }

    // The files that are missing.
    fn missing(&self) -> Missing
        ensures { result ≡ files_missing self.now.backing self.now.data_file }
    {
        match (&self.backing, &self.data_file) {
            (None, None) => Missing::OtherFiles,
            (None, Some(_)) => Missing::BackingFile,
            (Some(_), None) => Missing::DataFile,
            (Some(_), Some(_)) => Missing::Nothing,
        }
    }

    /// Opens the image over the given backing disk, with the given data file. A refusal returns the storage, and drops these two.
    /// Refused for the header 19 (metadata), 13 (limit), 4 (unaligned table), in this order; then 12 (dependency), before anything is
    /// written, if the image needs a data file and `data_file` wasn't called, or names a backing file and `backing` wasn't called; then for
    /// the L1 table 19; and for writing, for the reftable 13 if it would end past 64 bits, and 19. May be refused
    /// 14 (memory) or 15 (storage) during the work.
    pub fn open(self, alloc: Global) -> Result<Qcow2<S, F>, (S, ImageError)>
        ensures step { OpeningStep S.view (S.view self.image) self.writable
            (files_missing self.backing self.data_file) result }
        ensures image { IfOk result (IsNewlyOpened (S.view self.image) self.writable self.number) }
        ensures over { IfOk result (λ image. (image.backing ≡ option_flatten self.backing)
            × (image.data_file ≡ option_flatten self.data_file)) }
        ensures opens { IsHonestBacking S.view F.backing (option_flatten self.backing)
            → option_flatten self.data_file ≡ None → IfOk result (Opens S.view F.backing (S.view self.image)) }
    {
        let missing = self.missing();
        let Qcow2OpenBuilder {
            image,
            number,
            writable,
            backing,
            data_file,
        } = self;
        let opened = Qcow2::open(alloc, ImageStorage::new(image), writable, number, missing);
        let mut image = match opened {
            Ok(image) => image,
            Err(refused) => return Err(refused),
        };
        let disk = backing.flatten();
        let file = data_file.flatten();
        image.backing = disk;
        image.data_file = file;
        Ok(image)
    }
}

impl<S: Storage, F: WrappedFormat<S>> Qcow2<S, F> {
    /// A builder that opens the image in a storage. Images that are open together must have different numbers.
    pub fn builder(image: S, number: u64) -> Qcow2OpenBuilder<S, F>
        ensures { result ≡ record { image = image; number = number; writable = false; backing = None; data_file = None } }
    {
        Qcow2OpenBuilder::new(image, number)
    }
}
