use crate::{ClustersToFreeList, ImageStorage, MetadataCaches};
use image_access::Storage;
use qcow2_metadata::Header;
use std::alloc::Global;

/// The driver's state of an image's file: the storage, the header, the cached tables, and the clusters to free.
#[derive(Drop)]
pub struct ImageFile<S: Storage> {
    /// The allocator of memory.
    pub alloc: Global,
    /// The storage of the image.
    pub storage: ImageStorage<S>,
    /// The header in memory.
    pub header: Header,
    /// The cached L2 tables and refblocks.
    pub caches: MetadataCaches<S>,
    /// The clusters to free.
    pub free_list: ClustersToFreeList,
}

impl<S: Storage> ImageFile<S> {
    ghost use Rattle.std.specs.Prelude.{◌≡◌, false};
    ghost use Rattle.qcow2_alloc.specs.CachePins.{SameTables};
    ghost use Rattle.qcow2_alloc.specs.ImageStorage.{storage_of, changes_of, is_changed_of};
    ghost use Rattle.qcow2_alloc.specs.ImageFile.{has_noted};
    ghost use Rattle.qcow2_alloc.specs.KeptMarks.{changes_in, RecordsSince};

    /// Begins a call: no change is recorded yet.
    pub fn begin_call(&mut self)
        ensures header { self.new.header ≡ self.old.header }
        ensures storage { storage_of self.new.storage ≡ storage_of self.old.storage }
        ensures unchanged { is_changed_of self.new.storage ≡ false }
        ensures changes { changes_of self.new.storage ≡ changes_of self.old.storage }
        ensures caches { self.new.caches ≡ record self.old.caches { is_changed = false } }
        ensures tables { SameTables self.old.caches self.new.caches }
        ensures free_list { self.new.free_list ≡ self.old.free_list }
    {
        self.storage.begin_call();
        self.caches.begin_call();
    }

    /// Whether the storage or a table was changed since the last `begin_call`.
    pub fn is_changed(&self) -> bool
        ensures { result ≡ has_noted self.now }
    {
        self.storage.is_changed() || self.caches.is_changed()
    }

    /// The numbers of changes so far: of the storage, and of the tables.
    pub fn changes(&self) -> (u64, u64)
        ensures { result ≡ changes_in self.now }
    {
        (self.storage.changes(), self.caches.changes())
    }

    /// Records a change, if there was one since these numbers of changes.
    pub fn record_change_since(&mut self, changes: (u64, u64))
        ensures { RecordsSince changes self.old self.new }
    {
        let (storage, tables) = changes;
        if storage.saturating_add(1) <= self.storage.changes()
            || tables.saturating_add(1) <= self.caches.changes()
        {
            self.storage.is_changed = true;
        }
    }

    /// The storage itself. Modified tables that were not written are lost.
    pub fn into_storage(self) -> S
        ensures { result ≡ storage_of self.storage }
    {
        let ImageFile {
            alloc: _,
            storage,
            header: _,
            caches: _,
            free_list: _,
        } = self;
        storage.into_inner()
    }
}
