//! What loads and flushes the cached tables.
use crate::async_lru_cache::{AsyncLruCacheBackend, CacheTypes, CachedValue};
use crate::table_cache::TableBackend;
use crate::{ImageStorage, WriteKind};
use image_access::{Storage, StorageError};
use qcow2_metadata::{Header, HostCluster, L2Table, MetadataError, RefBlock};
use std::alloc::Global;
use std::marker::PhantomData;

impl CachedValue for L2Table {
    ghost bytes = { λ v. v.bytes };

    ghost is_modified = { λ v. v.is_modified };
}

/// Loads and flushes L2 tables.
#[derive(Drop)]
pub struct L2CacheBackend<S> {
    header: Header,
    storage: PhantomData<S>,
}

impl<S: Storage> CacheTypes for L2CacheBackend<S> {
    type Key = HostCluster;

    type Value = L2Table;

    type Error = MetadataError;

    type Store = ImageStorage<S>;
}

impl<S: Storage> AsyncLruCacheBackend for L2CacheBackend<S> {
    ghost use Rattle.std.specs.Prelude.{◌≡◌, ◌*◌, ◌^◌, ⊤};
    ghost use Rattle.std.proofs.Common.{refl};
    ghost use Rattle.image_access.specs.Contents.{bytes_at};
    ghost use Rattle.qcow2_metadata.specs.L2Table.{L2TableView};
    ghost use Rattle.qcow2_alloc.specs.ImageStorage.{storage_of};
    ghost use Rattle.qcow2_alloc.specs.TableCaches.{l2_steps, cleared_l2, IsTableOf};
    ghost use Rattle.qcow2_alloc.specs.TableLaws.{table_laws};
    ghost use Rattle.qcow2_alloc.specs.KeptNotes.{KeepsNotes, kept_same, kept_then};
    ghost use Rattle.qcow2_alloc.specs.RecordedFaults.{RecordsFaults, met_same, met_then};

    ghost steps = { λ b. l2_steps (λ s. S.view (storage_of s)) b.header.fields };

    ghost evicted = { λ _ _ _. ⊤ };

    ghost is_honest = { λ s. (S.view (storage_of s)).is_honest };

    ghost stored = { λ b s k. bytes_at (S.view (storage_of s)).contents (k * 2 ^ b.header.fields.cluster_bits) (2 ^ b.header.fields.cluster_bits) };

    ghost keeps = { λ s t. KeepsNotes S.view s t × RecordsFaults S.view s t };

    fn load(
        &self,
        alloc: Global,
        store: &mut ImageStorage<S>,
        key: HostCluster,
    ) -> Result<L2Table, MetadataError> {
        if key.checked_offset(self.header.cluster_bits()).is_none() {
            return Err(MetadataError::Limit);
        }
        match store.load_l2_table(alloc, &self.header, key) {
            Err(MetadataError::Storage(StorageError::Fault)) => {
                store.record_fault();
                Err(MetadataError::Storage(StorageError::Fault))
            }
            loaded => loaded,
        }
    }

    fn flush(
        &self,
        store: &mut ImageStorage<S>,
        key: HostCluster,
        value: &mut L2Table,
    ) -> Result<(), MetadataError> {
        if !value.is_modified() {
            value.clear_modified();
            return Ok(());
        }
        if value.cluster_bits() != self.header.cluster_bits() {
            return Err(MetadataError::Limit);
        }
        if key.checked_offset(value.cluster_bits()).is_none() {
            return Err(MetadataError::Limit);
        }
        store.set_write_kind(WriteKind::L2Table);
        match store.write_l2_table(value, key) {
            Ok(()) => Ok(()),
            Err(e) => Err(MetadataError::Storage(e)),
        }
    }

    fn evict(&self, _key: HostCluster, _value: L2Table) {}

    ghost lawful = { λ b. table_laws (λ s. S.view (storage_of s)) b.header.fields.cluster_bits (λ (v : L2TableView). v.bytes) (λ v. v.is_modified) cleared_l2 (IsTableOf b.header.fields) (λ _. refl) (λ _. refl) };

    ghost keeps_same = { λ s. (kept_same s, met_same s) };

    ghost keeps_then = { λ s t u first then. (kept_then s t u first.0 then.0, met_then s t u first.1 then.1) };
}

impl<S: Storage> TableBackend for L2CacheBackend<S> {
    ghost use Rattle.std.specs.Prelude.{false};
    ghost use Rattle.std.proofs.Common.{ap};
    ghost use Rattle.qcow2_metadata.specs.L2Table.{L2TableView};
    ghost use Rattle.qcow2_alloc.specs.ImageStorage.{storage_of};
    ghost use Rattle.qcow2_alloc.specs.TableCaches.{cleared_l2, IsTableOf};
    ghost use Rattle.qcow2_alloc.specs.TableLaws.{same_number, table_rests};

    fn is_modified(value: &L2Table) -> bool {
        value.is_modified()
    }

    ghost exact = { λ j k h. same_number j k h };

    ghost rests = { λ b s k v h. table_rests (λ s. S.view (storage_of s)) b.header.fields.cluster_bits (λ (v : L2TableView). v.bytes) (λ v. v.is_modified) cleared_l2 (IsTableOf b.header.fields) s k v h (ap (λ m. record v { is_modified = m }) h) };
}

impl<S> L2CacheBackend<S> {
    ghost use Rattle.std.specs.Prelude.{◌≡◌};

    /// A backend for the tables of an image with this header.
    pub(crate) fn new(header: &Header) -> L2CacheBackend<S>
        ensures { result.header.fields ≡ header.now.fields }
    {
        L2CacheBackend {
            header: header.without_names(),
            storage: PhantomData,
        }
    }
}

impl CachedValue for RefBlock {
    ghost bytes = { λ v. v.bytes };

    ghost is_modified = { λ v. v.is_modified };
}

/// Loads and flushes refblocks.
#[derive(Drop)]
pub struct RefBlockCacheBackend<S> {
    header: Header,
    storage: PhantomData<S>,
}

impl<S: Storage> CacheTypes for RefBlockCacheBackend<S> {
    type Key = HostCluster;

    type Value = RefBlock;

    type Error = MetadataError;

    type Store = ImageStorage<S>;
}

impl<S: Storage> AsyncLruCacheBackend for RefBlockCacheBackend<S> {
    ghost use Rattle.std.specs.Prelude.{◌≡◌, ◌*◌, ◌^◌, ⊤};
    ghost use Rattle.std.proofs.Common.{refl};
    ghost use Rattle.image_access.specs.Contents.{bytes_at};
    ghost use Rattle.qcow2_metadata.specs.RefBlock.{RefBlockView};
    ghost use Rattle.qcow2_alloc.specs.ImageStorage.{storage_of};
    ghost use Rattle.qcow2_alloc.specs.TableCaches.{rb_steps, cleared_rb, IsBlockOf};
    ghost use Rattle.qcow2_alloc.specs.TableLaws.{table_laws};
    ghost use Rattle.qcow2_alloc.specs.KeptNotes.{KeepsNotes, kept_same, kept_then};
    ghost use Rattle.qcow2_alloc.specs.RecordedFaults.{RecordsFaults, met_same, met_then};

    ghost steps = { λ b. rb_steps (λ s. S.view (storage_of s)) b.header.fields };

    ghost evicted = { λ _ _ _. ⊤ };

    ghost is_honest = { λ s. (S.view (storage_of s)).is_honest };

    ghost stored = { λ b s k. bytes_at (S.view (storage_of s)).contents (k * 2 ^ b.header.fields.cluster_bits) (2 ^ b.header.fields.cluster_bits) };

    ghost keeps = { λ s t. KeepsNotes S.view s t × RecordsFaults S.view s t };

    fn load(
        &self,
        alloc: Global,
        store: &mut ImageStorage<S>,
        key: HostCluster,
    ) -> Result<RefBlock, MetadataError> {
        if key.checked_offset(self.header.cluster_bits()).is_none() {
            return Err(MetadataError::Limit);
        }
        match store.load_refblock(alloc, &self.header, key) {
            Err(MetadataError::Storage(StorageError::Fault)) => {
                store.record_fault();
                Err(MetadataError::Storage(StorageError::Fault))
            }
            loaded => loaded,
        }
    }

    fn flush(
        &self,
        store: &mut ImageStorage<S>,
        key: HostCluster,
        value: &mut RefBlock,
    ) -> Result<(), MetadataError> {
        if !value.is_modified() {
            value.clear_modified();
            return Ok(());
        }
        if value.cluster_bits() != self.header.cluster_bits() {
            return Err(MetadataError::Limit);
        }
        if key.checked_offset(value.cluster_bits()).is_none() {
            return Err(MetadataError::Limit);
        }
        store.set_write_kind(WriteKind::RefBlock);
        match store.write_refblock(value, key) {
            Ok(()) => Ok(()),
            Err(e) => Err(MetadataError::Storage(e)),
        }
    }

    fn evict(&self, _key: HostCluster, _value: RefBlock) {}

    ghost lawful = { λ b. table_laws (λ s. S.view (storage_of s)) b.header.fields.cluster_bits (λ (v : RefBlockView). v.bytes) (λ v. v.is_modified) cleared_rb (IsBlockOf b.header.fields) (λ _. refl) (λ _. refl) };

    ghost keeps_same = { λ s. (kept_same s, met_same s) };

    ghost keeps_then = { λ s t u first then. (kept_then s t u first.0 then.0, met_then s t u first.1 then.1) };
}

impl<S: Storage> TableBackend for RefBlockCacheBackend<S> {
    ghost use Rattle.std.specs.Prelude.{false};
    ghost use Rattle.std.proofs.Common.{ap};
    ghost use Rattle.qcow2_metadata.specs.RefBlock.{RefBlockView};
    ghost use Rattle.qcow2_alloc.specs.ImageStorage.{storage_of};
    ghost use Rattle.qcow2_alloc.specs.TableCaches.{cleared_rb, IsBlockOf};
    ghost use Rattle.qcow2_alloc.specs.TableLaws.{same_number, table_rests};

    fn is_modified(value: &RefBlock) -> bool {
        value.is_modified()
    }

    ghost exact = { λ j k h. same_number j k h };

    ghost rests = { λ b s k v h. table_rests (λ s. S.view (storage_of s)) b.header.fields.cluster_bits (λ (v : RefBlockView). v.bytes) (λ v. v.is_modified) cleared_rb (IsBlockOf b.header.fields) s k v h (ap (λ m. record v { is_modified = m }) h) };
}

impl<S> RefBlockCacheBackend<S> {
    ghost use Rattle.std.specs.Prelude.{◌≡◌};

    /// A backend for the tables of an image with this header.
    pub(crate) fn new(header: &Header) -> RefBlockCacheBackend<S>
        ensures { result.header.fields ≡ header.now.fields }
    {
        RefBlockCacheBackend {
            header: header.without_names(),
            storage: PhantomData,
        }
    }
}
