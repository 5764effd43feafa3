//! Loading tables from an image's storage, which is only read.
ghost use Rattle.std.specs.Prelude.{◌≡◌, ◌*◌, Some, Err, false, length, IfErr, IfOk};
ghost use Rattle.image_access.specs.Contents.{bytes_at};
ghost use Rattle.image_access.specs.Moments.{ContentsStay, QuietCalls};
ghost use Rattle.qcow2_metadata.specs.Bytes.{byte_at};
ghost use Rattle.qcow2_metadata.specs.Entries.{L1EntryReads, ReftableEntryReads};
ghost use Rattle.qcow2_metadata.specs.EntryTable.{entry_table, IsL1Table, IsL1TableOf, NamesL1Table};
ghost use Rattle.qcow2_metadata.specs.EntryTable.{IsRefTable, IsRefTableOf, NamesRefTable};
ghost use Rattle.qcow2_metadata.specs.EntryTable.{IsReasonNotToLoad, PassesLimit, SomeUnread};
ghost use Rattle.qcow2_metadata.specs.Header.{cluster_size, header as header_of};
ghost use Rattle.qcow2_metadata.specs.HeaderLoad.{HasAlignedTables, IsHeaderIn, IsReasonToRefuse};
ghost use Rattle.qcow2_metadata.specs.L2Table.{l2_table, IsL2Table};
ghost use Rattle.qcow2_metadata.specs.MetadataError.{storage_result, OnlyReads};
ghost use Rattle.qcow2_metadata.specs.RefBlock.{ref_block, IsRefBlock};
ghost use Rattle.qcow2_metadata.specs.TableBytes.{HasPlace, IsOfStorageOrMemory};
ghost use Rattle.qcow2_alloc.specs.ImageStorage.{storage_of};

use crate::ImageStorage;
use image_access::Storage;
use qcow2_metadata::{Header, HostCluster, L1Table, L2Table, MetadataError, RefBlock, RefTable};
use std::alloc::Global;

impl<S: Storage> ImageStorage<S> {
    // Loads the L2 table in a cluster.
    pub(crate) fn load_l2_table(
        &mut self,
        alloc: Global,
        header: &Header,
        cluster: HostCluster,
    ) -> Result<L2Table, MetadataError>
        requires { HasPlace header.now.fields.cluster_bits cluster }
        ensures table { IfOk result (λ table. table ≡ l2_table header.now.fields (Some cluster) table.bytes false) }
        ensures bytes { (S.view (storage_of self.old)).is_honest → IfOk result (λ table. table.bytes
            ≡ bytes_at (S.view (storage_of self.old)).contents (cluster * cluster_size header.now.fields) (cluster_size header.now.fields)) }
        ensures whole { IfOk result IsL2Table }
        ensures err { IfErr result IsOfStorageOrMemory }
        ensures same { ContentsStay (S.view (storage_of self.old)) (S.view (storage_of self.new)) }
        ensures calls { QuietCalls (S.view (storage_of self.old)) (S.view (storage_of self.new)) (storage_result result) }
        ensures rest { self.new ≡ record self.old { storage = storage_of self.new } }
    {
        L2Table::load(alloc, &mut self.storage, header, cluster)
    }

    // Loads the refblock in a cluster.
    pub(crate) fn load_refblock(
        &mut self,
        alloc: Global,
        header: &Header,
        cluster: HostCluster,
    ) -> Result<RefBlock, MetadataError>
        requires { HasPlace header.now.fields.cluster_bits cluster }
        ensures block { IfOk result (λ block. block ≡ ref_block header.now.fields (Some cluster) block.bytes false) }
        ensures bytes { (S.view (storage_of self.old)).is_honest → IfOk result (λ block. block.bytes
            ≡ bytes_at (S.view (storage_of self.old)).contents (cluster * cluster_size header.now.fields) (cluster_size header.now.fields)) }
        ensures whole { IfOk result IsRefBlock }
        ensures err { IfErr result IsOfStorageOrMemory }
        ensures same { ContentsStay (S.view (storage_of self.old)) (S.view (storage_of self.new)) }
        ensures calls { QuietCalls (S.view (storage_of self.old)) (S.view (storage_of self.new)) (storage_result result) }
        ensures rest { self.new ≡ record self.old { storage = storage_of self.new } }
    {
        RefBlock::load(alloc, &mut self.storage, header, cluster)
    }

    // Loads a reftable with this many entries from the start of a cluster on.
    pub(crate) fn load_reftable(
        &mut self,
        alloc: Global,
        header: &Header,
        cluster: HostCluster,
        entries: usize,
    ) -> Result<RefTable, MetadataError>
        ensures table { IfOk result (λ t. t ≡ entry_table header.now.fields (Some cluster) t.bytes) }
        ensures length { IfOk result (λ t. length t.bytes ≡ 8 * entries) }
        ensures is_table { IfOk result IsRefTable }
        ensures of_image { (S.view (storage_of self.old)).is_honest
            → NamesRefTable header.now.fields (cluster * cluster_size header.now.fields) entries
            → IfOk result (IsRefTableOf header.now.fields (byte_at (S.view (storage_of self.old)).contents)) }
        ensures limit { PassesLimit 1048576 header.now.fields.cluster_bits (8 * entries) cluster entries
            → result ≡ Err MetadataError.Limit }
        ensures err { IfErr result (IsReasonNotToLoad
            (PassesLimit 1048576 header.now.fields.cluster_bits (8 * entries) cluster entries)
            ((S.view (storage_of self.old)).is_honest
            → SomeUnread ReftableEntryReads (bytes_at (S.view (storage_of self.old)).contents
            (cluster * cluster_size header.now.fields) (8 * entries)))) }
        ensures same { ContentsStay (S.view (storage_of self.old)) (S.view (storage_of self.new)) }
        ensures calls { QuietCalls (S.view (storage_of self.old)) (S.view (storage_of self.new)) (storage_result result) }
        ensures rest { self.new ≡ record self.old { storage = storage_of self.new } }
    {
        RefTable::load(alloc, &mut self.storage, header, cluster, entries)
    }

    /// Loads the header, for reading or for writing. Refused 19 (metadata) for an unreadable header, then 13 (limit), then 4 (unaligned table) for
    /// a table that is not aligned. May be refused 14 (memory) or 15 (storage) during the work.
    pub fn load_header(&mut self, alloc: Global, writable: bool) -> Result<Header, MetadataError>
        ensures ok { (S.view (storage_of self.old)).is_honest
            → IfOk result (λ h. IsHeaderIn h (S.view (storage_of self.old)).contents) }
        ensures aligned { IfOk result (λ h. HasAlignedTables h.fields writable) }
        ensures refused { (S.view (storage_of self.old)).is_honest
            → IfErr result (IsReasonToRefuse (header_of (byte_at (S.view (storage_of self.old)).contents))
            (byte_at (S.view (storage_of self.old)).contents) writable) }
        ensures reads { OnlyReads (S.view (storage_of self.old)) (S.view (storage_of self.new)) result }
        ensures rest { self.new ≡ record self.old { storage = storage_of self.new } }
    {
        Header::load(alloc, &mut self.storage, writable)
    }

    /// Loads an L1 table with this many entries from the start of a cluster on. Without entries nothing is read. Refused 13 (limit) for more than
    /// 4,194,304 entries or an offset past 64 bits, and 19 (metadata) for a reserved bit in an entry. May be refused 14 (memory) or 15 (storage)
    /// during the work.
    pub fn load_l1_table(
        &mut self,
        alloc: Global,
        header: &Header,
        cluster: HostCluster,
        entries: usize,
    ) -> Result<L1Table, MetadataError>
        ensures table { IfOk result (λ t. t ≡ entry_table header.now.fields (Some cluster) t.bytes) }
        ensures whole { IfOk result (λ t. (length t.bytes ≡ 8 * entries) × IsL1Table t) }
        ensures of_image { (S.view (storage_of self.old)).is_honest
            → NamesL1Table header.now.fields (cluster * cluster_size header.now.fields) entries
            → IfOk result (IsL1TableOf header.now.fields (byte_at (S.view (storage_of self.old)).contents)) }
        ensures limit { PassesLimit 4194304 header.now.fields.cluster_bits 0 cluster entries
            → result ≡ Err MetadataError.Limit }
        ensures err { IfErr result (IsReasonNotToLoad
            (PassesLimit 4194304 header.now.fields.cluster_bits 0 cluster entries)
            ((S.view (storage_of self.old)).is_honest
            → SomeUnread L1EntryReads (bytes_at (S.view (storage_of self.old)).contents
            (cluster * cluster_size header.now.fields) (8 * entries)))) }
        ensures same { ContentsStay (S.view (storage_of self.old)) (S.view (storage_of self.new)) }
        ensures calls { QuietCalls (S.view (storage_of self.old)) (S.view (storage_of self.new)) (storage_result result) }
        ensures rest { self.new ≡ record self.old { storage = storage_of self.new } }
    {
        L1Table::load(alloc, &mut self.storage, header, cluster, entries)
    }
}
