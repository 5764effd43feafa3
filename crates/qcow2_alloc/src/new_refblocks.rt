//! The refblocks that a longer reftable needs, and the order in which both are written.
ghost use Rattle.std.specs.Prelude.{◌≡◌, ℕ, ◌+◌, ◌-◌, ◌*◌, ◌^◌, ◌<◌, ◌≤◌, length, true, Some, IsSome, IfSome, IfOk, IfErr};
ghost use Rattle.std.specs.Prelude.{IsTrue, OnOk, OnErr};
ghost use Rattle.qcow2_metadata.specs.EntryTable.{EntryTableView};
ghost use Rattle.qcow2_metadata.specs.Header.{cluster_size};
ghost use Rattle.qcow2_metadata.specs.L2Mapping.{IsHostCluster};
ghost use Rattle.qcow2_metadata.specs.RefBlock.{IsRefBlock};
ghost use Rattle.qcow2_metadata.specs.TableBytes.{HasPlace};
ghost use Rattle.qcow2_laws.specs.Caches.{AreClean, BlocksMayGo};
ghost use Rattle.qcow2_laws.specs.CrashInvariant.{Pending};
ghost use Rattle.qcow2_alloc.specs.Allocation.{run_at};
ghost use Rattle.qcow2_alloc.specs.GrownTables.{with_run};
ghost use Rattle.qcow2_alloc.specs.ImageError.{IsOfTablesIf};
ghost use Rattle.qcow2_alloc.specs.ImageFile.{AllocatorInvariant};
ghost use Rattle.qcow2_alloc.specs.ImageStorage.{is_changed_of};
ghost use Rattle.qcow2_alloc.specs.CacheSteps.{HeldStep};
ghost use Rattle.qcow2_alloc.specs.MetadataCaches.{order_of, l2_tables, refblocks, HavePlaces};
ghost use Rattle.qcow2_alloc.specs.Rooms.{room_length, placed_at, AreFree, CachesBlock, CachesBlocks, CountsRun, FetchesBlock, IsLonger};
ghost use Rattle.qcow2_alloc.specs.Rooms.{FillsTable, HasDropped, InternalNewBlocks, IsRoomFor, PlacesBlocks, WritesTable};
ghost use Rattle.qcow2_alloc.specs.TableCaches.{IsBlockOf};
ghost use Rattle.qcow2_alloc.specs.declared.allocation.Allocator.{Allocator as AllocatorView};
ghost use Rattle.qcow2_alloc.specs.Steps.{AllocatorFails, EntersRoom, Fails, NamesSoundly, PartStep, PointerStep, TableStep};

use crate::free_room::Room;
use crate::{Allocator, ImageError, ImageFile, WriteKind};
use image_access::Storage;
use qcow2_metadata::{Header, HostCluster, RefBlock, RefTable};
use std::alloc::Global;

// A refblock that counts those clusters of a run that lie in its range.
#[tactic(auto, using(crate::proofs::TableErrors::stored_of_tables))]
fn run_block(
    alloc: Global,
    header: &Header,
    cluster: HostCluster,
    begin: u64,
    first: u64,
    end: u64,
) -> Result<RefBlock, ImageError>
    requires place { HasPlace header.now.fields.cluster_bits cluster }
    requires near { begin < 2 ^ 63 }
    ensures cluster { IfOk result (λ block. block.cluster ≡ Some cluster) }
    ensures format { IfOk result (IsBlockOf header.now.fields) }
    ensures whole { IfOk result IsRefBlock }
    ensures modified { IfOk result (λ block. block.is_modified ≡ true) }
    ensures counts { IfOk result (λ block. CountsRun header.now.fields block begin first (end - first)) }
    ensures memory { IfErr result (λ e. e ≡ ImageError.Memory) }
    ensures cause { IfErr result (IsOfTablesIf ⊥) }
{
    let mut block = RefBlock::new_cleared(alloc, header)?;
    block.set_cluster(cluster);
    let low = first.max(begin);
    let high = end.min(begin + block.counts() as u64);
    'counting: for counted in low..high {
        block.increment((counted - begin) as usize);
    }
    Ok(block)
}

// Puts a new refblock into the cache, and records the change. It is written at the next flush.
#[tactic(auto)]
fn cache_new_block<S: Storage>(file: &mut ImageFile<S>, block: RefBlock) -> Result<(), ImageError>
    requires placed { IsSome block.cluster }
    requires elsewhere { IfSome block.cluster (λ at. 0 < at) }
    ensures step { (reftable : EntryTableView) → TableStep S.view reftable file.old reftable file.new }
    ensures fails { Fails S.view file.old.storage file.new.storage result (IsOfTablesIf ⊥) }
    ensures sound { (q : Pending) (allocator : AllocatorView) (old : ImageFile S) (first n at : ℕ)
        → InternalNewBlocks S.view q old allocator file.old first n → HavePlaces file.old.header.fields file.old.caches
        → block.cluster ≡ Some at → 0 < run_at first n at → HasPlace file.old.header.fields.cluster_bits at
        → IsBlockOf file.old.header.fields block → IsRefBlock block → block.is_modified ≡ true
        → CachesBlock S.view q old allocator file.new file.old first n at block.bytes result }
{
    file.caches.rb_insert(&mut file.storage, block)?;
    file.caches.record_change();
    Ok(())
}

// Drops the refblocks of a room from the cache, unwritten.
#[tactic(auto)]
fn drop_blocks<S: Storage>(file: &mut ImageFile<S>, room: Room)
    requires near { room.first + room_length room < 2 ^ 63 }
    ensures rest { file.new ≡ record file.old { caches = file.new.caches } }
    ensures step { HeldStep file.old.caches file.new.caches }
    ensures tables { file.new.caches.l2 ≡ file.old.caches.l2 }
    ensures clean { AreClean (refblocks file.old.caches) → AreClean (refblocks file.new.caches) }
    ensures sound { (q : Pending) (allocator : AllocatorView) → AllocatorInvariant S.view allocator q file.old
        → AreFree S.view q file.old room.first (room_length room)
        → HasDropped S.view q file.old allocator file.new room.first room.blocks }
{
    'dropping: for cluster in room.first..room.first + room.blocks {
        file.caches.rb_remove(HostCluster::new(cluster));
    }
}

// Writes a longer reftable to the clusters that are allocated for it.
#[tactic(auto, using(crate::proofs::TableErrors::storage_of_tables))]
pub(crate) fn place_table<S: Storage>(
    file: &mut ImageFile<S>,
    table: &mut RefTable,
    cluster: HostCluster,
) -> Result<(), ImageError>
    requires nameable { IsHostCluster table.old.cluster_bits cluster }
    requires elsewhere { 0 < cluster }
    ensures caches { file.new.caches ≡ file.old.caches }
    ensures step { PartStep S.view table.old.cluster_bits file.old file.new }
    ensures recorded { OnOk result (IsTrue (is_changed_of file.new.storage)) }
    ensures table { table.new ≡ placed_at table.old cluster }
    ensures sound { (p : Pending) (first n clusters : ℕ) (allocator : AllocatorView)
        → AllocatorInvariant S.view allocator (with_run p file.old.header.fields allocator.reftable first n) file.old
        → BlocksMayGo (order_of file.old.caches) (l2_tables file.old.caches) → first ≤ cluster
        → cluster + clusters ≤ first + n → table.old.cluster_bits ≡ file.old.header.fields.cluster_bits
        → length table.old.bytes ≡ clusters * cluster_size file.old.header.fields
        → WritesTable S.view (with_run p file.old.header.fields allocator.reftable first n) file.old allocator file.new
        cluster clusters table.old.bytes result }
    ensures fails { Fails S.view file.old.storage file.new.storage result (IsOfTablesIf ⊥) }
{
    table.set_cluster(cluster);
    file.storage.set_write_kind(WriteKind::Other);
    file.storage.write_reftable(table)?;
    Ok(())
}

#[tactic(auto)]
impl Allocator {
    // Brings the refblock of a range to the front of the cache, and loads it if it isn't cached.
    fn bring_to_front<S: Storage>(
        &self,
        file: &mut ImageFile<S>,
        range: u64,
    ) -> Result<(), ImageError>
        ensures step { TableStep S.view self.now.reftable file.old self.now.reftable file.new }
        ensures fails { AllocatorFails S.view file.old self.now.reftable file.new result }
        ensures sound { (q : Pending) (old : ImageFile S) (first n : ℕ)
            → InternalNewBlocks S.view q old self.now file.old first n
            → HavePlaces file.old.header.fields file.old.caches
            → FetchesBlock S.view q old self.now file.new file.old first n result }
    {
        let Some(offset) = self.reftable.get(range as usize) else {
            return Ok(());
        };
        let Some(cluster) = offset.checked_cluster(file.header.cluster_bits()) else {
            return Ok(());
        };
        file.caches.rb_get_or_insert(&mut file.storage, cluster)?;
        Ok(())
    }

    // Puts the new refblocks for the first clusters of a room into the cache, and sets their entries in a longer reftable. The
    // refblocks of the room come to the front of the cache in the order of their ranges.
    fn cache_blocks<S: Storage>(
        &self,
        file: &mut ImageFile<S>,
        table: &mut RefTable,
        room: Room,
    ) -> Result<(), ImageError>
        requires room { IsRoomFor file.old.header.fields self.now.reftable table.old room }
        ensures step { TableStep S.view self.now.reftable file.old self.now.reftable file.new }
        ensures fails { AllocatorFails S.view file.old self.now.reftable file.new result }
        ensures sound { (p : Pending) → AllocatorInvariant S.view self.now
            (with_run p file.old.header.fields self.now.reftable room.first (room_length room)) file.old
            → BlocksMayGo (order_of file.old.caches) (l2_tables file.old.caches)
            → IsLonger file.old.header.fields self.now.reftable table.old room.clusters
            → CachesBlocks S.view (with_run p file.old.header.fields self.now.reftable room.first
            (room_length room)) file.old self.now file.new self.now.reftable table.new room result }
        ensures table { FillsTable self.now.reftable table.old table.new }
    {
        let bits = file.header.rb_bits();
        let end = room.first + room.blocks + room.clusters;
        let mut at = room.first;
        'placing: for cluster in room.first..end {
            if self.opens_range(room.first, cluster, bits) {
                let range = cluster >> bits;
                let place = HostCluster::new(at);
                let block = run_block(
                    file.alloc,
                    &file.header,
                    place,
                    range << bits,
                    room.first,
                    end,
                )?;
                cache_new_block(file, block)?;
                table.enter_refblock(range as usize, place);
                at += 1;
            } else {
                self.bring_to_front(file, cluster >> bits)?;
            }
        }
        Ok(())
    }

    // Writes the new refblocks to the first clusters of a room, with all other refcounts, and sets their entries in a longer
    // reftable.
    fn place_blocks<S: Storage>(
        &self,
        file: &mut ImageFile<S>,
        table: &mut RefTable,
        room: Room,
    ) -> Result<(), ImageError>
        requires room { IsRoomFor file.old.header.fields self.now.reftable table.old room }
        ensures step { TableStep S.view self.now.reftable file.old self.now.reftable file.new }
        ensures fails { AllocatorFails S.view file.old self.now.reftable file.new result }
        ensures sound { (p : Pending) → AllocatorInvariant S.view self.now
            (with_run p file.old.header.fields self.now.reftable room.first (room_length room)) file.old
            → BlocksMayGo (order_of file.old.caches) (l2_tables file.old.caches)
            → IsLonger file.old.header.fields self.now.reftable table.old room.clusters
            → PlacesBlocks S.view (with_run p file.old.header.fields self.now.reftable room.first
            (room_length room)) file.old self.now file.new self.now.reftable table.new room result }
        ensures table { FillsTable self.now.reftable table.old table.new }
    {
        self.cache_blocks(file, table, room)?;
        file.caches.flush_rb(&mut file.storage)
    }

    // Writes the new refblocks with all other refcounts, the reftable, and last the header's pointer to it. The new refblocks
    // don't stay in the cache.
    pub(crate) fn write_reftable<S: Storage>(
        &mut self,
        file: &mut ImageFile<S>,
        table: RefTable,
        room: Room,
    ) -> Result<(), ImageError>
        requires room { IsRoomFor file.old.header.fields self.old.reftable table room }
        requires some { 0 < room.clusters }
        ensures step { PointerStep S.view self.old.reftable file.old self.new.reftable file.new }
        ensures fails { AllocatorFails S.view file.old self.new.reftable file.new result }
        ensures sound { (p : Pending) → AllocatorInvariant S.view self.old
            (with_run p file.old.header.fields self.old.reftable room.first (room_length room)) file.old
            → IsLonger file.old.header.fields self.old.reftable table room.clusters
            → NamesSoundly S.view (with_run p file.old.header.fields self.old.reftable room.first
            (room_length room)) p file.old self.new file.new result }
        ensures entered { OnOk result (EntersRoom self.old.reftable table self.new.reftable room file.new) }
        ensures kept { OnErr result (self.new.reftable ≡ self.old.reftable) }
        ensures rest { self.new ≡ record self.old { reftable = self.new.reftable } }
    {
        let mut table = table;
        file.caches.before_rb(&mut file.storage)?;
        let placed = self.place_blocks(file, &mut table, room);
        drop_blocks(file, room);
        placed?;
        place_table(file, &mut table, HostCluster::new(room.first + room.blocks))?;
        self.name_reftable(file, table)
    }
}
