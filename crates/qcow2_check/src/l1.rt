//! References by the L1 table and its L2 tables.

ghost use Rattle.std.specs.Prelude.{ℕ, ◌≡◌, ◌+◌, ◌*◌, ◌/◌, ◌<◌, ◌≤◌, ◌^◌, OnOk, IfOk, IfErr, length, sum_by, IsSorted};
ghost use Rattle.std.specs.Ordering.{nat_cmp};
ghost use Rattle.qcow2_metadata.specs.Bytes.{byte_at, sum_below};
ghost use Rattle.qcow2_metadata.specs.Header.{cluster_size};
ghost use Rattle.qcow2_metadata.specs.Entries.{l1_entry, host_offset as place_of};
ghost use Rattle.qcow2_metadata.specs.Named.{table_in};
ghost use Rattle.qcow2_metadata.specs.MetadataError.{OnlyReads};
ghost use Rattle.qcow2_metadata.specs.TableBytes.{entry_at as entry_of, IsClusterBits, IsOfStorageOrMemory};
ghost use Rattle.qcow2_check.specs.Tallies.{TalliesGrow};
ghost use Rattle.qcow2_check.specs.Offsets.{data_off_below};
ghost use Rattle.qcow2_check.specs.Marks.{named_below, tables_below, marked_below, mark_of_entry, tables_among, marks_among};

use crate::l2::names_of_l2_tables;
use crate::names::Names;
use image_access::Storage;
use qcow2_metadata::{HeaderFields, MetadataError, entry_at, host_offset, is_copied};
use std::alloc::{AllocError, Global};

/// Counts the reference to an L1 entry's L2 table, and its copied mark.
fn names_of_l1_entry(names: &mut Names, header: &HeaderFields, entry: u64) -> Result<(), AllocError>
    requires bits { header.now.cluster_bits ≤ 21 }
    requires room { names.old.total < 2 ^ 61 }
    ensures grows { OnOk result (TalliesGrow names.old.clusters names.new.clusters
        (λ q. table_in header.now q (place_of entry)) (λ q. table_in header.now q (place_of entry)) (mark_of_entry header.now entry)) }
    ensures total { OnOk result (names.new.total ≤ names.old.total + 1) }
{
    let place = host_offset(entry);
    if place == 0 {
        return Ok(());
    }
    names.add(place / (1 << header.cluster_bits), true, is_copied(entry))
}

/// Counts the references of the L1 table, and its copied marks.
fn names_of_l1_entries(
    names: &mut Names,
    header: &HeaderFields,
    l1: &[u8],
) -> Result<(), AllocError>
    requires bits { header.now.cluster_bits ≤ 21 }
    requires few { length l1.now ≤ 2 ^ 25 }
    requires room { names.old.total < 2 ^ 59 }
    ensures grows { OnOk result (TalliesGrow names.old.clusters names.new.clusters (tables_among header.now l1.now (length l1.now / 8))
        (tables_among header.now l1.now (length l1.now / 8)) (marks_among header.now l1.now (length l1.now / 8))) }
    ensures total { OnOk result (names.new.total ≤ names.old.total + 2 ^ 22) }
{
    for i in 0..l1.len() / 8 {
        let entry = entry_at(l1, i);
        names_of_l1_entry(names, header, entry)?;
    }
    Ok(())
}

/// The offsets of the L2 tables in rising order, each as often as L1 entries refer to it, and 0 for each empty entry.
fn table_places(alloc: Global, l1: &[u8]) -> Result<Vec<u64>, AllocError>
    ensures long { IfOk result (λ places. length places.items ≡ length l1.now / 8) }
    ensures rising { IfOk result (λ places. IsSorted nat_cmp places.items) }
    ensures sums { IfOk result (λ places. (f : ℕ → ℕ)
        → sum_by f places.items ≡ sum_below (length l1.now / 8) (λ i. f (place_of (entry_of l1.now i)))) }
{
    let mut places = Vec::new(alloc);
    for i in 0..l1.len() / 8 {
        let entry = entry_at(l1, i);
        places.push(host_offset(entry))?;
    }
    places.sort_unstable();
    Ok(places)
}

/// Counts the references of the L1 table and the L2 tables. The buffer has one cluster.
pub(crate) fn names_of_l1_table<S: Storage>(
    alloc: Global,
    names: &mut Names,
    offsets: &mut Names,
    header: &HeaderFields,
    storage: &mut S,
    l1: &[u8],
    buf: &mut [u8],
) -> Result<(), MetadataError>
    requires bits { IsClusterBits header.now.cluster_bits }
    requires whole { length buf.old ≡ cluster_size header.now }
    requires few { length l1.now ≤ 2 ^ 25 }
    requires room { (names.old.total < 2 ^ 58) × (offsets.old.total < 2 ^ 58) }
    ensures grows { (S.view storage.old).is_honest
        → ((i : ℕ) → entry_of l1.now i ≡ l1_entry header.now (byte_at (S.view storage.old).contents) i)
        → OnOk result (TalliesGrow names.old.clusters names.new.clusters
        (named_below header.now (byte_at (S.view storage.old).contents) (length l1.now / 8))
        (tables_below header.now (byte_at (S.view storage.old).contents) (length l1.now / 8))
        (marked_below header.now (byte_at (S.view storage.old).contents) (length l1.now / 8))) }
    ensures offsets { (S.view storage.old).is_honest
        → ((i : ℕ) → entry_of l1.now i ≡ l1_entry header.now (byte_at (S.view storage.old).contents) i)
        → OnOk result (TalliesGrow offsets.old.clusters offsets.new.clusters
        (data_off_below header.now (byte_at (S.view storage.old).contents) (length l1.now / 8)) (λ _. 0) (λ _. 0)) }
    ensures causes { IfErr result IsOfStorageOrMemory }
    ensures reading { OnlyReads (S.view storage.old) (S.view storage.new) result }
{
    names_of_l1_entries(names, header, l1)?;
    let places = table_places(alloc, l1)?;
    names_of_l2_tables(names, offsets, header, storage, &places, buf)?;
    Ok(())
}
