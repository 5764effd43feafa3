//! Unaligned offsets.

ghost use Rattle.std.specs.Prelude.{ℕ, ◌≡◌, ◌+◌, ◌*◌, ◌/◌, ◌<◌, ◌≤◌, ◌^◌, OnOk, length};
ghost use Rattle.qcow2_metadata.specs.Bytes.{byte_at};
ghost use Rattle.qcow2_metadata.specs.Header.{cluster_size, entries_per_cluster};
ghost use Rattle.qcow2_metadata.specs.L2Mapping.{host_of};
ghost use Rattle.qcow2_check.specs.Tallies.{tally_in, no_tally, TalliesGrow};
ghost use Rattle.qcow2_check.specs.Offsets.{off_cluster, off_cluster_if, blocks_off, tables_off, data_off};

use crate::entries::has_external_data;
use crate::names::Names;
use qcow2_metadata::{HeaderFields, L2Mapping, block_offset, entry_at, host_offset};
use std::alloc::{AllocError, Global};

/// Unaligned offsets, by what lies there.
#[derive(Drop)]
pub(crate) struct Offsets {
    pub(crate) l2_tables: Names,
    pub(crate) refblocks: Names,
    pub(crate) data: Names,
}

/// Counts an offset this many times, if it is not aligned.
fn add_offset(
    offsets: &mut Names,
    header: &HeaderFields,
    place: u64,
    times: u64,
) -> Result<(), AllocError>
    requires bits { header.now.cluster_bits ≤ 21 }
    requires few { times ≤ 2 ^ 22 }
    requires room { offsets.old.total < 2 ^ 61 }
    ensures grows { OnOk result (TalliesGrow offsets.old.clusters offsets.new.clusters
        (λ o. times * off_cluster header.now o place) (λ _. 0) (λ _. 0)) }
    ensures total { OnOk result (offsets.new.total ≤ offsets.old.total + times) }
{
    if place % (1 << header.cluster_bits) == 0 {
        return Ok(());
    }
    offsets.add_times(place, times, false, false)
}

/// Counts the unaligned offsets of refblocks.
pub(crate) fn offsets_of_reftable(
    offsets: &mut Names,
    header: &HeaderFields,
    reftable: &[u8],
) -> Result<(), AllocError>
    requires bits { header.now.cluster_bits ≤ 21 }
    requires few { length reftable.now ≤ 2 ^ 23 }
    requires room { offsets.old.total < 2 ^ 57 }
    ensures grows { OnOk result (TalliesGrow offsets.old.clusters offsets.new.clusters
        (blocks_off header.now reftable.now (length reftable.now / 8)) (λ _. 0) (λ _. 0)) }
{
    for k in 0..reftable.len() / 8 {
        let entry = entry_at(reftable, k);
        add_offset(offsets, header, block_offset(entry), 1)?;
    }
    Ok(())
}

/// Counts the unaligned offsets of L2 tables.
pub(crate) fn offsets_of_l1_table(
    offsets: &mut Names,
    header: &HeaderFields,
    l1: &[u8],
) -> Result<(), AllocError>
    requires bits { header.now.cluster_bits ≤ 21 }
    requires few { length l1.now ≤ 2 ^ 25 }
    requires room { offsets.old.total < 2 ^ 57 }
    ensures grows { OnOk result (TalliesGrow offsets.old.clusters offsets.new.clusters
        (tables_off header.now l1.now (length l1.now / 8)) (λ _. 0) (λ _. 0)) }
{
    for i in 0..l1.len() / 8 {
        let entry = entry_at(l1, i);
        add_offset(offsets, header, host_offset(entry), 1)?;
    }
    Ok(())
}

/// Counts an unaligned offset of data, or of a host cluster that a zero entry keeps, this many times.
fn offset_of_cover(
    offsets: &mut Names,
    header: &HeaderFields,
    cover: &L2Mapping,
    times: u64,
) -> Result<(), AllocError>
    requires bits { header.now.cluster_bits ≤ 21 }
    requires few { times ≤ 2 ^ 22 }
    requires room { offsets.old.total < 2 ^ 61 }
    ensures grows { OnOk result (TalliesGrow offsets.old.clusters offsets.new.clusters
        (λ o. times * off_cluster_if header.now o (host_of cover.now)) (λ _. 0) (λ _. 0)) }
    ensures total { OnOk result (offsets.new.total ≤ offsets.old.total + times) }
{
    match cover.host() {
        Some(host) => add_offset(offsets, header, host.value(), times),
        None => Ok(()),
    }
}

/// Counts the unaligned offsets in the entries of an L2 table, this many times.
pub(crate) fn offsets_of_l2_table(
    offsets: &mut Names,
    header: &HeaderFields,
    table: &[u8],
    times: u64,
) -> Result<(), AllocError>
    requires low { 9 ≤ header.now.cluster_bits }
    requires bits { header.now.cluster_bits ≤ 21 }
    requires whole { length table.now ≡ cluster_size header.now }
    requires few { times ≤ 2 ^ 22 }
    requires room { offsets.old.total < 2 ^ 60 }
    ensures grows { OnOk result (TalliesGrow offsets.old.clusters offsets.new.clusters
        (λ o. times * data_off header.now (byte_at table.now) 0 (entries_per_cluster header.now) o) (λ _. 0) (λ _. 0)) }
    ensures total { OnOk result (offsets.new.total ≤ offsets.old.total + times * 2 ^ 33) }
{
    let external = has_external_data(header);
    for j in 0..table.len() / 8 {
        let entry = entry_at(table, j);
        let cover = L2Mapping::of_entry(entry, header.cluster_bits, header.version == 3, external);
        offset_of_cover(offsets, header, &cover, times)?;
    }
    Ok(())
}

impl Offsets {
    pub(crate) fn new(alloc: Global) -> Offsets
        ensures l2_tables { (q : ℕ) → tally_in result.l2_tables.clusters q ≡ no_tally }
        ensures refblocks { (q : ℕ) → tally_in result.refblocks.clusters q ≡ no_tally }
        ensures of_data { (q : ℕ) → tally_in result.data.clusters q ≡ no_tally }
        ensures totals { (result.l2_tables.total ≡ 0) × (result.refblocks.total ≡ 0) × (result.data.total ≡ 0) }
    {
        Offsets {
            l2_tables: Names::new(alloc, 0),
            refblocks: Names::new(alloc, 0),
            data: Names::new(alloc, 0),
        }
    }
}
