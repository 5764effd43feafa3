//! References by entries of tables.

ghost use Rattle.std.specs.Prelude.{ℕ, ◌≡◌, ◌+◌, ◌-◌, ◌*◌, ◌/◌, ◌<◌, ◌≤◌, ◌^◌, OnOk, OnErr, length};
ghost use Rattle.qcow2_metadata.specs.Bytes.{byte_at};
ghost use Rattle.qcow2_metadata.specs.Header.{cluster_size, entries_per_cluster, has_data_file};
ghost use Rattle.qcow2_metadata.specs.L2Mapping.{IsInReach};
ghost use Rattle.qcow2_metadata.specs.Named.{named_by_cover};
ghost use Rattle.qcow2_check.specs.Tallies.{TalliesGrow};
ghost use Rattle.qcow2_check.specs.Marks.{marks_of_cover, named_by_compressed, named_by_entries, marked_by_entries};

use crate::names::Names;
use qcow2_metadata::{HeaderFields, L2Mapping, entry_at};
use std::alloc::AllocError;

/// Counts a reference, this many times, for each cluster that compressed data touch.
fn names_of_compressed(
    names: &mut Names,
    header: &HeaderFields,
    cover: &L2Mapping,
    times: u64,
) -> Result<(), AllocError>
    requires low { 9 ≤ header.now.cluster_bits }
    requires bits { header.now.cluster_bits ≤ 21 }
    requires near { IsInReach cover.now }
    requires few { times ≤ 2 ^ 22 }
    requires room { names.old.total < 2 ^ 61 }
    ensures grows { OnOk result (TalliesGrow names.old.clusters names.new.clusters
        (λ q. times * named_by_compressed header.now q cover.now) (λ _. 0) (λ _. 0)) }
    ensures total { OnOk result (names.new.total ≤ names.old.total + times * 2 ^ 15) }
{
    let size: u64 = 1 << header.cluster_bits;
    match *cover {
        L2Mapping::Compressed { host, sectors } => {
            let first = host.value();
            let end = (first / 512 + sectors) * 512;
            names.add_range(first / size, (end - 1) / size, times)
        }
        L2Mapping::Data { .. } | L2Mapping::Zero { .. } | L2Mapping::Uncovered => Ok(()),
    }
}

/// Counts the references of an L2 entry, this many times.
fn names_of_cover(
    names: &mut Names,
    header: &HeaderFields,
    cover: &L2Mapping,
    times: u64,
) -> Result<(), AllocError>
    requires low { 9 ≤ header.now.cluster_bits }
    requires bits { header.now.cluster_bits ≤ 21 }
    requires near { IsInReach cover.now }
    requires few { times ≤ 2 ^ 22 }
    requires room { names.old.total < 2 ^ 61 }
    ensures grows { OnOk result (TalliesGrow names.old.clusters names.new.clusters
        (λ q. times * named_by_cover header.now q cover.now) (λ _. 0) (λ q. times * marks_of_cover header.now q cover.now)) }
    ensures total { OnOk result (names.new.total ≤ names.old.total + times * 2 ^ 15) }
{
    let copied = cover.is_marked_copied();
    match cover.host() {
        Some(host) => {
            let cluster = host.value() / (1 << header.cluster_bits);
            names.add_times(cluster, times, false, copied)
        }
        None => names_of_compressed(names, header, cover, times),
    }
}

/// Whether the header has the bit of an external data file.
pub(crate) fn has_external_data(header: &HeaderFields) -> bool
    ensures { result ≡ has_data_file header.now }
{
    header.incompatible / 4 % 2 == 1
}

/// Counts the references of the entries of an L2 table, this many times.
pub(crate) fn names_of_l2_table(
    names: &mut Names,
    header: &HeaderFields,
    table: &[u8],
    times: u64,
) -> Result<(), AllocError>
    requires low { 9 ≤ header.now.cluster_bits }
    requires bits { header.now.cluster_bits ≤ 21 }
    requires whole { length table.now ≡ cluster_size header.now }
    requires few { times ≤ 2 ^ 22 }
    requires room { names.old.total < 2 ^ 60 }
    ensures grows { OnOk result (TalliesGrow names.old.clusters names.new.clusters
        (λ q. times * named_by_entries header.now (byte_at table.now) 0 (entries_per_cluster header.now) q) (λ _. 0)
        (λ q. times * marked_by_entries header.now (byte_at table.now) 0 (entries_per_cluster header.now) q)) }
    ensures total { OnOk result (names.new.total ≤ names.old.total + times * 2 ^ 33) }
{
    let external = has_external_data(header);
    for j in 0..table.len() / 8 {
        let entry = entry_at(table, j);
        let cover = L2Mapping::of_entry(entry, header.cluster_bits, header.version == 3, external);
        names_of_cover(names, header, &cover, times)?;
    }
    Ok(())
}
