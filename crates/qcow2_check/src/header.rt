//! References by the header and the reftable.

ghost use Rattle.std.specs.Prelude.{ℕ, ◌≡◌, ◌+◌, ◌*◌, ◌/◌, ◌<◌, ◌≤◌, ◌^◌, OnOk, length, nat_le, nat_lt};
ghost use Rattle.qcow2_metadata.specs.Header.{cluster_size};
ghost use Rattle.qcow2_metadata.specs.Named.{named_by_header, table_in};
ghost use Rattle.qcow2_check.specs.Tallies.{TalliesGrow};
ghost use Rattle.qcow2_check.specs.Counted.{blocks_among};

use crate::names::Names;
use qcow2_metadata::{HeaderFields, block_offset, entry_at};
use std::alloc::AllocError;

/// Counts the references of the header.
pub(crate) fn names_of_header(names: &mut Names, header: &HeaderFields) -> Result<(), AllocError>
    requires low { 9 ≤ header.now.cluster_bits }
    requires bits { header.now.cluster_bits ≤ 21 }
    requires few_entries { header.now.l1_entries ≤ 2 ^ 22 }
    requires few_clusters { header.now.reftable_clusters ≤ 2 ^ 20 }
    requires room { names.old.total < 2 ^ 57 }
    ensures grows { OnOk result (TalliesGrow names.old.clusters names.new.clusters (named_by_header header.now)
        (named_by_header header.now) (λ _. 0)) }
    ensures total { OnOk result (names.new.total ≤ names.old.total + 2 ^ 34) }
{
    let size: u64 = 1 << header.cluster_bits;
    names.add(0, true, false)?;
    names.add_tables(
        header.l1_offset / size,
        (8 * header.l1_entries as u64 + size - 1) / size,
    )?;
    names.add_tables(
        header.reftable_offset / size,
        (header.reftable_clusters as u64 * size + size - 1) / size,
    )?;
    Ok(())
}

/// Counts the reference to a table at an offset, if there is one.
fn names_of_table(names: &mut Names, header: &HeaderFields, place: u64) -> Result<(), AllocError>
    requires bits { header.now.cluster_bits ≤ 21 }
    requires room { names.old.total < 2 ^ 58 }
    ensures grows { OnOk result (TalliesGrow names.old.clusters names.new.clusters (λ q. table_in header.now q place)
        (λ q. table_in header.now q place) (λ _. 0)) }
    ensures total { OnOk result (names.new.total ≤ names.old.total + 1) }
{
    if place == 0 {
        return Ok(());
    }
    names.add(place / (1 << header.cluster_bits), true, false)
}

/// Counts the references of the reftable.
pub(crate) fn names_of_reftable(
    names: &mut Names,
    header: &HeaderFields,
    reftable: &[u8],
) -> Result<(), AllocError>
    requires bits { header.now.cluster_bits ≤ 21 }
    requires few { length reftable.now ≤ 2 ^ 23 }
    requires room { names.old.total < 2 ^ 57 }
    ensures grows { OnOk result (TalliesGrow names.old.clusters names.new.clusters
        (blocks_among header.now reftable.now (length reftable.now / 8)) (blocks_among header.now reftable.now (length reftable.now / 8)) (λ _. 0)) }
    ensures total { OnOk result (names.new.total ≤ names.old.total + 2 ^ 20) }
{
    for k in 0..reftable.len() / 8 {
        names_of_table(names, header, block_offset(entry_at(reftable, k)))?;
    }
    Ok(())
}
