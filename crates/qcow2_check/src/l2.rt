//! References by the L2 tables, each of which is read once.

ghost use Rattle.std.specs.Prelude.{ℕ, ◌≡◌, ◌+◌, ◌*◌, ◌/◌, ◌<◌, ◌≤◌, ◌^◌, OnOk, IfErr, length};
ghost use Rattle.qcow2_metadata.specs.Bytes.{byte_at};
ghost use Rattle.qcow2_metadata.specs.Header.{cluster_size};
ghost use Rattle.qcow2_metadata.specs.Named.{named_by_l2_table};
ghost use Rattle.qcow2_metadata.specs.MetadataError.{OnlyReads};
ghost use Rattle.qcow2_metadata.specs.TableBytes.{IsClusterBits, IsOfStorageOrMemory};
ghost use Rattle.qcow2_check.specs.Tallies.{TalliesGrow};
ghost use Rattle.qcow2_check.specs.Offsets.{data_off_at, data_off_by_tables};
ghost use Rattle.qcow2_check.specs.Marks.{marked_by_l2_table, named_by_tables, marked_by_tables};

use crate::entries::names_of_l2_table;
use crate::names::Names;
use crate::offsets::offsets_of_l2_table;
use crate::source::read_at;
use image_access::Storage;
use qcow2_metadata::{HeaderFields, MetadataError};

/// Counts the references of the L2 table at an offset, this many times; none for 0. The buffer has one cluster.
fn names_of_table_at<S: Storage>(
    names: &mut Names,
    offsets: &mut Names,
    header: &HeaderFields,
    storage: &mut S,
    place: u64,
    times: u64,
    buf: &mut [u8],
) -> Result<(), MetadataError>
    requires bits { IsClusterBits header.now.cluster_bits }
    requires whole { length buf.old ≡ cluster_size header.now }
    requires few { times ≤ 2 ^ 22 }
    requires room { (names.old.total < 2 ^ 60) × (offsets.old.total < 2 ^ 60) }
    ensures grows { (S.view storage.old).is_honest → OnOk result (TalliesGrow names.old.clusters names.new.clusters
        (λ q. times * named_by_l2_table header.now (byte_at (S.view storage.old).contents) q place) (λ _. 0)
        (λ q. times * marked_by_l2_table header.now (byte_at (S.view storage.old).contents) q place)) }
    ensures offsets { (S.view storage.old).is_honest → OnOk result (TalliesGrow offsets.old.clusters offsets.new.clusters
        (λ o. times * data_off_at header.now (byte_at (S.view storage.old).contents) o place) (λ _. 0) (λ _. 0)) }
    ensures totals { OnOk result ((names.new.total ≤ names.old.total + times * 2 ^ 33)
        × (offsets.new.total ≤ offsets.old.total + times * 2 ^ 33)) }
    ensures causes { IfErr result IsOfStorageOrMemory }
    ensures reading { OnlyReads (S.view storage.old) (S.view storage.new) result }
{
    if place == 0 {
        return Ok(());
    }
    read_at(storage, place, buf)?;
    names_of_l2_table(names, header, buf, times)?;
    offsets_of_l2_table(offsets, header, buf, times)?;
    Ok(())
}

/// Counts the references of the L2 tables at these offsets, each as often as its offset is listed. A table is read once for equal
/// offsets that follow each other. The buffer has one cluster.
pub(crate) fn names_of_l2_tables<S: Storage>(
    names: &mut Names,
    offsets: &mut Names,
    header: &HeaderFields,
    storage: &mut S,
    places: &[u64],
    buf: &mut [u8],
) -> Result<(), MetadataError>
    requires bits { IsClusterBits header.now.cluster_bits }
    requires whole { length buf.old ≡ cluster_size header.now }
    requires few { length places.now ≤ 2 ^ 22 }
    requires room { (names.old.total < 2 ^ 59) × (offsets.old.total < 2 ^ 59) }
    ensures grows { (S.view storage.old).is_honest → OnOk result (TalliesGrow names.old.clusters names.new.clusters
        (named_by_tables header.now (byte_at (S.view storage.old).contents) places.now) (λ _. 0)
        (marked_by_tables header.now (byte_at (S.view storage.old).contents) places.now)) }
    ensures offsets { (S.view storage.old).is_honest → OnOk result (TalliesGrow offsets.old.clusters offsets.new.clusters
        (data_off_by_tables header.now (byte_at (S.view storage.old).contents) places.now) (λ _. 0) (λ _. 0)) }
    ensures causes { IfErr result IsOfStorageOrMemory }
    ensures reading { OnlyReads (S.view storage.old) (S.view storage.new) result }
{
    let mut place = 0;
    let mut times = 0;
    for next in places {
        if *next == place {
            times += 1;
            continue;
        }
        names_of_table_at(names, offsets, header, storage, place, times, buf)?;
        place = *next;
        times = 1;
    }
    names_of_table_at(names, offsets, header, storage, place, times, buf)?;
    Ok(())
}
