//! The lines of a report.

ghost use Rattle.std.specs.Prelude.{ℕ, ◌≡◌, ◌++◌, ◌^◌, ◌≤◌, OnOk};
ghost use Rattle.qcow2_check.specs.Tallies.{tally_in};
ghost use Rattle.qcow2_check.specs.Lines.{lines, lines_of, is_under, is_shared, is_miscopied, is_breached, numbered};
ghost use Rattle.qcow2_check.specs.Lines.{under_line, shared_line, copied_line, header_lines};
ghost use Rattle.qcow2_check.specs.Lines.{is_named, unaligned_line, offset_lines, table_offset_lines, unaligned_lines};
ghost use Rattle.qcow2_check.specs.Report.{cluster_lines};

use crate::names::Names;
use crate::offsets::Offsets;
use crate::report::{Breach, Kind};
use crate::tally::Tally;
use crate::told::Choice;
use qcow2_metadata::HeaderFields;
use std::alloc::{AllocError, Global};

/// Adds a line for each cluster with more references than its refcount.
fn push_under(breaches: &mut Vec<Breach>, told: &[(u64, Tally)]) -> Result<(), AllocError>
    ensures lines { OnOk result (breaches.new.items ≡ breaches.old.items ++ lines_of is_under under_line told.now) }
{
    for (cluster, tally) in told {
        if tally.named > tally.count {
            breaches.push(Breach::Under {
                cluster: *cluster,
                count: tally.count,
                named: tally.named,
            })?;
        }
    }
    Ok(())
}

/// Adds a line for each cluster of a table with more than one reference.
fn push_shared(breaches: &mut Vec<Breach>, told: &[(u64, Tally)]) -> Result<(), AllocError>
    ensures lines { OnOk result (breaches.new.items ≡ breaches.old.items ++ lines_of is_shared shared_line told.now) }
{
    for (cluster, tally) in told {
        if tally.for_tables != 0 && tally.named > 1 {
            breaches.push(Breach::Shared {
                cluster: *cluster,
                named: tally.named,
            })?;
        }
    }
    Ok(())
}

/// Adds a line for each cluster that is marked copied without having one reference and refcount 1.
fn push_copied(breaches: &mut Vec<Breach>, told: &[(u64, Tally)]) -> Result<(), AllocError>
    ensures lines { OnOk result (breaches.new.items
        ≡ breaches.old.items ++ lines_of is_miscopied copied_line told.now) }
{
    for (cluster, tally) in told {
        if tally.marked != 0 && !(tally.named == 1 && tally.count == 1) {
            breaches.push(Breach::Copied {
                cluster: *cluster,
                count: tally.count,
                named: tally.named,
            })?;
        }
    }
    Ok(())
}

/// Adds a line for the header's snapshots, and one for its data file.
pub(crate) fn add_header_lines(
    breaches: &mut Vec<Breach>,
    header: &HeaderFields,
) -> Result<(), AllocError>
    ensures { OnOk result (breaches.new.items ≡ breaches.old.items ++ header_lines header.now) }
{
    if header.snapshots != 0 {
        let count = header.snapshots;
        breaches.push(Breach::Snapshots { count })?;
    }
    if header.incompatible != 0 {
        breaches.push(Breach::External)?;
    }
    Ok(())
}

/// Adds a line for a table whose offset is not aligned.
fn add_table_offset(
    breaches: &mut Vec<Breach>,
    header: &HeaderFields,
    kind: Kind,
    offset: u64,
) -> Result<(), AllocError>
    requires bits { header.now.cluster_bits ≤ 21 }
    ensures { OnOk result (breaches.new.items ≡ breaches.old.items ++ table_offset_lines header.now kind offset) }
{
    if offset % (1 << header.cluster_bits) != 0 {
        breaches.push(Breach::Unaligned { kind, offset })?;
    }
    Ok(())
}

/// Adds a line for each of these offsets.
fn push_offsets(
    breaches: &mut Vec<Breach>,
    kind: Kind,
    named: &[(u64, Tally)],
) -> Result<(), AllocError>
    ensures lines { OnOk result (breaches.new.items
        ≡ breaches.old.items ++ lines_of is_named (unaligned_line kind) named.now) }
{
    for (offset, tally) in named {
        if tally.named != 0 {
            breaches.push(Breach::Unaligned {
                kind,
                offset: *offset,
            })?;
        }
    }
    Ok(())
}

fn add_offset_lines(
    alloc: Global,
    breaches: &mut Vec<Breach>,
    kind: Kind,
    offsets: &Names,
) -> Result<(), AllocError>
    ensures { OnOk result (breaches.new.items
        ≡ breaches.old.items ++ offset_lines kind (tally_in offsets.now.clusters)) }
{
    let named = offsets.clusters.chosen(alloc, Choice::Named)?;
    push_offsets(breaches, kind, &named)?;
    Ok(())
}

/// Adds the lines about unaligned offsets.
pub(crate) fn add_unaligned(
    alloc: Global,
    breaches: &mut Vec<Breach>,
    header: &HeaderFields,
    offsets: &Offsets,
) -> Result<(), AllocError>
    requires bits { header.now.cluster_bits ≤ 21 }
    ensures { OnOk result (breaches.new.items ≡ breaches.old.items ++ unaligned_lines header.now
        (tally_in offsets.now.l2_tables.clusters) (tally_in offsets.now.refblocks.clusters)
        (tally_in offsets.now.data.clusters)) }
{
    add_table_offset(breaches, header, Kind::L1, header.l1_offset)?;
    add_table_offset(breaches, header, Kind::Reftable, header.reftable_offset)?;
    add_offset_lines(alloc, breaches, Kind::L2, &offsets.l2_tables)?;
    add_offset_lines(alloc, breaches, Kind::Refblock, &offsets.refblocks)?;
    add_offset_lines(alloc, breaches, Kind::Data, &offsets.data)?;
    Ok(())
}

/// Adds the lines about refcounts.
pub(crate) fn add_breaches(
    breaches: &mut Vec<Breach>,
    told: &[(u64, Tally)],
) -> Result<(), AllocError>
    ensures { (t : ℕ → Tally) → told.now ≡ lines (2 ^ 64) is_breached numbered t
        → OnOk result (breaches.new.items ≡ breaches.old.items ++ cluster_lines t) }
{
    push_under(breaches, told)?;
    push_shared(breaches, told)?;
    push_copied(breaches, told)?;
    Ok(())
}
