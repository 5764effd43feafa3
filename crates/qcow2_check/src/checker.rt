//! The report of an image.

ghost use Rattle.std.specs.Prelude.{◌≡◌, ◌^◌, ◌↔◌, [], IfOk, IfErr, OnOk};
ghost use Rattle.qcow2_metadata.specs.Bytes.{byte_at};
ghost use Rattle.qcow2_metadata.specs.Header.{header, IsInRange, IsWithinLimits, ReftableFits};
ghost use Rattle.qcow2_metadata.specs.Consistent.{IsConsistent};
ghost use Rattle.qcow2_metadata.specs.MetadataError.{OnlyReads};
ghost use Rattle.qcow2_check.specs.Tallies.{tally_in};
ghost use Rattle.qcow2_check.specs.Counted.{counted_in};
ghost use Rattle.qcow2_check.specs.Lines.{lines, is_breached, numbered};
ghost use Rattle.qcow2_check.specs.Report.{ArePassed, TablesRead, breach_lines, leak_lines, IsReasonNotToCheck, IsReasonNotToCount};

use crate::header::{names_of_header, names_of_reftable};
use crate::kept::Counts;
use crate::l1::names_of_l1_table;
use crate::leaks::Leaks;
use crate::lines::{add_breaches, add_header_lines, add_unaligned};
use crate::names::Names;
use crate::offsets::{Offsets, offsets_of_l1_table, offsets_of_reftable};
use crate::report::Breach;
use crate::tally::Tally;
use crate::told::Choice;
use image_access::Storage;
use qcow2_metadata::{HeaderFields, MetadataError};
use std::alloc::{AllocError, Global};

/// What a check found.
#[derive(Drop)]
pub struct Report {
    /// Each breach, in the order of `Breach` and then by rising number. There is none exactly if the image is consistent.
    pub breaches: Vec<Breach>,
    /// Each cluster with a higher refcount than references, by rising number.
    pub leaks: Leaks,
}

/// What one walk over an image finds.
#[derive(Drop)]
struct Findings {
    names: Names,
    counts: Counts,
    offsets: Offsets,
}

/// The references, copied marks and refcounts of all clusters. The more bytes of refblocks are kept, the longer the array of references may be from
/// the start.
fn tallies<S: Storage>(
    alloc: Global,
    storage: &mut S,
    header: &HeaderFields,
) -> Result<Findings, MetadataError>
    requires in_range { IsInRange header.now }
    requires within_limits { IsWithinLimits header.now }
    ensures tallies { (S.view storage.old).is_honest
        → IfOk result (λ f. ArePassed header.now (byte_at (S.view storage.old).contents)
        (counted_in f.names.clusters f.counts) (tally_in f.offsets.l2_tables.clusters)
        (tally_in f.offsets.refblocks.clusters) (tally_in f.offsets.data.clusters)) }
    ensures tables { (S.view storage.old).is_honest → OnOk result (TablesRead header.now (byte_at (S.view storage.old).contents)) }
    ensures fits { OnOk result (ReftableFits header.now) }
    ensures refused { (S.view storage.old).is_honest → IfErr result (IsReasonNotToCount header.now (byte_at (S.view storage.old).contents)) }
    ensures reading { OnlyReads (S.view storage.old) (S.view storage.new) result }
{
    let l1 = header.load_l1_entries(alloc, storage)?;
    let reftable = header.load_reftable_entries(alloc, storage)?;
    let mut offsets = Offsets::new(alloc);
    offsets_of_l1_table(&mut offsets.l2_tables, header, &l1)?;
    offsets_of_reftable(&mut offsets.refblocks, header, &reftable)?;
    let size: usize = 1 << header.cluster_bits;
    let mut buf = vec![in alloc; 0; size]?;
    let counts = Counts::load(alloc, header, storage, &reftable, buf.as_mut_slice())?;
    let mut names = Names::new(alloc, counts.room());
    names_of_header(&mut names, header)?;
    names_of_reftable(&mut names, header, &reftable)?;
    names_of_l1_table(
        alloc,
        &mut names,
        &mut offsets.data,
        header,
        storage,
        &l1,
        buf.as_mut_slice(),
    )?;
    Ok(Findings {
        names,
        counts,
        offsets,
    })
}

/// The clusters with a breach.
fn breached(alloc: Global, names: &Names, counts: &Counts) -> Result<Vec<(u64, Tally)>, AllocError>
    ensures { IfOk result (λ told. told.items
        ≡ lines (2 ^ 64) is_breached numbered (counted_in names.now.clusters counts.now)) }
{
    let breached = names.clusters.chosen(alloc, Choice::Breached(counts))?;
    Ok(breached)
}

/// Checks the image on a storage, by its bytes alone. The report has each breach, in the order of `Breach` and then by rising number,
/// and each leaked cluster: one with a higher refcount than references. There is no breach exactly if the image is consistent.
/// Refused `Format`, 19 (metadata), for an unreadable header, L1 table or reftable, `Limit`, 13 (limit), for one that is too long
/// or ends past 64 bits, `Memory`, 14 (memory), and `Storage`, as the storage refuses.
pub fn check<S: Storage>(alloc: Global, storage: &mut S) -> Result<Report, MetadataError>
    ensures breaches { (S.view storage.old).is_honest → IfOk result (λ r. r.breaches.items
        ≡ breach_lines (header (byte_at (S.view storage.old).contents)) (byte_at (S.view storage.old).contents)) }
    ensures consistent { (S.view storage.old).is_honest
        → IfOk result (λ r. (r.breaches.items ≡ []) ↔ IsConsistent (byte_at (S.view storage.old).contents)) }
    ensures leaks { (S.view storage.old).is_honest → IfOk result (λ r. r.leaks
        ≡ leak_lines (header (byte_at (S.view storage.old).contents)) (byte_at (S.view storage.old).contents)) }
    ensures refused { (S.view storage.old).is_honest
        → IfErr result (IsReasonNotToCheck (header (byte_at (S.view storage.old).contents)) (byte_at (S.view storage.old).contents)) }
    ensures reading { OnlyReads (S.view storage.old) (S.view storage.new) result }
{
    let header = HeaderFields::load(alloc, storage)?;
    let findings = tallies(alloc, storage, &header)?;
    let told = breached(alloc, &findings.names, &findings.counts)?;
    let mut breaches = Vec::new(alloc);
    add_header_lines(&mut breaches, &header)?;
    add_unaligned(alloc, &mut breaches, &header, &findings.offsets)?;
    add_breaches(&mut breaches, &told)?;
    let Findings { names, counts, .. } = findings;
    let leaks = Leaks::new(names, counts);
    Ok(Report { breaches, leaks })
}
