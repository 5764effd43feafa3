//! Checking images with parts that a report doesn't cover: snapshots, bitmaps, and an external data file.
ghost use Rattle.std.specs.Prelude.{◌↔◌, ◌≤◌, IfErr, IfOk, IsTrue};
ghost use Rattle.image_access.specs.Moments.{ContentsStay};
ghost use Rattle.qcow2_metadata.specs.Header.{IsInRange, IsWithinLimits};
ghost use Rattle.qimg_tools.specs.Statuses.{IsCovered, IsOfWork, IsStatusOfErrors};

use crate::checking::{begin_object, print_breaches};
use crate::failures::{Failure, unless_unprinted};
use crate::touched::{Touched, touched_by};
use crate::words::Form;
use image_access::Storage;
use program_parts::print_breaches as print_breach_lines;
use qcow2_image::ImageError;
use qcow2_metadata::{HeaderFields, MetadataError, entry_at};
use qcow2_session::Breach;
use std::alloc::{AllocError, Global};
use std::collections::BTreeMap;
use std::io;
use std::io::Write;

/// The exit status of an image that isn't consistent.
pub const BROKEN: u8 = 2;

// The offset bits of an L1 entry.
const TABLE_OFFSET: u64 = 0x00ff_ffff_ffff_fe00;

// The offset bits of a reftable entry.
const BLOCK_OFFSET: u64 = 0xffff_ffff_ffff_fe00;

/// Whether a report covers the whole image: it has no snapshots, no valid bitmaps, and no data file.
pub fn is_covered(header: &HeaderFields) -> bool
    ensures { IsTrue result ↔ IsCovered header.now }
{
    header.snapshots == 0 && header.incompatible == 0 && header.autoclear % 2 == 0
}

/// Prints the errors of an image that a report doesn't cover completely, and the parts that aren't covered, and returns the exit status: 2 if
/// there are errors, otherwise 0. Leaked clusters aren't reported. May be refused 14 (memory), 15 (storage) or `Unprinted` during the work.
pub fn check_partly<S: Storage, W: Write>(
    alloc: Global,
    storage: &mut S,
    header: &HeaderFields,
    breaches: &[Breach],
    file: &str,
    form: Form,
    output: &mut W,
) -> Result<u8, Failure>
    requires in_range { IsInRange header.now }
    requires within_limits { IsWithinLimits header.now }
    ensures status { IfOk result (IsStatusOfErrors breaches.now) }
    ensures fails { IfErr result IsOfWork }
    ensures reading { ContentsStay (S.view storage.old) (S.view storage.new) }
{
    let errors = match errors_of(alloc, storage, header, breaches) {
        Ok(errors) => errors,
        Err(e) => return Err(failed(&e)),
    };
    print_in(alloc, storage, header, &errors, file, form, output)?;
    Ok(status_of_errors(breaches, &errors))
}

// Prints errors, and what isn't covered, in a form.
fn print_in<S: Storage, W: Write>(
    alloc: Global,
    storage: &mut S,
    header: &HeaderFields,
    errors: &[Breach],
    file: &str,
    form: Form,
    output: &mut W,
) -> Result<(), Failure>
    requires in_range { IsInRange header.now }
    requires within_limits { IsWithinLimits header.now }
    ensures fails { IfErr result IsOfWork }
    ensures reading { ContentsStay (S.view storage.old) (S.view storage.new) }
{
    match form {
        Form::Text => unless_unprinted(print_lines(output, header, errors)),
        Form::Json => match touched_by(alloc, storage, header, errors) {
            Ok(touched) => unless_unprinted(print_object(output, file, header, errors, &touched)),
            Err(e) => Err(failed(&e)),
        },
    }
}

fn status_of_errors(breaches: &[Breach], errors: &[Breach]) -> u8
    ensures { IsStatusOfErrors breaches.now result }
{
    if breaches.is_empty() || errors.is_empty() {
        0
    } else {
        BROKEN
    }
}

/// Why tables can't be read that were read before: if they are unreadable now, the storage failed.
pub fn failed(cause: &MetadataError) -> Failure
    ensures { IsOfWork result }
{
    match cause {
        MetadataError::Memory => Failure::Refused(ImageError::Memory),
        _ => Failure::Refused(ImageError::Storage),
    }
}

// The breaches that are errors. With a data file these are only those about clusters of the image itself.
fn errors_of<S: Storage>(
    alloc: Global,
    storage: &mut S,
    header: &HeaderFields,
    breaches: &[Breach],
) -> Result<Vec<Breach>, MetadataError>
    requires in_range { IsInRange header.now }
    requires within_limits { IsWithinLimits header.now }
    ensures reading { ContentsStay (S.view storage.old) (S.view storage.new) }
    ensures honest { (S.view storage.old).is_honest → (S.view storage.new).is_honest }
{
    if header.incompatible == 0 {
        return Ok(chosen(alloc, breaches, None)?);
    }
    let named = named_by_tables(alloc, storage, header)?;
    Ok(chosen(alloc, breaches, Some(&named))?)
}

fn chosen(
    alloc: Global,
    breaches: &[Breach],
    named: Option<&BTreeMap<u64, u64>>,
) -> Result<Vec<Breach>, AllocError> {
    let mut errors = Vec::new(alloc);
    for breach in breaches {
        if is_error(breach, named) {
            errors.push(*breach)?;
        }
    }
    Ok(errors)
}

// Whether a breach is an error. With a data file, only references by tables count.
fn is_error(breach: &Breach, named: Option<&BTreeMap<u64, u64>>) -> bool {
    match (*breach, named) {
        (Breach::Snapshots { count: _ } | Breach::External, _) => false,
        (_, None) => true,
        (Breach::Unaligned { kind: _, offset: _ }, _) => true,
        (
            Breach::Under {
                cluster,
                count,
                named: _,
            },
            Some(named),
        ) => count < times(named, cluster),
        (Breach::Shared { cluster, named: _ }, Some(named)) => times(named, cluster) > 1,
        (
            Breach::Copied {
                cluster,
                count,
                named: _,
            },
            Some(named),
        ) => times(named, cluster) > 0 && count != 1,
    }
}

fn times(named: &BTreeMap<u64, u64>, cluster: u64) -> u64 {
    match named.get(&cluster) {
        Some(times) => *times,
        None => 0,
    }
}

// The references to each cluster by the header, the L1 table and the reftable.
fn named_by_tables<S: Storage>(
    alloc: Global,
    storage: &mut S,
    header: &HeaderFields,
) -> Result<BTreeMap<u64, u64>, MetadataError>
    requires in_range { IsInRange header.now }
    requires within_limits { IsWithinLimits header.now }
    ensures reading { ContentsStay (S.view storage.old) (S.view storage.new) }
    ensures honest { (S.view storage.old).is_honest → (S.view storage.new).is_honest }
{
    let l1 = header.load_l1_entries(alloc, storage)?;
    let reftable = header.load_reftable_entries(alloc, storage)?;
    let bits = header.cluster_bits;
    let mut named = BTreeMap::new(alloc);
    add(&mut named, 0)?;
    add_all(
        &mut named,
        header.l1_offset >> bits,
        clusters_of(l1.len(), bits),
    )?;
    add_all(
        &mut named,
        header.reftable_offset >> bits,
        clusters_of(reftable.len(), bits),
    )?;
    add_tables(&mut named, &l1, TABLE_OFFSET, bits)?;
    add_tables(&mut named, &reftable, BLOCK_OFFSET, bits)?;
    Ok(named)
}

// Counts the tables whose offsets are in these bits of a table's entries.
fn add_tables(
    named: &mut BTreeMap<u64, u64>,
    table: &[u8],
    mask: u64,
    bits: u32,
) -> Result<(), AllocError>
    requires { bits ≤ 21 }
{
    for index in 0..table.len() / 8 {
        add_table(named, entry_at(table, index) & mask, bits)?;
    }
    Ok(())
}

// The number of clusters that this many bytes need.
fn clusters_of(bytes: usize, bits: u32) -> u64
    requires { bits ≤ 21 }
{
    let size = 1u64 << bits;
    (bytes as u64).div_ceil(size)
}

// Counts a table at an offset, which is 0 for none.
fn add_table(named: &mut BTreeMap<u64, u64>, offset: u64, bits: u32) -> Result<(), AllocError>
    requires { bits ≤ 21 }
{
    if offset == 0 {
        return Ok(());
    }
    add(named, offset >> bits)
}

fn add_all(named: &mut BTreeMap<u64, u64>, first: u64, count: u64) -> Result<(), AllocError> {
    for index in 0..count {
        add(named, first.saturating_add(index))?;
    }
    Ok(())
}

fn add(named: &mut BTreeMap<u64, u64>, cluster: u64) -> Result<(), AllocError> {
    let times = named.entry(cluster)?.or_insert(0);
    *times = times.saturating_add(1);
    Ok(())
}

fn print_lines<W: Write>(
    output: &mut W,
    header: &HeaderFields,
    errors: &[Breach],
) -> io::Result<()> {
    let count = errors.len();
    let snapshots = header.snapshots;
    print_breach_lines(output, errors)?;
    if snapshots > 0 {
        writeln!(output, "not covered: snapshots {snapshots}")?;
    }
    if has_bitmaps(header) {
        writeln!(output, "not covered: bitmaps")?;
    }
    if header.incompatible != 0 {
        writeln!(output, "not covered: the data file")?;
    }
    if count == 0 {
        writeln!(output, "no errors, leaked clusters are not told")
    } else {
        writeln!(output, "broken, {count} breaches")
    }
}

fn has_bitmaps(header: &HeaderFields) -> bool {
    header.autoclear % 2 == 1
}

fn print_object<W: Write>(
    output: &mut W,
    file: &str,
    header: &HeaderFields,
    errors: &[Breach],
    touched: &Touched,
) -> io::Result<()> {
    let snapshots = header.snapshots;
    let has_bitmaps = has_bitmaps(header);
    let has_data_file = header.incompatible != 0;
    begin_object(output, file, errors.len())?;
    writeln!(output, "    \"not-covered\": {{")?;
    writeln!(output, "        \"snapshots\": {snapshots},")?;
    writeln!(output, "        \"bitmaps\": {has_bitmaps},")?;
    writeln!(output, "        \"data-file\": {has_data_file}")?;
    writeln!(output, "    }},")?;
    print_breaches(output, errors, touched)?;
    writeln!(output, "    \"leaked-clusters\": null")?;
    writeln!(output, "}}")
}
