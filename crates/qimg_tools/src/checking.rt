//! The subcommand `check`.
ghost use Rattle.std.specs.Prelude.{◌≡◌, ◌≤◌, IfErr, IfOk, OnOk};
ghost use Rattle.image_access.specs.Moments.{ContentsStay};
ghost use Rattle.qcow2_metadata.specs.Bytes.{byte_at};
ghost use Rattle.qcow2_metadata.specs.Header.{IsInRange, IsWithinLimits, header};
ghost use Rattle.std.specs.Io.KnownBytes.{Appends};
ghost use Rattle.program_parts.specs.Reports.{text_of_report};
ghost use Rattle.qimg_tools.specs.Statuses.{status_of, IsCovered, IsOfWork, IsReasonForNoStatus, IsStatusOf, IsStatusOfLines, IsReported};
ghost use Rattle.qimg_tools.specs.declared.words.Form.TheVariants.{Text};

use crate::failures::{Failure, unless_unprinted};
use crate::json::print_text;
use crate::touched::{Ranges, Touched, touched_by};
use crate::uncovered::{BROKEN, check_partly, failed, is_covered};
use crate::words::Form;
use image_access::Storage;
use program_parts::print_report;
use qcow2_image::ImageError;
use qcow2_metadata::HeaderFields;
use qcow2_session::{Breach, Kind, Leak, Leaks, Report, check as report_of};
use std::alloc::Global;
use std::io;
use std::io::Write;

/// The exit status of a consistent image with leaked clusters.
const LEAKING: u8 = 3;

/// Prints the report of an image, which is only read, and returns the exit status: 0 if it is consistent without leaked
/// clusters, 3 with some, and 2 if it isn't consistent. For an image with snapshots, bitmaps or a data file it is 2 if there is an
/// error in the other parts, and otherwise 0, and the parts that are not covered are named. Refused 19 (metadata) and 13 (limit) for an
/// unreadable header, L1 table or reftable, and 14 (memory), 15 (storage) or `Unprinted` during the work.
pub fn check<S: Storage, W: Write>(
    alloc: Global,
    storage: &mut S,
    file: &str,
    form: Form,
    output: &mut W,
) -> Result<u8, Failure>
    ensures bound { IfOk result (λ status. status ≤ 3) }
    ensures status { (S.view storage.old).is_honest → IfOk result (IsStatusOf (byte_at (S.view storage.old).contents)) }
    ensures lines { (S.view storage.old).is_honest → IsCovered (header (byte_at (S.view storage.old).contents))
        → IfOk result (IsStatusOfLines (byte_at (S.view storage.old).contents)) }
    ensures cause { (S.view storage.old).is_honest → IfErr result (IsReasonForNoStatus (byte_at (S.view storage.old).contents)) }
    ensures printed { (S.view storage.old).is_honest → IsCovered (header (byte_at (S.view storage.old).contents)) → form ≡ Text
        → OnOk result (IsReported (byte_at (S.view storage.old).contents) (W.contents output.old)
        (W.contents output.new)) }
    ensures reading { ContentsStay (S.view storage.old) (S.view storage.new) }
{
    let header = match HeaderFields::load(alloc, storage) {
        Ok(header) => header,
        Err(cause) => return Err(Failure::Refused(ImageError::from(cause))),
    };
    let report = match report_of(alloc, storage) {
        Ok(report) => report,
        Err(e) => return Err(Failure::Refused(ImageError::from(e))),
    };
    if !is_covered(&header) {
        return check_partly(
            alloc,
            storage,
            &header,
            &report.breaches,
            file,
            form,
            output,
        );
    }
    print_in(alloc, storage, &header, &report, file, form, output)?;
    Ok(status_of(&report))
}

fn status_of(report: &Report) -> u8
    ensures { result ≡ status_of report.now.breaches.items report.now.leaks }
{
    if !report.breaches.is_empty() {
        BROKEN
    } else if !report.leaks.is_empty() {
        LEAKING
    } else {
        0
    }
}

/// Prints the JSON members that every report of a check has.
pub fn begin_object<W: Write>(output: &mut W, file: &str, breaches: usize) -> io::Result<()> {
    write!(output, "{{\n    \"filename\": ")?;
    print_text(output, file)?;
    writeln!(output, ",\n    \"format\": \"qcow2\",")?;
    writeln!(output, "    \"check-errors\": 0,")?;
    writeln!(output, "    \"corruptions\": {breaches},")
}

// Prints a report in a form.
fn print_in<S: Storage, W: Write>(
    alloc: Global,
    storage: &mut S,
    header: &HeaderFields,
    report: &Report,
    file: &str,
    form: Form,
    output: &mut W,
) -> Result<(), Failure>
    requires in_range { IsInRange header.now }
    requires within_limits { IsWithinLimits header.now }
    ensures printed { form ≡ Text → OnOk result (Appends (W.contents output.old) (W.contents output.new)
        (text_of_report report.now.breaches.items report.now.leaks)) }
    ensures fails { IfErr result IsOfWork }
    ensures reading { ContentsStay (S.view storage.old) (S.view storage.new) }
{
    match form {
        Form::Text => unless_unprinted(print_report(output, report)),
        Form::Json => print_object(alloc, storage, header, report, file, output),
    }
}

// Prints a report as JSON, with the ranges of the disk that its breaches touch.
fn print_object<S: Storage, W: Write>(
    alloc: Global,
    storage: &mut S,
    header: &HeaderFields,
    report: &Report,
    file: &str,
    output: &mut W,
) -> Result<(), Failure>
    requires in_range { IsInRange header.now }
    requires within_limits { IsWithinLimits header.now }
    ensures fails { IfErr result IsOfWork }
    ensures reading { ContentsStay (S.view storage.old) (S.view storage.new) }
{
    let touched = match touched_by(alloc, storage, header, &report.breaches) {
        Ok(touched) => touched,
        Err(e) => return Err(failed(&e)),
    };
    unless_unprinted(print_members(output, file, report, &touched))
}

fn print_members<W: Write>(
    output: &mut W,
    file: &str,
    report: &Report,
    touched: &Touched,
) -> io::Result<()> {
    let breaches = report.breaches.len();
    let leaks = report.leaks.len();
    begin_object(output, file, breaches)?;
    writeln!(output, "    \"leaks\": {leaks},")?;
    print_breaches(output, &report.breaches, touched)?;
    print_leaks(output, &report.leaks)?;
    writeln!(output, "}}")
}

/// Prints the member of an object that names breaches, each with its numbers and the ranges of the disk that it touches.
pub fn print_breaches<W: Write>(
    output: &mut W,
    breaches: &[Breach],
    touched: &Touched,
) -> io::Result<()> {
    write!(output, "    \"breaches\": [")?;
    let mut between = "\n";
    for breach in breaches {
        write!(output, "{between}        {{ ")?;
        print_breach(output, breach)?;
        print_ranges(output, touched.of(breach))?;
        write!(output, " }}")?;
        between = ",\n";
    }
    writeln!(output, "{}],", end_of_list(breaches.is_empty()))
}

// Prints the members with ranges of the disk.
fn print_ranges<W: Write>(output: &mut W, ranges: Option<&Ranges>) -> io::Result<()> {
    let Some(ranges) = ranges else {
        return write!(output, ", \"guest-ranges\": []");
    };
    write!(output, ", \"guest-ranges\": [")?;
    let mut between = "";
    for range in &ranges.first {
        let start = range.start;
        let length = range.length;
        write!(
            output,
            "{between}{{ \"start\": {start}, \"length\": {length} }}"
        )?;
        between = ", ";
    }
    write!(output, "]")?;
    match ranges.has_more {
        true => write!(output, ", \"more-guest-ranges\": true"),
        false => Ok(()),
    }
}

fn print_leaks<W: Write>(output: &mut W, leaks: &Leaks) -> io::Result<()> {
    write!(output, "    \"leaked-clusters\": [")?;
    let mut between = "\n";
    for leak in leaks.iter() {
        write!(output, "{between}        {{ ")?;
        let Leak {
            cluster,
            count,
            named,
        } = leak;
        print_counted(output, "leak", cluster, count, named)?;
        write!(output, " }}")?;
        between = ",\n";
    }
    writeln!(output, "{}]", end_of_list(leaks.is_empty()))
}

// The text before the bracket that closes a list.
fn end_of_list(is_empty: bool) -> &'static str {
    if is_empty { "" } else { "\n    " }
}

// Prints a breach, with the words of the text report.
fn print_breach<W: Write>(output: &mut W, breach: &Breach) -> io::Result<()> {
    match *breach {
        Breach::Snapshots { count } => {
            write!(output, "\"kind\": \"snapshots\", \"count\": {count}")
        }
        Breach::External => write!(output, "\"kind\": \"external\""),
        Breach::Unaligned { kind, offset } => {
            let table = table_word(kind);
            write!(
                output,
                "\"kind\": \"unaligned\", \"table\": \"{table}\", \"offset\": {offset}"
            )
        }
        Breach::Under {
            cluster,
            count,
            named,
        } => print_counted(output, "under", cluster, count, named),
        Breach::Shared { cluster, named } => write!(
            output,
            "\"kind\": \"shared\", \"cluster\": {cluster}, \"named\": {named}"
        ),
        Breach::Copied {
            cluster,
            count,
            named,
        } => print_counted(output, "copied", cluster, count, named),
    }
}

// Prints a cluster, with its refcount and its references.
fn print_counted<W: Write>(
    output: &mut W,
    kind: &str,
    cluster: u64,
    count: u64,
    named: u64,
) -> io::Result<()> {
    write!(
        output,
        "\"kind\": \"{kind}\", \"cluster\": {cluster}, \"count\": {count}, \"named\": {named}"
    )
}

fn table_word(kind: Kind) -> &'static str {
    match kind {
        Kind::L1 => "l1",
        Kind::Reftable => "reftable",
        Kind::L2 => "l2",
        Kind::Refblock => "refblock",
        Kind::Data => "data",
    }
}
