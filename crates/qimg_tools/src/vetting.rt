//! Whether to accept an untrusted image.
ghost use Rattle.std.specs.Prelude.{◌≡◌, ◌↔◌, IfErr, IfOk, IsTrue};
ghost use Rattle.image_access.specs.Moments.{ContentsStay};
ghost use Rattle.qcow2_metadata.specs.Bytes.{byte_at};
ghost use Rattle.program_parts.specs.Vetting.{passes};
ghost use Rattle.qimg_tools.specs.Vetted.{IsReasonForNoVerdict, IsVerdictOn};

use crate::failures::Failure;
use crate::json::print_text;
use crate::words::Form;
use image_access::Storage;
use program_parts::{Vetted, vet as vetted};
use qcow2_session::Breach;
use std::alloc::Global;
use std::io;
use std::io::Write;

/// The exit status of an image that may not be accepted.
const UNFIT: u8 = 2;

/// What is vetted: a file, and the greatest size of its disk.
#[derive(Clone, Copy)]
pub struct Candidate<'a> {
    /// The name, as the words give it.
    pub name: &'a str,
    /// The greatest size of the disk in bytes.
    pub max_size: u64,
}

/// Prints whether an image may be accepted, and if not, why, and returns the exit status: 0 if it may, otherwise 2. The image is
/// only read, and no name in it is followed. Refused 19 (metadata) and 13 (limit) for an unreadable header, L1 table or reftable, and 14 (memory),
/// 15 (storage) or `Unprinted` during the work.
pub fn vet<S: Storage, W: Write>(
    alloc: Global,
    storage: &mut S,
    file: &Candidate<'_>,
    form: Form,
    output: &mut W,
) -> Result<u8, Failure>
    ensures status { (S.view storage.old).is_honest
        → IfOk result (IsVerdictOn file.now.max_size (byte_at (S.view storage.old).contents)) }
    ensures cause { (S.view storage.old).is_honest
        → IfErr result (IsReasonForNoVerdict (byte_at (S.view storage.old).contents)) }
    ensures reading { ContentsStay (S.view storage.old) (S.view storage.new) }
{
    let found = match vetted(alloc, storage, file.max_size) {
        Ok(found) => found,
        Err(e) => return Err(Failure::Refused(e)),
    };
    match form {
        Form::Text => print_lines(output, file, &found)?,
        Form::Json => print_object(output, file, &found)?,
    }
    Ok(status_of(&found))
}

fn status_of(found: &Vetted) -> u8
    ensures passes { (result ≡ 0) ↔ IsTrue (passes found.now) }
    ensures fails { ¬ IsTrue (passes found.now) → result ≡ 2 }
{
    if found.passes() { 0 } else { UNFIT }
}

fn print_lines<W: Write>(output: &mut W, file: &Candidate<'_>, found: &Vetted) -> io::Result<()> {
    if found.has_backing_file {
        writeln!(
            output,
            "it names a backing file, whose bytes would be taken in with it"
        )?;
    }
    if found.is_too_large {
        let size = found.size;
        let max = file.max_size;
        writeln!(output, "its disk has {size} bytes, and {max} are allowed")?;
    }
    print_breaches(output, &found.report.breaches)?;
    if found.passes() {
        writeln!(output, "it may be taken in")
    } else {
        writeln!(output, "it may not be taken in")
    }
}

// Prints breaches. With a data file, most of them are about its clusters.
fn print_breaches<W: Write>(output: &mut W, breaches: &[Breach]) -> io::Result<()> {
    let has_snapshots = has_snapshots(breaches);
    if has_snapshots {
        writeln!(output, "it has snapshots, whose bytes aren't looked at")?;
    }
    if has_data_file(breaches) {
        return writeln!(
            output,
            "its data stand in another file, whose bytes would be taken in with it"
        );
    }
    let errors = breaches.len().saturating_sub(usize::from(has_snapshots));
    if errors > 0 {
        writeln!(
            output,
            "it isn't consistent: qimg-tools check names {errors} breaches"
        )?;
    }
    Ok(())
}

fn has_snapshots(breaches: &[Breach]) -> bool {
    breaches
        .iter()
        .any(|breach| matches!(*breach, Breach::Snapshots { count: _ }))
}

fn has_data_file(breaches: &[Breach]) -> bool {
    breaches.iter().any(|breach| *breach == Breach::External)
}

fn print_object<W: Write>(output: &mut W, file: &Candidate<'_>, found: &Vetted) -> io::Result<()> {
    let passes = found.passes();
    let size = found.size;
    let has_backing_file = found.has_backing_file;
    let is_too_large = found.is_too_large;
    let has_data_file = has_data_file(&found.report.breaches);
    let has_snapshots = has_snapshots(&found.report.breaches);
    let breaches = found.report.breaches.len();
    write!(output, "{{\n    \"filename\": ")?;
    print_text(output, file.name)?;
    writeln!(output, ",\n    \"passes\": {passes},")?;
    writeln!(output, "    \"virtual-size\": {size},")?;
    writeln!(output, "    \"too-large\": {is_too_large},")?;
    writeln!(output, "    \"backing-file\": {has_backing_file},")?;
    writeln!(output, "    \"data-file\": {has_data_file},")?;
    writeln!(output, "    \"snapshots\": {has_snapshots},")?;
    writeln!(output, "    \"corruptions\": {breaches}")?;
    writeln!(output, "}}")
}
