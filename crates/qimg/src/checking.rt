//! Printing the report of an image.
ghost use Rattle.std.specs.Prelude.{◌≡◌, ◌≤◌, []};
ghost use Rattle.std.specs.Io.KnownBytes.{Appends};
ghost use Rattle.image_access.specs.Moments.{ContentsStay};
ghost use Rattle.qcow2_metadata.specs.Bytes.{byte_at};
ghost use Rattle.program_parts.specs.Reports.{text_of_report, IsFoundConsistent};

use crate::program::{REFUSED, end, refuse};
use image_access::Storage;
use program_parts::print_report;
use qcow2_image::ImageError;
use qcow2_session::{Report, check};
use std::alloc::Global;
use std::io::Write;

/// Prints the report of the image on a storage, which is only read, and returns the exit status: 0 if it is consistent.
pub fn report<S: Storage, W: Write>(alloc: Global, storage: &mut S, output: &mut W) -> u8
    ensures bound { result ≤ 1 }
    ensures consistent { (S.view storage.old).is_honest → result ≡ 0
        → IsFoundConsistent (byte_at (S.view storage.old).contents) (W.contents output.old) (W.contents output.new) }
    ensures reading { ContentsStay (S.view storage.old) (S.view storage.new) }
{
    let report = match check(alloc, storage) {
        Ok(report) => report,
        Err(e) => return refuse(output, &ImageError::from(e)),
    };
    tell(output, &report)
}

// Prints a report, and returns the exit status.
fn tell<W: Write>(output: &mut W, report: &Report) -> u8
    ensures bound { result ≤ 1 }
    ensures consistent { result ≡ 0 → (report.now.breaches.items ≡ [])
        × Appends (W.contents output.old) (W.contents output.new)
        (text_of_report report.now.breaches.items report.now.leaks) }
{
    let printed = print_report(output, report);
    let status = end(printed, output);
    match report.breaches.as_slice() {
        [] => status,
        _ => REFUSED,
    }
}
