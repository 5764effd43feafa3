//! Importing and exporting raw disks.
ghost use Rattle.std.specs.Prelude.{◌≡◌, ◌≤◌, length};
ghost use Rattle.image_access.specs.Moments.{ContentsStay, EachMomentSince};
ghost use Rattle.qcow2_metadata.specs.Bytes.{byte_at};
ghost use Rattle.qcow2_metadata.specs.Consistent.{IsConsistent};
ghost use Rattle.qcow2_image.specs.Opened.{NeedsAnother};
ghost use Rattle.qcow2_session.specs.Conversions.{IsLeft};
ghost use Rattle.program_parts.specs.Conversions.{IsImageOf, IsStopOfMaking, IsExport, KeepsDisk};
ghost use Rattle.qimg.specs.Conversions.{IsTold, imported_line, exported_line, clusters_asked, width_asked};

use crate::program::{end, print_usage, refuse};
use crate::words::Invocation;
use image_access::Storage;
use program_parts::{make_image, make_raw_disk};
use std::alloc::Global;
use std::io::Write;

/// Makes an image from a raw disk on the storage, with the given cluster size and refcount width, and returns the exit status and
/// the storage. Refused as `make_image` is.
pub fn import_raw<R: Storage, S: Storage, W: Write>(
    alloc: Global,
    raw: &mut R,
    storage: S,
    invocation: &Invocation<'_>,
    output: &mut W,
) -> (u8, S)
    ensures bound { result.0 ≤ 2 }
    ensures imported { result.0 ≡ 0
        → IsTold imported_line (W.contents output.old) (W.contents output.new)
        (λ n. (R.view raw.old).is_honest → n ≡ length (R.view raw.old).contents) }
    ensures image { (R.view raw.old).is_honest → (S.view storage).is_honest → result.0 ≡ 0
        → IsImageOf (S.view result.1) (R.view raw.old).contents (clusters_asked invocation.now)
        (width_asked invocation.now) }
    ensures stops { (R.view raw.old).is_honest → (S.view storage).is_honest
        → EachMomentSince (S.view storage) (S.view result.1)
        (λ c. IsStopOfMaking (length (R.view raw.old).contents) (byte_at c)) }
    ensures raw { IsLeft (R.view raw.old) (R.view raw.new) }
{
    let Invocation::Import {
        raw: _,
        file: _,
        cluster,
        width,
    } = *invocation
    else {
        return (print_usage(output), storage);
    };
    let (storage, imported) = make_image(alloc, raw, storage, cluster, width);
    let status = match imported {
        Ok(count) => end(writeln!(output, "imported {count}"), output),
        Err(e) => refuse(output, &e),
    };
    (status, storage)
}

/// Makes a raw disk from the image on the storage, which is only read, and returns the exit status and the storage. An image that needs
/// another file is refused 12 (dependency), and the raw disk stays unchanged. Otherwise refused as `make_raw_disk` is.
pub fn export_raw<S: Storage, R: Storage, W: Write>(
    alloc: Global,
    storage: S,
    raw: &mut R,
    output: &mut W,
) -> (u8, S)
    ensures bound { result.0 ≤ 1 }
    ensures exported { result.0 ≡ 0
        → IsTold exported_line (W.contents output.old) (W.contents output.new)
        (λ n. (R.view raw.old).is_honest → (S.view storage).is_honest → IsConsistent (byte_at (S.view storage).contents)
        → IsExport (S.view storage).contents n (R.view raw.new).contents) }
    ensures image { (S.view storage).is_honest → IsConsistent (byte_at (S.view storage).contents) → KeepsDisk (S.view storage) (S.view result.1) }
    ensures another { (S.view storage).is_honest → NeedsAnother (S.view storage).contents
        → ContentsStay (S.view storage) (S.view result.1) × (raw.new ≡ raw.old) }
{
    let (storage, exported) = make_raw_disk(alloc, storage, raw);
    let status = match exported {
        Ok(count) => end(writeln!(output, "exported {count}"), output),
        Err(e) => refuse(output, &e),
    };
    (status, storage)
}
