//! Vetting: whether to accept an untrusted image.
ghost use Rattle.std.specs.Prelude.{◌≡◌, IfErr, IfOk};
ghost use Rattle.image_access.specs.Moments.{ContentsStay};
ghost use Rattle.qcow2_metadata.specs.Bytes.{byte_at};
ghost use Rattle.program_parts.specs.Vetting.{IsReasonNotToVet, IsVetted, passes};

use image_access::Storage;
use qcow2_image::ImageError;
use qcow2_metadata::HeaderFields;
use qcow2_session::{Report, check};
use std::alloc::Global;

/// What to know of an image before accepting it.
#[derive(Drop)]
pub struct Vetted {
    /// The breaches of consistency and the leaked clusters. Snapshots and a data file are breaches.
    pub report: Report,
    /// Whether the header names a backing file.
    pub has_backing_file: bool,
    /// The size of the disk, in bytes.
    pub size: u64,
    /// Whether the size is more than allowed.
    pub is_too_large: bool,
}

impl Vetted {
    /// Whether the image may be accepted.
    pub fn passes(&self) -> bool
        ensures { result ≡ passes self.now }
    {
        self.report.breaches.is_empty() && !self.has_backing_file && !self.is_too_large
    }
}

/// Decides whether an image with a disk of at most `max_size` bytes may be accepted. It may be if it is consistent (so it needs no key, no data
/// file and no repair, and has no snapshots) and names no backing file. Only the bytes of the image are read, and no name in
/// them is followed. Refused 19 (metadata) and 13 (limit) for an unreadable header, L1 table or reftable, and 14 (memory) or 15 (storage) during
/// the work.
pub fn vet<S: Storage>(alloc: Global, storage: &mut S, max_size: u64) -> Result<Vetted, ImageError>
    ensures vetted { (S.view storage.old).is_honest
        → IfOk result (IsVetted (byte_at (S.view storage.old).contents) max_size) }
    ensures cause { (S.view storage.old).is_honest → IfErr result (IsReasonNotToVet (byte_at (S.view storage.old).contents)) }
    ensures reading { ContentsStay (S.view storage.old) (S.view storage.new) }
{
    let fields = HeaderFields::load(alloc, storage)?;
    let report = check(alloc, storage)?;
    Ok(Vetted {
        report,
        has_backing_file: fields.backing_offset != 0,
        size: fields.size,
        is_too_large: fields.size > max_size,
    })
}
