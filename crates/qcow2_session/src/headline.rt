//! The headline: running commands on an image that is opened from the bytes of a storage.
ghost use Rattle.std.specs.Prelude.{◌≡◌, IfOk, None, Some, false, option_map, true};
ghost use Rattle.qcow2_metadata.specs.Bytes.{byte_at};
ghost use Rattle.qcow2_metadata.specs.Consistent.{IsConsistent};
ghost use Rattle.qcow2_metadata.specs.Header.{header};
ghost use Rattle.qcow2_image.specs.BehindHeader.{LiesBehindHeader, NamesTablesBehind};
ghost use Rattle.qcow2_image.specs.CountedOpening.{OpeningCounts};
ghost use Rattle.qcow2_image.specs.Growing.{SameFormat};
ghost use Rattle.qcow2_image.specs.Image.{is_failed, is_writable, number_of};
ghost use Rattle.qcow2_image.specs.ImageInvariant.{IsHonestBacking};
ghost use Rattle.qcow2_image.specs.Opened.{IsKeptSince, IsRefusedAlone, LeavesStorage, NeedsMissing, Opens};
ghost use Rattle.qcow2_image.specs.Opened.{storage_after};
ghost use Rattle.qcow2_image.specs.Readable.{OpensRightly};
ghost use Rattle.qcow2_image.specs.Unwritten.{ContentsStayThroughout};
ghost use Rattle.qcow2_session.specs.Opening.{CountsSinceBefore, EachMomentOpensAgain, Headline, IsLeftAlone, ReportsOfOpened, missing_beside};

use crate::session::{Command, Reply, run};
use image_access::{Storage, WrappedFormat};
use qcow2_image::{ImageError, Qcow2, Qcow2OpenBuilder};
use std::alloc::Global;

/// Opens an image for writing, over the backing disk if one is given, and answers each command as `run` does. The image must need no file but the
/// backing disk that is given. Modified tables stay in memory until a `flush`. If opening is refused, the storage is returned. Images that are open
/// together must have different numbers. Without the command `InvalidateCache`, a consistent image opens again wherever this was stopped: all
/// contents that the storage had since are consistent too.
/// Refused for the header 19 (metadata), 13 (limit), 4 (unaligned table), in this order; then 12 (dependency) for an image that needs
/// a missing file, which stays the same; then for its tables 13 and 19. May be refused 14 (memory) or
/// 15 (storage) during the work.
pub fn open_and_run<S: Storage, F: WrappedFormat<S>>(
    alloc: Global,
    storage: S,
    below: Option<F>,
    number: u64,
    commands: &[Command],
) -> Result<(Qcow2<S, F>, Vec<Reply>), (S, ImageError)>
    ensures number { IfOk result (λ (image, replies). number_of image ≡ number) }
    ensures another { (S.view storage).is_honest → NeedsMissing (missing_beside below) (S.view storage).contents
        → IsLeftAlone (S.view storage) S.view result }
    ensures faults { CountsSinceBefore S.view F.backing (S.view storage) below result }
    ensures reports { ReportsOfOpened S.view F.backing (S.view storage) below number commands.now result }
    ensures headline { Headline S.view F.backing (S.view storage) below commands.now result }
    ensures again { EachMomentOpensAgain S.view F.backing (S.view storage) below commands.now result }
{
    let mut image = match open_over(alloc, storage, below, number) {
        Ok(image) => image,
        Err(refused) => return Err(refused),
    };
    let replies = run(alloc, &mut image, commands);
    Ok((image, replies))
}

// Opens an image for writing over this backing disk, or alone without one.
fn open_over<S: Storage, F: WrappedFormat<S>>(
    alloc: Global,
    storage: S,
    below: Option<F>,
    number: u64,
) -> Result<Qcow2<S, F>, (S, ImageError)>
    ensures opens { IfOk result (λ image. IsHonestBacking S.view F.backing below → Opens S.view F.backing (S.view storage) image) }
    ensures since { (S.view storage).is_honest → IsConsistent (byte_at (S.view storage).contents)
        → IsKeptSince (S.view storage) (S.view (storage_after result)) }
    ensures format { (S.view storage).is_honest
        → IfOk result (λ image. SameFormat (header (byte_at (S.view storage).contents)) image.file.header.fields) }
    ensures ok { IfOk result (λ image. (number_of image ≡ number) × (is_failed image ≡ false) × (is_writable image ≡ true)) }
    ensures faults { OpeningCounts S.view (S.view storage).faults result }
    ensures header_cluster { IfOk result (λ image. NamesTablesBehind image.file.header.fields → LiesBehindHeader image) }
    ensures over { IfOk result (λ image. (image.backing ≡ below) × (image.data_file ≡ None)) }
    ensures storage { LeavesStorage S.view true (S.view storage) result }
    ensures another { (S.view storage).is_honest → NeedsMissing (missing_beside below) (S.view storage).contents
        → IsRefusedAlone result × ContentsStayThroughout (S.view storage) (S.view (storage_after result)) }
    ensures cause { OpensRightly (S.view storage) true (missing_beside below) result }
{
    over_disk(Qcow2OpenBuilder::new(storage, number).write(true), below).open(alloc)
}

// The builder with this backing disk, if there is one.
fn over_disk<S: Storage, F: WrappedFormat<S>>(
    builder: Qcow2OpenBuilder<S, F>,
    below: Option<F>,
) -> Qcow2OpenBuilder<S, F>
    requires { builder.backing ≡ None }
    ensures { result ≡ record builder { backing = option_map Some below } }
{
    match below {
        None => builder,
        Some(disk) => builder.backing(Some(disk)),
    }
}
