//! The commands that read compressed ranges.
ghost use Rattle.qcow2_session.specs.CallSteps.{AnswersCommand, SpecialStep};
ghost use Rattle.std.specs.Prelude.{◌≡◌, ◌<◌, ◌⊎◌, [], List, Option, None, IfErr, IfOk, IfSome, MatchOption, Err};
ghost use Rattle.qcow2_alloc.specs.ImageFile.{known_in};
ghost use Rattle.qcow2_image.specs.Calls.{AnswersCall};
ghost use Rattle.qcow2_image.specs.HeldMappings.{IsCompressedInTables};
ghost use Rattle.qcow2_image.specs.MayFail.{IsCacheHeld, MayFailLooking, MayFailSpecial};
ghost use Rattle.qcow2_image.specs.LookupCauses.{MayFailTelling};
ghost use Rattle.qcow2_image.specs.Refusals.{unusable};
ghost use Rattle.qcow2_alloc.specs.declared.error.ImageError.TheVariants.{Compressed, NotCompressed};
ghost use Rattle.qcow2_image.specs.ImageInvariant.{abstract_of, Mappings};
ghost use Rattle.qcow2_image.specs.declared.prepared.Prepared.{Prepared};
ghost use Rattle.qcow2_session.specs.Commands.{IsOwnOffset, ReportsPlain, ReportsSpecial};
ghost use Rattle.qcow2_session.specs.declared.session.Command.TheVariants.{ReadvSpecial, TryReadvSpecial};
ghost use Rattle.qcow2_session.specs.declared.slots.Slots.{Slots};

use crate::session::{Reply, zeros};
use image_access::{Storage, WrappedFormat};
use qcow2_image::{ImageError, Qcow2};
use std::alloc::Global;

// Reads a compressed range. Today every read of at least one byte is refused.
pub(crate) fn readv_special<S: Storage, F: WrappedFormat<S>>(
    alloc: Global,
    image: &mut Qcow2<S, F>,
    offset: u64,
    length: u64,
) -> Reply
    ensures { (slots : Slots) → AnswersCommand S.view F.backing image.old image.new slots slots (ReadvSpecial offset length) result }
{
    match read_range(alloc, image, offset, length) {
        Ok(()) => Reply::Done,
        Err(refusal) => Reply::Refused(refusal),
    }
}

// Returns the offset of a range that isn't compressed.
pub(crate) fn try_readv_special<S: Storage, F: WrappedFormat<S>>(
    alloc: Global,
    image: &mut Qcow2<S, F>,
    offset: u64,
    length: u64,
) -> Reply
    ensures { (slots : Slots) → AnswersCommand S.view F.backing image.old image.new slots slots
        (TryReadvSpecial offset length) result }
{
    match try_range(alloc, image, offset, length) {
        Ok(plain) => Reply::NotCompressed(plain),
        Err(refusal) => Reply::Refused(refusal),
    }
}

fn read_range<S: Storage, F: WrappedFormat<S>>(
    alloc: Global,
    image: &mut Qcow2<S, F>,
    offset: u64,
    length: u64,
) -> Result<(), ImageError>
    ensures step { SpecialStep S.view F.backing image.old image.new result }
    ensures early { IfSome (unusable image.old) (λ e. (result ≡ Err e) × (image.new ≡ image.old)) }
    ensures late { unusable image.old ≡ None → IfErr result (λ e.
        (MayFailTelling image.old image.new offset 1 e
        ⊎ ((e ≡ NotCompressed offset) × ¬ IsCompressedInTables image.new offset)) × (0 < length)) }
    ensures may_fail { (out : Mappings) → (abstract_of S.view F.backing image.old out).is_sound
        → IfErr result (MayFailSpecial (IsCacheHeld image.old out) offset) }
    ensures empty { IfOk result (λ done. length ≡ 0) }
    ensures own { IfErr result (IsOwnOffset offset) }
    ensures reports { (out : Mappings) → (abstract_of S.view F.backing image.old out).is_sound
        → ReportsSpecial (known_in S.view image.old.file) offset length result }
    ensures sees { AnswersCall S.view F.backing image.old image.new [] (λ done was is. is ≡ was) result }
{
    image.check_read(0, 0)?;
    let mut bytes = zeros(alloc, length as usize)?;
    image.readv_special(&mut bytes, offset)
}

fn try_range<S: Storage, F: WrappedFormat<S>>(
    alloc: Global,
    image: &mut Qcow2<S, F>,
    offset: u64,
    length: u64,
) -> Result<Option<u64>, ImageError>
    ensures step { SpecialStep S.view F.backing image.old image.new result }
    ensures early { IfSome (unusable image.old) (λ e. (result ≡ Err e) × (image.new ≡ image.old)) }
    ensures late { unusable image.old ≡ None → IfErr result (λ e.
        MayFailTelling image.old image.new offset 1 e × (0 < length)) }
    ensures may_fail { (out : Mappings) → (abstract_of S.view F.backing image.old out).is_sound
        → IfErr result (λ e. MayFailLooking (IsCacheHeld image.old out) e ⊎ (e ≡ Compressed)) }
    ensures answer { IfOk result (λ plain. MatchOption plain (length ≡ 0) (λ at. at ≡ offset)) }
    ensures reports { (out : Mappings) → (abstract_of S.view F.backing image.old out).is_sound
        → ReportsPlain (known_in S.view image.old.file) offset length result }
    ensures sees { AnswersCall S.view F.backing image.old image.new [] (λ plain was is. is ≡ was) result }
{
    image.check_read(0, 0)?;
    let mut bytes = zeros(alloc, length as usize)?;
    image.try_readv_special(&mut bytes, offset)
}
