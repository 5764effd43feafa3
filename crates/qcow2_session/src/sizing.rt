//! The commands that change the size of the disk.
ghost use Rattle.qcow2_session.specs.CallSteps.{AnswersCommand};
ghost use Rattle.qcow2_session.specs.declared.session.Command.TheVariants.{ResizeGrow, ResizeShrink};
ghost use Rattle.qcow2_session.specs.declared.slots.Slots.{Slots};

use crate::session::Reply;
use image_access::{PreallocateMode, Storage, WrappedFormat};
use qcow2_image::Qcow2;

// Grows the disk. The mode says what the new bytes are, and how they are allocated.
pub(crate) fn grow<S: Storage, F: WrappedFormat<S>>(
    image: &mut Qcow2<S, F>,
    size: u64,
    mode: PreallocateMode,
) -> Reply
    ensures { (slots : Slots) → AnswersCommand S.view F.backing image.old image.new slots slots (ResizeGrow size mode) result }
{
    match image.resize_grow(size, mode) {
        Ok(()) => Reply::Done,
        Err(refusal) => Reply::Refused(refusal),
    }
}

// Shrinks the disk. The reply is the offset up to which clusters past the new end were discarded.
pub(crate) fn shrink<S: Storage, F: WrappedFormat<S>>(image: &mut Qcow2<S, F>, size: u64) -> Reply
    ensures { (slots : Slots) → AnswersCommand S.view F.backing image.old image.new slots slots (ResizeShrink size) result }
{
    match image.resize_shrink(size) {
        Ok(offset) => Reply::Shrunk(offset),
        Err(refusal) => Reply::Refused(refusal),
    }
}
