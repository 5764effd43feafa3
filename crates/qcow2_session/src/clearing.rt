//! The commands that zero and discard ranges.
ghost use Rattle.qcow2_session.specs.CallSteps.{AnswersCommand};
ghost use Rattle.std.specs.Prelude.{◌≡◌};
ghost use Rattle.qcow2_session.specs.Commands.{reply_of_clearing};
ghost use Rattle.qcow2_session.specs.declared.session.Command.TheVariants.{EnsureZeroMapping, DiscardToZero};
ghost use Rattle.qcow2_session.specs.declared.session.Command.TheVariants.{DiscardToAny, DiscardToBacking};
ghost use Rattle.qcow2_session.specs.declared.slots.Slots.{Slots};

use crate::session::Reply;
use image_access::{Storage, WrappedFormat};
use qcow2_image::{ImageError, Qcow2};

// Makes the whole clusters of a range read as zeros, and keeps host clusters that are marked copied.
pub(crate) fn ensure_zero<S: Storage, F: WrappedFormat<S>>(
    image: &mut Qcow2<S, F>,
    offset: u64,
    length: u64,
) -> Reply
    ensures { (slots : Slots) → AnswersCommand S.view F.backing image.old image.new slots slots
        (EnsureZeroMapping offset length) result }
{
    range_reply(image.ensure_zero_mapping(offset, length))
}

// Discards the whole clusters of a range, so that they read as zeros.
pub(crate) fn discard_to_zero<S: Storage, F: WrappedFormat<S>>(
    image: &mut Qcow2<S, F>,
    offset: u64,
    length: u64,
) -> Reply
    ensures { (slots : Slots) → AnswersCommand S.view F.backing image.old image.new slots slots
        (DiscardToZero offset length) result }
{
    range_reply(image.discard_to_zero_unsafe(offset, length))
}

// Discards the whole clusters of a range, whatever they read as then.
pub(crate) fn discard_to_any<S: Storage, F: WrappedFormat<S>>(
    image: &mut Qcow2<S, F>,
    offset: u64,
    length: u64,
) -> Reply
    ensures { (slots : Slots) → AnswersCommand S.view F.backing image.old image.new slots slots
        (DiscardToAny offset length) result }
{
    range_reply(image.discard_to_any_unsafe(offset, length))
}

// Discards the whole clusters of a range, so that the backing disk shows there.
pub(crate) fn discard_to_backing<S: Storage, F: WrappedFormat<S>>(
    image: &mut Qcow2<S, F>,
    offset: u64,
    length: u64,
) -> Reply
    ensures { (slots : Slots) → AnswersCommand S.view F.backing image.old image.new slots slots
        (DiscardToBacking offset length) result }
{
    range_reply(image.discard_to_backing_unsafe(offset, length))
}

// The reply to clearing a range.
fn range_reply(cleared: Result<(u64, u64), ImageError>) -> Reply
    ensures { result ≡ reply_of_clearing cleared }
{
    match cleared {
        Ok((offset, length)) => Reply::Range { offset, length },
        Err(refusal) => Reply::Refused(refusal),
    }
}
