//! The headline for a storage that records its changes.
ghost use Rattle.image_access.specs.TraceStorage.{view_of_trace};
ghost use Rattle.qcow2_session.specs.Opening.{Headline};
ghost use Rattle.qcow2_session.specs.Recorded.{FirstWritesAreStops};

use crate::headline::open_and_run;
use crate::session::{Command, Reply};
use image_access::{TraceStorage, WrappedFormat};
use qcow2_image::{ImageError, Qcow2};
use std::alloc::Global;

/// Opens an image and answers each command as `open_and_run` does, on a storage that records its changes. The contents after the storage's first n
/// writes (`TraceStorage::after`) are what a stop right then would leave of a file: a consistent image that opens again, in which each byte has its
/// value at the last flush, or one given since.
pub fn open_and_run_recorded<F: WrappedFormat<TraceStorage>>(
    alloc: Global,
    storage: TraceStorage,
    below: Option<F>,
    number: u64,
    commands: &[Command],
) -> Result<(Qcow2<TraceStorage, F>, Vec<Reply>), (TraceStorage, ImageError)>
    ensures headline { Headline view_of_trace F.backing (view_of_trace storage) below commands.now result }
    ensures writes { FirstWritesAreStops F.backing storage below commands.now result }
{
    open_and_run(alloc, storage, below, number, commands)
}
