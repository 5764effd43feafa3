//! Calls on an image whose storage and backing disk are of any types, each in a box.
ghost use Rattle.std.specs.Prelude.{◌≡◌, ◌<◌, length, IfErr, IfOk, IsTrue, List, Option, Err, None, false};
ghost use Rattle.std.specs.Option.{option_flatten};
ghost use Rattle.qcow2_alloc.specs.Faults.{FaultsReported};
ghost use Rattle.qcow2_alloc.specs.declared.error.ImageError.TheVariants.{InvalidOption, Limit, Preallocation};
ghost use Rattle.qcow2_image.specs.Created.{GrewFromNew, HasNoDataFile, IsAllowed, IsCreated, IsReasonNotToCreate, StopsCreating};
ghost use Rattle.qcow2_image.specs.Created.{allocates_over, longest_disk};
ghost use Rattle.qcow2_image.specs.Image.{number_of};
ghost use Rattle.qcow2_image.specs.ImageInvariant.{IsHonestBacking, abstract_of, Mappings};
ghost use Rattle.qcow2_image.specs.Opened.{NeedsMissing, Opens};
ghost use Rattle.qcow2_image.specs.Readable.{IsNewlyOpened, OpeningStep, files_missing};
ghost use Rattle.qcow2_image.specs.declared.prepared.Prepared.{Prepared};
ghost use Rattle.qcow2_session.specs.CallSteps.{ReadingParts, RefusesToRead, RunStep};
ghost use Rattle.qcow2_session.specs.CallSteps.{WriteFails, WriteStep, WroteSoundly};
ghost use Rattle.qcow2_session.specs.Opening.{CountsSinceBefore, EachMomentOpensAgain, Headline};
ghost use Rattle.qcow2_session.specs.Opening.{IsLeftAlone, ReportsOfOpened, missing_beside};
ghost use Rattle.qcow2_session.specs.Sessions.{LookupsFindContents, Reads, RunRefinesDisk, RunsThrough, Writes};
ghost use Rattle.qcow2_session.specs.Told.{ReportsMatchImage, StaysQuiet};

use crate::headline::open_and_run;
use crate::session::{Command, Reply, read, run, write};
use image_access::{BackingDisk, DynStorage, Storage};
use qcow2_image::{ImageError, Qcow2, Qcow2CreateBuilder, Qcow2OpenBuilder};
use std::alloc::Global;

/// A storage of any type.
pub type AnyStorage = Box<dyn DynStorage>;

/// A backing disk of any type.
pub type AnyDisk = Box<dyn BackingDisk>;

/// Opens the image that a builder describes, as `Qcow2OpenBuilder::open` does.
pub fn open_in_boxes(
    alloc: Global,
    opener: Qcow2OpenBuilder<AnyStorage, AnyDisk>,
) -> Result<Qcow2<AnyStorage, AnyDisk>, (AnyStorage, ImageError)>
    ensures step { OpeningStep ⟦<AnyStorage as Storage>⟧.view (⟦<AnyStorage as Storage>⟧.view opener.image)
        opener.writable (files_missing opener.backing opener.data_file) result }
    ensures image { IfOk result (IsNewlyOpened (⟦<AnyStorage as Storage>⟧.view opener.image)
        opener.writable opener.number) }
    ensures over { IfOk result (λ image. (image.backing ≡ option_flatten opener.backing)
        × (image.data_file ≡ option_flatten opener.data_file)) }
    ensures opens { IsHonestBacking ⟦<AnyStorage as Storage>⟧.view ⟦<AnyDisk as BackingDisk>⟧.backing
        (option_flatten opener.backing) → option_flatten opener.data_file ≡ None
        → IfOk result (Opens ⟦<AnyStorage as Storage>⟧.view ⟦<AnyDisk as BackingDisk>⟧.backing
        (⟦<AnyStorage as Storage>⟧.view opener.image)) }
{
    opener.open(alloc)
}

/// Writes the new image that a builder describes, and returns its storage, as `Qcow2CreateBuilder::create` does.
pub fn create_in_boxes(
    alloc: Global,
    builder: Qcow2CreateBuilder<AnyStorage>,
) -> (AnyStorage, Result<(), ImageError>)
    ensures stops { HasNoDataFile builder → (⟦<AnyStorage as Storage>⟧.view builder.image).is_honest
        → StopsCreating builder.preallocate builder.size (⟦<AnyStorage as Storage>⟧.view builder.image)
        (⟦<AnyStorage as Storage>⟧.view result.0) }
    ensures created { HasNoDataFile builder → (⟦<AnyStorage as Storage>⟧.view builder.image).is_honest
        → IfOk result.1 (λ done. IsCreated builder (⟦<AnyStorage as Storage>⟧.view result.0)) }
    ensures grew { HasNoDataFile builder → (⟦<AnyStorage as Storage>⟧.view builder.image).is_honest
        → IfOk result.1 (λ done. GrewFromNew ⟦<AnyStorage as Storage>⟧.view builder result.0) }
    ensures refused { ¬ IsAllowed builder → (result.1 ≡ Err InvalidOption) × (result.0 ≡ builder.image) }
    ensures over { IsAllowed builder → IsTrue (allocates_over builder) → (result.1 ≡ Err Preallocation)
        × (result.0 ≡ builder.image) }
    ensures limit { IsAllowed builder → allocates_over builder ≡ false
        → longest_disk builder.cluster_size < builder.size → (result.1 ≡ Err Limit) × (result.0 ≡ builder.image) }
    ensures cause { HasNoDataFile builder → (⟦<AnyStorage as Storage>⟧.view builder.image).is_honest
        → IfErr result.1 (IsReasonNotToCreate ⟦<AnyStorage as Storage>⟧.view builder result.0) }
    ensures faults { HasNoDataFile builder → FaultsReported (⟦<AnyStorage as Storage>⟧.view builder.image).faults
        (⟦<AnyStorage as Storage>⟧.view result.0).faults result.1 }
{
    builder.create(alloc)
}

/// Opens an image for writing, with its number, over the backing disk if one is given, and answers each command. It is
/// refused as `open_and_run` is.
pub fn open_and_run_in_boxes(
    alloc: Global,
    storage: AnyStorage,
    below: Option<AnyDisk>,
    number: u64,
    commands: &[Command],
) -> Result<(Qcow2<AnyStorage, AnyDisk>, Vec<Reply>), (AnyStorage, ImageError)>
    ensures number { IfOk result (λ (image, replies). number_of image ≡ number) }
    ensures another { (⟦<AnyStorage as Storage>⟧.view storage).is_honest
        → NeedsMissing (missing_beside below) (⟦<AnyStorage as Storage>⟧.view storage).contents
        → IsLeftAlone (⟦<AnyStorage as Storage>⟧.view storage) ⟦<AnyStorage as Storage>⟧.view result }
    ensures faults { CountsSinceBefore ⟦<AnyStorage as Storage>⟧.view ⟦<AnyDisk as BackingDisk>⟧.backing
        (⟦<AnyStorage as Storage>⟧.view storage) below result }
    ensures reports { ReportsOfOpened ⟦<AnyStorage as Storage>⟧.view ⟦<AnyDisk as BackingDisk>⟧.backing
        (⟦<AnyStorage as Storage>⟧.view storage) below number commands.now result }
    ensures headline { Headline ⟦<AnyStorage as Storage>⟧.view ⟦<AnyDisk as BackingDisk>⟧.backing
        (⟦<AnyStorage as Storage>⟧.view storage) below commands.now result }
    ensures again { EachMomentOpensAgain ⟦<AnyStorage as Storage>⟧.view ⟦<AnyDisk as BackingDisk>⟧.backing
        (⟦<AnyStorage as Storage>⟧.view storage) below commands.now result }
{
    open_and_run(alloc, storage, below, number, commands)
}

/// Answers each command on an open image, as `run` does.
pub fn run_in_boxes(
    alloc: Global,
    image: &mut Qcow2<AnyStorage, AnyDisk>,
    commands: &[Command],
) -> Vec<Reply>
    ensures step { RunStep ⟦<AnyStorage as Storage>⟧.view ⟦<AnyDisk as BackingDisk>⟧.backing
        image.old image.new commands.now result }
    ensures runs { RunsThrough ⟦<AnyStorage as Storage>⟧.view ⟦<AnyDisk as BackingDisk>⟧.backing
        image.old image.new commands.now result.items }
    ensures means { RunRefinesDisk ⟦<AnyStorage as Storage>⟧.view ⟦<AnyDisk as BackingDisk>⟧.backing
        image.old image.new commands.now result.items }
    ensures reports { ReportsMatchImage ⟦<AnyStorage as Storage>⟧.view ⟦<AnyDisk as BackingDisk>⟧.backing
        image.old image.new commands.now result.items }
    ensures maps { LookupsFindContents ⟦<AnyStorage as Storage>⟧.view ⟦<AnyDisk as BackingDisk>⟧.backing
        image.old image.new commands.now result.items }
    ensures quiet { StaysQuiet ⟦<AnyStorage as Storage>⟧.view image.old image.new }
{
    run(alloc, image, commands)
}

/// Reads bytes of the guest's disk, as `read` does.
pub fn read_in_boxes(
    alloc: Global,
    image: &mut Qcow2<AnyStorage, AnyDisk>,
    offset: u64,
    length: u64,
) -> Result<Vec<u8>, ImageError>
    ensures step { ReadingParts ⟦<AnyStorage as Storage>⟧.view ⟦<AnyDisk as BackingDisk>⟧.backing
        image.old image.new result }
    ensures fails { RefusesToRead ⟦<AnyStorage as Storage>⟧.view ⟦<AnyDisk as BackingDisk>⟧.backing
        image.old image.new result offset length }
    ensures sees { Reads ⟦<AnyStorage as Storage>⟧.view ⟦<AnyDisk as BackingDisk>⟧.backing
        image.old image.new offset length result }
{
    read(alloc, image, offset, length)
}

/// Writes bytes to the guest's disk, as `write` does.
pub fn write_in_boxes(
    image: &mut Qcow2<AnyStorage, AnyDisk>,
    offset: u64,
    bytes: &[u8],
) -> Result<(), (ImageError, u64)>
    ensures step { WriteStep ⟦<AnyStorage as Storage>⟧.view ⟦<AnyDisk as BackingDisk>⟧.backing
        image.old image.new result }
    ensures fails { WriteFails ⟦<AnyStorage as Storage>⟧.view ⟦<AnyDisk as BackingDisk>⟧.backing
        image.old image.new result offset (length bytes.now) }
    ensures sound { (out : Mappings)
        → (abstract_of ⟦<AnyStorage as Storage>⟧.view ⟦<AnyDisk as BackingDisk>⟧.backing image.old out).is_sound
        → WroteSoundly ⟦<AnyStorage as Storage>⟧.view ⟦<AnyDisk as BackingDisk>⟧.backing
        image.old image.new result offset bytes.now out }
    ensures sees { Writes ⟦<AnyStorage as Storage>⟧.view ⟦<AnyDisk as BackingDisk>⟧.backing
        image.old image.new offset bytes.now result }
{
    write(image, offset, bytes)
}
