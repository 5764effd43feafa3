//! Creating images.
ghost use Rattle.std.specs.Prelude.{◌≡◌, ◌<◌, false, Err, IfErr, IfOk, IsTrue};
ghost use Rattle.qcow2_alloc.specs.Faults.{FaultsReported};
ghost use Rattle.qcow2_alloc.specs.declared.error.ImageError.TheVariants.{InvalidOption, Limit, Preallocation};
ghost use Rattle.qcow2_image.specs.Created.{IsAllowed, IsCreated, IsReasonNotToCreate, StopsCreating, allocates_over, longest_disk};
ghost use Rattle.qimg_tools.specs.Layouts.{builder_of, builder_over};

use crate::words::Layout;
use image_access::Storage;
use qcow2_image::{ImageError, Qcow2CreateBuilder};
use std::alloc::Global;

/// Creates an image with a disk of this size, which reads as zeros, and returns its storage. The layout says how it is allocated. A
/// layout that images don't have is refused 5 (invalid option), and a size that is too large 13 (limit). Nothing was written
/// then. May be refused 13, 14 (memory) or 15 (storage) during the work.
pub fn create<S: Storage>(
    alloc: Global,
    storage: S,
    size: u64,
    layout: Layout,
) -> (S, Result<(), ImageError>)
    ensures created { (S.view storage).is_honest → IfOk result.1 (λ done. IsCreated (builder_of storage size layout) (S.view result.0)) }
    ensures refused { ¬ IsAllowed (builder_of storage size layout) → (result.1 ≡ Err InvalidOption) × (result.0 ≡ storage) }
    ensures limit { IsAllowed (builder_of storage size layout) → longest_disk layout.cluster_size < size
        → (result.1 ≡ Err Limit) × (result.0 ≡ storage) }
    ensures stops { (S.view storage).is_honest → StopsCreating layout.preallocate size (S.view storage) (S.view result.0) }
    ensures cause { (S.view storage).is_honest
        → IfErr result.1 (IsReasonNotToCreate S.view (builder_of storage size layout) result.0) }
    ensures faults { FaultsReported (S.view storage).faults (S.view result.0).faults result.1 }
{
    let builder = laid_out(storage, size, layout);
    builder.create(alloc)
}

/// Creates an image over a backing file with this name and format, and returns its storage. The disk has this size, and
/// the backing file shows in it. Refused as `create` is, with 5 (invalid option) also for names that don't fit into a cluster, and then
/// 6 (preallocation) for a layout that allocates clusters. Nothing was written then.
pub fn create_over<S: Storage>(
    alloc: Global,
    storage: S,
    size: u64,
    layout: Layout,
    name: String,
    format: String,
) -> (S, Result<(), ImageError>)
    ensures created { (S.view storage).is_honest
        → IfOk result.1 (λ done. IsCreated (builder_over storage size layout name format) (S.view result.0)) }
    ensures refused { ¬ IsAllowed (builder_over storage size layout name format)
        → (result.1 ≡ Err InvalidOption) × (result.0 ≡ storage) }
    ensures over { IsAllowed (builder_over storage size layout name format)
        → IsTrue (allocates_over (builder_over storage size layout name format))
        → (result.1 ≡ Err Preallocation) × (result.0 ≡ storage) }
    ensures limit { IsAllowed (builder_over storage size layout name format)
        → allocates_over (builder_over storage size layout name format) ≡ false
        → longest_disk layout.cluster_size < size → (result.1 ≡ Err Limit) × (result.0 ≡ storage) }
    ensures stops { (S.view storage).is_honest → StopsCreating layout.preallocate size (S.view storage) (S.view result.0) }
    ensures cause { (S.view storage).is_honest
        → IfErr result.1 (IsReasonNotToCreate S.view (builder_over storage size layout name format) result.0) }
    ensures faults { FaultsReported (S.view storage).faults (S.view result.0).faults result.1 }
{
    let builder = laid_out(storage, size, layout).backing(name, format);
    builder.create(alloc)
}

fn laid_out<S: Storage>(storage: S, size: u64, layout: Layout) -> Qcow2CreateBuilder<S>
    ensures { result ≡ builder_of storage size layout }
{
    Qcow2CreateBuilder::new(storage)
        .size(size)
        .cluster_size(layout.cluster_size)
        .refcount_width(layout.refcount_bits)
        .preallocate(layout.preallocate)
}
