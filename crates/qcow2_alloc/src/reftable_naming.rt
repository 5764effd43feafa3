//! The header's pointer to a longer reftable.
ghost use Rattle.std.specs.Prelude.{◌≡◌, ℕ, ◌+◌, OnOk, OnErr, IsTrue};
ghost use Rattle.qcow2_laws.specs.CrashInvariant.{Pending};
ghost use Rattle.qcow2_alloc.specs.GrownTables.{with_run, StandsBehind, StandsGrown};
ghost use Rattle.qcow2_alloc.specs.ImageFile.{AllocatorInvariant};
ghost use Rattle.qcow2_alloc.specs.ImageStorage.{is_changed_of};
ghost use Rattle.qcow2_alloc.specs.Steps.{AllocatorFails, NamesSoundly, PointerStepTo};

use crate::{Allocator, ImageError, ImageFile, WriteKind};
use image_access::Storage;
use qcow2_metadata::RefTable;

impl Allocator {
    // Writes the pointer to a longer reftable, which is already on the storage with its refblocks. The allocator uses that table from then on.
    pub(crate) fn name_reftable<S: Storage>(
        &mut self,
        file: &mut ImageFile<S>,
        table: RefTable,
    ) -> Result<(), ImageError>
        requires recorded { IsTrue (is_changed_of file.old.storage) }
        ensures step { PointerStepTo S.view (StandsBehind file.old.header.fields table)
            self.old.reftable file.old self.new.reftable file.new }
        ensures fails { AllocatorFails S.view file.old self.new.reftable file.new result }
        ensures sound { (p : Pending) (first blocks clusters : ℕ)
            → AllocatorInvariant S.view self.old
            (with_run p file.old.header.fields self.old.reftable first (blocks + clusters)) file.old
            → StandsGrown S.view file.old self.old.reftable table first blocks clusters
            → NamesSoundly S.view (with_run p file.old.header.fields self.old.reftable first
            (blocks + clusters)) p file.old self.new file.new result }
        ensures table { OnOk result (self.new.reftable ≡ table) }
        ensures kept { OnErr result (self.new.reftable ≡ self.old.reftable) }
        ensures rest { self.new ≡ record self.old { reftable = self.new.reftable } }
    {
        let Some(cluster) = table.get_cluster() else {
            return Err(ImageError::Limit);
        };
        let offset = cluster.offset(table.cluster_bits());
        let clusters = table.cluster_count().value() as u32;
        file.header.set_reftable(offset, clusters)?;
        file.storage.set_write_kind(WriteKind::Other);
        file.storage.write_reftable_pointer(&file.header)?;
        self.reftable = table;
        Ok(())
    }
}
