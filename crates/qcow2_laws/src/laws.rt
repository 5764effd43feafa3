//! The laws of the order of writes: the functions do nothing, and each contract is a law.

ghost use Rattle.qcow2_metadata.specs.Bytes.{Bytes, byte_at};
ghost use Rattle.qcow2_metadata.specs.Consistent.{IsConsistent};
ghost use Rattle.qcow2_metadata.specs.declared.header.HeaderFields.{HeaderFields};
ghost use Rattle.qcow2_laws.specs.Samples.{empty_image};
ghost use Rattle.qcow2_laws.specs.NewImages.{IsNewImage};
ghost use Rattle.qcow2_laws.specs.Opened.{HasNoLeaks};
ghost use Rattle.qcow2_laws.specs.GuestLaws.{ClustersInTurnAreARange, KeptClusterIsCommitted, KeptClusterIsWritten, LongerL1TableKeepsGuests, RunIsWritten, SizeStaysUnlessAsked};
ghost use Rattle.qcow2_laws.specs.Laws.{SoundIsConsistent, MixIsSafe, TableIsWritten, CountIsChanged, PendingIsChanged, EntryIsChanged, DataIsWritten, TableIsNamed, HeaderIsWritten, StepsCompose};

/// If the crash invariant holds, the storage and the known contents are consistent images. The invariant holds of a consistent image right after
/// opening.
pub fn sound_is_consistent()
    ensures { SoundIsConsistent }
{}

/// Cached tables may be written in any order that the direction allows: the crash invariant still holds, and a stop is as safe as before.
pub fn mix_is_safe()
    ensures { MixIsSafe }
{}

/// One cached table may be written when the direction allows it, whether or not the storage refuses.
pub fn table_is_written()
    ensures { TableIsWritten }
{}

/// A cluster is allocated or freed.
pub fn count_is_changed()
    ensures { CountIsChanged }
{}

/// A cluster that was allocated and not used waits to be freed.
pub fn pending_is_changed()
    ensures { PendingIsChanged }
{}

/// A guest cluster is mapped, zeroed or discarded.
pub fn entry_is_changed()
    ensures { EntryIsChanged }
{}

/// Data, or the bytes of a new table, are written.
pub fn data_is_written()
    ensures { DataIsWritten }
{}

/// A new L2 table or refblock gets its reference.
pub fn table_is_named()
    ensures { TableIsNamed }
{}

/// The size, the pointer to the L1 table or the pointer to the reftable is written.
pub fn header_is_written()
    ensures { HeaderIsWritten }
{}

/// Two steps make one step. Contents that are safe in the stronger form (`StopOkEverywhere`) are contents that a stop may leave.
pub fn steps_compose()
    ensures { StepsCompose }
{}

/// Replacing the L1 table by a longer one keeps what guests see.
pub fn longer_l1_table_keeps_guests()
    ensures { LongerL1TableKeepsGuests }
{}

/// If no other size is asked for, a stop leaves the old size.
pub fn size_stays_unless_asked()
    ensures { SizeStaysUnlessAsked }
{}

/// Zeroing or unmapping guest clusters one after another is zeroing or unmapping the range.
pub fn clusters_in_turn_are_a_range()
    ensures { ClustersInTurnAreARange }
{}

/// Bytes that are written to a cluster that a zero entry keeps are invisible until the commit, but a stop may leave them visible.
pub fn kept_cluster_is_written()
    ensures { KeptClusterIsWritten }
{}

/// A cluster that a zero entry keeps becomes data.
pub fn kept_cluster_is_committed()
    ensures { KeptClusterIsCommitted }
{}

/// One storage write goes over clusters that are copied data, kept by a zero entry, or new data. The guest sees the bytes that are in place
/// immediately, and no others.
pub fn run_is_written()
    ensures { RunIsWritten }
{}

/// A new image of three clusters is consistent, for every cluster size and refcount width. No cluster of it has a higher refcount than references.
pub fn new_image_is_consistent()
    ensures each { (h : HeaderFields) (b : Bytes) → IsNewImage h b → IsConsistent b }
    ensures exact { (h : HeaderFields) (b : Bytes) → IsNewImage h b → HasNoLeaks b }
    ensures small { IsConsistent (byte_at empty_image) }
{}
