//! Laws for users: the functions do nothing, and each contract is a law.

ghost use Rattle.qcow2_disk.specs.ForUsers.{PrivateBytesAreUnseen, CommittedIsReadBack, PutIsReadInPlace, HiddenBytesAreNotGiven, FlushedIsExact, HeaderRestHasNames};

/// Preparing a range, putting bytes at private offsets of it and discarding it changes no guest byte.
pub fn private_bytes_are_unseen()
    ensures { PrivateBytesAreUnseen }
{}

/// Bytes that were put into a mapping and committed are read back.
pub fn committed_is_read_back()
    ensures { CommittedIsReadBack }
{}

/// Before the commit, a read returns the old bytes at private offsets of a mapping, and the new bytes at offsets in place.
pub fn put_is_read_in_place()
    ensures { PutIsReadInPlace }
{}

/// Until the commit, no stop leaves any byte that was put to a hidden offset of a mapping.
pub fn hidden_bytes_are_not_given()
    ensures { HiddenBytesAreNotGiven }
{}

/// A stop right after a flush leaves exactly the disk.
pub fn flushed_is_exact()
    ensures { FlushedIsExact }
{}

/// The names and the header extensions stay the same, if the rest of the header's cluster does.
pub fn header_rest_has_names()
    ensures { HeaderRestHasNames }
{}
