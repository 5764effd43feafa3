//! Reading a storage at an offset.

ghost use Rattle.std.specs.Prelude.{◌≡◌, OnOk, IfErr, length};
ghost use Rattle.image_access.specs.Contents.{bytes_at};
ghost use Rattle.qcow2_metadata.specs.MetadataError.{OnlyReads};
ghost use Rattle.qcow2_metadata.specs.TableBytes.{IsOfStorageOrMemory};

use image_access::Storage;
use qcow2_metadata::MetadataError;

/// Fills the buffer with the bytes from an offset on.
pub(crate) fn read_at<S: Storage>(
    storage: &mut S,
    at: u64,
    buf: &mut [u8],
) -> Result<(), MetadataError>
    ensures read { (S.view storage.old).is_honest → OnOk result (buf.new ≡ bytes_at (S.view storage.old).contents at (length buf.old)) }
    ensures causes { IfErr result IsOfStorageOrMemory }
    ensures reading { OnlyReads (S.view storage.old) (S.view storage.new) result }
{
    storage.read(at, buf)?;
    Ok(())
}
