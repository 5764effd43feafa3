//! Big-endian numbers in bytes.

ghost use Rattle.std.specs.Prelude.{◌≡◌, ◌+◌, ◌≤◌, length};
ghost use Rattle.qcow2_metadata.specs.Bytes.{byte_at, number_at};

/// The big-endian number in the four bytes from `place` on.
#[tactic(auto, using(crate::proofs::BigEndian::numbers_read))]
pub(crate) fn read_u32(bytes: &[u8], place: usize) -> u32
    requires { place + 4 ≤ length bytes.now }
    ensures { result ≡ number_at (byte_at bytes.now) place 4 }
{
    let mut four = [0; 4];
    four.copy_from_slice(&bytes[place..place + 4]);
    u32::from_be_bytes(four)
}

/// The big-endian number in the eight bytes from `place` on.
#[tactic(auto, using(crate::proofs::BigEndian::numbers_read))]
pub(crate) fn read_u64(bytes: &[u8], place: usize) -> u64
    requires { place + 8 ≤ length bytes.now }
    ensures { result ≡ number_at (byte_at bytes.now) place 8 }
{
    let mut eight = [0; 8];
    eight.copy_from_slice(&bytes[place..place + 8]);
    u64::from_be_bytes(eight)
}
