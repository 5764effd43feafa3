ghost use Rattle.std.specs.Prelude.{◌≡◌};

use std::marker::Model;

/// The bytes of a write.
#[derive(Drop)]
pub struct WrittenBytes {
    items: Vec<u8>,
}

impl Model for WrittenBytes {
    ghost use Rattle.std.specs.Prelude.{List, ℕ};

    ghost Value = { List ℕ };

    ghost view = { λ w. w.items.items };
}

impl WrittenBytes {
    pub(crate) fn new(items: Vec<u8>) -> Self
        ensures { result ≡ items.items }
    {
        WrittenBytes { items }
    }

    /// The bytes.
    pub fn as_slice(&self) -> &[u8]
        ensures { result.now ≡ self.now }
    {
        &self.items
    }
}

/// A change of a storage's contents.
#[derive(Drop)]
pub enum Change {
    /// Bytes written at an offset.
    Write { at: u64, bytes: WrittenBytes },
    /// Zeros written at an offset.
    Zeroes { at: u64, length: u64 },
    /// A resize: cut to a size in bytes, or extended to it with zeros.
    Resize { size: u64 },
}

impl Change {
    ghost use Rattle.std.specs.Prelude.{◌≡◌};
    ghost use Rattle.image_access.specs.Changes.{write_offset};

    /// The offset of the write or zeroing in bytes; none for a resize.
    pub fn write_offset(&self) -> Option<u64>
        ensures { result ≡ write_offset self.now }
    {
        match self {
            Change::Write { at, .. } | Change::Zeroes { at, .. } => Some(*at),
            Change::Resize { .. } => None,
        }
    }
}
