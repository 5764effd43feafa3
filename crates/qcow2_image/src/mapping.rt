ghost use Rattle.std.specs.Prelude.{◌≡◌, ◌↔◌, IsTrue};
ghost use Rattle.qcow2_image.specs.Found.{found_kind, further_by, writable_place};
ghost use Rattle.qcow2_image.specs.SpecialReads.{is_special};

/// The file that holds mapped bytes.
#[derive(Clone, Copy, Debug, PartialEq, Eq)]
pub enum Place {
    /// The image's own file.
    Image,
    /// The external data file.
    DataFile,
}

/// The mapping of a range of the guest's disk.
#[derive(Clone, Copy, Debug, PartialEq, Eq)]
pub enum MappingKind {
    /// Bytes of a file, from an offset in bytes on. Writable means that they may be written in place.
    Raw {
        place: Place,
        offset: u64,
        writable: bool,
    },
    /// Bytes of the backing disk, from an offset in bytes on.
    Indirect {
        offset: u64,
    },
    /// Zeros: explicit for a zero entry, implicit for an unmapped range.
    Zero {
        explicit: bool,
    },
    /// The range begins at or past the end of the disk.
    Eof,
    /// Compressed data, from this guest offset in bytes on.
    Special {
        offset: u64,
    },
}

/// A mapping that a lookup returned.
#[derive(Clone, Copy, Debug, PartialEq, Eq)]
pub struct Mapping {
    /// The number of the image.
    pub image: u64,
    /// The guest offset where the range begins, in bytes.
    pub offset: u64,
    /// The length in bytes.
    pub length: u64,
    /// The mapping of the range, from its first byte on.
    pub kind: MappingKind,
}

impl MappingKind {
    // Whether two mappings are of the same kind, at the same place.
    pub(crate) fn is(&self, other: &MappingKind) -> bool
        ensures { IsTrue result ↔ (self.now ≡ other.now) }
    {
        self == other
    }

    // The host offset where the range may be written in place, if it may.
    pub(crate) fn writable_place(&self) -> Option<u64>
        ensures { result ≡ writable_place (found_kind self.now) }
    {
        match self {
            MappingKind::Raw {
                place: _,
                offset,
                writable: true,
            } => Some(*offset),
            _ => None,
        }
    }

    // Whether the data are compressed.
    pub(crate) fn is_special(&self) -> bool
        ensures { result ≡ is_special (found_kind self.now) }
    {
        matches!(self, MappingKind::Special { offset: _ })
    }

    /// The mapping this many bytes further on.
    pub(crate) fn further(self, bytes: u64) -> MappingKind
        ensures { result ≡ further_by bytes self }
    {
        match self {
            MappingKind::Raw {
                place,
                offset,
                writable,
            } => MappingKind::Raw {
                place,
                offset: offset.wrapping_add(bytes),
                writable,
            },
            MappingKind::Indirect { offset } => MappingKind::Indirect {
                offset: offset.wrapping_add(bytes),
            },
            MappingKind::Special { offset } => MappingKind::Special {
                offset: offset.wrapping_add(bytes),
            },
            MappingKind::Zero { explicit } => MappingKind::Zero { explicit },
            MappingKind::Eof => MappingKind::Eof,
        }
    }
}
