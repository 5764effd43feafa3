use crate::{ImageError, Place, Qcow2};
use image_access::{Storage, WrappedFormat};
use qcow2_alloc::ClustersToFreeList;
use qcow2_metadata::HostCluster;

// How a cluster of a prepared range is entered in its L2 table by a commit.
#[derive(Drop)]
pub(crate) enum ClusterMapping {
    // Not at all: it is copied data, in place.
    InPlace,
    // As data at the host cluster that its zero entry keeps, or at its guest offset in the data file.
    Kept,
    // As data in the new cluster, the first field. The clusters that it replaces, the second field, then wait to be freed.
    New {
        taken: ClustersToFreeList,
        old_data: ClustersToFreeList,
    },
}

/// A range of the guest's disk that may be written at one place in the image's file, or in its data file. It must end in a commit or a
/// discard.
pub struct Prepared {
    pub(crate) image: u64,
    pub(crate) guest: u64,
    pub(crate) place: Place,
    pub(crate) offset: u64,
    pub(crate) length: u64,
    // The L2 table that the mapping pins. An existing mapping pins none.
    pub(crate) table: Option<HostCluster>,
    // The mapping of each cluster of the range. Their host clusters are contiguous.
    pub(crate) clusters: Vec<ClusterMapping>,
}

/// Why a commit is refused, with the mapping if it can be used again.
pub enum CommitRefused {
    /// Nothing was changed: the refusal, and the mapping.
    Kept(ImageError, Prepared),
    /// The refusal. The mapping is visible, and an image that was sound has failed.
    Spent(ImageError),
}

impl ClusterMapping {
    ghost use Rattle.std.specs.Prelude.{◌≡◌};
    ghost use Rattle.qcow2_image.specs.ImageInvariant.{is_entered};

    // Whether a commit must enter the cluster in its L2 table.
    pub(crate) fn is_entered(&self) -> bool
        ensures { result ≡ is_entered self.now }
    {
        match self {
            ClusterMapping::InPlace => false,
            ClusterMapping::Kept | ClusterMapping::New { .. } => true,
        }
    }
}

impl Prepared {
    ghost use Rattle.std.specs.Prelude.{◌≡◌, ◌↔◌, IsTrue, is_none};
    ghost use Rattle.qcow2_image.specs.Prepared.{image_of, table_of, length_of, offset_of};
    ghost use Rattle.qcow2_image.specs.Image.{number_of};

    /// The host offset where the range is to be written, in bytes.
    pub fn offset(&self) -> u64
        ensures { result ≡ offset_of self.now }
    {
        self.offset
    }

    /// The number of bytes that may be written there.
    pub fn length(&self) -> u64
        ensures { result ≡ length_of self.now }
    {
        self.length
    }

    /// Whether the mapping belongs to this image.
    pub fn belongs_to<S: Storage, F: WrappedFormat<S>>(&self, image: &Qcow2<S, F>) -> bool
        ensures { IsTrue result ↔ (image_of self.now ≡ number_of image.now) }
    {
        self.image == image.number
    }

    /// Whether the mapping is existing: all of it is written in place, and there is nothing to commit.
    pub fn is_nonblocking(&self) -> bool
        ensures { result ≡ is_none (table_of self.now) }
    {
        self.table.is_none()
    }
}
