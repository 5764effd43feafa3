//! Parts of programs: printing reports, vetting, comparing disks, and conversions between images and raw disks.
#![tactic(auto)]

mod comparing;
mod conversions;
mod copying;
mod disk_images;
mod disk_storage;
mod disks;
mod layers;
mod numbers;
mod placing;
mod report;
mod resizing;
mod vetting;

pub use comparing::{Comparison, Unread, compare, compare_storages};
pub use conversions::{disk_size, make_image, make_raw_disk, mapped_end};
pub use copying::copy_raw_disk;
pub use disk_images::{Layout, convert_disk, make_disk_image};
pub use disk_storage::DiskStorage;
pub use disks::{DiskReader, OpenDisk, RawDisk, open_disk};
pub use layers::{Layer, Layers};
pub use numbers::number;
pub use placing::{Conversion, Place, Unmade, Unplaced, convert};
pub use report::{print_breaches, print_report};
pub use resizing::{NotResized, resize_disk};
pub use vetting::{Vetted, vet};
