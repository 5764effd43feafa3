//! Commands on a qcow2 image, and their replies.
#![tactic(auto)]

mod boxes;
mod clearing;
pub mod convert;
mod headline;
mod recorded;
pub mod session;
mod sizing;
mod slots;
mod special;

pub use boxes::{
    AnyDisk, AnyStorage, create_in_boxes, open_and_run_in_boxes, open_in_boxes, read_in_boxes,
    run_in_boxes, write_in_boxes,
};
pub use headline::open_and_run;
pub use qcow2_check::{Breach, Kind, Leak, Leaks, Report, check};
pub use recorded::open_and_run_recorded;
pub use session::{Command, Reply, fill, read, read_into, run, write};
