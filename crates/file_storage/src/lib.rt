//! A storage over a file or a block device, which keeps the system's last error.
#![tactic(auto)]

mod file_storage;
mod limits;
mod locks;
mod opening;
mod progress;
mod replacing;
mod streamed;
mod zeros;

pub use file_storage::FileStorage;
pub use opening::{create, is_same_file, open, open_read_only};
pub use replacing::{Replacement, replace};
pub use streamed::StreamedFile;
