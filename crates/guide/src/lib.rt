//! The examples of `docs/GUIDE.md`: programs that use the driver.
#![tactic(auto)]

pub mod block_server;
pub mod checking;
pub mod converting;
pub mod copying;
pub mod opening;
pub mod overlays;
