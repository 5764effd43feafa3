//! A server of the NBD protocol over any reader, writer and block device.
#![tactic(auto)]

mod commands;
mod device;
mod negotiation;
mod options;
mod reading;
mod replies;
mod request;
mod serving;
mod way;

pub use device::{Device, Errno, State};
pub use serving::serve;
