//! Checks an image: whether it is consistent, each breach, and each leaked cluster.
#![tactic(auto)]

mod block;
mod checker;
mod counts;
mod entries;
mod header;
mod kept;
mod l1;
mod l2;
mod leaks;
mod lines;
mod names;
mod offsets;
mod report;
mod source;
mod tally;
mod tally_map;
mod told;

pub use checker::{Report, check};
pub use leaks::{LeakIter, Leaks};
pub use report::{Breach, Kind, Leak};
