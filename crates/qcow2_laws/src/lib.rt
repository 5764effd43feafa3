//! Why a stop leaves a consistent image: the invariant of every write, and the laws that each kind of step keeps it. The functions do nothing.
#![tactic(auto)]

mod laws;

pub use laws::{
    clusters_in_turn_are_a_range, count_is_changed, data_is_written, entry_is_changed,
    header_is_written, kept_cluster_is_committed, kept_cluster_is_written,
    longer_l1_table_keeps_guests, mix_is_safe, new_image_is_consistent, pending_is_changed,
    run_is_written, size_stays_unless_asked, sound_is_consistent, steps_compose, table_is_named,
    table_is_written,
};
