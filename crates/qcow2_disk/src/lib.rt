//! The disk that a guest sees of an image, and what a stop may leave of it: definitions, and laws about them. The functions do nothing.
#![tactic(auto)]

mod laws;

pub use laws::{
    committed_is_read_back, flushed_is_exact, header_rest_has_names, hidden_bytes_are_not_given,
    private_bytes_are_unseen, put_is_read_in_place,
};
