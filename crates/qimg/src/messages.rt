//! Messages on standard error. Errors in writing them are ignored.

use crate::printing::{is_refused, print_reply};
use qcow2_image::ImageError;
use qcow2_session::Reply;
use std::fmt::Display;
use std::io::Write;

/// Names the line, counted from 1, of the first reply that is a refusal or a misuse, and of the first I/O error if that
/// is another line. Each line has one reply.
pub fn report_refused<M: Write>(messages: &mut M, replies: &[Reply]) {
    let refused = replies.iter().position(|reply| is_refused(reply));
    let failed = replies.iter().position(|reply| is_failure(reply));
    report_reply(messages, replies, refused);
    if failed != refused {
        report_reply(messages, replies, failed);
    }
}

// Whether a reply is an I/O error.
fn is_failure(reply: &Reply) -> bool {
    matches!(
        reply,
        Reply::Refused(ImageError::Storage) | Reply::WriteRefused(ImageError::Storage, _)
    )
}

fn report_reply<M: Write>(messages: &mut M, replies: &[Reply], place: Option<usize>) {
    let Some(index) = place else {
        return;
    };
    if let Some(reply) = replies.get(index) {
        let _ = write!(messages, "qimg: line {}: ", index.saturating_add(1));
        let _ = print_reply(messages, reply);
    }
}

/// Names an unreadable line, counted from 1.
pub fn report_bad_line<M: Write>(messages: &mut M, number: usize) {
    let _ = writeln!(messages, "qimg: line {number}: bad line");
}

/// Reports the system's error for a file.
pub fn report_cause<M: Write, E: Display>(messages: &mut M, file: &str, cause: &E) {
    let _ = writeln!(messages, "qimg: {file}: {cause}");
}
