//! The subcommand `compare`.
ghost use Rattle.std.specs.Prelude.{◌≡◌, IfOk};
ghost use Rattle.program_parts.specs.Disks.{IsKeptQuietly};
ghost use Rattle.qimg_tools.specs.Compared.{IsStatusOfComparison, status_of_comparison};

use image_access::{Format, Storage};
use program_parts::{Comparison, Unread, compare_storages};
use std::alloc::Global;
use std::io;
use std::io::Write;

/// The exit status of disks that differ.
const DIFFERENT: u8 = 1;

/// Why there is no answer for two disks.
#[derive(Drop)]
pub enum Uncompared {
    /// One of them can't be read.
    Unread(Unread),
    /// The output failed.
    Unprinted(io::Error),
}

impl From<io::Error> for Uncompared {
    fn from(cause: io::Error) -> Uncompared {
        Uncompared::Unprinted(cause)
    }
}

/// Compares the disks that two storages hold, each in a format, prints what is found in the words of `qemu-img compare`, and answers the
/// exit status, with the storages, which are only read. That is 0 where both have the same size and the same bytes, and else 1. Where
/// the work meets them: `Unread` as `compare_storages` is refused, and `Unprinted`.
pub fn compare<S: Storage, T: Storage, W: Write>(
    alloc: Global,
    one: (S, Format),
    other: (T, Format),
    output: &mut W,
) -> (S, T, Result<u8, Uncompared>)
    ensures step { IsKeptQuietly (S.view one.0) (S.view result.0) × IsKeptQuietly (T.view other.0) (T.view result.1) }
    ensures status { IfOk result.2 (IsStatusOfComparison one.1 (S.view one.0) other.1 (T.view other.0)) }
{
    let (one, other, found) = compare_storages(alloc, one, other);
    match found {
        Ok(found) => {
            let status = tell(found, output);
            (one, other, status)
        }
        Err(unread) => (one, other, Err(Uncompared::Unread(unread))),
    }
}

// Prints the result of a comparison, and returns the exit status.
fn tell<W: Write>(found: Comparison, output: &mut W) -> Result<u8, Uncompared>
    ensures { IfOk result (λ status. status ≡ status_of_comparison found) }
{
    match found {
        Comparison::Same => writeln!(output, "Images are identical.")?,
        Comparison::OtherSize => writeln!(output, "Strict mode: Image size mismatch!")?,
        Comparison::DiffersAt { at } => writeln!(output, "Content mismatch at offset {at}!")?,
    }
    Ok(status_of(found))
}

fn status_of(found: Comparison) -> u8
    ensures { result ≡ status_of_comparison found }
{
    match found {
        Comparison::Same => 0,
        Comparison::OtherSize | Comparison::DiffersAt { at: _ } => DIFFERENT,
    }
}
