//! Why a task wasn't done.
ghost use Rattle.std.specs.Prelude.{◌≡◌, IfErr, Ok, OnOk};
ghost use Rattle.qimg_tools.specs.Statuses.{IsOfWork};

use qcow2_image::ImageError;
use std::io;
use std::io::Write;

/// Why a task failed.
#[derive(Drop)]
pub enum Failure {
    /// A call of the driver was refused.
    Refused(ImageError),
    /// The output failed.
    Unprinted(io::Error),
}

impl From<ImageError> for Failure {
    fn from(refusal: ImageError) -> Failure {
        Failure::Refused(refusal)
    }
}

impl From<io::Error> for Failure {
    ghost use Rattle.std.specs.Prelude.{◌≡◌};
    ghost use Rattle.qimg_tools.specs.declared.failures.Failure.TheVariants.{Unprinted};

    ghost from_gives = { λ cause r. r ≡ Unprinted cause };

    fn from(cause: io::Error) -> Failure {
        Failure::Unprinted(cause)
    }
}

/// The result of printing, as the result of a task.
pub fn unless_unprinted(printed: io::Result<()>) -> Result<(), Failure>
    ensures fails { IfErr result IsOfWork }
    ensures printed { OnOk result (printed ≡ Ok tt) }
{
    match printed {
        Ok(()) => Ok(()),
        Err(e) => Err(Failure::Unprinted(e)),
    }
}

/// Reports why a task on a file wasn't done. Errors in writing the message are ignored.
pub fn tell<M: Write>(messages: &mut M, file: &str, failure: &Failure) {
    let _ = match failure {
        Failure::Refused(refusal) => {
            let number = refusal.number();
            writeln!(messages, "qimg-tools: {file}: refused {number} {refusal}")
        }
        Failure::Unprinted(cause) => writeln!(messages, "qimg-tools: standard output: {cause}"),
    };
}
