//! The file that a conversion writes.

use file_storage::{Replacement, StreamedFile};
use program_parts::Place;
use std::io;

/// The name that the file of a conversion gets when it is complete. Until then the file has another name.
#[derive(Drop)]
pub struct Target<'a> {
    rt: &'a HostRuntime,
    // None once the file has the name.
    replacement: Option<Replacement>,
}

impl<'a> Target<'a> {
    /// The name for which a file was opened by `replace`.
    pub fn new(rt: &'a HostRuntime, replacement: Replacement) -> Target<'a> {
        Target {
            rt,
            replacement: Some(replacement),
        }
    }

    /// Removes the new file, so that the old file keeps the name. A device stays as it is.
    pub fn discard(self) {
        let Target { rt, replacement } = self;
        if let Some(replacement) = replacement {
            replacement.discard(rt);
        }
    }
}

impl Place<StreamedFile> for Target<'_> {
    ghost use Rattle.qimg_tools.specs.Named.{named};

    ghost named = { λ target. named };

    fn finish(&mut self, file: StreamedFile) -> io::Result<()> {
        let mut file = file;
        match self.replacement.take() {
            Some(replacement) => replacement.finish(self.rt, &mut file),
            None => Err(io::Error::from(io::ErrorKind::Other)),
        }
    }
}
