//! The files of an image over others.

use crate::converting::{Names, header_size};
use crate::messages::{refuse, refuse_file, refused};
use file_storage::{FileStorage, StreamedFile, is_same_file};
use image_access::Format;
use program_parts::{Layers, mapped_end};
use qcow2_image::{ImageError, NoBacking, Qcow2};
use std::io;

/// The files of an image over others, as the words name them.
#[derive(Clone, Copy)]
pub struct Files<'a> {
    /// The file of the image, and the one that is written.
    pub names: Names<'a>,
    /// The files below the image, from the top down.
    pub below: &'a [&'a str],
    /// The format of the last file; None if the image above names it.
    pub format: Option<Format>,
}

impl<'a> Files<'a> {
    /// The name of the layer at a place, from 0 for the image.
    pub fn name(&self, place: usize) -> &'a str {
        match place.checked_sub(1).and_then(|place| self.below.get(place)) {
            Some(name) => *name,
            None => self.names.from,
        }
    }
}

// What an image says of the file below it: that there is one, and its format if this is a known one.
#[derive(Clone, Copy)]
struct Named {
    is_named: bool,
    format: Option<Format>,
}

/// Opens the disk of an image, whose file is open, over the files that the words name. Names in images are not followed. A missing file, one too
/// many, and a file that is to be written are refused: then the result is the exit status.
pub fn open_layers(
    rt: &HostRuntime,
    files: &Files<'_>,
    image: FileStorage,
) -> Result<Layers<StreamedFile>, u8> {
    let mut layers = Layers::new(rt.alloc());
    let mut named = push_image(rt, &mut layers, files.names.from, 1, image)?;
    for index in 0..files.below.len() {
        let above = files.name(index);
        let place = index.saturating_add(1);
        if !named.is_named {
            return Err(refuse(
                rt,
                above,
                "it names no backing file: --backing is given too often",
            ));
        }
        let Some(format) = format_at(files, place, named) else {
            return Err(refuse(
                rt,
                above,
                "it doesn't say the format of its backing file: -F is to say it",
            ));
        };
        named = push_file(rt, &mut layers, files, place, format)?;
    }
    if named.is_named {
        let last = files.name(files.below.len());
        return Err(refused(rt, last, None, ImageError::Dependency));
    }
    Ok(layers)
}

// The format of the file at a place: that of the words for the last file, otherwise the one that the image above names. Files over others are images.
fn format_at(files: &Files<'_>, place: usize, named: Named) -> Option<Format> {
    if place < files.below.len() {
        return Some(named.format.unwrap_or(Format::Qcow2));
    }
    match files.format {
        Some(format) => Some(format),
        None => named.format,
    }
}

// Puts the file at a place below the others.
fn push_file(
    rt: &HostRuntime,
    layers: &mut Layers<StreamedFile>,
    files: &Files<'_>,
    place: usize,
    format: Format,
) -> Result<Named, u8> {
    let name = files.name(place);
    if is_same_file(rt, name, files.names.to) {
        return Err(refuse(rt, files.names.to, "it is a file that is read"));
    }
    let mut storage = match file_storage::open_read_only(rt, name) {
        Ok(storage) => storage,
        Err(e) => return Err(refuse_file(rt, name, &e)),
    };
    match format {
        Format::Qcow2 => {
            header_size(rt, name, &mut storage)?;
            push_image(rt, layers, name, (place as u64).saturating_add(1), storage)
        }
        Format::Raw => {
            layers.set_base(streamed(rt, name, storage)?);
            Ok(Named {
                is_named: false,
                format: None,
            })
        }
    }
}

// Puts an image below the others. It is opened with this number, without the file below it.
fn push_image(
    rt: &HostRuntime,
    layers: &mut Layers<StreamedFile>,
    name: &str,
    number: u64,
    storage: FileStorage,
) -> Result<Named, u8> {
    let mut storage = storage;
    let mapped_end = match mapped_end(rt.alloc(), &mut storage) {
        Ok(end) => end,
        Err(refusal) => return Err(refused(rt, name, storage.last_error(), refusal)),
    };
    let storage = streamed(rt, name, storage)?;
    let opened = Qcow2::<StreamedFile, NoBacking>::builder(storage, number)
        .backing(None)
        .open(rt.alloc());
    let image = match opened {
        Ok(image) => image,
        Err((storage, refusal)) => return Err(refused(rt, name, storage.last_error(), refusal)),
    };
    let named = Named {
        is_named: image.implicit_backing_file().is_some(),
        format: format_of(image.implicit_backing_format()),
    };
    match layers.push_image(image, mapped_end) {
        Ok(()) => Ok(named),
        Err(e) => Err(refuse_file(rt, name, &io::Error::from(e))),
    }
}

// The format that a word in an image means.
fn format_of(word: Option<&String>) -> Option<Format> {
    match word?.as_bytes() {
        b"raw" => Some(Format::Raw),
        b"qcow2" => Some(Format::Qcow2),
        _ => None,
    }
}

fn streamed(rt: &HostRuntime, name: &str, storage: FileStorage) -> Result<StreamedFile, u8> {
    match StreamedFile::new(rt.alloc(), storage) {
        Ok(storage) => Ok(storage),
        Err(e) => Err(refuse_file(rt, name, &io::Error::from(e))),
    }
}
