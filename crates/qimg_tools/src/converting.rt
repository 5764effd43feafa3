//! The subcommand `convert`.

use crate::failures::Failure;
use crate::layers::{Files, open_layers};
use crate::messages::{DONE, ended, explain, refuse, refuse_file, refused, warn_of_sectors};
use crate::target::Target;
use crate::words::{DiskFormat, Settings, Words};
use file_storage::{FileStorage, StreamedFile, is_same_file, replace};
use image_access::{Format, Storage};
use program_parts::{
    Conversion, DiskStorage, Layers, Layout, Unmade, Unplaced, convert as convert_storage,
    convert_disk, disk_size,
};
use qcow2_image::{ImageError, Qcow2};
use std::io;
use std::io::Write;

/// The names of the source and the target of a conversion.
#[derive(Clone, Copy)]
pub struct Names<'a> {
    /// The source.
    pub from: &'a str,
    /// The target.
    pub to: &'a str,
}

// What a conversion reads: a file, or the disk of an image over others.
#[derive(Drop)]
enum Source<'a> {
    File(&'a str, StreamedFile),
    Layers(Files<'a>, DiskStorage<Layers<StreamedFile>>),
}

// Why a source wasn't read: the file, what the system said of it last, whether a read of layers was refused, and why if that isn't told
// otherwise.
#[derive(Drop)]
struct Unread<'a> {
    file: &'a str,
    cause: Option<io::Error>,
    is_refused: bool,
    refusal: Option<ImageError>,
}

/// The format of the disk in a file: as the words say, otherwise qcow2 if the file begins like an image.
pub fn format_of(storage: &mut FileStorage, format: Option<DiskFormat>) -> Format {
    match format {
        Some(DiskFormat::Raw) => Format::Raw,
        Some(DiskFormat::Qcow2) => Format::Qcow2,
        None => match Qcow2::<FileStorage>::probe(storage) {
            Ok(true) => Format::Qcow2,
            _ => Format::Raw,
        },
    }
}

/// Makes an image or a raw disk from another one, as the words say, and returns the exit status.
pub fn convert(
    rt: &HostRuntime,
    words: &Words<'_>,
    names: Names<'_>,
    output: &mut impl Write,
) -> u8 {
    let settings = &words.settings;
    let mut source = match file_storage::open_read_only(rt, names.from) {
        Ok(source) => source,
        Err(e) => return refuse_file(rt, names.from, &e),
    };
    let format = match (settings.source, settings.target) {
        (None, DiskFormat::Raw) => Format::Qcow2,
        (format, _) => format_of(&mut source, format),
    };
    let status = match (format, settings.target) {
        (Format::Raw, _) if !words.layers.is_empty() => {
            refuse(rt, names.from, "a raw disk lies over no backing file")
        }
        (Format::Raw, DiskFormat::Raw) => refuse(
            rt,
            names.from,
            "a raw disk of a raw disk is a copy, as cp makes it",
        ),
        (Format::Raw, DiskFormat::Qcow2) => convert_raw_disk(rt, settings, names, source, output),
        (Format::Qcow2, _) => convert_image(rt, words, names, source, output),
    };
    if settings.flags.shows_progress && status == DONE {
        let _ = writeln!(output, "    (100.00/100%)");
    }
    status
}

fn convert_raw_disk(
    rt: &HostRuntime,
    settings: &Settings<'_>,
    names: Names<'_>,
    source: FileStorage,
    output: &mut impl Write,
) -> u8 {
    let source = match StreamedFile::new(rt.alloc(), source) {
        Ok(source) => Source::File(names.from, source),
        Err(e) => return refuse_file(rt, names.from, &io::Error::from(e)),
    };
    match open_target(rt, names, None) {
        Ok((file, target)) => convert_file(rt, settings, names, source, file, target, output),
        Err(e) => refuse_file(rt, names.to, &e),
    }
}

// Converts an image, over the files that the words name below it. All of them are opened before the target is.
fn convert_image(
    rt: &HostRuntime,
    words: &Words<'_>,
    names: Names<'_>,
    source: FileStorage,
    output: &mut impl Write,
) -> u8 {
    let mut source = source;
    let size = match header_size(rt, names.from, &mut source) {
        Ok(size) => size,
        Err(status) => return status,
    };
    let source = match open_source(rt, words, names, source) {
        Ok(source) => source,
        Err(status) => return status,
    };
    let needed = match words.settings.target {
        DiskFormat::Raw => Some(size),
        DiskFormat::Qcow2 => None,
    };
    match open_target(rt, names, needed) {
        Ok((file, target)) => convert_file(
            rt,
            &words.settings,
            names,
            source,
            file,
            target,
            output,
        ),
        Err(e) => refuse_file(rt, names.to, &e),
    }
}

// A raw disk is made of an image alone by its tables, so that zeros take no time. Of anything else what is read is a disk.
fn open_source<'a>(
    rt: &HostRuntime,
    words: &'a Words<'_>,
    names: Names<'a>,
    source: FileStorage,
) -> Result<Source<'a>, u8> {
    let makes_raw_disk = matches!(words.settings.target, DiskFormat::Raw);
    if makes_raw_disk && words.layers.is_empty() {
        return match StreamedFile::new(rt.alloc(), source) {
            Ok(source) => Ok(Source::File(names.from, source)),
            Err(e) => Err(refuse_file(rt, names.from, &io::Error::from(e))),
        };
    }
    let files = Files {
        names,
        below: &words.layers,
        format: match words.settings.other {
            Some(DiskFormat::Raw) => Some(Format::Raw),
            Some(DiskFormat::Qcow2) => Some(Format::Qcow2),
            None => None,
        },
    };
    let layers = open_layers(rt, &files, source)?;
    Ok(Source::Layers(files, DiskStorage::new(layers)))
}

// Opens the file that a conversion is to write, which can't be the one that it reads, and is to hold so many bytes.
fn open_target<'a>(
    rt: &'a HostRuntime,
    names: Names<'_>,
    needed: Option<u64>,
) -> io::Result<(StreamedFile, Target<'a>)> {
    if is_same_file(rt, names.from, names.to) {
        return Err(io::Error::new(io::ErrorKind::InvalidInput, "it is the file that is read"));
    }
    let (file, place) = replace(rt, names.to)?;
    let target = Target::new(rt, place);
    match ready_file(rt, file, needed) {
        Ok(file) => Ok((file, target)),
        Err(e) => {
            target.discard();
            Err(e)
        }
    }
}

// A file that is to hold so many bytes. Refused where it can't; no file has 2 ^ 63.
fn ready_file(
    rt: &HostRuntime,
    file: FileStorage,
    needed: Option<u64>,
) -> io::Result<StreamedFile> {
    let mut file = file;
    if let (Some(size), Ok(greatest)) = (needed, file.greatest_size()) {
        let greatest = greatest.min(i64::MAX as u64);
        if size > greatest {
            let text = format!(in rt.alloc();
                "it can hold {greatest} bytes, and the disk has {size}"
            )?;
            return Err(io::Error::new(io::ErrorKind::FileTooLarge, &text));
        }
    }
    Ok(StreamedFile::new(rt.alloc(), file)?)
}

/// The size of an image's disk by its header. The status where that is refused, and then it is told what the file is.
pub fn header_size(rt: &HostRuntime, file: &str, storage: &mut FileStorage) -> Result<u64, u8> {
    let refusal = match disk_size(rt.alloc(), storage) {
        Ok(size) => return Ok(size),
        Err(refusal) => refusal,
    };
    let failed: Result<u8, Failure> = Err(Failure::Refused(refusal));
    let status = ended(rt, file, storage.last_error(), &failed);
    explain(rt, file, storage, &failed);
    Err(status)
}

// Converts what is open to a file that is open, which gets its name at the end. Of a file that is a raw disk it is told how far it was
// read or written.
fn convert_file(
    rt: &HostRuntime,
    settings: &Settings<'_>,
    names: Names<'_>,
    source: Source<'_>,
    file: StreamedFile,
    target: Target<'_>,
    output: &mut impl Write,
) -> u8 {
    let mut source = source;
    let mut file = file;
    if settings.flags.shows_progress {
        let _ = write!(output, "    (0.00/100%)\r");
        let _ = output.flush();
        match (&mut source, settings.target) {
            (Source::File(_, _), DiskFormat::Raw) => file.shows_progress(rt.stdout()),
            (Source::File(_, source), DiskFormat::Qcow2) => source.shows_progress(rt.stdout()),
            (Source::Layers(_, _), _) => {}
        }
    }
    let mut target = target;
    let (unread, made) = convert_source(rt, settings, source, file, &mut target);
    end_conversion(rt, settings, names, unread, made, target)
}

// Converts what is open to a file, which gets its name at the end, and answers what came of it, and why the source wasn't read if it wasn't.
fn convert_source<'a>(
    rt: &HostRuntime,
    settings: &Settings<'_>,
    source: Source<'a>,
    file: StreamedFile,
    target: &mut Target<'_>,
) -> (Unread<'a>, Result<u64, Unplaced<StreamedFile>>) {
    let verifies = settings.flags.verifies;
    match source {
        Source::File(name, source) => {
            let how = how_converted(settings);
            let (source, made) = convert_storage(rt.alloc(), source, file, target, how, verifies);
            let unread = Unread {
                file: name,
                cause: source.last_error(),
                is_refused: false,
                refusal: None,
            };
            (unread, made)
        }
        Source::Layers(files, source) => {
            let (source, made) = match settings.target {
                DiskFormat::Raw => {
                    let how = Conversion::RawToRaw;
                    convert_storage(rt.alloc(), source, file, target, how, verifies)
                }
                DiskFormat::Qcow2 => {
                    let layout = Layout {
                        cluster: settings.layout.cluster_size,
                        width: settings.layout.refcount_bits,
                    };
                    convert_disk(rt.alloc(), source, file, target, layout, verifies)
                }
            };
            (unread_layer(&files, source), made)
        }
    }
}

// A file is an image of which a raw disk is made, or a raw disk of which an image is made.
fn how_converted(settings: &Settings<'_>) -> Conversion {
    match settings.target {
        DiskFormat::Raw => Conversion::ImageToRaw,
        DiskFormat::Qcow2 => Conversion::RawToImage {
            cluster: settings.layout.cluster_size,
            width: settings.layout.refcount_bits,
        },
    }
}

// Which of the layers was read last, and why that was refused if it was.
fn unread_layer<'a>(files: &Files<'a>, source: DiskStorage<Layers<StreamedFile>>) -> Unread<'a> {
    let is_refused = source.has_failed();
    let (layers, refusal) = source.into_parts();
    let (place, storage) = layers.into_last_read();
    let cause = match storage {
        Some(storage) => storage.last_error(),
        None => None,
    };
    Unread {
        file: files.name(place),
        cause,
        is_refused,
        refusal,
    }
}

// Ends a conversion. A file that didn't get its name is removed, and what failed is told of the file that failed.
fn end_conversion(
    rt: &HostRuntime,
    settings: &Settings<'_>,
    names: Names<'_>,
    unread: Unread<'_>,
    made: Result<u64, Unplaced<StreamedFile>>,
    target: Target<'_>,
) -> u8 {
    match made {
        Ok(size) => {
            if matches!(settings.target, DiskFormat::Qcow2) {
                warn_of_sectors(rt, names.to, size);
            }
            DONE
        }
        Err(Unplaced::Unnamed(e)) => refuse_file(rt, names.to, &e),
        Err(Unplaced::Unmade(file, unmade)) => {
            let status = tell_unmade(rt, names, unread, file, unmade);
            target.discard();
            status
        }
    }
}

// Tells why a file isn't what was to be made.
fn tell_unmade(
    rt: &HostRuntime,
    names: Names<'_>,
    unread: Unread<'_>,
    file: StreamedFile,
    unmade: Unmade,
) -> u8 {
    let mut file = file;
    let _ = file.flush();
    let (refusal, is_of_target) = match unmade {
        Unmade::Differs => {
            return refuse(
                rt,
                names.to,
                "it was written, and reads otherwise than the source",
            );
        }
        Unmade::Unread(found) => (found.cause, found.is_other),
        Unmade::Refused(refusal) => {
            let is_of_target = is_of_target(&file, &unread, &refusal);
            (refusal, is_of_target)
        }
    };
    if is_of_target {
        return refused(rt, names.to, file.last_error(), refusal);
    }
    let refusal = unread.refusal.unwrap_or(refusal);
    refused(rt, unread.file, unread.cause, refusal)
}

// Whether it is the file that is written which was refused.
fn is_of_target(file: &StreamedFile, unread: &Unread<'_>, refusal: &ImageError) -> bool {
    !unread.is_refused && (file.last_error().is_some() || *refusal == ImageError::InvalidOption)
}
