//! The everyday subcommands of `qemu-img`, and `vet`: describes, maps, checks, vets, compares, converts, creates and resizes disk images.
#![tactic(auto)]

mod checking;
mod comparing;
mod converting;
mod creating;
mod failures;
mod headers;
mod info;
mod json;
mod layers;
mod making;
mod map;
mod messages;
mod plain;
mod resizing;
mod sizes;
mod target;
mod touched;
mod uncovered;
mod vetting;
mod words;

use crate::checking::check;
use crate::comparing::{Uncompared, compare};
use crate::converting::{Names, convert, format_of};
use crate::failures::Failure;
use crate::headers::begins_qcow2;
use crate::info::{File, info};
use crate::making::create_file;
use crate::map::map;
use crate::messages::{
    DONE, REFUSED, ended, explain, misused, refuse, refuse_file, warn_of_sectors,
};
use crate::resizing::{Resizing, Unresized, resize};
use crate::sizes::{SizeChange, size, size_change};
use crate::vetting::{Candidate, vet};
use crate::words::{BadWord, Command, Settings, USAGE, Words, read_words};
use file_storage::FileStorage;
use image_access::Format;
use qcow2_image::ImageError;
use std::io;
use std::io::{BufWriter, Write};
use std::os::unix::fs::MetadataExt;
use std::process::ExitCode;

/// The exit status of a check of a file that is no qcow2 image.
const NO_IMAGE: u8 = 63;

/// The exit status of a comparison that failed.
const UNCOMPARED: u8 = 2;

// The words after the program's name. Refused if one isn't UTF-8.
fn given_words(rt: &HostRuntime) -> io::Result<Vec<String>> {
    let mut given = Vec::new(rt.alloc());
    for word in std::env::args(rt)?.skip(1) {
        given.push(word)?;
    }
    Ok(given)
}

// The size of a file on its device, if the system says it.
fn room_of(rt: &HostRuntime, file: &str) -> Option<u64> {
    match std::fs::metadata(rt, file) {
        Ok(metadata) => metadata.blocks().checked_mul(512),
        Err(_) => None,
    }
}

// A task on an image that is only read.
fn read_image(
    rt: &HostRuntime,
    command: Command,
    settings: &Settings<'_>,
    file: &str,
    output: &mut impl Write,
) -> u8 {
    let mut storage = match file_storage::open_read_only(rt, file) {
        Ok(storage) => storage,
        Err(e) => return refuse_file(rt, file, &e),
    };
    let form = settings.form;
    let done = match command {
        Command::Map => {
            let (left, done) = map(rt.alloc(), storage, file, form, output);
            storage = left;
            done.map(|_| DONE)
        }
        Command::Check if begins_qcow2(&mut storage) == Some(false) => {
            explain_no_image(rt, file, &mut storage);
            return NO_IMAGE;
        }
        Command::Check => check(rt.alloc(), &mut storage, file, form, output),
        Command::Vet => vet(
            rt.alloc(),
            &mut storage,
            &Candidate {
                name: file,
                max_size: settings.max_size,
            },
            form,
            output,
        ),
        _ => {
            let room = room_of(rt, file);
            let file = File { name: file, room };
            info(rt.alloc(), &mut storage, &file, form, output).map(|_| DONE)
        }
    };
    let status = ended(rt, file, storage.last_error(), &done);
    explain(rt, file, &mut storage, &done);
    status
}

// Explains why a file can't be checked: it is no image.
fn explain_no_image(rt: &HostRuntime, file: &str, storage: &mut FileStorage) {
    let refused: Result<u8, Failure> = Err(Failure::Refused(ImageError::Metadata));
    ended(rt, file, None, &refused);
    explain(rt, file, storage, &refused);
}

fn resize_file(
    rt: &HostRuntime,
    settings: &Settings<'_>,
    file: &str,
    change: SizeChange,
    output: &mut impl Write,
) -> u8 {
    let storage = match file_storage::open(rt, file) {
        Ok(storage) => storage,
        Err(e) => return refuse_file(rt, file, &e),
    };
    let how = Resizing {
        change,
        preallocate: settings.preallocate,
        shrinks: settings.flags.shrinks,
    };
    let (mut storage, done) = resize(rt.alloc(), storage, &how);
    match done {
        Ok(size) => {
            warn_of_sectors(rt, file, size);
            match settings.flags.is_quiet {
                true => DONE,
                false => say("Image resized.", output),
            }
        }
        Err(Unresized::Refused(refusal)) => {
            let done: Result<u8, Failure> = Err(Failure::Refused(refusal));
            let status = ended(rt, file, storage.last_error(), &done);
            explain(rt, file, &mut storage, &done);
            status
        }
        Err(Unresized::NoSize) => refuse(rt, file, "no disk has such a size"),
        Err(Unresized::WouldShrink(bytes)) => {
            let _ = writeln!(
                rt.stderr(),
                "qimg-tools: {file}: its last {bytes} bytes would be lost: --shrink allows it"
            );
            REFUSED
        }
    }
}

fn compare_files(
    rt: &HostRuntime,
    settings: &Settings<'_>,
    names: Names<'_>,
    output: &mut impl Write,
) -> u8 {
    let mut one = match file_storage::open_read_only(rt, names.from) {
        Ok(one) => one,
        Err(e) => {
            refuse_file(rt, names.from, &e);
            return UNCOMPARED;
        }
    };
    let mut other = match file_storage::open_read_only(rt, names.to) {
        Ok(other) => other,
        Err(e) => {
            refuse_file(rt, names.to, &e);
            return UNCOMPARED;
        }
    };
    let format = format_of(&mut one, settings.source);
    let other_format = format_of(&mut other, settings.other);
    let (one, other, found) = if settings.flags.is_quiet {
        compare(
            rt.alloc(),
            (one, format),
            (other, other_format),
            &mut io::sink(),
        )
    } else {
        compare(rt.alloc(), (one, format), (other, other_format), output)
    };
    match found {
        Ok(status) => return status,
        Err(uncompared) => tell_uncompared(rt, names, (one, other), uncompared),
    }
    UNCOMPARED
}

// Reports which of two files could not be compared, and why.
fn tell_uncompared(
    rt: &HostRuntime,
    names: Names<'_>,
    files: (FileStorage, FileStorage),
    uncompared: Uncompared,
) {
    let (mut one, mut other) = files;
    let unread = match uncompared {
        Uncompared::Unread(unread) => unread,
        Uncompared::Unprinted(cause) => {
            refuse_file(rt, "standard output", &cause);
            return;
        }
    };
    let (file, storage) = if unread.is_other {
        (names.to, &mut other)
    } else {
        (names.from, &mut one)
    };
    let done: Result<u8, Failure> = Err(Failure::Refused(unread.cause));
    ended(rt, file, storage.last_error(), &done);
    explain(rt, file, storage, &done);
}

fn say(line: &str, output: &mut impl Write) -> u8 {
    match writeln!(output, "{line}") {
        Ok(()) => DONE,
        Err(_) => REFUSED,
    }
}

// Does what the words say. A comparison that fails has a status of its own, since 1 means that the disks differ.
fn run_words(rt: &HostRuntime, given: &[String], output: &mut impl Write) -> u8 {
    match read_words(rt.alloc(), given) {
        Ok(words) => run_command(rt, &words, output),
        Err(bad) => {
            misused(rt, bad);
            match given.first() {
                Some(name) if name.as_str() == "compare" => UNCOMPARED,
                _ => REFUSED,
            }
        }
    }
}

fn run_comparison(rt: &HostRuntime, settings: &Settings<'_>, output: &mut impl Write) -> u8 {
    match settings.operands {
        (Some(from), Some(to)) => compare_files(rt, settings, Names { from, to }, output),
        _ => {
            misused(rt, missing("a second file is missing"));
            UNCOMPARED
        }
    }
}

fn run_command(rt: &HostRuntime, words: &Words<'_>, output: &mut impl Write) -> u8 {
    let settings = &words.settings;
    match (words.command, settings.operands) {
        _ if settings.flags.wants_help => say(USAGE, output),
        (Command::Compare, _) => run_comparison(rt, settings, output),
        (Command::Help, (None, None)) => say(USAGE, output),
        (Command::Version, (None, None)) => say("qimg-tools 0.1.0", output),
        (Command::Create, (Some(file), Some(word))) => match size(word) {
            Some(size) => create_file(rt, settings, file, Some(size)),
            None => misused(rt, no_size(word)),
        },
        (Command::Create, (Some(file), None)) if settings.below.is_some() => {
            create_file(rt, settings, file, None)
        }
        (Command::Resize, (Some(file), Some(word))) => match size_change(word) {
            Some(change) => resize_file(rt, settings, file, change, output),
            None => misused(rt, no_size(word)),
        },
        (Command::Convert, (Some(from), Some(to))) => {
            convert(rt, words, Names { from, to }, output)
        }
        (Command::Info | Command::Map | Command::Check | Command::Vet, (Some(file), None)) => {
            read_image(rt, words.command, settings, file, output)
        }
        (Command::Create | Command::Convert | Command::Resize, _) => {
            misused(rt, missing("a second word is missing"))
        }
        (_, (None, _)) => misused(rt, missing("a file is missing")),
        (_, (Some(first), second)) => misused(
            rt,
            BadWord {
                word: second.unwrap_or(first),
                reason: "it is one word too many",
            },
        ),
    }
}

fn no_size(word: &str) -> BadWord<'_> {
    BadWord {
        word,
        reason: "not a size of 64 bits: a number of bytes, or of units of 1024 as in 64k and 1.5G",
    }
}

fn missing(reason: &'static str) -> BadWord<'static> {
    BadWord { word: "", reason }
}

fn main(rt: HostRuntime) -> ExitCode {
    let status = match (
        given_words(&rt),
        BufWriter::new(rt.alloc(), io::writer(&rt)),
    ) {
        (Ok(given), Ok(mut output)) => {
            let status = run_words(&rt, &given, &mut output);
            match output.flush() {
                Ok(()) => status,
                Err(e) => refuse_file(&rt, "standard output", &e),
            }
        }
        (Err(e), _) => refuse_file(&rt, "words", &e),
        _ => refuse_file(&rt, "words", &io::Error::from(io::ErrorKind::OutOfMemory)),
    };
    ExitCode::from(status)
}
