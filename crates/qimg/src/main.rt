//! Creates qcow2 images, runs commands on them, checks them, and converts them from and to raw disks.
#![tactic(auto)]

mod checking;
mod conversions;
mod lines;
mod messages;
mod printing;
mod program;
mod reading;
mod words;

use crate::checking::report;
use crate::conversions::{export_raw, import_raw};
use crate::messages::report_cause;
use crate::program::{DONE, REFUSED, create, end, print_usage, refuse, script};
use crate::words::{Invocation, words};
use file_storage::{FileStorage, Replacement, StreamedFile, is_same_file, replace};
use image_access::{BackingDisk, Storage};
use program_parts::disk_size;
use qcow2_image::{ImageError, Qcow2};
use std::io;
use std::io::{BufReader, BufWriter, Write};
use std::process::ExitCode;

// The length of the longest answer, in bytes.
const ANSWER: usize = 64;

// The words after the program's name. If one isn't UTF-8, there are none.
fn given_words(rt: &HostRuntime) -> io::Result<Vec<String>> {
    let mut given = Vec::new(rt.alloc());
    match std::env::args(rt) {
        Ok(all) => {
            for word in all.skip(1) {
                given.push(word)?;
            }
        }
        Err(e) if e.kind() == io::ErrorKind::OutOfMemory => return Err(e),
        Err(_) => {}
    }
    Ok(given)
}

// Reports why a file could not be opened or kept, and refuses.
fn refuse_file(rt: &HostRuntime, file: &str, cause: &io::Error, output: &mut impl Write) -> u8 {
    if cause.kind() == io::ErrorKind::OutOfMemory {
        return refuse(output, &ImageError::Memory);
    }
    report_cause(&mut rt.stderr(), file, cause);
    refuse(output, &ImageError::Storage)
}

// Reports why a call of the storage last failed, if the run failed.
fn tell(rt: &HostRuntime, file: &str, status: u8, cause: Option<io::Error>) -> u8 {
    if status != DONE {
        if let Some(cause) = cause {
            report_cause(&mut rt.stderr(), file, &cause);
        }
    }
    status
}

// Prints an answer that was buffered until its work was done, and returns the exit status.
fn print_answer(answer: &Vec<u8>, status: u8, output: &mut impl Write) -> u8 {
    let printed = output.write_all(answer);
    match end(printed, output) {
        DONE => status,
        unprinted => unprinted,
    }
}

// Creates an image in a file. If that fails, a new file is removed.
fn create_file(
    rt: &HostRuntime,
    file: &str,
    invocation: &Invocation<'_>,
    output: &mut impl Write,
) -> u8 {
    let Ok(mut answer) = Vec::with_capacity(rt.alloc(), ANSWER) else {
        return refuse(output, &ImageError::Memory);
    };
    let storage = match file_storage::create(rt, file) {
        Ok(storage) => storage,
        Err(e) => return refuse_file(rt, file, &e, output),
    };
    let (status, storage) = create(rt.alloc(), storage, invocation, &mut answer);
    if status != DONE && storage.is_new() {
        let _ = std::fs::remove_file(rt, file);
    }
    tell(rt, file, status, storage.last_error());
    print_answer(&answer, status, output)
}

fn run_file(rt: &HostRuntime, file: &str, output: &mut impl Write) -> u8 {
    let storage = match file_storage::open(rt, file) {
        Ok(storage) => storage,
        Err(e) => return refuse_file(rt, file, &e, output),
    };
    let Ok(mut input) = BufReader::new(rt.alloc(), rt.reader()) else {
        return refuse(output, &ImageError::Memory);
    };
    let (status, _, storage) = script::<_, Box<dyn BackingDisk>, _, _, _>(
        rt.alloc(),
        storage,
        &mut input,
        output,
        &mut rt.stderr(),
    );
    tell(rt, file, status, storage.last_error())
}

fn check_file(rt: &HostRuntime, file: &str, output: &mut impl Write) -> u8 {
    let mut storage = match file_storage::open_read_only(rt, file) {
        Ok(storage) => storage,
        Err(e) => return refuse_file(rt, file, &e, output),
    };
    let status = report(rt.alloc(), &mut storage, output);
    tell(rt, file, status, storage.last_error())
}

// Opens the target of a conversion, which can't be its source.
fn open_target(
    rt: &HostRuntime,
    source: &str,
    target: &str,
) -> io::Result<(FileStorage, Replacement)> {
    if is_same_file(rt, source, target) {
        return Err(io::Error::new(io::ErrorKind::InvalidInput, "it is the file that is read"));
    }
    replace(rt, target)
}

// Refuses a target that is too small for an image's disk. If the header isn't readable, nothing is refused here.
fn require_room(
    rt: &HostRuntime,
    image: &mut FileStorage,
    target: &mut FileStorage,
) -> io::Result<()> {
    let (Ok(size), Ok(greatest)) = (disk_size(rt.alloc(), image), target.greatest_size()) else {
        return Ok(());
    };
    if size <= greatest {
        return Ok(());
    }
    let text = format!(in rt.alloc(); "it can hold {greatest} bytes, and the disk has {size}")?;
    Err(io::Error::new(io::ErrorKind::FileTooLarge, &text))
}

// Ends a conversion: a complete file gets its name, and an incomplete one is removed. The answer says what happened.
fn end_conversion(
    rt: &HostRuntime,
    file: &str,
    storage: &mut StreamedFile,
    place: Replacement,
    status: u8,
    answer: &mut Vec<u8>,
) -> u8 {
    if status != DONE {
        let _ = storage.flush();
        place.discard(rt);
        return tell(rt, file, status, storage.last_error());
    }
    match place.finish(rt, storage) {
        Ok(()) => status,
        Err(e) => {
            answer.clear();
            refuse_file(rt, file, &e, answer)
        }
    }
}

// Imports a raw disk. The raw disk is opened first: if that fails, no file is created.
fn import_file(
    rt: &HostRuntime,
    raw: &str,
    file: &str,
    invocation: &Invocation<'_>,
    output: &mut impl Write,
) -> u8 {
    let mut disk = match file_storage::open_read_only(rt, raw) {
        Ok(disk) => disk,
        Err(e) => return refuse_file(rt, raw, &e, output),
    };
    if let Err(e) = report_image(rt, raw, &mut disk) {
        tell(rt, raw, REFUSED, disk.last_error());
        return refuse(output, &e);
    }
    let (storage, place) = match open_target(rt, raw, file) {
        Ok(target) => target,
        Err(e) => return refuse_file(rt, file, &e, output),
    };
    let alloc = rt.alloc();
    let (Ok(mut disk), Ok(storage), Ok(mut answer)) = (
        StreamedFile::new(alloc, disk),
        StreamedFile::new(alloc, storage),
        Vec::with_capacity(alloc, ANSWER),
    ) else {
        place.discard(rt);
        return refuse(output, &ImageError::Memory);
    };
    let (status, mut storage) = import_raw(alloc, &mut disk, storage, invocation, &mut answer);
    tell(rt, raw, status, disk.last_error());
    let status = end_conversion(rt, file, &mut storage, place, status, &mut answer);
    print_answer(&answer, status, output)
}

// Warns of a raw disk that begins like an image: perhaps it is one that was to be copied.
fn report_image(rt: &HostRuntime, raw: &str, disk: &mut FileStorage) -> Result<(), ImageError> {
    if Qcow2::<FileStorage>::probe(disk)? {
        report_cause(
            &mut rt.stderr(),
            raw,
            &"it begins as a qcow2 image, and its bytes become the disk of another",
        );
    }
    Ok(())
}

// Exports an image. The image is opened first: if that fails, no raw disk is created.
fn export_file(rt: &HostRuntime, file: &str, raw: &str, output: &mut impl Write) -> u8 {
    let mut storage = match file_storage::open_read_only(rt, file) {
        Ok(storage) => storage,
        Err(e) => return refuse_file(rt, file, &e, output),
    };
    let (mut disk, place) = match open_target(rt, file, raw) {
        Ok(target) => target,
        Err(e) => return refuse_file(rt, raw, &e, output),
    };
    if let Err(e) = require_room(rt, &mut storage, &mut disk) {
        place.discard(rt);
        return refuse_file(rt, raw, &e, output);
    }
    let alloc = rt.alloc();
    let (Ok(mut disk), Ok(storage), Ok(mut answer)) = (
        StreamedFile::new(alloc, disk),
        StreamedFile::new(alloc, storage),
        Vec::with_capacity(alloc, ANSWER),
    ) else {
        place.discard(rt);
        return refuse(output, &ImageError::Memory);
    };
    let (status, storage) = export_raw(alloc, storage, &mut disk, &mut answer);
    tell(rt, file, status, storage.last_error());
    let status = end_conversion(rt, raw, &mut disk, place, status, &mut answer);
    print_answer(&answer, status, output)
}

fn run_words(rt: &HostRuntime, given: &[String], output: &mut impl Write) -> u8 {
    let Some(invocation) = words(given) else {
        return print_usage(output);
    };
    match invocation {
        Invocation::Create { file, .. } => create_file(rt, file, &invocation, output),
        Invocation::Run { file } => run_file(rt, file, output),
        Invocation::Check { file } => check_file(rt, file, output),
        Invocation::Import { raw, file, .. } => import_file(rt, raw, file, &invocation, output),
        Invocation::Export { file, raw } => export_file(rt, file, raw, output),
    }
}

fn main(rt: HostRuntime) -> ExitCode {
    let status = match (
        given_words(&rt),
        BufWriter::new(rt.alloc(), io::writer(&rt)),
    ) {
        (Ok(given), Ok(mut output)) => {
            let status = run_words(&rt, &given, &mut output);
            match output.flush() {
                Ok(()) => status,
                Err(e) => {
                    report_cause(&mut rt.stderr(), "standard output", &e);
                    status.max(REFUSED)
                }
            }
        }
        _ => refuse(&mut io::writer(&rt), &ImageError::Memory),
    };
    ExitCode::from(status)
}
