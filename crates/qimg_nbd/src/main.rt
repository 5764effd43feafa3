//! Serves a qcow2 image to one client of the NBD protocol, over standard input and output.
#![tactic(auto)]

mod image_device;
mod words;

use crate::image_device::ImageDevice;
use crate::words::{Invocation, USAGE, words};
use file_storage::FileStorage;
use image_access::Storage;
use nbd_protocol::serve;
use qcow2_image::{NoBacking, Qcow2};
use std::fmt::Display;
use std::io;
use std::io::{BufReader, BufWriter, Write};
use std::process::ExitCode;

// The exit status after a client was served.
const DONE: u8 = 0;

// The exit status if the image could not be opened, served or kept.
const FAILED: u8 = 1;

// The exit status if the words can't be read.
const UNREADABLE: u8 = 2;

// The words after the program's name. If one isn't UTF-8, there are none.
fn given_words(rt: &HostRuntime) -> io::Result<Vec<String>> {
    let mut given = Vec::new(rt.alloc());
    match std::env::args(rt) {
        Ok(all) => {
            for word in all.skip(1) {
                given.push(word)?;
            }
        }
        Err(e) if e.kind() == io::ErrorKind::OutOfMemory => return Err(e),
        Err(_) => {}
    }
    Ok(given)
}

// Reports on standard error what is wrong with a file, and returns the exit status.
fn report<E: Display>(rt: &HostRuntime, file: &str, cause: &E) -> u8 {
    let _ = writeln!(rt.stderr(), "qimg-nbd: {file}: {cause}");
    FAILED
}

fn open_storage(rt: &HostRuntime, invocation: &Invocation<'_>) -> io::Result<FileStorage> {
    if invocation.read_only {
        file_storage::open_read_only(rt, invocation.file)
    } else {
        file_storage::open(rt, invocation.file)
    }
}

// Serves a file. An image that needs another file is refused.
fn serve_file(rt: &HostRuntime, invocation: &Invocation<'_>) -> u8 {
    let file = invocation.file;
    let storage = match open_storage(rt, invocation) {
        Ok(storage) => storage,
        Err(e) => return report(rt, file, &e),
    };
    let opened = Qcow2::<FileStorage, NoBacking>::open_alone(
        rt.alloc(),
        storage,
        !invocation.read_only,
        1,
    );
    match opened {
        Ok(image) => serve_image(rt, file, image),
        Err((storage, e)) => match storage.last_error() {
            Some(cause) => report(rt, file, &cause),
            None => report(rt, file, &e),
        },
    }
}

fn serve_image(rt: &HostRuntime, file: &str, image: Qcow2<FileStorage, NoBacking>) -> u8 {
    let (Ok(mut reader), Ok(mut writer)) = (
        BufReader::new(rt.alloc(), rt.reader()),
        BufWriter::new(rt.alloc(), io::writer(rt)),
    ) else {
        return report(rt, file, &"memory is missing");
    };
    let mut device = ImageDevice::new(image);
    let served = serve(rt.alloc(), &mut reader, &mut writer, &mut device);
    let storage = device.into_image().into_storage();
    if let Some(cause) = storage.last_error() {
        report(rt, file, &cause);
    }
    match served {
        Ok(()) => DONE,
        Err(e) => report(rt, file, &e),
    }
}

fn main(rt: HostRuntime) -> ExitCode {
    let status = match given_words(&rt) {
        Ok(given) => match words(&given) {
            Some(invocation) => serve_file(&rt, &invocation),
            None => {
                let _ = writeln!(rt.stderr(), "{USAGE}");
                UNREADABLE
            }
        },
        Err(e) => report(&rt, "arguments", &e),
    };
    ExitCode::from(status)
}
