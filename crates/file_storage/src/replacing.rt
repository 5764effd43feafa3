//! Files that get their name when they are complete.

use crate::opening::{Identity, Opened, claimed, open_old, storage_of};
use crate::{FileStorage, StreamedFile};
use image_access::Storage;
use std::alloc::AllocError;
use std::fs::{File, Metadata, OpenOptions};
use std::os::unix::fs::{MetadataExt, OpenOptionsExt, PermissionsExt};
use std::path::{Path, PathBuf};
use std::rt::Files;
use std::{fs, io};

/// A file that `replace` opened. Call `finish` or `discard` on it.
#[derive(Drop)]
pub struct Replacement {
    part: Option<Part>,
}

/// A temporary file in the folder of the file that it will replace.
#[derive(Drop)]
struct Part {
    path: PathBuf,
    name: PathBuf,
    identity: Identity,
    // The old file, which stays locked until the new one has the name.
    old: Option<Opened>,
}

/// Opens an empty file that will replace the one with this name, if there is one. Until `finish` the new file has another name: `.NAME.qimg-part`
/// for `NAME`, in the same folder. A file that a killed run left under that name is removed. A block device, and anything else that isn't a regular
/// file, is opened itself. Refused as `create` is, and if the folder allows no new file.
pub fn replace<R: Files<File = File> + AllocGlobal>(
    rt: &R,
    path: &str,
) -> io::Result<(FileStorage, Replacement)> {
    match open_old(rt, path) {
        Ok(old) if old.metadata.is_file() => {
            let path = fs::canonicalize(rt, path)?;
            open_part(rt, path, Some(old))
        }
        Ok(device) => Ok((storage_of(rt, device, false)?, Replacement { part: None })),
        Err(e) if e.kind() == io::ErrorKind::NotFound && !is_link(rt, path) => {
            let path = PathBuf::from_str(rt.alloc(), path)?;
            open_part(rt, path, None)
        }
        Err(e) => Err(e),
    }
}

impl Replacement {
    /// Syncs the file, and gives it its name. If that fails, the file is removed. A file that was opened itself is flushed.
    pub fn finish<R: Files<File = File> + AllocGlobal>(
        self,
        rt: &R,
        file: &mut StreamedFile,
    ) -> io::Result<()> {
        let Some(part) = self.part else {
            let flushed = file.flush().is_ok();
            return told(file, flushed);
        };
        let done = put_in_place(rt, file, &part);
        if done.is_err() {
            remove(rt, &part);
        }
        done
    }

    /// Removes the file, so that everything is as before. A file that was opened itself stays.
    pub fn discard<R: Files<File = File> + AllocGlobal>(self, rt: &R) {
        if let Some(part) = self.part {
            remove(rt, &part);
        }
    }
}

fn is_link<R: Files>(rt: &R, path: &str) -> bool {
    rt.symlink_metadata(path).is_ok()
}

// Opens the temporary file for a name, with the permissions of the old file.
fn open_part<R: Files<File = File> + AllocGlobal>(
    rt: &R,
    path: PathBuf,
    old: Option<Opened>,
) -> io::Result<(FileStorage, Replacement)> {
    let name = part_name(rt, &path)?;
    let file = match new_file(rt, &name, &old) {
        Err(e) if e.kind() == io::ErrorKind::AlreadyExists => {
            remove_left(rt, &name)?;
            new_file(rt, &name, &old)?
        }
        answer => answer?,
    };
    let file = claimed(rt, file)?;
    let identity = Identity::of(&file.metadata);
    let storage = storage_of(rt, file, true)?;
    let part = Part {
        path,
        name,
        identity,
        old,
    };
    require_own(rt, &part)?;
    Ok((storage, Replacement { part: Some(part) }))
}

// The temporary file's name: `.NAME.qimg-part` for `NAME`.
fn part_name(rt: &impl AllocGlobal, path: &PathBuf) -> Result<PathBuf, AllocError> {
    let path = path.as_path();
    let name = path.file_name().unwrap_or("");
    let name = format!(in rt.alloc(); ".{name}.qimg-part")?;
    path.with_file_name(rt.alloc(), name.as_str())
}

// Creates a new file with the permissions of another, and with its owner if the system allows it.
fn new_file<R: Files<File = File>>(
    rt: &R,
    name: &PathBuf,
    old: &Option<Opened>,
) -> io::Result<File> {
    let mut how = OpenOptions::new();
    how.read(true).write(true).create_new(true);
    let Some(old) = old else {
        return how.open(rt, name.as_path());
    };
    let rights = old.metadata.permissions();
    let file = how.mode(rights.mode() & 0o777).open(rt, name.as_path())?;
    let _ = give(rt, name, &old.metadata);
    file.set_permissions(rights)?;
    Ok(file)
}

fn give<R: Files<File = File>>(rt: &R, name: &PathBuf, old: &Metadata) -> io::Result<()> {
    std::os::unix::fs::chown(rt, name.as_path(), Some(old.uid()), Some(old.gid()))
}

// Removes what a killed run left. Refused if it isn't a regular file, or a run is still writing it.
fn remove_left<R: Files<File = File> + AllocGlobal>(rt: &R, name: &PathBuf) -> io::Result<()> {
    if !fs::symlink_metadata(rt, name.as_path())?.is_file() {
        return Err(io::Error::from(io::ErrorKind::AlreadyExists));
    }
    let left = OpenOptions::new()
        .read(true)
        .write(true)
        .open(rt, name.as_path())?;
    let left = claimed(rt, left)?;
    if !has_name(rt, name, Identity::of(&left.metadata)) {
        return Err(io::Error::from(io::ErrorKind::WouldBlock));
    }
    fs::remove_file(rt, name.as_path())
}

fn has_name<R: Files>(rt: &R, name: &PathBuf, identity: Identity) -> bool {
    match fs::symlink_metadata(rt, name.as_path()) {
        Ok(metadata) => Identity::of(&metadata) == identity,
        Err(_) => false,
    }
}

// Refuses a file that another run removed before this one locked it.
fn require_own<R: Files>(rt: &R, part: &Part) -> io::Result<()> {
    if has_name(rt, &part.name, part.identity) {
        return Ok(());
    }
    Err(io::Error::new(io::ErrorKind::WouldBlock, "another program writes it"))
}

// Gives a file its name, and syncs the folder if possible.
fn put_in_place<R: Files<File = File> + AllocGlobal>(
    rt: &R,
    file: &mut StreamedFile,
    part: &Part,
) -> io::Result<()> {
    let synced = file.sync().is_ok();
    told(file, synced)?;
    require_own(rt, part)?;
    fs::rename(rt, part.name.as_path(), part.path.as_path())?;
    if let Some(folder) = part.path.as_path().parent() {
        let _ = sync_folder(rt, folder);
    }
    Ok(())
}

fn sync_folder<R: Files<File = File>>(rt: &R, folder: Path<'_>) -> io::Result<()> {
    let folder = if folder.as_str().is_empty() {
        Path::new(".")
    } else {
        folder
    };
    File::open(rt, folder)?.sync_all()
}

// The system's error of a file's last call, if it failed.
fn told(file: &StreamedFile, is_done: bool) -> io::Result<()> {
    if is_done {
        return Ok(());
    }
    Err(
        file.last_error()
            .unwrap_or(io::Error::from(io::ErrorKind::Other)),
    )
}

fn remove<R: Files>(rt: &R, part: &Part) {
    if has_name(rt, &part.name, part.identity) {
        let _ = fs::remove_file(rt, part.name.as_path());
    }
}
