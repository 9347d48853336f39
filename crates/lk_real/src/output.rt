//! How a file to be written is begun: as a new file, also where one stands under its name.
//!
//! Linkers do not write over an executable that is there: it may be running, have further names, or be written by another
//! link at this moment. The new file gets a name of its own first, in the same folder, and then takes the name that is asked
//! for, in one step of the system's. So a begin that fails leaves what was there, no one sees the name without a file, and
//! each of two links at once writes to a file that no other writes to.
#![tactic(auto)]

ghost use Rattle.std.specs.Prelude.{◌↔◌, IsTrue};
ghost use Rattle.std.specs.Fs.{file_type, IsFile};

use arrayvec::ArrayString;
use lk_depot::FileKind;
use std::fmt::Write;
use std::fs::{self, File, Metadata, Permissions};
use std::io::ErrorKind;
use std::os::unix::fs::{OpenOptionsExt, PermissionsExt};
use std::{io, process};

/// The most bytes of a path: the system opens none that has as many.
pub(crate) const MOST_PATH: usize = 4096;

/// The permissions of a file that may be run, less the umask.
const EXECUTABLE_MODE: u32 = 0o755;

/// The permissions of a file that is only read, less the umask.
const PLAIN_MODE: u32 = 0o644;

/// How many names are tried for a new file beside another, before it is given up.
const MOST_TRIES: u32 = 1 << 16;

/// A file that is open to be written to. Its name lies here and not in memory from an allocator, so that no want of memory
/// parts a file that was begun from the appends that follow.
#[derive(Drop)]
pub(crate) struct Output {
    pub(crate) name: ArrayString<MOST_PATH>,
    pub(crate) file: File,
}

/// The file of this name, empty: a new one, or, where something else than a regular file stands there, that, emptied.
pub(crate) fn begun(rt: &HostRuntime, name: &str, kind: FileKind) -> io::Result<Output> {
    let kept = kept_name(name)?;
    let file = begun_file(rt, name, kind)?;
    Ok(Output { name: kept, file })
}

/// The file of this name, made if it is not there, to be written to at its end.
pub(crate) fn at_end(rt: &HostRuntime, name: &str) -> io::Result<Output> {
    let kept = kept_name(name)?;
    let file = File::options()
        .append(true)
        .create(true)
        .mode(PLAIN_MODE)
        .open(rt, name)?;
    Ok(Output { name: kept, file })
}

/// A copy of a name, which is refused if no file can have it.
fn kept_name(name: &str) -> io::Result<ArrayString<MOST_PATH>> {
    match ArrayString::from(name) {
        Ok(kept) => Ok(kept),
        Err(_) => Err(io::Error::from(ErrorKind::InvalidFilename)),
    }
}

fn begun_file(rt: &HostRuntime, name: &str, kind: FileKind) -> io::Result<File> {
    match new_file(rt, name, kind) {
        Ok(file) => return Ok(file),
        Err(error) => {
            if error.kind() != ErrorKind::AlreadyExists {
                return Err(error);
            }
        }
    }
    match fs::symlink_metadata(rt, name) {
        Ok(found) => {
            if !is_replaced(&found) {
                return in_place(rt, name, kind);
            }
        }
        Err(error) => {
            // What was there a moment ago may be gone. A new file may then take the name as well.
            if error.kind() != ErrorKind::NotFound {
                return Err(error);
            }
        }
    }
    replacement(rt, name, kind)
}

/// Whether what stands under a name makes way for a new file: a regular file alone does. A device, a FIFO or a symbolic link
/// is there to be written to, and a folder can't be.
fn is_replaced(found: &Metadata) -> bool
    ensures { IsTrue result ↔ IsFile (file_type found.now) }
{
    found.is_file()
}

fn mode_of(kind: FileKind) -> u32 {
    match kind {
        FileKind::Executable => EXECUTABLE_MODE,
        FileKind::Plain => PLAIN_MODE,
    }
}

/// A new file of this name, if nothing has it.
fn new_file(rt: &HostRuntime, name: &str, kind: FileKind) -> io::Result<File> {
    File::options()
        .write(true)
        .create_new(true)
        .mode(mode_of(kind))
        .open(rt, name)
}

/// A new file that takes this name from the regular file which has it.
fn replacement(rt: &HostRuntime, name: &str, kind: FileKind) -> io::Result<File> {
    let process = process::id(rt.process());
    for turn in 0..MOST_TRIES {
        let beside = sibling_name(name, process, turn)?;
        match new_file(rt, beside.as_str(), kind) {
            Ok(file) => return renamed(rt, file, beside.as_str(), name),
            Err(error) => {
                if error.kind() != ErrorKind::AlreadyExists {
                    return Err(error);
                }
            }
        }
    }
    Err(io::Error::from(ErrorKind::AlreadyExists))
}

/// A name in the folder of `name`. It is short whatever that is, and its process does not try it twice for one file.
fn sibling_name(name: &str, process: u32, turn: u32) -> io::Result<ArrayString<MOST_PATH>> {
    let mut beside = match name.rsplit_once('/') {
        Some((folder, _)) => kept_name(folder)?,
        None => kept_name(".")?,
    };
    match write!(beside, "/.rvld-{process}-{turn}.new") {
        Ok(()) => Ok(beside),
        Err(_) => Err(io::Error::from(ErrorKind::InvalidFilename)),
    }
}

/// A file under another name: whatever has that is no longer reached by it. If that fails, the file is removed.
fn renamed(rt: &HostRuntime, file: File, from: &str, to: &str) -> io::Result<File> {
    match fs::rename(rt, from, to) {
        Ok(()) => Ok(file),
        Err(error) => {
            let _ = fs::remove_file(rt, from);
            Err(error)
        }
    }
}

/// What stands under this name, emptied where it is a link to a file. A file to which a link leads nowhere is made.
fn in_place(rt: &HostRuntime, name: &str, kind: FileKind) -> io::Result<File> {
    let file = File::options()
        .write(true)
        .create(true)
        .truncate(true)
        .mode(mode_of(kind))
        .open(rt, name)?;
    match kind {
        FileKind::Executable => allow_running(&file),
        FileKind::Plain => {}
    }
    Ok(file)
}

/// Lets those who may read a file that was there run it. If that is refused, the permissions stay.
fn allow_running(file: &File) {
    let Ok(metadata) = file.metadata() else {
        return;
    };
    if metadata.is_file() {
        let mode = metadata.permissions().mode() & 0o777;
        let _ = file.set_permissions(Permissions::from_mode(mode | (mode & 0o444) >> 2));
    }
}
