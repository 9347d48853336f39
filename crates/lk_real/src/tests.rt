// Real files and streams: what reaches the system and comes back, which no clause says.
ghost use Rattle.std.specs.Prelude.{◌≤◌};

use crate::{RealDepot, StdSink, Stream};
use lk_depot::{Depot, Failed, FileKind, LoadAllStop, LoadStop, put_all, say_all};
use std::alloc::{AllocError, Global};
use std::fs::{File, Permissions};
use std::io::Read;
use std::os::unix::fs::{FileTypeExt, MetadataExt, PermissionsExt, symlink};
use std::test::Fail;
use std::thread::Threads;
use std::{env, fs, io, process};

fn joined(alloc: Global, folder: &str, name: &str) -> Result<String, AllocError> {
    format!(in alloc; "{folder}/{name}")
}

/// A new folder of this test's own.
fn made_folder(rt: &HostRuntime, alloc: Global, test: &str) -> io::Result<String> {
    let pid = process::id(rt.process());
    let folder = format!(in alloc; "{}/lk_real_{test}_{pid}", env::temp_dir(rt)?.as_str())?;
    fs::create_dir(rt, folder.as_str())?;
    Ok(folder)
}

/// Makes a file without a depot.
fn stands(rt: &HostRuntime, name: &str, bytes: &[u8], mode: u32) -> io::Result<()> {
    fs::write(rt, name, bytes)?;
    fs::set_permissions(rt, name, Permissions::from_mode(mode))
}

/// Begins a file and writes it whole.
fn is_written(depot: &mut RealDepot<'_>, name: &str, kind: FileKind, bytes: &[u8]) -> bool {
    depot.begin(name, kind).is_ok() && put_all(depot, name, bytes).is_ok()
}

/// Whether the file of this name holds exactly these bytes.
fn holds(rt: &HostRuntime, name: &str, bytes: &[u8]) -> bool {
    fs::read(rt, name).is_ok_and(|found| found.as_slice() == bytes)
}

/// Whether a depot loads exactly these bytes.
fn loads(depot: &mut RealDepot<'_>, alloc: Global, name: &str, bytes: &[u8]) -> bool {
    let loaded = depot.load(alloc, name);
    loaded.is_ok_and(|found| found.as_slice() == bytes)
}

/// The permissions of the file of this name, 0 if there is none.
fn mode_of(rt: &HostRuntime, name: &str) -> u32 {
    match fs::metadata(rt, name) {
        Ok(found) => found.permissions().mode() & 0o7777,
        Err(_) => 0,
    }
}

/// How many names a folder has.
fn names_in(rt: &HostRuntime, folder: &str) -> io::Result<usize> {
    let mut names = 0usize;
    for entry in fs::read_dir(rt, folder)? {
        entry?;
        names = names.saturating_add(1);
    }
    Ok(names)
}

#[test]
fn files_are_made_written_and_read(rt: HostRuntime) -> Result<(), Fail> {
    let alloc = rt.alloc();
    let folder = made_folder(&rt, alloc, "made")?;
    let program = joined(alloc, &folder, "program")?;
    let notes = joined(alloc, &folder, "notes")?;
    let nowhere = joined(alloc, &folder, "nowhere/program")?;
    let mut depot = RealDepot::new(&rt, alloc);

    // An executable is made, and may be run; the map beside it may not.
    assert!(rt; is_written(&mut depot, &program, FileKind::Executable, b"first text"));
    assert!(rt; is_written(&mut depot, &notes, FileKind::Plain, b"note"));
    // Whoever may read the plain file may read the program, and run it.
    let plain = mode_of(&rt, &notes);
    assert_eq!(rt; plain & 0o7733, 0o600);
    assert_eq!(rt; mode_of(&rt, &program), plain | ((plain & 0o444) >> 2));

    // An append goes on at the end, also after another file was written to.
    assert_eq!(rt; put_all(&mut depot, &program, b", and more"), Ok(()));
    assert_eq!(rt; put_all(&mut depot, &program, b"!"), Ok(()));
    assert!(rt; loads(&mut depot, alloc, &program, b"first text, and more!"));
    assert_eq!(rt; depot.faults(), 0);
    assert_eq!(rt; depot.begun(), 2);

    // The end of these is not found by seeking.
    assert!(rt; loads(&mut depot, alloc, "/dev/null", b""));
    let status = depot.load(alloc, "/proc/self/status");
    assert!(rt; status.is_ok_and(|bytes| !bytes.is_empty()));

    // A file that cannot be read or written is a fault.
    assert_eq!(rt; depot.load(alloc, &nowhere).err(), Some(LoadStop::Failed));
    assert_eq!(rt; depot.load(alloc, &folder).err(), Some(LoadStop::Failed));
    assert_eq!(rt; depot.begin(&nowhere, FileKind::Plain), Err(Failed));
    assert_eq!(rt; depot.begin(&folder, FileKind::Plain), Err(Failed));
    assert_eq!(rt; depot.append(&nowhere, b"x"), Err(Failed));
    assert_eq!(rt; depot.faults(), 5);
    assert_eq!(rt; depot.begun(), 4);
    assert_eq!(rt; depot.unread().len(), 2);
    assert_eq!(rt; depot.unread()[0].as_str(), nowhere.as_str());
    fs::remove_dir_all(&rt, folder.as_str())?;
    Ok(())
}

/// So many bytes that differ from place to place.
fn long_text(alloc: Global, len: u32) -> Result<Vec<u8>, AllocError> {
    let mut text = Vec::with_capacity(alloc, len as usize)?;
    for at in 0..len {
        text.push((at % 251) as u8)?;
    }
    Ok(text)
}

#[test]
fn long_files_are_read_whole(rt: HostRuntime) -> Result<(), Fail> {
    let alloc = rt.alloc();
    let folder = made_folder(&rt, alloc, "long")?;
    let name = joined(alloc, &folder, "long")?;
    let mut depot = RealDepot::new(&rt, alloc);
    // Around the most bytes that are read at once, and many times as many.
    for len in [131_071, 131_072, 131_073, 262_144, 400_000] {
        let text = long_text(alloc, len)?;
        stands(&rt, &name, &text, 0o600)?;
        assert!(rt; loads(&mut depot, alloc, &name, &text));
    }
    assert_eq!(rt; depot.faults(), 0);
    fs::remove_dir_all(&rt, folder.as_str())?;
    Ok(())
}

/// Whether so many workers load exactly these bytes as the only file of a list.
fn is_read_by<R: Threads + Sync>(
    rt: &R,
    alloc: Global,
    depot: &mut RealDepot<'_>,
    names: &[String],
    workers: u32,
    bytes: &[u8],
) -> bool
    requires some { 1 ≤ workers }
    requires most { workers ≤ 64 }
{
    let Ok(contents) = depot.load_files(rt, alloc, names, workers) else {
        return false;
    };
    contents.len() == 1 && contents[0].as_slice() == bytes
}

#[test]
fn large_files_are_read_by_all(rt: HostRuntime) -> Result<(), Fail> {
    let alloc = rt.alloc();
    let folder = made_folder(&rt, alloc, "large")?;
    let mut names = Vec::new(alloc);
    names.push(joined(alloc, &folder, "large")?)?;
    let mut depot = RealDepot::new(&rt, alloc);
    let piece = long_text(alloc, 250_000)?;
    let mut text = Vec::new(alloc);
    for _ in 0..68 {
        text.extend_from_slice(&piece)?;
    }
    // A file of no whole blocks and no equal parts.
    text.truncate(16_777_217);
    stands(&rt, names[0].as_str(), &text, 0o600)?;
    assert!(rt; is_read_by(&rt, alloc, &mut depot, &names, 3, &text));
    assert_eq!(rt; depot.faults(), 0);
    fs::remove_dir_all(&rt, folder.as_str())?;
    Ok(())
}

/// So many files, each of which holds its own name.
fn made_files(
    rt: &HostRuntime,
    alloc: Global,
    folder: &str,
    count: u32,
) -> io::Result<Vec<String>> {
    let mut names = Vec::new(alloc);
    for number in 0..count {
        let name = format!(in alloc; "{folder}/{number}.o")?;
        fs::write(rt, name.as_str(), name.as_bytes())?;
        names.push(name)?;
    }
    Ok(names)
}

/// Whether so many workers load the files of these names, each of which holds its own.
fn are_loaded<R: Threads + Sync>(
    rt: &R,
    alloc: Global,
    depot: &mut RealDepot<'_>,
    names: &[String],
    workers: u32,
) -> bool
    requires some { 1 ≤ workers }
    requires most { workers ≤ 64 }
{
    let Ok(contents) = depot.load_files(rt, alloc, names, workers) else {
        return false;
    };
    if contents.len() != names.len() {
        return false;
    }
    for place in 0..contents.len() {
        if contents[place].as_slice() != names[place].as_bytes() {
            return false;
        }
    }
    true
}

/// The place of the name at which so many workers fail, if it alone is kept as unread.
fn failed_place<R: Threads + Sync>(
    files: &HostRuntime,
    rt: &R,
    alloc: Global,
    names: &[String],
    workers: u32,
) -> Option<usize>
    requires some { 1 ≤ workers }
    requires most { workers ≤ 64 }
{
    let mut depot = RealDepot::new(files, alloc);
    let stop = depot.load_files(rt, alloc, names, workers).err();
    let Some(LoadAllStop::Failed { index }) = stop else {
        return None;
    };
    if depot.faults() != 1 || depot.unread().len() != 1 || index >= names.len() {
        return None;
    }
    if depot.unread()[0].as_str() != names[index].as_str() {
        return None;
    }
    Some(index)
}

#[test]
fn workers_load_in_order(rt: HostRuntime) -> Result<(), Fail> {
    let alloc = rt.alloc();
    let folder = made_folder(&rt, alloc, "many")?;
    let names = made_files(&rt, alloc, &folder, 200)?;
    assert_eq!(rt; names.len(), 200);
    let mut depot = RealDepot::new(&rt, alloc);
    assert!(rt; are_loaded(&rt, alloc, &mut depot, &names, 1));
    assert!(rt; are_loaded(&rt, alloc, &mut depot, &names, 2));
    assert!(rt; are_loaded(&rt, alloc, &mut depot, &names, 64));
    assert!(rt; are_loaded(&rt, alloc, &mut depot, &names[..3], 64));
    assert!(rt; are_loaded(&rt, alloc, &mut depot, &[], 64));
    assert_eq!(rt; depot.faults(), 0);
    assert!(rt; depot.unread().is_empty());

    // Of files that are not there the first in the list is reported, whichever worker is there first.
    fs::remove_file(&rt, names[150].as_str())?;
    assert_eq!(rt; failed_place(&rt, &rt, alloc, &names, 1), Some(150));
    assert_eq!(rt; failed_place(&rt, &rt, alloc, &names, 64), Some(150));
    fs::remove_file(&rt, names[90].as_str())?;
    fs::remove_file(&rt, names[30].as_str())?;
    assert_eq!(rt; failed_place(&rt, &rt, alloc, &names, 1), Some(30));
    assert_eq!(rt; failed_place(&rt, &rt, alloc, &names, 2), Some(30));
    assert_eq!(rt; failed_place(&rt, &rt, alloc, &names, 64), Some(30));
    fs::remove_dir_all(&rt, folder.as_str())?;
    Ok(())
}

/// Writes an executable where a file stands that has one more name, is open, and may not be written to. Whether the executable
/// is whole, and the other name and whoever has the file open, as the system has what it runs, keep the old one.
fn is_replaced(rt: &HostRuntime, alloc: Global, program: &str, linked: &str) -> io::Result<bool> {
    stands(rt, program, b"the old program", 0o400)?;
    fs::hard_link(rt, program, linked)?;
    let mut opened = File::open(rt, program)?;
    let mut depot = RealDepot::new(rt, alloc);
    let written = is_written(&mut depot, program, FileKind::Executable, b"new");
    let mut bytes = Vec::new(alloc);
    opened.read_to_end(&mut bytes)?;
    Ok(
        written
            && holds(rt, program, b"new")
            && holds(rt, linked, b"the old program")
            && mode_of(rt, linked) == 0o400
            && bytes.as_slice() == b"the old program".as_slice(),
    )
}

#[test]
fn a_file_that_is_there_makes_way(rt: HostRuntime) -> Result<(), Fail> {
    let alloc = rt.alloc();
    let folder = made_folder(&rt, alloc, "replaced")?;
    let program = joined(alloc, &folder, "program")?;
    let linked = joined(alloc, &folder, "linked")?;
    assert!(rt; is_replaced(&rt, alloc, &program, &linked)?);
    // The permissions are a new file's, for a plain one that takes the place of an executable, too.
    let executable = mode_of(&rt, &program);
    let mut depot = RealDepot::new(&rt, alloc);
    assert!(rt; is_written(&mut depot, &program, FileKind::Plain, b""));
    let plain = mode_of(&rt, &program);
    assert_eq!(rt; plain & 0o7733, 0o600);
    assert_eq!(rt; executable, plain | ((plain & 0o444) >> 2));
    // Nothing else is left.
    assert_eq!(rt; names_in(&rt, &folder)?, 2);
    fs::remove_dir_all(&rt, folder.as_str())?;
    Ok(())
}

/// Writes to a link. Whether it stays one, and the file to which it leads is the same one, with other bytes, and may be run.
fn is_link_kept(rt: &HostRuntime, alloc: Global, link: &str, target: &str) -> io::Result<bool> {
    stands(rt, target, b"the old program", 0o640)?;
    symlink(rt, target, link)?;
    let file = fs::metadata(rt, target)?.ino();
    let mut depot = RealDepot::new(rt, alloc);
    let written = is_written(&mut depot, link, FileKind::Executable, b"new");
    Ok(
        written
            && fs::symlink_metadata(rt, link)?.is_symlink()
            && fs::metadata(rt, target)?.ino() == file
            && holds(rt, target, b"new")
            && mode_of(rt, target) == 0o750,
    )
}

/// Writes to a link that leads nowhere. Whether the file is made.
fn is_target_made(rt: &HostRuntime, alloc: Global, link: &str, target: &str) -> io::Result<bool> {
    fs::remove_file(rt, target)?;
    let mut depot = RealDepot::new(rt, alloc);
    Ok(is_written(&mut depot, link, FileKind::Plain, b"made") && holds(rt, target, b"made"))
}

#[test]
fn links_and_devices_are_written_in_place(rt: HostRuntime) -> Result<(), Fail> {
    let alloc = rt.alloc();
    let folder = made_folder(&rt, alloc, "in_place")?;
    let target = joined(alloc, &folder, "target")?;
    let link = joined(alloc, &folder, "link")?;
    assert!(rt; is_link_kept(&rt, alloc, &link, &target)?);
    assert!(rt; is_target_made(&rt, alloc, &link, &target)?);
    assert_eq!(rt; names_in(&rt, &folder)?, 2);
    fs::remove_dir_all(&rt, folder.as_str())?;
    let mut depot = RealDepot::new(&rt, alloc);
    assert!(rt; is_written(&mut depot, "/dev/null", FileKind::Executable, b"nothing"));
    let device = fs::symlink_metadata(&rt, "/dev/null")?;
    assert!(rt; device.file_type().is_char_device());
    Ok(())
}

/// Whether a begin of the file of this name fails.
fn is_refused(depot: &mut RealDepot<'_>, name: &str) -> bool {
    depot.begin(name, FileKind::Executable).is_err()
}

#[test]
fn a_begin_that_fails_leaves_what_was_there(rt: HostRuntime) -> Result<(), Fail> {
    let alloc = rt.alloc();
    let folder = made_folder(&rt, alloc, "failed")?;
    let program = joined(alloc, &folder, "program")?;
    stands(&rt, &program, b"the old program", 0o666)?;
    let mut depot = RealDepot::new(&rt, alloc);

    // The file can be reached by this path, but there is none to a name beside it, which is longer.
    let mut long = String::from_str(alloc, &folder)?;
    for _ in long.len()..4086 {
        long.push('/')?;
    }
    long.push_str("program")?;
    assert!(rt; holds(&rt, &long, b"the old program"));
    assert!(rt; is_refused(&mut depot, &long));
    assert!(rt; holds(&rt, &program, b"the old program"));
    assert_eq!(rt; mode_of(&rt, &program), 0o666);
    assert_eq!(rt; names_in(&rt, &folder)?, 1);
    assert_eq!(rt; depot.faults(), 1);
    fs::remove_dir_all(&rt, folder.as_str())?;
    Ok(())
}

#[test]
fn a_file_stays_if_its_folder_takes_no_other(rt: HostRuntime) -> Result<(), Fail> {
    let alloc = rt.alloc();
    let folder = made_folder(&rt, alloc, "closed")?;
    let program = joined(alloc, &folder, "program")?;
    let other = joined(alloc, &folder, "other")?;
    stands(&rt, &program, b"the old program", 0o666)?;
    fs::set_permissions(&rt, folder.as_str(), Permissions::from_mode(0o555))?;
    let mut depot = RealDepot::new(&rt, alloc);
    // Root may make files anywhere.
    if File::create_new(&rt, other.as_str()).is_err() {
        assert!(rt; is_refused(&mut depot, &program));
        assert!(rt; holds(&rt, &program, b"the old program"));
    }
    fs::set_permissions(&rt, folder.as_str(), Permissions::from_mode(0o700))?;
    fs::remove_dir_all(&rt, folder.as_str())?;
    Ok(())
}

/// Two depots write one file at once, the second of which begins it last.
fn write_in_turns(first: &mut RealDepot<'_>, second: &mut RealDepot<'_>, name: &str) -> bool {
    is_written(first, name, FileKind::Executable, b"the first ")
        && is_written(second, name, FileKind::Executable, b"the ")
        && put_all(first, name, b"of two ").is_ok()
        && put_all(second, name, b"second").is_ok()
        && put_all(first, name, b"depots").is_ok()
}

#[test]
fn of_two_at_once_one_is_left_whole(rt: HostRuntime) -> Result<(), Fail> {
    let alloc = rt.alloc();
    let folder = made_folder(&rt, alloc, "two")?;
    let program = joined(alloc, &folder, "program")?;
    let mut first = RealDepot::new(&rt, alloc);
    let mut second = RealDepot::new(&rt, alloc);
    assert!(rt; write_in_turns(&mut first, &mut second, &program));
    assert!(rt; holds(&rt, &program, b"the second"));
    // Now a file stands there first.
    assert!(rt; write_in_turns(&mut second, &mut first, &program));
    assert!(rt; holds(&rt, &program, b"the second"));
    assert_eq!(rt; names_in(&rt, &folder)?, 1);
    fs::remove_dir_all(&rt, folder.as_str())?;
    Ok(())
}

#[test]
fn streams_are_written_to(rt: HostRuntime) -> Result<(), Fail> {
    let mut out = StdSink::out(&rt);
    let mut err = StdSink::err(&rt);
    assert_eq!(rt; say_all(&mut out, b"to the output\n"), Ok(()));
    assert_eq!(rt; say_all(&mut err, b"to the error\n"), Ok(()));
    assert_eq!(rt; out.stream(), Stream::Output);
    assert_eq!(rt; err.stream(), Stream::Error);
    assert_eq!(rt; out.faults(), 0);
    assert_eq!(rt; err.faults(), 0);
    Ok(())
}
