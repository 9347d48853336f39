//! Reading files of the system whole: one, or a list of them by several workers.
#![tactic(auto)]

ghost use Rattle.std.specs.Prelude.{◌≡◌, ◌^◌, ◌≤◌, length, IfOk};
ghost use Rattle.work_split.specs.Shares.{IsShare};
ghost use Rattle.lk_real.specs.Reading.{no_defects, AreRead, IsAny, IsOfNames};

use crate::large::{LARGE, LEAST_WORKERS, read_by_all};
use lk_base::LinkStop;
use lk_depot::LoadAllStop;
use std::alloc::{AllocError, Global};
use std::fs::File;
use std::io;
use std::io::{ErrorKind, Read, Seek, SeekFrom};
use std::ops::Range;
use std::os::unix::fs::FileExt;
use std::thread::Threads;
use work_split::{OpenGate, over_shares, pieces};

/// How many bytes of a file are read at most: one more than an input may have, so that its length is refused.
const MOST_READ: u64 = 1 << 31;

/// An end that no file has. A folder may seek to such a one, and its read then fails as it should.
const NO_END: u64 = 1 << 62;

/// The bytes of a file that one call reads at most.
const BUFFER: usize = 1 << 17;

/// Bytes of the block that `make_room` takes.
const ROOM: usize = (32 << 20) - (64 << 10);

/// Takes a block of memory and gives it back untouched. glibc keeps it for the lists that this thread, and those after it, take
/// later, where it would ask the system for a page or two each time (`M_TOP_PAD` in `mallopt(3)`).
fn make_room(alloc: Global) -> Result<(), AllocError> {
    let block: Vec<u8> = Vec::with_capacity(alloc, ROOM)?;
    drop(block);
    Ok(())
}

/// How many files are worth a thread.
const FILES_PER_WORKER: usize = 24;

/// The bytes of a file as seeking tells them, `MOST_READ` where they are more; 0 where it does not tell them, as at a pipe, and such a file is
/// then at its start. It takes less time than `metadata`, which fills a buffer for a path.
fn end_of(file: &mut File) -> u64
    ensures { result ≤ 2 ^ 31 }
{
    let Ok(end) = file.seek(SeekFrom::End(0)) else {
        return 0;
    };
    if end >= NO_END {
        let _ = file.seek(SeekFrom::Start(0));
        return 0;
    }
    end.min(MOST_READ)
}

/// Takes over the bytes of a file that lie before `end`, by way of `buffer`: the memory they go to is written once. A file that is cut
/// meanwhile gives fewer.
fn read_up_to(file: &File, bytes: &mut Vec<u8>, end: u64, buffer: &mut [u8]) -> io::Result<()> {
    let mut at: u64 = 0;
    for _ in 0..u64::MAX {
        if end <= at {
            return Ok(());
        }
        let most = (end - at).min(buffer.len() as u64) as usize;
        match file.read_at(&mut buffer[..most], at) {
            Ok(0) => return Ok(()),
            Ok(count) => {
                bytes.extend_from_slice(&buffer[..count])?;
                at = at.saturating_add(count as u64);
            }
            Err(error) => {
                if error.kind() != ErrorKind::Interrupted {
                    return Err(error);
                }
            }
        }
    }
    Err(io::Error::from(ErrorKind::Interrupted))
}

/// The bytes of a file that is open, at its start where `end` is 0. What is in `buffer` does not matter.
fn bytes_to(alloc: Global, file: File, end: u64, buffer: &mut [u8]) -> io::Result<Vec<u8>>
    requires { end ≤ 2 ^ 31 }
{
    let mut bytes = Vec::with_capacity(alloc, end as usize)?;
    if 0 < end {
        read_up_to(&file, &mut bytes, end, buffer)?;
        return Ok(bytes);
    }
    file.take(MOST_READ).read_to_end(&mut bytes)?;
    Ok(bytes)
}

/// Up to `MOST_READ` bytes of a file, from its start.
pub(crate) fn bytes_of(rt: &HostRuntime, alloc: Global, name: &str) -> io::Result<Vec<u8>> {
    let mut buffer = vec![in alloc; 0u8; BUFFER]?;
    let mut file = File::open(rt, name)?;
    let end = end_of(&mut file);
    bytes_to(alloc, file, end, buffer.as_mut_slice())
}

/// Up to `MOST_READ` bytes of a file, from its start, those of a large one by so many workers. What is in `buffer` does not matter.
fn bytes_by<R: Threads + Sync>(
    files: &HostRuntime,
    rt: &R,
    alloc: Global,
    name: &str,
    buffer: &mut [u8],
    workers: u32,
) -> io::Result<Vec<u8>> {
    let mut file = File::open(files, name)?;
    let end = end_of(&mut file);
    if LARGE <= end && LEAST_WORKERS <= workers {
        if let Some(bytes) = read_by_all(rt, alloc, &file, end as usize, workers)? {
            return Ok(bytes);
        }
    }
    bytes_to(alloc, file, end, buffer)
}

/// The bytes of a file, or None if it can't be read, or is not wanted.
fn read_if<R: Threads + Sync>(
    wanted: bool,
    files: &HostRuntime,
    rt: &R,
    alloc: Global,
    name: &str,
    buffer: &mut [u8],
    workers: u32,
) -> Result<Option<Vec<u8>>, AllocError> {
    if !wanted {
        return Ok(None);
    }
    match bytes_by(files, rt, alloc, name, buffer, workers) {
        Ok(bytes) => Ok(Some(bytes)),
        Err(error) => {
            if error.kind() == ErrorKind::OutOfMemory {
                return Err(AllocError);
            }
            Ok(None)
        }
    }
}

/// The bytes of the files of one share, the large ones by so many workers. After the first that can't be read none is opened.
fn read_share<R: Threads + Sync>(
    files: &HostRuntime,
    rt: &R,
    alloc: Global,
    names: &[String],
    share: Range<usize>,
    workers: u32,
) -> Result<Vec<Option<Vec<u8>>>, LinkStop>
    requires ordered { share.start ≤ share.end }
    requires within { share.end ≤ length names.now }
    ensures { IsShare no_defects IsAny share.start share.end result }
{
    let _ = make_room(alloc);
    let mut read = Vec::with_capacity(alloc, share.end - share.start)?;
    let mut buffer = vec![in alloc; 0u8; BUFFER]?;
    let mut all = true;
    for at in share.start..share.end {
        let file = read_if(
            all,
            files,
            rt,
            alloc,
            names[at].as_str(),
            buffer.as_mut_slice(),
            workers,
        )?;
        all = file.is_some();
        read.push(file)?;
    }
    Ok(read)
}

/// All files, or the place of the first that was not read.
fn all_read(alloc: Global, files: Vec<Option<Vec<u8>>>) -> Result<Vec<Vec<u8>>, LoadAllStop>
    ensures { AreRead files.items result }
{
    let Ok(mut contents) = Vec::with_capacity(alloc, files.len()) else {
        return Err(LoadAllStop::Memory);
    };
    for file in files {
        let Some(bytes) = file else {
            return Err(LoadAllStop::Failed {
                index: contents.len(),
            });
        };
        if contents.push(bytes).is_err() {
            return Err(LoadAllStop::Memory);
        }
    }
    Ok(contents)
}

/// So many of the workers as there are files for.
fn workers_for(files: usize, workers: u32) -> u32
    requires { 1 ≤ workers }
    ensures some { 1 ≤ result }
    ensures most { result ≤ workers }
{
    (workers as usize).min((files / FILES_PER_WORKER).max(1)) as u32
}

/// The bytes of the files of these names, in order, or the place of the first that can't be read.
pub(crate) fn read_files<R: Threads + Sync>(
    files: &HostRuntime,
    rt: &R,
    alloc: Global,
    names: &[String],
    workers: u32,
) -> Result<Vec<Vec<u8>>, LoadAllStop>
    requires some { 1 ≤ workers }
    requires most { workers ≤ 64 }
    ensures { IsOfNames (length names.now) result }
{
    let Ok(cuts) = pieces(alloc, names.len(), workers_for(names.len(), workers)) else {
        return Err(LoadAllStop::Memory);
    };
    let within = if cuts.len() == 1 { workers } else { 1 };
    let list = over_shares(
        rt,
        alloc,
        &OpenGate,
        cuts.as_slice(),
        |piece: Range<usize>| -> Result<Vec<Option<Vec<u8>>>, LinkStop>
            requires ordered { piece.start ≤ piece.end }
            requires within { piece.end ≤ length names.now }
            ensures { IsShare no_defects IsAny piece.start piece.end result }
        { read_share(files, rt, alloc, names, piece, within) },
    );
    match list {
        Ok(list) => all_read(alloc, list),
        Err(_) => Err(LoadAllStop::Memory),
    }
}
