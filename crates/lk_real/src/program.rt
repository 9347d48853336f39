//! What a program needs of the system beside files and streams.
#![tactic(auto)]

use std::alloc::{AllocError, Global};
use std::fs::File;
use std::{env, io};

/// The words of the command, the program's name first, and none where one of them is not UTF-8, which is no command.
pub fn words_of(rt: &HostRuntime, alloc: Global) -> io::Result<Vec<String>> {
    match env::args(rt) {
        Ok(words) => Ok(words.collect(alloc)?),
        Err(error) => {
            if error.kind() == io::ErrorKind::InvalidData {
                return Ok(Vec::new(alloc));
            }
            Err(error)
        }
    }
}

/// The null device in place of a standard stream that is closed, so that no file of the link takes the stream's number.
pub fn null_device(rt: &HostRuntime) -> Option<File> {
    File::options()
        .read(true)
        .write(true)
        .open(rt, "/dev/null")
        .ok()
}

/// Bytes of the block that `keep_freed_memory` takes. glibc maps blocks of up to 32 MB, its own sizes included, that it may keep from then on.
const KEPT_BLOCK: usize = (32 << 20) - (64 << 10);

/// Takes a block of memory and gives it back untouched. From then on glibc keeps freed blocks of up to this size for the next ones,
/// where it would give their pages back to the system and take fresh ones, each of which costs a page fault (`M_MMAP_THRESHOLD` in
/// `mallopt(3)`). If there is no memory for it nothing changes.
pub fn keep_freed_memory(alloc: Global) -> Result<(), AllocError> {
    let block: Vec<u8> = Vec::with_capacity(alloc, KEPT_BLOCK)?;
    drop(block);
    Ok(())
}
