//! The files that examples have at hand.

use crate::libraries::Library;
use crate::objects::{INPUTS, Input};
use crate::{collected, groups};
use elf_bytes::{archive_of, object_of};
use std::alloc::{AllocError, Global};

/// The files that an example has at hand, beside its own archives: `shared_files` has the first three stores, a crate of examples each other one.
#[derive(Clone, Copy)]
pub enum Store {
    Objects,
    Groups,
    Collected,
    WrongGroups,
    Orders,
    Kinds,
    Threads,
    LinkerSymbols,
    Merged,
    Folded,
    Aligned,
    Symbols,
    Maps,
    Unwound,
}

/// Files with their names.
pub type Files = Vec<(String, Vec<u8>)>;

fn push_object(files: &mut Files, alloc: Global, input: &Input) -> Result<(), AllocError> {
    let mut bytes = object_of(alloc, &input.object)?;
    bytes.truncate(input.most);
    files.push((input.name.to_string(alloc)?, bytes))?;
    Ok(())
}

pub fn push_objects(files: &mut Files, alloc: Global, inputs: &[Input]) -> Result<(), AllocError> {
    for input in inputs {
        push_object(files, alloc, input)?;
    }
    Ok(())
}

pub fn push_library(files: &mut Files, alloc: Global, library: &Library) -> Result<(), AllocError> {
    let mut bytes = archive_of(alloc, &library.archive)?;
    bytes.extend_from_slice(library.tail)?;
    files.push((library.name.to_string(alloc)?, bytes))?;
    Ok(())
}

/// Inputs that are objects.
pub fn objects_of(alloc: Global, inputs: &[Input]) -> Result<Files, AllocError> {
    let mut files = Vec::new(alloc);
    push_objects(&mut files, alloc, inputs)?;
    Ok(files)
}

/// The files of a store that several crates have at hand: groups, what is collected, and else all inputs that are objects.
pub fn shared_files(alloc: Global, store: Store) -> Result<Files, AllocError> {
    match store {
        Store::Groups => groups::files(alloc),
        Store::Collected => collected::files(alloc),
        _ => objects_of(alloc, INPUTS),
    }
}

/// The stores that the examples of a crate name.
pub trait Stores {
    fn files(&self, alloc: Global, store: Store) -> Result<Files, AllocError>;
}

/// All files of a store, and these archives.
pub fn files_of<S: Stores>(
    alloc: Global,
    stores: &S,
    store: Store,
    libraries: &[Library],
) -> Result<Files, AllocError> {
    let mut files = stores.files(alloc, store)?;
    for library in libraries {
        push_library(&mut files, alloc, library)?;
    }
    Ok(files)
}
