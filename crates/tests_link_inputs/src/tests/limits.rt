//! Links with limits below those of the command.

ghost use Rattle.lk_base.specs.Limits.{IsWithinStandard};

use super::{Holds, OwnStores};
use elf_bytes::{Image, image_of, record};
use link_command::command_of;
use link_driver::{Inputs, Linked, OpenGate, link};
use link_examples::images::{COMMON_OF_8, FIRST, FOUR_ALONE, TWO_FILES};
use link_examples::libraries::{Library, ONE_MEMBER};
use link_examples::{Store, WORKERS, files_of, words_of};
use link_runs::each_by_any;
use lk_base::kinds::{LIMIT, TOO_BIG};
use lk_base::{Defect, Limits, LinkStop, NO_FILE};
use lk_depot::{Depot, FileKind, MemDepot};
use std::alloc::{AllocError, Global};
use std::test::Fail;
use std::thread::Threads;

/// A link with limits: its words, its files and archives, the limits, and the defect that it has, or its executable.
#[derive(Clone, Copy)]
struct Bounded<'a> {
    words: &'a [&'a str],
    store: Store,
    libraries: &'a [Library<'a>],
    limits: Limits,
    defect: Option<Defect>,
    image: Image<'a>,
}

/// A number past a limit that is no file's own.
const PASSED: Defect =
    record!(Defect; kind: LIMIT, file: NO_FILE, section: 0, place: 0, symbol: 0, other: 0);

/// What two objects, of 576 and 456 bytes, with 3 and 2 symbols and 6 and 5 section headers, just keep.
const OF_OBJECTS: Limits =
    record!(Limits; file: 576, files: 2, symbols: 5, sections: 11, pieces: 0, outputs: 1, image: 0x100d);

const TWO_OBJECTS: Bounded =
    record!(Bounded; words: &["rvld", "-s", "a.o", "h.o"], store: Store::Objects, libraries: &[], limits: OF_OBJECTS, defect: None, image: TWO_FILES);

/// Each limit, kept and passed by one.
const OBJECTS: &[Bounded] = &[
    TWO_OBJECTS,
    record!(Bounded, TWO_OBJECTS => limits: record!(Limits, OF_OBJECTS => file: 575), defect: Some(record!(Defect, PASSED => file: 0, place: 576))),
    record!(Bounded, TWO_OBJECTS => limits: record!(Limits, OF_OBJECTS => files: 1), defect: Some(record!(Defect, PASSED => place: 2))),
    record!(Bounded, TWO_OBJECTS => limits: record!(Limits, OF_OBJECTS => symbols: 4), defect: Some(record!(Defect, PASSED => place: 5))),
    record!(Bounded, TWO_OBJECTS => limits: record!(Limits, OF_OBJECTS => sections: 10), defect: Some(record!(Defect, PASSED => place: 11))),
    record!(Bounded, TWO_OBJECTS => limits: record!(Limits, OF_OBJECTS => outputs: 0), defect: Some(record!(Defect, PASSED => place: 1))),
    record!(Bounded, TWO_OBJECTS => limits: record!(Limits, OF_OBJECTS => image: 0x100c), defect: Some(record!(Defect, PASSED => kind: TOO_BIG, place: 0x100c))),
    record!(Bounded, TWO_OBJECTS => limits: record!(Limits, OF_OBJECTS => files: 1, symbols: 2), defect: Some(record!(Defect, PASSED => place: 2))),
    record!(Bounded, TWO_OBJECTS => words: &["rvld", "-s", "a.o", "empty.o"], limits: record!(Limits, OF_OBJECTS => files: 1),
        defect: Some(record!(Defect, PASSED => place: 2))),
];

/// What three objects with 15 section headers and one COMMON symbol just keep.
const OF_COMMON: Limits =
    record!(Limits, OF_OBJECTS => files: 3, symbols: 7, sections: 16, outputs: 2, image: 0x2009);

const WITH_COMMON: Bounded =
    record!(Bounded, TWO_OBJECTS => words: &["rvld", "-s", "a.o", "c8.o", "weak.o"], limits: OF_COMMON, image: COMMON_OF_8);

/// What an object and an archive of 524 bytes just keep: its one member, with 2 symbols and 5 section headers, takes no part.
const OF_ARCHIVE: Limits = record!(Limits, OF_OBJECTS => files: 3, sections: 6, image: 0x1009);

const WITH_ARCHIVE: Bounded =
    record!(Bounded, TWO_OBJECTS => words: &["rvld", "-s", "a.o", "lib.a"], libraries: &[ONE_MEMBER], limits: OF_ARCHIVE, image: FIRST);

/// COMMON symbols and members count.
const COUNTED: &[Bounded] = &[
    WITH_COMMON,
    record!(Bounded, WITH_COMMON => limits: record!(Limits, OF_COMMON => sections: 15), defect: Some(record!(Defect, PASSED => place: 16))),
    WITH_ARCHIVE,
    record!(Bounded, WITH_ARCHIVE => limits: record!(Limits, OF_ARCHIVE => files: 2), defect: Some(record!(Defect, PASSED => place: 3))),
    record!(Bounded, WITH_ARCHIVE => limits: record!(Limits, OF_ARCHIVE => symbols: 4), defect: Some(record!(Defect, PASSED => place: 5))),
    record!(Bounded, WITH_ARCHIVE => words: &["rvld", "-s", "h.o", "lib.a"], limits: record!(Limits, OF_ARCHIVE => file: 523),
        defect: Some(record!(Defect, PASSED => file: 1, place: 524))),
];

/// What an object with four constants just keeps.
const OF_PIECES: Limits =
    record!(Limits; file: 1000, files: 2, symbols: 5, sections: 12, pieces: 4, outputs: 2, image: 0x1005);

const WITH_PIECES: Bounded =
    record!(Bounded, TWO_OBJECTS => words: &["rvld", "-s", "four.o"], limits: OF_PIECES, image: FOUR_ALONE);

/// Pieces count in each section that may be merged, equal or not, kept or not.
const PIECES: &[Bounded] = &[
    WITH_PIECES,
    record!(Bounded, WITH_PIECES => limits: record!(Limits, OF_PIECES => pieces: 3), defect: Some(record!(Defect, PASSED => place: 4))),
    record!(Bounded, WITH_PIECES => words: &["rvld", "-s", "--gc-sections", "four.o"], limits: record!(Limits, OF_PIECES => pieces: 3),
        defect: Some(record!(Defect, PASSED => place: 4))),
    record!(Bounded, WITH_PIECES => words: &["rvld", "-s", "four.o", "again.o"], limits: record!(Limits, OF_PIECES => pieces: 9),
        defect: Some(record!(Defect, PASSED => place: 10))),
    record!(Bounded, WITH_PIECES => words: &["rvld", "-s", "four.o", "again.o"], limits: record!(Limits, OF_PIECES => sections: 3, pieces: 9),
        defect: Some(record!(Defect, PASSED => place: 11))),
];

/// Limits, or the standard ones where those are less.
fn within_standard(limits: &Limits) -> Limits
    ensures { IsWithinStandard result }
{
    let standard = Limits::standard();
    record!(Limits; file: limits.file.min(standard.file), files: limits.files.min(standard.files), symbols: limits.symbols.min(standard.symbols),
        sections: limits.sections.min(standard.sections), pieces: limits.pieces.min(standard.pieces),
        outputs: limits.outputs.min(standard.outputs), image: limits.image.min(standard.image))
}

/// The contents of a file, none where there is no such file.
fn contents_of<'a>(files: &'a [(String, Vec<u8>)], name: &str) -> &'a [u8] {
    match files.iter().find(|file| file.0.as_str() == name) {
        Some(file) => file.1.as_slice(),
        None => &[],
    }
}

/// The contents of a command's inputs.
fn inputs_of(
    alloc: Global,
    names: &[String],
    files: &[(String, Vec<u8>)],
) -> Result<Inputs, AllocError> {
    let mut inputs = Vec::new(alloc);
    for name in names {
        let bytes = Vec::from_slice(alloc, contents_of(files, name.as_str()))?;
        inputs.push((name.clone()?, bytes))?;
    }
    Ok(Inputs { files: inputs })
}

/// Whether a link writes these bytes, as many as it says, and writes them again.
fn writes<R: Threads + Sync>(rt: &R, alloc: Global, linked: Linked, bytes: &[u8]) -> Holds {
    let mut linked = linked;
    let mut depot = MemDepot::new(alloc, Vec::new(alloc), Vec::new(alloc), 65536, 200_000)?;
    for name in ["one", "two"] {
        if depot.begin(name, FileKind::Executable).is_err()
            || linked.write_exe(rt, &mut depot, name, &OpenGate).is_err()
            || depot.bytes(name) != Some(bytes)
        {
            return Ok(false);
        }
    }
    Ok(linked.exe_len() == bytes.len() as u64)
}

/// Whether a link gave the defect that an example has, or its executable.
fn is_given<R: Threads + Sync>(
    rt: &R,
    alloc: Global,
    bounded: &Bounded,
    answer: Result<Linked, LinkStop>,
) -> Holds {
    match answer {
        Ok(linked) => {
            let image = image_of(alloc, &bounded.image)?;
            Ok(bounded.defect.is_none() && writes(rt, alloc, linked, &image)?)
        }
        Err(LinkStop::Defect(defect)) => Ok(bounded.defect == Some(defect)),
        Err(LinkStop::Memory) => Ok(false),
    }
}

/// Whether an example gives its defect, or its executable.
fn is_bounded<R: Threads + Sync>(
    rt: &R,
    alloc: Global,
    bounded: &Bounded,
    workers: &[&str],
) -> Holds {
    let words = words_of(alloc, bounded.words, workers)?;
    let Some(command) = command_of(alloc, words.as_slice())? else {
        return Ok(false);
    };
    let files = files_of(alloc, &OwnStores, bounded.store, bounded.libraries)?;
    let inputs = inputs_of(alloc, command.inputs.names(), files.as_slice())?;
    let limits = within_standard(&bounded.limits);
    let answer = link(rt, alloc, &command, &inputs, &limits, &OpenGate);
    is_given(rt, alloc, bounded, answer)
}

#[test]
fn each_limit_is_kept_up_to_its_number(rt: HostRuntime) -> Result<(), Fail> {
    each_by_any!(rt; bounded, workers in OBJECTS => is_bounded(&rt, rt.alloc(), bounded, workers)?)
}

#[test]
fn common_symbols_and_members_count(rt: HostRuntime) -> Result<(), Fail> {
    each_by_any!(rt; bounded, workers in COUNTED => is_bounded(&rt, rt.alloc(), bounded, workers)?)
}

#[test]
fn each_piece_counts(rt: HostRuntime) -> Result<(), Fail> {
    each_by_any!(rt; bounded, workers in PIECES => is_bounded(&rt, rt.alloc(), bounded, workers)?)
}
