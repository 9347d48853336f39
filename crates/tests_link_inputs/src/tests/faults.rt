//! What a failed call of the store of files, or of a stream, leaves.

use super::generated::{TWO_ALONE, TWO_EXPLAINED, TWO_MAPPED};
use super::{Holds, OwnStores};
use elf_bytes::{image_of, record};
use link_driver::OpenGate;
use link_examples::lines::FIRST_LINES;
use link_examples::{FIRST_LINK, Link, Outside, SOUND, Stream, WORKERS, call, link, text_of};
use link_runs::{Left, each_by_any, run_with};
use lk_depot::{FileKind, MemDepot};
use std::alloc::Global;
use std::test::Fail;
use std::thread::Threads;

/// A command over an outside that fails: what it would leave, the status, what is reported as an error, how many calls of the depot there are,
/// how many bytes of the executable and of the map are there if these were begun, and how many of what is said.
#[derive(Clone, Copy)]
struct Fault<'a> {
    link: Link<'a>,
    outside: Outside<'a>,
    status: u8,
    told: &'a str,
    calls: u64,
    executable: Option<usize>,
    map: Option<usize>,
    said: usize,
}

/// An executable of five appends.
const UNREAD: Fault =
    record!(Fault; link: FIRST_LINK, outside: record!(Outside, SOUND => fails: &[0]), status: 3, told: "rvld: cannot read a.o\n",
    calls: 1, executable: None, map: None, said: 0);

const FILES: &[Fault] = &[
    UNREAD,
    record!(Fault, UNREAD => outside: record!(Outside, SOUND => fails: &[1]), told: "rvld: cannot write a.out\n", calls: 2),
    record!(Fault, UNREAD => outside: record!(Outside, SOUND => fails: &[2]), told: "rvld: cannot write a.out\n", calls: 3, executable: Some(0)),
    record!(Fault, UNREAD => outside: record!(Outside, SOUND => fails: &[4]), told: "rvld: cannot write a.out\n", calls: 5, executable: Some(2000)),
    record!(Fault, UNREAD => outside: record!(Outside, SOUND => fails: &[6]), told: "rvld: cannot write a.out\n", calls: 7, executable: Some(4000)),
    record!(Fault, UNREAD => outside: record!(Outside, SOUND => fails: &[], room: 4319), told: "rvld: cannot write a.out\n", calls: 8, executable: Some(4319)),
];

/// Each file is written by one append.
const AT_ONCE: Outside = record!(Outside, SOUND => most: 65536);

const FIRST_MAPPED: Link = link!("-s", "--Map", "m", "a.o"; lines: FIRST_LINES);

/// An executable of 4,320 bytes, and a map of 191.
const UNREAD_FOR_MAP: Fault =
    record!(Fault, UNREAD => link: FIRST_MAPPED, outside: record!(Outside, AT_ONCE => fails: &[0]));

const WITH_MAP: &[Fault] = &[
    UNREAD_FOR_MAP,
    record!(Fault, UNREAD_FOR_MAP => link: link!(FIRST_MAPPED => words: &["rvld", "-s", "--Map", "m", "z.o"]), outside: AT_ONCE,
        told: "rvld: cannot read z.o\n"),
    record!(Fault, UNREAD_FOR_MAP => outside: record!(Outside, AT_ONCE => fails: &[1]), told: "rvld: cannot write a.out\n", calls: 2),
    record!(Fault, UNREAD_FOR_MAP => outside: record!(Outside, AT_ONCE => fails: &[2]), told: "rvld: cannot write a.out\n", calls: 3, executable: Some(0)),
    record!(Fault, UNREAD_FOR_MAP => outside: record!(Outside, AT_ONCE => fails: &[3]), told: "rvld: cannot write m\n", calls: 4, executable: Some(4320)),
    record!(Fault, UNREAD_FOR_MAP => outside: record!(Outside, AT_ONCE => fails: &[4]), told: "rvld: cannot write m\n", calls: 5, executable: Some(4320), map: Some(0)),
    record!(Fault, UNREAD_FOR_MAP => outside: record!(Outside, SOUND => fails: &[4]), told: "rvld: cannot write a.out\n", calls: 5, executable: Some(2000)),
    record!(Fault, UNREAD_FOR_MAP => outside: record!(Outside, SOUND => fails: &[48], most: 100), told: "rvld: cannot write m\n", calls: 49, executable: Some(4320),
        map: Some(100)),
];

/// The first put of a stream fails.
const BROKEN: Stream = record!(Stream; fails: &[0], room: 1000);

/// An executable of 8,928 bytes, a begin and nine appends, and a report of 57.
const UNREPORTED: Fault =
    record!(Fault, UNREAD => link: TWO_ALONE, outside: record!(Outside, SOUND => say: BROKEN), told: "rvld: cannot report\n", calls: 10, executable: Some(8928));

const REPORTS: &[Fault] = &[
    UNREPORTED,
    record!(Fault, UNREPORTED => outside: record!(Outside, SOUND => say: Stream { fails: &[], room: 10 }), said: 10),
    record!(Fault, UNREPORTED => outside: record!(Outside, SOUND => say: Stream { fails: &[], room: 56 }, err: BROKEN), told: "", said: 56),
    record!(Fault, UNREPORTED => link: TWO_MAPPED, calls: 12, executable: Some(8560), map: Some(864)),
    record!(Fault, UNREPORTED => link: TWO_MAPPED, outside: record!(Outside, SOUND => fails: &[11], say: BROKEN), told: "rvld: cannot write m\n", calls: 12,
        executable: Some(8560),
        map: Some(0)),
];

/// What is asked why is said after the report.
const EXPLAINED: &[Fault] = &[
    record!(Fault, UNREPORTED => link: TWO_EXPLAINED, outside: record!(Outside, SOUND => say: Stream { fails: &[], room: 60 }), said: 60),
];

/// No words but the program's name.
const UNTOLD: Fault =
    record!(Fault, UNREAD => link: link!(), outside: record!(Outside, SOUND => err: BROKEN), status: 2, told: "", calls: 0);

const LINES: &[Fault] = &[
    UNTOLD,
    record!(Fault, UNTOLD => outside: record!(Outside, SOUND => err: Stream { fails: &[], room: 4 }), told: "rvld"),
    record!(Fault, UNTOLD => link: link!("--Map", "m", "z.o"), status: 3, calls: 1),
    record!(Fault, UNTOLD => link: link!("--Map", "m", "-e", "g", "a.o"), status: 1, calls: 1),
    record!(Fault, UNTOLD => link: link!("--Map", "m", "-e", "g", "a.o"), outside: record!(Outside, SOUND => err: Stream { fails: &[], room: 30 }), status: 1,
        told: "rvld: F21 NoEntry file=- secti",
        calls: 1),
    record!(Fault, UNTOLD => outside: record!(Outside, AT_ONCE => fails: &[3], err: BROKEN), link: FIRST_MAPPED, status: 3, calls: 4, executable: Some(4320)),
];

/// Whether a file was begun as this kind and has so many of these bytes, or was not begun.
fn has_prefix(
    depot: &MemDepot,
    name: &str,
    kind: FileKind,
    bytes: &[u8],
    size: Option<usize>,
) -> bool {
    let Some(size) = size else {
        return depot.kind(name).is_none();
    };
    let file = depot.bytes(name).unwrap_or(b"".as_slice());
    depot.kind(name) == Some(kind) && file.len() == size && bytes.starts_with(file)
}

/// Whether both files are there as far as they should be.
fn has_files(alloc: Global, fault: &Fault, depot: &MemDepot) -> Holds {
    let link = &fault.link;
    let image = image_of(alloc, &link.image)?;
    let text = text_of(alloc, link.lines)?;
    Ok(
        has_prefix(
            depot,
            link.output,
            FileKind::Executable,
            &image,
            fault.executable,
        ) && has_prefix(depot, link.map, FileKind::Plain, &text, fault.map),
    )
}

/// Whether so much was said, and this was reported.
fn has_lines(fault: &Fault, left: &Left) -> bool {
    let said = left.say.written();
    said.len() == fault.said
        && fault.link.said.as_bytes().starts_with(said)
        && left.err.written() == fault.told.as_bytes()
}

/// Whether a command leaves what it should where something fails.
fn is_cut<R: Threads + Sync>(rt: &R, alloc: Global, fault: &Fault, workers: &[&str]) -> Holds {
    let link = &fault.link;
    let call = call!(link.words, workers, link.store, link.libraries; &fault.outside);
    let left = run_with(rt, alloc, &OwnStores, &call, &OpenGate)?;
    Ok(
        left.status == fault.status
            && left.depot.calls() == fault.calls
            && has_lines(fault, &left)
            && has_files(alloc, fault, &left.depot)?,
    )
}

#[test]
fn each_fault_leaves_a_front_of_the_executable(rt: HostRuntime) -> Result<(), Fail> {
    each_by_any!(rt; fault, workers in FILES => is_cut(&rt, rt.alloc(), fault, workers)?)
}

#[test]
fn each_fault_of_the_map_leaves_the_executable(rt: HostRuntime) -> Result<(), Fail> {
    each_by_any!(rt; fault, workers in WITH_MAP => is_cut(&rt, rt.alloc(), fault, workers)?)
}

#[test]
fn each_fault_of_the_report_leaves_both_files(rt: HostRuntime) -> Result<(), Fail> {
    each_by_any!(rt; fault, workers in REPORTS => is_cut(&rt, rt.alloc(), fault, workers)?)
}

#[test]
fn a_fault_of_what_is_explained_leaves_the_executable(rt: HostRuntime) -> Result<(), Fail> {
    each_by_any!(rt; fault, workers in EXPLAINED => is_cut(&rt, rt.alloc(), fault, workers)?)
}

#[test]
fn a_line_that_is_not_told_changes_no_status(rt: HostRuntime) -> Result<(), Fail> {
    each_by_any!(rt; fault, workers in LINES => is_cut(&rt, rt.alloc(), fault, workers)?)
}
