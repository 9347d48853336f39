//! An object and an archive that are cut at each length, and an object of which a byte is altered.

use super::Holds;
use link_driver::OpenGate;
use link_examples::{Files, SOUND, words_of};
use link_gen::objects;
use link_runs::{Left, each, run_over};
use lk_depot::FileKind;
use std::alloc::{AllocError, Global};
use std::test::Fail;
use std::thread::Threads;

const WORKERS: &[&[&str]] = &[&["--threads", "1"], &["--threads", "64"]];

pub fn object(alloc: Global) -> Result<Vec<u8>, AllocError> {
    let mut list = objects(alloc, 1)?;
    match list.pop() {
        Some(object) => Ok(object.1),
        None => Ok(Vec::new(alloc)),
    }
}

/// An archive whose member it is.
fn archive(alloc: Global) -> Result<Vec<u8>, AllocError> {
    let mut bytes = Vec::from_slice(
        alloc,
        b"!<arch>\ngen0.o/         0           0     0     644     1152      `\n",
    )?;
    bytes.extend_from_slice(&object(alloc)?)?;
    Ok(bytes)
}

/// The one of both that has this name.
fn bytes_of(alloc: Global, name: &str) -> Result<Vec<u8>, AllocError> {
    if name == "lib.a" {
        archive(alloc)
    } else {
        object(alloc)
    }
}

pub fn link_alone<R: Threads + Sync>(
    rt: &R,
    alloc: Global,
    name: &str,
    bytes: Vec<u8>,
    workers: &[&str],
) -> Result<Left, AllocError> {
    let words = words_of(alloc, &["rvld", "-s", name], workers)?;
    let mut files: Files = Vec::new(alloc);
    files.push((name.to_string(alloc)?, bytes))?;
    run_over(rt, alloc, words.as_slice(), files, &SOUND, &OpenGate)
}

pub fn is_linked(left: &Left) -> bool {
    left.status == 0
        && left.err.calls() == 0
        && left.depot.kind("a.out") == Some(FileKind::Executable)
}

/// Whether a line was written, and nothing begun.
fn is_refused(left: &Left, line: &str) -> bool {
    left.status == 1 && left.depot.begun() == 0 && left.err.written() == line.as_bytes()
}

/// What a link has to end with: an executable, a line, or a line with the file's length in it.
#[derive(Clone, Copy)]
enum Answer<'a> {
    Linked,
    Line(&'a str),
    LengthAs(&'a str, &'a str),
}

/// Whether it ended so.
fn is_answer(alloc: Global, left: &Left, answer: &Answer, length: usize) -> Holds {
    match answer {
        Answer::Linked => Ok(is_linked(left)),
        Answer::Line(line) => Ok(is_refused(left, *line)),
        Answer::LengthAs(start, end) => {
            let line = format!(in alloc; "{start}{length}{end}")?;
            Ok(is_refused(left, line.as_str()))
        }
    }
}

/// Lengths from the first to the last at which a file is cut, and what each link ends with.
#[derive(Clone, Copy)]
struct Cut<'a> {
    name: &'a str,
    first: usize,
    last: usize,
    answer: Answer<'a>,
}

macro_rules! cut {
    ($name:expr, $first:expr, $last:expr; $answer:expr) => {
        Cut { name: $name, first: $first, last: $last, answer: $answer }
    };
}

const CUTS: &[Cut] = &[
    cut!("gen0.o", 0, 3; Answer::Line("rvld: F01 NotObject file=gen0.o section=0 place=0 name= other=0\n")),
    cut!("gen0.o", 4, 63; Answer::LengthAs("rvld: F02 BadHeader file=gen0.o section=0 place=", " name= other=0\n")),
    cut!("gen0.o", 64, 1151; Answer::Line("rvld: F03 Outside file=gen0.o section=0 place=40 name= other=0\n")),
    cut!("gen0.o", 1152, 1152; Answer::Linked),
    cut!("lib.a", 0, 7; Answer::Line("rvld: F01 NotObject file=lib.a section=0 place=0 name= other=0\n")),
    cut!("lib.a", 8, 8; Answer::Line("rvld: F21 NoEntry file=- section=0 place=0 name=_start other=0\n")),
    cut!("lib.a", 9, 1219; Answer::Line("rvld: F06 BadArchive file=lib.a section=0 place=8 name= other=0\n")),
    cut!("lib.a", 1220, 1220; Answer::Line("rvld: F21 NoEntry file=- section=0 place=0 name=_start other=0\n")),
];

/// Whether a file that is cut to this length ends as it should.
fn is_cut_to<R: Threads + Sync>(rt: &R, alloc: Global, cut: &Cut, length: usize) -> Holds {
    for workers in WORKERS {
        let mut bytes = bytes_of(alloc, cut.name)?;
        bytes.truncate(length);
        let whole = bytes.len() == length;
        let left = link_alone(rt, alloc, cut.name, bytes, workers)?;
        if !whole || !is_answer(alloc, &left, &cut.answer, length)? {
            return Ok(false);
        }
    }
    Ok(true)
}

#[test]
fn files_are_cut_at_each_length(rt: HostRuntime) -> Result<(), Fail> {
    for cut in CUTS {
        for length in cut.first..cut.last.saturating_add(1) {
            assert!(rt; is_cut_to(&rt, rt.alloc(), cut, length)?, "length {length}");
        }
    }
    Ok(())
}

/// Bytes of the object from the first to the last that get another value, and what its link ends with.
#[derive(Clone, Copy)]
struct Altered<'a> {
    first: usize,
    last: usize,
    value: u8,
    answer: Answer<'a>,
}

macro_rules! altered {
    ($first:expr, $last:expr, $value:expr; $answer:expr) => {
        Altered { first: $first, last: $last, value: $value, answer: $answer }
    };
}

const HEADERS: &[Altered] = &[
    altered!(18, 18, 62; Answer::Line("rvld: F02 BadHeader file=gen0.o section=0 place=18 name= other=0\n")),
    altered!(60, 61, 0; Answer::Line("rvld: F04 BadSection file=gen0.o section=0 place=60 name= other=0\n")),
    altered!(62, 62, 11; Answer::Line("rvld: F04 BadSection file=gen0.o section=0 place=62 name= other=0\n")),
    altered!(512, 515, 255; Answer::Line("rvld: F10 BadName file=gen0.o section=1 place=512 name= other=0\n")),
    altered!(551, 551, 128; Answer::Line("rvld: F03 Outside file=gen0.o section=1 place=512 name= other=0\n")),
    altered!(521, 521, 8; Answer::Line("rvld: F05 Compressed file=gen0.o section=1 place=512 name= other=0\n")),
    altered!(560, 560, 3; Answer::Line("rvld: F15 BadAlignment file=gen0.o section=1 place=512 name= other=0\n")),
];

const CONTENTS: &[Altered] = &[
    altered!(238, 239, 255; Answer::Line("rvld: F09 BadSymbol file=gen0.o section=8 place=232 name= other=0\n")),
    altered!(238, 238, 11; Answer::Line("rvld: F09 BadSymbol file=gen0.o section=8 place=232 name= other=0\n")),
    altered!(240, 240, 13; Answer::Line("rvld: F09 BadSymbol file=gen0.o section=8 place=232 name= other=0\n")),
    altered!(92, 92, 6; Answer::Line("rvld: F11 BadReloc file=gen0.o section=2 place=80 name= other=0\n")),
    altered!(88, 88, 41; Answer::Line("rvld: F12 RelocKind file=gen0.o section=2 place=80 name= other=41\n")),
    altered!(80, 80, 5; Answer::Line("rvld: F11 BadReloc file=gen0.o section=2 place=80 name= other=0\n")),
    // Sections may share bytes.
    altered!(856, 856, 64; Answer::Linked),
];

fn altered_bytes(alloc: Global, altered: &Altered) -> Result<Vec<u8>, AllocError> {
    let mut bytes = object(alloc)?;
    for place in altered.first..altered.last.saturating_add(1) {
        if let Some(byte) = bytes.get_mut(place) {
            *byte = altered.value;
        }
    }
    Ok(bytes)
}

/// Whether a link of the altered object ends as it should.
fn is_altered<R: Threads + Sync>(rt: &R, alloc: Global, altered: &Altered) -> Holds {
    for workers in WORKERS {
        let bytes = altered_bytes(alloc, altered)?;
        let left = link_alone(rt, alloc, "gen0.o", bytes, workers)?;
        if !is_answer(alloc, &left, &altered.answer, 0)? {
            return Ok(false);
        }
    }
    Ok(true)
}

#[test]
fn headers_are_altered(rt: HostRuntime) -> Result<(), Fail> {
    each!(rt; altered in HEADERS => is_altered(&rt, rt.alloc(), altered)?)
}

#[test]
fn contents_are_altered(rt: HostRuntime) -> Result<(), Fail> {
    each!(rt; altered in CONTENTS => is_altered(&rt, rt.alloc(), altered)?)
}
