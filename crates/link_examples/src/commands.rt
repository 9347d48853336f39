//! The commands of examples, and what each has to leave.

use crate::images::FIRST;
use crate::libraries::Library;
use crate::stores::Store;
use elf_bytes::{Image, record};
use std::alloc::{AllocError, Global};

/// The words that are added to those of an example, so that it runs with the default number of workers, with one, two, three and 64.
pub const WORKERS: &[&[&str]] = &[
    &[],
    &["--threads", "1"],
    &["--threads", "2"],
    &["--threads", "3"],
    &["--threads", "64"],
];

pub fn push_words(all: &mut Vec<String>, alloc: Global, words: &[&str]) -> Result<(), AllocError> {
    for word in words {
        all.push(word.to_string(alloc)?)?;
    }
    Ok(())
}

/// The words of an example, and after them those that ask for a number of workers.
pub fn words_of(
    alloc: Global,
    words: &[&str],
    workers: &[&str],
) -> Result<Vec<String>, AllocError> {
    let mut all = Vec::new(alloc);
    push_words(&mut all, alloc, words)?;
    push_words(&mut all, alloc, workers)?;
    Ok(all)
}

/// Lines as a text.
pub fn text_of(alloc: Global, lines: &[&str]) -> Result<Vec<u8>, AllocError> {
    let mut text = Vec::new(alloc);
    for line in lines {
        text.extend_from_slice(line.as_bytes())?;
        text.push(b'\n')?;
    }
    Ok(text)
}

/// A stream: the numbers of the puts that fail, and for how many bytes it has room.
#[derive(Clone, Copy)]
pub struct Stream<'a> {
    pub fails: &'a [u64],
    pub room: usize,
}

/// What is outside the program: which of the depot's calls fail, the most bytes that an append takes and an output has room for, and the streams.
#[derive(Clone, Copy)]
pub struct Outside<'a> {
    pub fails: &'a [u64],
    pub most: usize,
    pub room: usize,
    pub say: Stream<'a>,
    pub err: Stream<'a>,
}

/// A stream that takes all that is said.
pub const WIDE_STREAM: Stream = record!(Stream; fails: &[], room: 1000);

/// Nothing fails.
pub const SOUND: Outside =
    record!(Outside; fails: &[], most: 1000, room: 200_000, say: WIDE_STREAM, err: WIDE_STREAM);

/// A call of the program: its words, those that ask for a number of workers, the files and archives at hand, and what is outside.
#[derive(Clone, Copy)]
pub struct Call<'a> {
    pub words: &'a [&'a str],
    pub workers: &'a [&'a str],
    pub store: Store,
    pub libraries: &'a [Library<'a>],
    pub outside: &'a Outside<'a>,
}

/// A command that links: its words, its files and archives, the name of its output and the executable, the name of its map and the
/// lines of that (none where there is no map), and what is said.
#[derive(Clone, Copy)]
pub struct Link<'a> {
    pub words: &'a [&'a str],
    pub store: Store,
    pub libraries: &'a [Library<'a>],
    pub output: &'a str,
    pub image: Image<'a>,
    pub map: &'a str,
    pub lines: &'a [&'a str],
    pub said: &'a str,
}

pub const FIRST_LINK: Link =
    record!(Link; words: &["rvld", "-s", "a.o"], store: Store::Objects, libraries: &[],
    output: "a.out", image: FIRST, map: "m", lines: &[], said: "");

/// A command that links nothing: its words, its files and archives, its status and its line, and how many loads there are.
#[derive(Clone, Copy)]
pub struct Refusal<'a> {
    pub words: &'a [&'a str],
    pub store: Store,
    pub libraries: &'a [Library<'a>],
    pub status: u8,
    pub line: &'a str,
    pub loads: u64,
}

/// No words, not even the program's name.
pub const NO_WORDS: Refusal =
    record!(Refusal; words: &[], store: Store::Objects, libraries: &[], status: 2, line: "rvld: bad command\n", loads: 0);
