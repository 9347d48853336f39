//! Commands by `run_piped`, and what each has to leave, whatever the number of parsers.

use super::OwnStores;
use elf_bytes::record;
use link_driver::OpenGate;
use link_examples::images::{ASKED, FIRST};
use link_examples::libraries::{
    BSD_FIRST, CUT_HEADER, CUT_MEMBER, EMPTY, NO_MEMBERS_BYTES, WITH_TEXT,
};
use link_examples::{
    FIRST_LINK, Link, Outside, Refusal, SOUND, Store, WORKERS, files_of, link, refusal,
    shared_files, words_of,
};
use link_gen::objects;
use link_runs::{Left, each_by_any, leaves, refuses, run_over, run_piped_over};
use std::alloc::{AllocError, Global};
use std::sync::Wait;
use std::test::Fail;
use std::thread::Threads;

/// An object, an archive with members that are no objects, and one without members.
const LINKS: &[Link] = &[
    FIRST_LINK,
    link!("-s", "m.o", "lib.a" => ASKED; libraries: &[WITH_TEXT]),
    link!("-s", "a.o", "lib.a" => FIRST; libraries: &[EMPTY]),
];

/// A name that is defined twice; one file twice; a broken archive and a broken member; and a file that is not there, as the last and as the first.
const REFUSALS: &[Refusal] = &[
    refusal!("-s", "p.o", "q.o" => 1, 2, "F20 Duplicate file=p.o section=0 place=1 name=x other=q.o"),
    refusal!("-s", "a.o", "a.o" => 1, 2, "F20 Duplicate file=a.o section=0 place=1 name=_start other=a.o"),
    refusal!("-s", "a.o", "lib.a" => 1, 2, "F06 BadArchive file=lib.a section=0 place=8 name= other=0"; libraries: &[CUT_HEADER]),
    refusal!("-s", "a.o", "lib.a" => 1, 2, "F07 Thin file=lib.a section=0 place=0 name= other=0"; libraries: &[NO_MEMBERS_BYTES]),
    refusal!("-s", "a.o", "lib.a" => 1, 2, "F18 BsdName file=lib.a section=0 place=8 name= other=0"; libraries: &[BSD_FIRST]),
    refusal!("-s", "a.o", "lib.a" => 1, 2, "F02 BadHeader file=lib.a(two.o) section=0 place=63 name= other=0"; libraries: &[CUT_MEMBER]),
    refusal!("-s", "a.o", "z.o" => 3, 2, "cannot read z.o"),
    refusal!("-s", "z.o", "a.o" => 3, 1, "cannot read z.o"),
];

/// Whether a command leaves what it has to, with this number of parsers.
fn is_linked<R: Threads + Wait + Sync>(
    rt: &R,
    alloc: Global,
    link: &Link,
    workers: &[&str],
) -> Result<bool, AllocError> {
    let files = files_of(alloc, &OwnStores, link.store, link.libraries)?;
    let words = words_of(alloc, link.words, workers)?;
    let left = run_piped_over(rt, alloc, words.as_slice(), files, &SOUND, &OpenGate)?;
    leaves(alloc, &left, link)
}

/// Whether a command that links nothing does.
fn is_refused<R: Threads + Wait + Sync>(
    rt: &R,
    alloc: Global,
    refusal: &Refusal,
    workers: &[&str],
) -> Result<bool, AllocError> {
    let files = files_of(alloc, &OwnStores, refusal.store, refusal.libraries)?;
    let words = words_of(alloc, refusal.words, workers)?;
    let left = run_piped_over(rt, alloc, words.as_slice(), files, &SOUND, &OpenGate)?;
    Ok(refuses(&left, refusal))
}

#[test]
fn files_that_are_read_while_they_are_loaded_link(rt: HostRuntime) -> Result<(), Fail> {
    each_by_any!(rt; link, workers in LINKS => is_linked(&rt, rt.alloc(), link, workers)?)
}

#[test]
fn what_is_wrong_with_them_is_refused(rt: HostRuntime) -> Result<(), Fail> {
    each_by_any!(rt; refusal, workers in REFUSALS => is_refused(&rt, rt.alloc(), refusal, workers)?)
}

/// The first load fails.
const FIRST_FAILS: Outside = record!(Outside, SOUND => fails: &[0]);
/// The second one does.
const SECOND_FAILS: Outside = record!(Outside, SOUND => fails: &[1]);

/// Whether two files can't be read, with each number of parsers: this is told after so many loads, and nothing begun.
fn is_unread<R: Threads + Wait + Sync>(
    rt: &R,
    alloc: Global,
    outside: &Outside,
    loads: u64,
    line: &str,
) -> Result<bool, AllocError> {
    for workers in WORKERS {
        let files = shared_files(alloc, Store::Objects)?;
        let words = words_of(alloc, &["rvld", "-s", "a.o", "h.o"], workers)?;
        let left = run_piped_over(rt, alloc, words.as_slice(), files, outside, &OpenGate)?;
        let told = left.status == 3 && left.err.written() == line.as_bytes();
        if !told || left.depot.calls() != loads || left.depot.begun() != 0 {
            return Ok(false);
        }
    }
    Ok(true)
}

#[test]
fn a_load_that_fails_is_the_last(rt: HostRuntime) -> Result<(), Fail> {
    let alloc = rt.alloc();
    assert!(rt; is_unread(&rt, alloc, &FIRST_FAILS, 1, "rvld: cannot read a.o\n")?);
    assert!(rt; is_unread(&rt, alloc, &SECOND_FAILS, 2, "rvld: cannot read h.o\n")?);
    Ok(())
}

/// How many objects are generated: five times as many as the queue holds.
const MANY: u32 = 40;
/// Room for their executable.
const WIDE: Outside = record!(Outside, SOUND => most: 65536);

fn executable(left: &Left) -> &[u8] {
    left.depot.bytes("a.out").unwrap_or(b"".as_slice())
}

/// What the generated objects give, as inputs of `run`.
fn generated<R: Threads + Sync>(rt: &R, alloc: Global) -> Result<Left, AllocError> {
    let words = words_of(alloc, &["rvld", "--self-input", "40"], &[])?;
    let none = Vec::new(alloc);
    run_over(rt, alloc, words.as_slice(), none, &WIDE, &OpenGate)
}

/// What they give as files that are loaded and read meanwhile.
fn loaded<R: Threads + Wait + Sync>(
    rt: &R,
    alloc: Global,
    workers: &[&str],
) -> Result<Left, AllocError> {
    let files = objects(alloc, MANY)?;
    let mut words = words_of(alloc, &["rvld"], workers)?;
    for file in &files {
        words.push(file.0.clone()?)?;
    }
    run_piped_over(rt, alloc, words.as_slice(), files, &WIDE, &OpenGate)
}

#[test]
fn many_files_give_what_generated_objects_do(rt: HostRuntime) -> Result<(), Fail> {
    let alloc = rt.alloc();
    let wanted = generated(&rt, alloc)?;
    assert_eq!(rt; wanted.status, 0);
    assert!(rt; !executable(&wanted).is_empty());
    for workers in WORKERS {
        let left = loaded(&rt, alloc, workers)?;
        assert_eq!(rt; left.status, 0);
        assert!(rt; executable(&left) == executable(&wanted));
    }
    Ok(())
}
