//! The top call that reads its inputs while it loads them.

ghost use Rattle.std.specs.Prelude.{◌≡◌, ℕ, List, ◌≤◌, All, [], ◌∷◌, ◌++◌, true, false, None, Some, map, length, is_some, filter, if◌then◌else◌, IfOk, IfSome, OnOk};
ghost use Rattle.ar_read.specs.Archives.{is_archive};
ghost use Rattle.link_command.specs.Command.{command_of_words, command_view, texts_of};
ghost use Rattle.lk_base.specs.Limits.{standard};
ghost use Rattle.link_passes.specs.Contents.{contents_of};
ghost use Rattle.link_driver.specs.Endings.{status_of, reported_line};
ghost use Rattle.link_driver.specs.Ends.{Ends, EndsSo};
ghost use Rattle.link_passes.specs.Known.{AreHeads, own_heads};
ghost use Rattle.link_driver.specs.Promises.{Promises};
ghost use Rattle.link_passes.specs.Sources.{sources};
ghost use Rattle.piped_reads.specs.Loads.{bytes_of_files};
ghost use Rattle.piped_reads.specs.Readings.{IsPiped};

use crate::driving::{
    Ending, line, link_generated, link_inputs, report_line, report_load_stop, status,
};
use ar_read::is_archive;
use link_command::{Command, Wanted, command_of};
use link_passes::inputs_of;
use lk_depot::{Depot, Sink};
use lk_tables::Head;
use piped_reads::{Piped, PipedFile, PipedFlaw, read_piped};
use std::alloc::{AllocError, Global};
use std::mem::forget;
use std::sync::Wait;
use std::thread::Threads;
use work_split::Gate;

/// Adds the head of an archive by itself, which has none.
fn push_archive(list: &mut Vec<Option<Head>>, archive: bool) -> Result<(), AllocError>
    ensures { OnOk result (list.new.items ≡ list.old.items ++ (if archive then None ∷ [] else [])) }
{
    if archive {
        list.push(None)?;
    }
    Ok(())
}

/// Adds a head, if there is one.
fn push_some(list: &mut Vec<Option<Head>>, head: Option<Head>) -> Result<(), AllocError>
    ensures { OnOk result (list.new.items ≡ list.old.items ++ (if is_some head then head ∷ [] else [])) }
{
    if head.is_some() {
        list.push(head)?;
    }
    Ok(())
}

/// Adds those heads that there are, in order.
fn push_read(list: &mut Vec<Option<Head>>, heads: Vec<Option<Head>>) -> Result<(), AllocError>
    ensures { OnOk result (list.new.items ≡ list.old.items ++ filter is_some heads.items) }
{
    for head in heads {
        push_some(list, head)?;
    }
    Ok(())
}

/// Adds the heads of a file in the order of the files of a link: an archive by itself, which has none, and those of its members that are ELF files; or
/// that of an object.
fn push_heads(
    list: &mut Vec<Option<Head>>,
    archive: bool,
    heads: Vec<Option<Head>>,
) -> Result<(), AllocError>
    ensures { OnOk result (list.new.items ≡ list.old.items ++ own_heads archive heads.items) }
{
    push_archive(list, archive)?;
    push_read(list, heads)
}

/// Whether there was no flaw so far, and there is none here.
fn is_sound(sound: bool, flaw: &Option<PipedFlaw>) -> bool
    ensures { result ≡ true → (sound ≡ true) × (flaw.now ≡ None) }
{
    match flaw {
        Some(_) => false,
        None => sound,
    }
}

/// What files hold, and the heads of their files, if no file has a flaw.
struct Apart {
    contents: Vec<Vec<u8>>,
    heads: Vec<Option<Head>>,
    sound: bool,
}

/// Takes files that were read apart.
fn take_apart(alloc: Global, piped: Piped) -> Result<Apart, AllocError>
    requires { All (λ (file : PipedFile). IsPiped file) piped.files.items }
    ensures contents { IfOk result (λ apart. contents_of apart.contents.items ≡ bytes_of_files piped.files.items) }
    ensures heads { IfOk result (λ apart. apart.sound ≡ true → AreHeads (sources standard (bytes_of_files piped.files.items)) apart.heads.items) }
{
    let mut contents = Vec::with_capacity(alloc, piped.files.len())?;
    let mut heads = Vec::new(alloc);
    let mut sound = true;
    for file in piped.files {
        let PipedFile {
            bytes,
            members: _,
            heads: own,
            flaw,
            by: _,
        } = file;
        sound = is_sound(sound, &flaw);
        push_heads(&mut heads, is_archive(bytes.as_slice()), own)?;
        contents.push(bytes)?;
    }
    Ok(Apart {
        contents,
        heads,
        sound,
    })
}

/// The heads, if there is no flaw.
fn known_if(sound: bool, heads: Vec<Option<Head>>) -> Option<Vec<Option<Head>>>
    ensures { IfSome result (λ list. (sound ≡ true) × (list.items ≡ heads.items)) }
{
    if sound {
        return Some(heads);
    }
    None
}

/// Loads and reads the files of an accepted command, and links them. Where a file has a flaw the link reads the heads once more, for the first defect.
fn link_piped<R: Threads + Wait + Sync, D: Depot, S: Sink, G: Gate>(
    rt: &R,
    alloc: Global,
    command: &Command,
    names: &[String],
    depot: &mut D,
    say: &mut S,
    gate: &G,
) -> Ending
    requires some { 1 ≤ command.now.threads }
    requires most { command.now.threads ≤ 64 }
    requires names { texts_of names.now ≡ (command_view command.now).inputs }
    requires files { (command_view command.now).generated ≡ None }
    ensures ends { Ends (Some (command_view command.now)) (D.store depot.old) (D.store depot.new) (S.output say.old) (S.output say.new) (status_of result) (reported_line result) }
    ensures faults { (D.store depot.old).faults ≤ (D.store depot.new).faults }
    ensures begun { (D.store depot.old).begun ≤ (D.store depot.new).begun }
    ensures say_faults { (S.output say.old).faults ≤ (S.output say.new).faults }
{
    let piped = match read_piped(rt, alloc, depot, names, command.threads, gate) {
        Ok(piped) => piped,
        Err(stop) => return report_load_stop(alloc, command, &stop),
    };
    let Ok(apart) = take_apart(alloc, piped) else {
        return Ending::Memory;
    };
    let Apart {
        contents,
        heads,
        sound,
    } = apart;
    let known = known_if(sound, heads);
    let Ok(inputs) = inputs_of(alloc, names, contents) else {
        return Ending::Memory;
    };
    let ending = link_inputs(rt, alloc, command, &inputs, known, depot, say, gate);
    forget(inputs);
    ending
}

/// Links what an accepted command names.
fn link_accepted<R: Threads + Wait + Sync, D: Depot, S: Sink, G: Gate>(
    rt: &R,
    alloc: Global,
    command: &Command,
    depot: &mut D,
    say: &mut S,
    gate: &G,
) -> Ending
    requires some { 1 ≤ command.now.threads }
    requires most { command.now.threads ≤ 64 }
    ensures ends { Ends (Some (command_view command.now)) (D.store depot.old) (D.store depot.new) (S.output say.old) (S.output say.new) (status_of result) (reported_line result) }
    ensures faults { (D.store depot.old).faults ≤ (D.store depot.new).faults }
    ensures begun { (D.store depot.old).begun ≤ (D.store depot.new).begun }
    ensures say_faults { (S.output say.old).faults ≤ (S.output say.new).faults }
{
    match &command.inputs {
        Wanted::Files(names) => link_piped(rt, alloc, command, names, depot, say, gate),
        Wanted::Generated(objects) => {
            link_generated(rt, alloc, command, *objects, depot, say, gate)
        }
    }
}

/// Reads the words of a command, and links what it asks for.
fn run_command<R: Threads + Wait + Sync, D: Depot, S: Sink, G: Gate>(
    rt: &R,
    alloc: Global,
    words: &[String],
    depot: &mut D,
    say: &mut S,
    gate: &G,
) -> Ending
    ensures ends { Ends (command_of_words (texts_of words.now)) (D.store depot.old) (D.store depot.new) (S.output say.old) (S.output say.new) (status_of result) (reported_line result) }
    ensures faults { (D.store depot.old).faults ≤ (D.store depot.new).faults }
    ensures begun { (D.store depot.old).begun ≤ (D.store depot.new).begun }
    ensures say_faults { (S.output say.old).faults ≤ (S.output say.new).faults }
{
    let accepted = match command_of(alloc, words) {
        Ok(accepted) => accepted,
        Err(_) => return Ending::Memory,
    };
    let command = match accepted {
        Some(command) => command,
        None => return Ending::Refused,
    };
    link_accepted(rt, alloc, &command, depot, say, gate)
}

/// Runs a command as [`run`](crate::run) does, and reads its files while it loads them.
///
/// What it answers and leaves is what [`run`](crate::run) does. It loads the files one after another, in the order of the command, and as many parsers
/// as the command asks for workers read them meanwhile, as [`read_piped`](piped_reads::read_piped) says; `gate` is called by each parser too.
/// So it may wait for ever where a load does, and it is for few files that come slowly, as from pipes or over a network: `run` shares the loads, which
/// is quicker for many files that are there. Generated objects are not loaded, and linked as by [`run`](crate::run).
pub fn run_piped<R: Threads + Wait + Sync, D: Depot, S: Sink, E: Sink, G: Gate>(
    rt: &R,
    alloc: Global,
    words: &[String],
    depot: &mut D,
    say: &mut S,
    err: &mut E,
    gate: &G,
) -> u8
    ensures ends { EndsSo (texts_of words.now) (D.store depot.old) (D.store depot.new)
        (S.output say.old) (S.output say.new) (E.output err.old) (E.output err.new) result }
    ensures promises { Promises (texts_of words.now) (D.store depot.old) (D.store depot.new) (S.output say.old) (S.output say.new) result }
{
    let ending = run_command(rt, alloc, words, depot, say, gate);
    report_line(err, line(&ending));
    status(&ending)
}
