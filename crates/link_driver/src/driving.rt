//! The top call: a command from its words to its files, to what it says, and to its line.

ghost use Rattle.std.specs.Prelude.{◌≡◌, ℕ, List, ◌⊎◌, ◌≤◌, ◌<◌, [], ◌∷◌, ◌++◌, take, length, slice_index_or, IfOk, IfSome, OnOk, OnErr, None, Some};
ghost use Rattle.lk_depot.specs.Faults.{HasCause, Rises};
ghost use Rattle.lk_depot.specs.Files.{put_if_seen};
ghost use Rattle.lk_depot.specs.Loading.{name_at};
ghost use Rattle.lk_depot.specs.declared.kinds.FileKind.TheVariants.{Executable};
ghost use Rattle.lk_depot.specs.Store.{Store};
ghost use Rattle.link_command.specs.Command.{command_of_words, command_view, texts_of};
ghost use Rattle.link_passes.specs.Contents.{input_contents, input_names, sources_of};
ghost use Rattle.link_passes.specs.Given.{contents_for, names_for};
ghost use Rattle.link_passes.specs.Known.{AreHeads};
ghost use Rattle.link_driver.specs.Link.{cannot_read, line_of_defect};
ghost use Rattle.link_passes.specs.Sources as spec;
ghost use Rattle.lk_base.specs.Limits.{standard};
ghost use Rattle.link_driver.specs.Phases.{IsLinked};
ghost use Rattle.link_driver.specs.Ends.{Accepts, HasLine, IsCut, IsReported, Ends, EndsSo};
ghost use Rattle.link_driver.specs.Promises.{Promises};
ghost use Rattle.link_driver.specs.Endings.{status_of, reported_line, ReportsDefect, ReportsUnread, ReportsStop, ReportsLoadStop, IsWithin, AfterReport, map_line, AreLines, AreLoaded, IsReady};

use crate::diagnostics::{Lines, line_about, line_for, lines_for};
use crate::line::Line;
use crate::linked::Linked;
use crate::linking::link_sources;
use link_command::{Command, Wanted, command_of};
use link_passes::{Inputs, Source, find_sources, generated_inputs, inputs_of};
use lk_base::{Defect, Limits, LinkStop};
use lk_depot::{Depot, Failed, FileKind, LoadAllStop, Sink, put_all, say_all};
use lk_tables::Head;
use std::alloc::{AllocError, Global};
use std::mem::forget;
use std::thread::Threads;
use work_split::Gate;

/// How a run ended.
#[derive(Drop)]
pub enum Ending {
    Done,
    Memory,
    Refused,
    Unreported,
    /// The inputs have a defect.
    Defective { line: Line },
    /// An input could not be read.
    Unread { line: Line },
    /// A file could not be written.
    Unwritten { line: Line },
}

/// Begins the executable and writes it.
fn write_output<R: Threads + Sync, D: Depot, G: Gate>(
    rt: &R,
    depot: &mut D,
    name: &str,
    linked: &mut Linked,
    gate: &G,
) -> Result<(), Failed>
    ensures files { OnOk result ((D.store depot.new).files ≡ put_if_seen name.now linked.old.exe (D.store depot.old).files) }
    ensures kinds { OnOk result ((D.store depot.new).kinds ≡ put_if_seen name.now Executable (D.store depot.old).kinds) }
    ensures cut { OnErr result (IsCut (D.store depot.old) (D.store depot.new) name.now Executable linked.old.exe) }
    ensures begun { Rises (D.store depot.old).begun (D.store depot.new).begun }
    ensures cause { HasCause (D.store depot.old).faults (D.store depot.new).faults result }
    ensures unread { (D.store depot.new).unread ≡ (D.store depot.old).unread }
    ensures lists { linked.new ≡ linked.old }
{
    depot.begin(name, FileKind::Executable)?;
    linked.write_exe(rt, depot, name, gate)
}

/// Begins a file and writes it.
fn write_file<D: Depot>(
    depot: &mut D,
    name: &str,
    kind: FileKind,
    bytes: &[u8],
) -> Result<(), Failed>
    ensures files { OnOk result ((D.store depot.new).files ≡ put_if_seen name.now bytes.now (D.store depot.old).files) }
    ensures kinds { OnOk result ((D.store depot.new).kinds ≡ put_if_seen name.now kind (D.store depot.old).kinds) }
    ensures cut { OnErr result (IsCut (D.store depot.old) (D.store depot.new) name.now kind bytes.now) }
    ensures begun { Rises (D.store depot.old).begun (D.store depot.new).begun }
    ensures cause { HasCause (D.store depot.old).faults (D.store depot.new).faults result }
    ensures unread { (D.store depot.new).unread ≡ (D.store depot.old).unread }
{
    depot.begin(name, kind)?;
    put_all(depot, name, bytes)
}

/// Says what there is to say.
fn say_text<S: Sink>(say: &mut S, text: &[u8]) -> Ending
    ensures said { AfterReport text.now (S.output say.old) (S.output say.new) result }
    ensures faults { (S.output say.old).faults ≤ (S.output say.new).faults }
{
    if say_all(say, text).is_err() {
        return Ending::Unreported;
    }
    Ending::Done
}

/// That an input could not be read.
#[tactic(auto, unfolding(crate::specs::Link::cannot_read))]
fn unreadable_input(alloc: Global, command: &Command, index: usize) -> Ending
    requires { index < length (command_view command.now).inputs }
    ensures { ReportsUnread (cannot_read (name_at (command_view command.now).inputs index)) result }
{
    let name = command.inputs.names()[index].as_str();
    let Ok(line) = line_about(alloc, b"rvld: cannot read ", name.as_bytes()) else {
        return Ending::Memory;
    };
    Ending::Unread { line }
}

/// The first defect. Its line speaks of the files of the link.
fn report_defect(
    alloc: Global,
    command: &Command,
    inputs: &Inputs,
    sources: &[Source],
    defect: &Defect,
) -> Ending
    requires names { input_names inputs.now ≡ names_for (command_view command.now) }
    requires sources { sources_of sources.now ≡ spec.sources standard (input_contents inputs.now) }
    ensures { ReportsDefect (line_of_defect (command_view command.now) (input_contents inputs.now) defect.now) result }
{
    let Ok(line) = line_for(alloc, command, inputs, sources, defect) else {
        return Ending::Memory;
    };
    Ending::Defective { line }
}

/// Why there is no link.
fn report_stop(
    alloc: Global,
    command: &Command,
    inputs: &Inputs,
    sources: &[Source],
    stop: &LinkStop,
) -> Ending
    requires names { input_names inputs.now ≡ names_for (command_view command.now) }
    requires sources { sources_of sources.now ≡ spec.sources standard (input_contents inputs.now) }
    ensures { ReportsStop (command_view command.now) (input_contents inputs.now) stop.now result }
{
    match stop {
        LinkStop::Defect(defect) => report_defect(alloc, command, inputs, sources, defect),
        LinkStop::Memory => Ending::Memory,
    }
}

/// Why the inputs were not loaded.
pub fn report_load_stop(alloc: Global, command: &Command, stop: &LoadAllStop) -> Ending
    requires { IsWithin (command_view command.now).inputs stop.now }
    ensures { ReportsLoadStop (command_view command.now) stop.now result }
{
    match stop {
        LoadAllStop::Absent { index } => unreadable_input(alloc, command, *index),
        LoadAllStop::Failed { index } => unreadable_input(alloc, command, *index),
        LoadAllStop::Memory => Ending::Memory,
    }
}

/// Writes what a link gave, and says what there is to say of it.
fn write_outputs<R: Threads + Sync, D: Depot, S: Sink, G: Gate>(
    rt: &R,
    command: &Command,
    linked: &mut Linked,
    lines: Lines,
    depot: &mut D,
    say: &mut S,
    gate: &G,
) -> Ending
    ensures ends { (before : Store) (inputs : List (List ℕ)) → IsReady (command_view command.now) before (D.store depot.old) inputs linked.old
        → AreLines (command_view command.now) lines
        → Ends (Some (command_view command.now)) before (D.store depot.new) (S.output say.old) (S.output say.new) (status_of result) (reported_line result) }
    ensures faults { (D.store depot.old).faults ≤ (D.store depot.new).faults }
    ensures begun { (D.store depot.old).begun ≤ (D.store depot.new).begun }
    ensures say_faults { (S.output say.old).faults ≤ (S.output say.new).faults }
{
    let output = command.output.as_str();
    match write_output(rt, depot, output, linked, gate) {
        Ok(()) => {}
        Err(_) => return Ending::Unwritten { line: lines.output },
    }
    let Some(map) = &command.map else {
        return say_text(say, linked.report());
    };
    match write_file(depot, map.as_str(), FileKind::Plain, linked.map()) {
        Ok(()) => {}
        Err(_) => return Ending::Unwritten { line: lines.map },
    }
    say_text(say, linked.report())
}

/// Links the inputs of a command, which were loaded or generated; with the heads of its files, where these are `known`.
pub fn link_inputs<R: Threads + Sync, D: Depot, S: Sink, G: Gate>(
    rt: &R,
    alloc: Global,
    command: &Command,
    inputs: &Inputs,
    known: Option<Vec<Option<Head>>>,
    depot: &mut D,
    say: &mut S,
    gate: &G,
) -> Ending
    requires some { 1 ≤ command.now.threads }
    requires most { command.now.threads ≤ 64 }
    requires known { IfSome known (λ list. AreHeads (spec.sources standard (input_contents inputs.now)) list.items) }
    requires names { input_names inputs.now ≡ names_for (command_view command.now) }
    ensures ends { (before : Store) (given : List (List ℕ)) → AreLoaded (command_view command.now) before (D.store depot.old) given
        → input_contents inputs.now ≡ contents_for (command_view command.now) given
        → Ends (Some (command_view command.now)) before (D.store depot.new) (S.output say.old) (S.output say.new) (status_of result) (reported_line result) }
    ensures faults { (D.store depot.old).faults ≤ (D.store depot.new).faults }
    ensures begun { (D.store depot.old).begun ≤ (D.store depot.new).begun }
    ensures say_faults { (S.output say.old).faults ≤ (S.output say.new).faults }
{
    let limits = Limits::standard();
    // The files of the link: the inputs, each archive followed by its members. The line of a defect speaks of them, too.
    let Ok(found) = find_sources(alloc, &limits, inputs) else {
        return Ending::Memory;
    };
    let sources = found.as_slice();
    let linked = match link_sources(rt, alloc, command, inputs, sources, known, &limits, gate) {
        Ok(linked) => linked,
        Err(stop) => return report_stop(alloc, command, inputs, sources, &stop),
    };
    let Ok(lines) = lines_for(alloc, command) else {
        return Ending::Memory;
    };
    // No memory is taken from here on.
    let mut linked = linked;
    let ending = write_outputs(rt, command, &mut linked, lines, depot, say, gate);
    forget(linked);
    ending
}

/// Loads the files of an accepted command and links them.
fn link_files<R: Threads + Sync, D: Depot, S: Sink, G: Gate>(
    rt: &R,
    alloc: Global,
    command: &Command,
    names: &[String],
    depot: &mut D,
    say: &mut S,
    gate: &G,
) -> Ending
    requires some { 1 ≤ command.now.threads }
    requires most { command.now.threads ≤ 64 }
    requires names { texts_of names.now ≡ (command_view command.now).inputs }
    requires files { (command_view command.now).generated ≡ None }
    ensures ends { Ends (Some (command_view command.now)) (D.store depot.old) (D.store depot.new) (S.output say.old) (S.output say.new) (status_of result) (reported_line result) }
    ensures faults { (D.store depot.old).faults ≤ (D.store depot.new).faults }
    ensures begun { (D.store depot.old).begun ≤ (D.store depot.new).begun }
    ensures say_faults { (S.output say.old).faults ≤ (S.output say.new).faults }
{
    let contents = match depot.load_files(rt, alloc, names, command.threads) {
        Ok(contents) => contents,
        Err(stop) => return report_load_stop(alloc, command, &stop),
    };
    let Ok(inputs) = inputs_of(alloc, names, contents) else {
        return Ending::Memory;
    };
    let ending = link_inputs(rt, alloc, command, &inputs, None, depot, say, gate);
    forget(inputs);
    ending
}

/// Generates the objects of an accepted command and links them.
pub fn link_generated<R: Threads + Sync, D: Depot, S: Sink, G: Gate>(
    rt: &R,
    alloc: Global,
    command: &Command,
    objects: u32,
    depot: &mut D,
    say: &mut S,
    gate: &G,
) -> Ending
    requires some { 1 ≤ command.now.threads }
    requires most { command.now.threads ≤ 64 }
    requires files { (command_view command.now).inputs ≡ [] }
    requires generated { (command_view command.now).generated ≡ Some objects }
    ensures ends { Ends (Some (command_view command.now)) (D.store depot.old) (D.store depot.new) (S.output say.old) (S.output say.new) (status_of result) (reported_line result) }
    ensures faults { (D.store depot.old).faults ≤ (D.store depot.new).faults }
    ensures begun { (D.store depot.old).begun ≤ (D.store depot.new).begun }
    ensures say_faults { (S.output say.old).faults ≤ (S.output say.new).faults }
{
    let Ok(inputs) = generated_inputs(alloc, objects) else {
        return Ending::Memory;
    };
    let ending = link_inputs(rt, alloc, command, &inputs, None, depot, say, gate);
    forget(inputs);
    ending
}

/// Links what an accepted command names.
fn link_accepted<R: Threads + Sync, D: Depot, S: Sink, G: Gate>(
    rt: &R,
    alloc: Global,
    command: &Command,
    depot: &mut D,
    say: &mut S,
    gate: &G,
) -> Ending
    requires some { 1 ≤ command.now.threads }
    requires most { command.now.threads ≤ 64 }
    ensures ends { Ends (Some (command_view command.now)) (D.store depot.old) (D.store depot.new) (S.output say.old) (S.output say.new) (status_of result) (reported_line result) }
    ensures faults { (D.store depot.old).faults ≤ (D.store depot.new).faults }
    ensures begun { (D.store depot.old).begun ≤ (D.store depot.new).begun }
    ensures say_faults { (S.output say.old).faults ≤ (S.output say.new).faults }
{
    match &command.inputs {
        Wanted::Files(names) => link_files(rt, alloc, command, names, depot, say, gate),
        Wanted::Generated(objects) => {
            link_generated(rt, alloc, command, *objects, depot, say, gate)
        }
    }
}

/// Reads the words of a command, and links what it asks for.
fn run_command<R: Threads + Sync, D: Depot, S: Sink, G: Gate>(
    rt: &R,
    alloc: Global,
    words: &[String],
    depot: &mut D,
    say: &mut S,
    gate: &G,
) -> Ending
    ensures ends { Ends (command_of_words (texts_of words.now)) (D.store depot.old) (D.store depot.new) (S.output say.old) (S.output say.new) (status_of result) (reported_line result) }
    ensures faults { (D.store depot.old).faults ≤ (D.store depot.new).faults }
    ensures begun { (D.store depot.old).begun ≤ (D.store depot.new).begun }
    ensures say_faults { (S.output say.old).faults ≤ (S.output say.new).faults }
{
    let accepted = match command_of(alloc, words) {
        Ok(accepted) => accepted,
        Err(_) => return Ending::Memory,
    };
    let command = match accepted {
        Some(command) => command,
        None => return Ending::Refused,
    };
    link_accepted(rt, alloc, &command, depot, say, gate)
}

/// The status of an ending.
pub fn status(ending: &Ending) -> u8
    ensures { result ≡ status_of ending.now }
{
    match ending {
        Ending::Done => 0,
        Ending::Memory => 4,
        Ending::Refused => 2,
        Ending::Unreported => 3,
        Ending::Defective { .. } => 1,
        Ending::Unread { .. } => 3,
        Ending::Unwritten { .. } => 3,
    }
}

/// The line of an ending.
#[tactic(auto, unfolding(crate::specs::Link::bad_command, crate::specs::Link::cannot_report))]
pub fn line(ending: &Ending) -> &[u8]
    ensures value { result.now ≡ reported_line ending.now }
    ensures one { HasLine (status_of ending.now) (reported_line ending.now) }
{
    match ending {
        Ending::Done => &[],
        Ending::Memory => &[],
        Ending::Refused => b"rvld: bad command\n",
        Ending::Unreported => b"rvld: cannot report\n",
        Ending::Defective { line } => line.bytes.as_slice(),
        Ending::Unread { line } => line.bytes.as_slice(),
        Ending::Unwritten { line } => line.bytes.as_slice(),
    }
}

/// Writes a line to the standard error, where there is one.
pub fn report_line<E: Sink>(err: &mut E, line: &[u8])
    ensures reported { IsReported line.now (E.output err.old) (E.output err.new) }
    ensures silent { line.now ≡ [] → (E.output err.new) ≡ (E.output err.old) }
    ensures faults { (E.output err.old).faults ≤ (E.output err.new).faults }
{
    if line.is_empty() {
        return;
    }
    let _ = say_all(err, line);
}

/// Runs a command: reads its words, loads its inputs, links them, writes the executable, and says what there is to say.
///
/// `words` are the command's, the program's name first. Inputs are loaded from `depot`, as in the order of the command, before the
/// executable, and the map where one is asked, are begun there; all of them are named as the command says. The report, and what the command
/// asks why, goes to `say`, the line of an end that is not 0 or 4 to `err`. All memory is taken from `alloc` before a file is begun; the
/// executable is never held whole. What the inputs hold, and after a link without a defect the tables, is not given back, since a process ends
/// next that is done with it, and to free it takes a tenth of the time of many objects: a process that goes on calls [`link`](crate::link),
/// which keeps nothing.
///
/// The answer is the exit status: 0 linked; 1 the inputs have a defect, whose line is reported; 2 the command is refused; 3 an input
/// could not be read, or a file or what goes to `say` could not be written; 4 out of memory. `rt` starts as many workers as the
/// command asks for; they share the loads and the passes over files, symbols, sections and blocks. Where there are two or more, passes that do
/// not need one another run side by side, each on a thread of its own; the symbols of the executable and the map are sorted, and the numbers of
/// very many names listed, by as many threads as there are processors. `gate` is called by each worker of a pass before and after its piece,
/// where there are two pieces or more. No answer depends on either.
pub fn run<R: Threads + Sync, D: Depot, S: Sink, E: Sink, G: Gate>(
    rt: &R,
    alloc: Global,
    words: &[String],
    depot: &mut D,
    say: &mut S,
    err: &mut E,
    gate: &G,
) -> u8
    ensures ends { EndsSo (texts_of words.now) (D.store depot.old) (D.store depot.new)
        (S.output say.old) (S.output say.new) (E.output err.old) (E.output err.new) result }
    ensures promises { Promises (texts_of words.now) (D.store depot.old) (D.store depot.new) (S.output say.old) (S.output say.new) result }
{
    let ending = run_command(rt, alloc, words, depot, say, gate);
    report_line(err, line(&ending));
    status(&ending)
}
