//! What is reported: the line of a defect, and the lines about inputs and files.

ghost use Rattle.std.specs.Prelude.{◌≡◌, true, IfOk};
ghost use Rattle.std.specs.List.{list_all};
ghost use Rattle.lk_base.specs.Lines.{is_shown};
ghost use Rattle.link_command.specs.Command.{command_view};
ghost use Rattle.link_passes.specs.Contents.{input_contents, input_names, sources_of};
ghost use Rattle.link_driver.specs.Endings.{AreLines, map_line};
ghost use Rattle.link_driver.specs.Link.{about, cannot_write, defect_name, line_in, shown_in};
ghost use Rattle.link_passes.specs.Given.{names_for};
ghost use Rattle.link_passes.specs.Sources.{source_at};

use crate::line::Line;
use crate::shown::shown_file;
use crate::symbol_names::symbol_name;
use link_command::Command;
use link_passes::{Inputs, Source};
use lk_base::{Defect, FileNo, line_of, push_escaped};
use std::alloc::{AllocError, Global};

/// `text`, a name and a newline.
pub fn line_about(alloc: Global, text: &[u8], name: &[u8]) -> Result<Line, AllocError>
    requires { list_all is_shown text.now ≡ true }
    ensures { IfOk result (λ line. line.bytes.items ≡ about text.now name.now) }
{
    let mut bytes = Vec::from_slice(alloc, text)?;
    push_escaped(&mut bytes, name)?;
    bytes.push(b'\n')?;
    Ok(Line { bytes })
}

/// The lines for files that may fail, made before the first is begun. Where no map is asked, its line has no name.
#[derive(Drop)]
pub struct Lines {
    pub output: Line,
    pub map: Line,
}

/// The line for the map.
#[tactic(auto, unfolding(crate::specs::Link::cannot_write))]
fn line_for_map(alloc: Global, command: &Command) -> Result<Line, AllocError>
    ensures { IfOk result (λ line. line.bytes.items ≡ map_line (command_view command.now).map) }
{
    let Some(map) = &command.map else {
        return line_about(alloc, b"rvld: cannot write ", b"");
    };
    line_about(alloc, b"rvld: cannot write ", map.as_str().as_bytes())
}

#[tactic(auto, unfolding(crate::specs::Link::cannot_write))]
pub fn lines_for(alloc: Global, command: &Command) -> Result<Lines, AllocError>
    ensures { IfOk result (λ lines. AreLines (command_view command.now) lines) }
{
    let output = line_about(
        alloc,
        b"rvld: cannot write ",
        command.output.as_str().as_bytes(),
    )?;
    let map = line_for_map(alloc, command)?;
    Ok(Lines { output, map })
}

/// The bytes of a file, none where there is none of this number.
fn file_bytes<'a>(sources: &[Source<'a>], file: FileNo) -> &'a [u8]
    ensures { result.now ≡ (source_at (sources_of sources.now) file).bytes }
{
    let Some(source) = sources.get(file as usize) else {
        return &[];
    };
    source.bytes
}

/// The name of a defect's symbol.
fn symbol_of<'a>(
    alloc: Global,
    sources: &[Source<'a>],
    defect: &Defect,
) -> Result<&'a [u8], AllocError>
    ensures { IfOk result (λ name. name.now ≡ shown_in (source_at (sources_of sources.now) defect.now.file).bytes defect.now.symbol) }
{
    symbol_name(alloc, file_bytes(sources, defect.file), defect.symbol)
}

/// The name that the line of a defect shows.
fn name_for<'a>(
    alloc: Global,
    command: &'a Command,
    sources: &[Source<'a>],
    defect: &Defect,
) -> Result<&'a [u8], AllocError>
    ensures { IfOk result (λ name. name.now ≡ defect_name (command_view command.now) (sources_of sources.now) defect.now) }
{
    if defect.kind.names_symbol() {
        return symbol_of(alloc, sources, defect);
    }
    if defect.kind.names_entry() {
        return Ok(command.entry.as_str().as_bytes());
    }
    Ok(&[])
}

/// The line of a defect.
pub fn line_for(
    alloc: Global,
    command: &Command,
    inputs: &Inputs,
    sources: &[Source],
    defect: &Defect,
) -> Result<Line, AllocError>
    requires { input_names inputs.now ≡ names_for (command_view command.now) }
    ensures { IfOk result (λ line. line.bytes.items ≡ line_in (command_view command.now) (input_contents inputs.now) (sources_of sources.now) defect.now) }
{
    let file = shown_file(alloc, inputs, sources, defect.file as u64)?;
    let other = shown_file(alloc, inputs, sources, defect.other)?;
    let name = name_for(alloc, command, sources, defect)?;
    let bytes = line_of(alloc, defect, file.as_slice(), name, other.as_slice())?;
    Ok(Line { bytes })
}
