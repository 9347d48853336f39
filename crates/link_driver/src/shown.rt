//! The names by which files are shown: those of their inputs, and for the members of archives both names.

ghost use Rattle.std.specs.Prelude.{◌≡◌, true, [], length, map, slice_index_or, IfOk};
ghost use Rattle.link_passes.specs.Contents.{input_contents, input_names, names_of, source_view, sources_of};
ghost use Rattle.link_passes.specs.Sources.{input_at, shown_file, shown_files, shown_source};

use link_passes::{Inputs, Source};
use lk_tables::text_of;
use std::alloc::{AllocError, Global};

/// The name of an input, empty where there is none of this number.
fn input_name(inputs: &Inputs, input: usize) -> &[u8]
    ensures { result.now ≡ slice_index_or (input_names inputs.now) input [] }
{
    let Some(file) = inputs.files.get(input) else {
        return &[];
    };
    file.0.as_str().as_bytes()
}

/// The bytes of an input, none where there is none of this number.
fn input_bytes(inputs: &Inputs, input: usize) -> &[u8]
    ensures { result.now ≡ input_at (input_contents inputs.now) input }
{
    let Some(file) = inputs.files.get(input) else {
        return &[];
    };
    file.1.as_slice()
}

/// The name of a file.
#[tactic(auto, unfolding(link_passes::specs::Sources::shown_source))]
fn shown_source(alloc: Global, inputs: &Inputs, source: &Source) -> Result<Vec<u8>, AllocError>
    ensures { IfOk result (λ name. name.items ≡ shown_source (input_names inputs.now) (input_contents inputs.now) (source_view source.now)) }
{
    let mut name = Vec::from_slice(alloc, input_name(inputs, source.input))?;
    let Some(label) = &source.label else {
        return Ok(name);
    };
    name.push(b'(')?;
    name.extend_from_slice(text_of(input_bytes(inputs, source.input), label))?;
    name.push(b')')?;
    Ok(name)
}

/// The name of a file by its number, none where there is no such file.
pub fn shown_file(
    alloc: Global,
    inputs: &Inputs,
    sources: &[Source],
    file: u64,
) -> Result<Vec<u8>, AllocError>
    ensures { IfOk result (λ name. name.items ≡ shown_file (input_names inputs.now) (input_contents inputs.now) (sources_of sources.now) file) }
{
    let Some(source) = sources.get(file as usize) else {
        return Ok(Vec::new(alloc));
    };
    shown_source(alloc, inputs, source)
}

/// The names of all files by number, if they are wanted; none else.
pub fn names_if(
    alloc: Global,
    wanted: bool,
    inputs: &Inputs,
    sources: &[Source],
) -> Result<Vec<Vec<u8>>, AllocError>
    ensures { IfOk result (λ names. wanted ≡ true → names_of names.items ≡ shown_files (input_names inputs.now) (input_contents inputs.now) (sources_of sources.now)) }
{
    let mut names = Vec::new(alloc);
    if !wanted {
        return Ok(names);
    }
    for source in sources {
        names.push(shown_source(alloc, inputs, source)?)?;
    }
    Ok(names)
}
