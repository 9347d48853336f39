//! The files of a link: the inputs, and the members of those that are archives.

ghost use Rattle.std.specs.Prelude.{◌≡◌, ℕ, ◌<◌, ◌≤◌, ◌^◌, ◌++◌, length, map, flat_map, IfOk, OnOk, MatchOption, [], ◌∷◌};
ghost use Rattle.lk_base.specs.Limits.{IsWithinStandard};
ghost use Rattle.lk_base.specs.declared.abi.TheConstants.{FILE_MAX};
ghost use Rattle.link_passes.specs.Contents.{input_contents, sources_of};
ghost use Rattle.link_passes.specs.Sources.{input_at, input_sources, member_source, sources, whole_source};

use crate::inputs::Inputs;
use crate::sources::Source;
use ar_read::{Member, is_archive, members};
use elf_read::is_elf;
use lk_base::{Flaw, Limits, ReadFault, check_file_size};
use lk_tables::text_of;
use std::alloc::{AllocError, Global};

/// Adds a member that is an ELF file.
fn push_member<'a>(
    list: &mut Vec<Source<'a>>,
    input: usize,
    bytes: &'a [u8],
    member: &Member,
) -> Result<(), AllocError>
    requires { length bytes.now ≤ FILE_MAX }
    ensures { OnOk result (sources_of list.new.items ≡ sources_of list.old.items ++ member_source input bytes.now member.now) }
{
    let body = text_of(bytes, &member.body);
    if !is_elf(body) {
        return Ok(());
    }
    list.push(Source {
        input,
        label: Some(member.name),
        member: true,
        archive: false,
        bytes: body,
        flaw: None,
    })?;
    Ok(())
}

/// Adds those members of an archive that are ELF files, in order.
fn push_members<'a>(
    list: &mut Vec<Source<'a>>,
    input: usize,
    bytes: &'a [u8],
    members: &[Member],
) -> Result<(), AllocError>
    requires { length bytes.now ≤ FILE_MAX }
    ensures { OnOk result (sources_of list.new.items ≡ sources_of list.old.items ++ flat_map (member_source input bytes.now) members.now) }
{
    for member in members {
        push_member(list, input, bytes, member)?;
    }
    Ok(())
}

/// Adds an input by itself.
fn push_whole<'a>(
    list: &mut Vec<Source<'a>>,
    input: usize,
    bytes: &'a [u8],
    archive: bool,
    flaw: Option<Flaw>,
) -> Result<(), AllocError>
    requires { MatchOption flaw (length bytes.now ≤ FILE_MAX) (λ _. Unit {0}) }
    ensures { OnOk result (sources_of list.new.items ≡ sources_of list.old.items ++ whole_source input bytes.now archive flaw ∷ []) }
{
    list.push(Source {
        input,
        label: None,
        member: archive,
        archive,
        bytes,
        flaw,
    })?;
    Ok(())
}

/// Adds the files of an input.
#[tactic(auto, unfolding(crate::specs::Sources::input_sources))]
fn push_input<'a>(
    alloc: Global,
    limits: &Limits,
    list: &mut Vec<Source<'a>>,
    input: usize,
    bytes: &'a [u8],
) -> Result<(), AllocError>
    requires { IsWithinStandard limits.now }
    ensures { OnOk result (sources_of list.new.items ≡ sources_of list.old.items ++ input_sources limits.now input bytes.now) }
{
    if let Err(flaw) = check_file_size(bytes.len() as u64, limits) {
        return push_whole(list, input, bytes, is_archive(bytes), Some(flaw));
    }
    if !is_archive(bytes) {
        return push_whole(list, input, bytes, false, None);
    }
    match members(alloc, bytes) {
        Ok(members) => {
            push_whole(list, input, bytes, true, None)?;
            push_members(list, input, bytes, members.as_slice())
        }
        Err(ReadFault::Bad(flaw)) => push_whole(list, input, bytes, true, Some(flaw)),
        Err(ReadFault::Memory) => Err(AllocError),
    }
}

/// The bytes of an input.
fn bytes_at(inputs: &Inputs, input: usize) -> &[u8]
    requires { input < length (input_contents inputs.now) }
    ensures { result.now ≡ input_at (input_contents inputs.now) input }
{
    inputs.files[input].1.as_slice()
}

/// The files of a link by number: the inputs in the order of the command, each archive followed by those of its members that
/// are ELF files. What is wrong with an input is kept in its source; the only error is out of memory.
#[tactic(auto, unfolding(crate::specs::Sources::sources))]
pub fn find_sources<'a>(
    alloc: Global,
    limits: &Limits,
    inputs: &'a Inputs,
) -> Result<Vec<Source<'a>>, AllocError>
    requires { IsWithinStandard limits.now }
    ensures { IfOk result (λ list. sources_of list.items ≡ sources limits.now (input_contents inputs.now)) }
{
    let mut list = Vec::new(alloc);
    for input in 0..inputs.files.len() {
        push_input(alloc, limits, &mut list, input, bytes_at(inputs, input))?;
    }
    Ok(list)
}
