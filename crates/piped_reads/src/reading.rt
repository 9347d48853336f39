//! What is read of one file: its members, if it is an archive, and heads.

ghost use Rattle.std.specs.Prelude.{◌≡◌, [], ◌∷◌, None, Some, Ok, Err, IfOk, length};
ghost use Rattle.std.specs.Option.{option_map};
ghost use Rattle.lk_tables.specs.Checks.{Gives};
ghost use Rattle.lk_tables.specs.Heads.{head_of, head_view};
ghost use Rattle.piped_reads.specs.Readings.{IsPiped, flawed, heads_from, heads_seen, member_head, object_reading, own_flaw, reading_of, archive_reading};
ghost use Rattle.ar_read.specs.Archives.{archive_of};
ghost use Rattle.piped_reads.specs.Stops.{AreHeadsFrom, parsed_view, stop_at};

use crate::files::{PipedFile, PipedFlaw};
use ar_read::{Member, is_archive, members};
use elf_read::{is_elf, read_head};
use lk_base::{Flaw, Limits, ReadFault, check_file_size};
use lk_tables::{Head, text_of};
use std::alloc::{AllocError, Global};

/// What is read of a file.
#[derive(Drop)]
pub struct Parsed {
    pub members: Vec<Member>,
    pub heads: Vec<Option<Head>>,
    pub flaw: Option<PipedFlaw>,
}

/// Why there are no heads of members.
pub enum HeadsStop {
    /// A member has a flaw, as the first.
    Flawed(PipedFlaw),
    /// Memory ran out.
    Memory,
}

/// A file that has a flaw itself.
fn flawed(alloc: Global, flaw: Flaw) -> Parsed
    ensures { parsed_view result ≡ flawed [] (own_flaw flaw) }
{
    Parsed {
        members: Vec::new(alloc),
        heads: Vec::new(alloc),
        flaw: Some(PipedFlaw { member: None, flaw }),
    }
}

/// The head of a member, none of one that is no ELF file.
#[tactic(auto, unfolding(crate::specs::Readings::member_head))]
fn read_member(alloc: Global, bytes: &[u8], member: &Member) -> Result<Option<Head>, ReadFault>
    ensures { Gives (option_map head_view) result (member_head bytes.now member.now) }
{
    let body = text_of(bytes, &member.body);
    if !is_elf(body) {
        return Ok(None);
    }
    match read_head(alloc, body) {
        Ok(head) => Ok(Some(head)),
        Err(fault) => Err(fault),
    }
}

/// Why the members of an archive have no heads: the one at `place` has none.
fn stop_at(place: usize, fault: &ReadFault) -> HeadsStop
    ensures { result ≡ stop_at place fault.now }
{
    match fault {
        ReadFault::Bad(flaw) => HeadsStop::Flawed(PipedFlaw {
            member: Some(place),
            flaw: *flaw,
        }),
        ReadFault::Memory => HeadsStop::Memory,
    }
}

/// The heads of the members of an archive.
fn read_members(
    alloc: Global,
    bytes: &[u8],
    members: &[Member],
) -> Result<Vec<Option<Head>>, HeadsStop>
    ensures { AreHeadsFrom result (heads_from bytes.now 0 members.now) }
{
    let mut heads = Vec::new(alloc);
    for place in 0..members.len() {
        let head = match read_member(alloc, bytes, &members[place]) {
            Ok(head) => head,
            Err(fault) => return Err(stop_at(place, &fault)),
        };
        match heads.push(head) {
            Ok(()) => {}
            Err(_) => return Err(HeadsStop::Memory),
        }
    }
    Ok(heads)
}

/// An archive.
fn read_archive(alloc: Global, bytes: &[u8]) -> Result<Parsed, AllocError>
    ensures { IfOk result (λ parsed. parsed_view parsed ≡ archive_reading bytes.now (archive_of bytes.now)) }
{
    let members = match members(alloc, bytes) {
        Ok(members) => members,
        Err(ReadFault::Bad(flaw)) => return Ok(flawed(alloc, flaw)),
        Err(ReadFault::Memory) => return Err(AllocError),
    };
    match read_members(alloc, bytes, members.as_slice()) {
        Ok(heads) => Ok(Parsed {
            members,
            heads,
            flaw: None,
        }),
        Err(HeadsStop::Flawed(flaw)) => Ok(Parsed {
            members,
            heads: Vec::new(alloc),
            flaw: Some(flaw),
        }),
        Err(HeadsStop::Memory) => Err(AllocError),
    }
}

/// An object whose head was read.
fn one_head(alloc: Global, head: Head) -> Result<Parsed, AllocError>
    ensures { IfOk result (λ parsed. parsed_view parsed ≡ object_reading (Ok (head_view head))) }
{
    let mut heads = Vec::new(alloc);
    heads.push(Some(head))?;
    Ok(Parsed {
        members: Vec::new(alloc),
        heads,
        flaw: None,
    })
}

/// A file that is no archive.
fn read_object(alloc: Global, bytes: &[u8]) -> Result<Parsed, AllocError>
    ensures { IfOk result (λ parsed. parsed_view parsed ≡ object_reading (head_of bytes.now)) }
{
    match read_head(alloc, bytes) {
        Ok(head) => one_head(alloc, head),
        Err(ReadFault::Bad(flaw)) => Ok(flawed(alloc, flaw)),
        Err(ReadFault::Memory) => Err(AllocError),
    }
}

/// A file.
#[tactic(auto, unfolding(crate::specs::Readings::reading_of))]
fn read_bytes(alloc: Global, bytes: &[u8]) -> Result<Parsed, AllocError>
    ensures { IfOk result (λ parsed. parsed_view parsed ≡ reading_of bytes.now) }
{
    let limits = Limits::standard();
    if let Err(flaw) = check_file_size(bytes.len() as u64, &limits) {
        return Ok(flawed(alloc, flaw));
    }
    if is_archive(bytes) {
        return read_archive(alloc, bytes);
    }
    read_object(alloc, bytes)
}

/// A file that was loaded, with what is read of it: the members of an archive, and heads; or its first flaw, of a link's own limit for its
/// length, of the archive, of an object, or of the first member that has one. The only error is out of memory.
pub fn read_file(alloc: Global, bytes: Vec<u8>, by: u32) -> Result<PipedFile, AllocError>
    ensures bytes { IfOk result (λ file. file.bytes ≡ bytes) }
    ensures by { IfOk result (λ file. file.by ≡ by) }
    ensures read { IfOk result IsPiped }
{
    let parsed = read_bytes(alloc, bytes.as_slice())?;
    let Parsed {
        members,
        heads,
        flaw,
    } = parsed;
    Ok(PipedFile {
        bytes,
        members,
        heads,
        flaw,
        by,
    })
}
