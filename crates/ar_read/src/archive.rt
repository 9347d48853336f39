//! The members of an archive.

ghost use Rattle.std.specs.Prelude.{All, ◌≡◌, ℕ, ◌++◌, List, [], length, IfOk, Err, MatchResult};
ghost use Rattle.std.specs.List.{cons_option, starts_with};
ghost use Rattle.lk_base.specs.declared.defects.Flaw.{Flaw as FlawValue};
ghost use Rattle.lk_base.specs.declared.defects.ReadFault.TheVariants.{Bad, Memory};
ghost use Rattle.lk_tables.specs.Checks.{checked, passes, from_on, Gives};
ghost use Rattle.ar_read.specs.Archives as read;

use crate::entries::read_entry;
use crate::format::SARMAG;
use crate::headers::flaw;
use lk_base::{DefectKind, Flaw, ReadFault};
use lk_tables::Span;
use std::alloc::Global;

/// A member of an archive of System V's form (`ar`, with GNU's table of long names). Its spans are file offsets in the archive, in bytes.
#[derive(Clone, Copy, Debug, PartialEq, Eq)]
pub struct Member {
    /// Its name, in its header or in the table of long names. It may be empty.
    pub name: Span,
    /// Its data.
    pub body: Span,
}

/// Whether a file begins as an archive does, a thin one too.
#[tactic(auto, unfolding(crate::specs::Archives::is_archive))]
pub fn is_archive(bytes: &[u8]) -> bool
    ensures { result ≡ read.is_archive bytes.now }
{
    bytes.starts_with(b"!<arch>\n") || bytes.starts_with(b"!<thin>\n")
}

/// The first eight bytes: those of an archive, and not of a thin one.
#[tactic(auto, unfolding(crate::specs::Archives::magic_checks))]
fn check_magic(bytes: &[u8]) -> Result<(), Flaw>
    ensures { result ≡ passes (read.magic_checks bytes.now) }
{
    if bytes.starts_with(b"!<thin>\n") {
        return Err(flaw(DefectKind::F07, 0));
    }
    if !bytes.starts_with(b"!<arch>\n") {
        return Err(flaw(DefectKind::F06, 0));
    }
    Ok(())
}

/// Adds a member, if there is one.
fn push_some(members: &mut Vec<Member>, member: Option<Member>) -> Result<(), ReadFault>
    ensures { MatchResult result (λ _. members.new.items ≡ members.old.items ++ cons_option member []) (λ fault. fault ≡ Memory) }
{
    if let Some(member) = member {
        members.push(member)?;
    }
    Ok(())
}

/// The members of a file that starts as an archive does.
fn read_members(alloc: Global, bytes: &[u8]) -> Result<Vec<Member>, ReadFault>
    ensures exact { Gives (λ v. v.items) result (checked (from_on (read.header_checks bytes.now) 0 (read.count bytes.now)) (read.members_of bytes.now (read.count bytes.now))) }
    ensures inside { IfOk result (λ v. All (read.LiesIn (length bytes.now)) v.items) }
{
    let mut members = Vec::new(alloc);
    let mut table = None;
    let mut at = SARMAG;
    while at < bytes.len() {
        let entry = read_entry(bytes, table, at)?;
        push_some(&mut members, entry.member)?;
        table = entry.table;
        at = entry.next;
    }
    Ok(members)
}

/// The members of a file, or its first broken check.
#[tactic(auto, unfolding(crate::specs::Archives::archive_of, crate::specs::Archives::archive_checks))]
fn read_archive(alloc: Global, bytes: &[u8]) -> Result<Vec<Member>, ReadFault>
    ensures exact { Gives (λ v. v.items) result (read.archive_of bytes.now) }
    ensures inside { IfOk result (λ v. All (read.LiesIn (length bytes.now)) v.items) }
{
    check_magic(bytes)?;
    read_members(alloc, bytes)
}

/// The members of an archive in order, without its indexes and the table of long names, or its first broken check:
/// Thin for a thin archive, BadArchive if the format is broken, BsdName for a name of the BSD format, with the offset
/// of the header at fault. Spans count from the first byte of the archive. Takes time linear in the file, but for long
/// names that share one end in the table: each of these is searched for up to that end.
pub fn members(alloc: Global, bytes: &[u8]) -> Result<Vec<Member>, ReadFault>
    ensures exact { Gives (λ v. v.items) result (read.archive_of bytes.now) }
    ensures found { IfOk result (λ v. read.ArOf bytes.now v.items) }
    ensures only { (list : List Member) → read.ArOf bytes.now list → Gives (λ v. v.items) result (Ok list) }
    ensures refused { (flaw : FlawValue) → result ≡ Err (Bad flaw) → read.ArFlaw bytes.now flaw }
    ensures broken { (flaw : FlawValue) → read.ArFlaw bytes.now flaw → Gives (λ v. v.items) result (Err flaw) }
    ensures inside { IfOk result (λ v. All (read.LiesIn (length bytes.now)) v.items) }
{
    read_archive(alloc, bytes)
}
