//! One header after the earlier ones: its member, and where the next one stands.

ghost use Rattle.std.specs.Prelude.{◌≡◌, ℕ, ◌+◌, ◌<◌, ◌≤◌, length, IfOk, MatchOption};
ghost use Rattle.lk_tables.specs.Checks.{checked};
ghost use Rattle.std.specs.Option.{option_map};
ghost use Rattle.ar_read.specs.declared.format.TheConstants.{AR_NAME_LEN};
ghost use Rattle.ar_read.specs.Names.{ShortWithin};
ghost use Rattle.ar_read.specs.Archives as read;

use crate::archive::Member;
use crate::fields::field_at;
use crate::format::AR_NAME_LEN;
use crate::headers::header_at;
use crate::names::{NameKind, kind_of, later_table, name_of};
use lk_base::Flaw;
use lk_tables::Span;

/// What one header gives.
#[derive(Clone, Copy, Debug, PartialEq, Eq)]
pub struct Entry {
    /// Its member; an index and the table of long names are none.
    pub member: Option<Member>,
    /// The table of long names that stands before the next header.
    pub table: Option<Span>,
    /// Where the next header stands.
    pub next: usize,
}

/// What the name of a sound header says.
#[tactic(auto, unfolding(crate::specs::Archives::kind_at, crate::specs::Fields::name_text))]
fn kind_at(bytes: &[u8], at: usize) -> NameKind
    requires { at + AR_NAME_LEN ≤ length bytes.now }
    ensures value { result ≡ read.kind_at bytes.now at }
    ensures short { ShortWithin AR_NAME_LEN result }
{
    kind_of(field_at(bytes, at, AR_NAME_LEN))
}

/// The member of that name, if it is one.
fn member_named(name: Option<Span>, body: Span) -> Option<Member>
    ensures { result ≡ option_map (read.named body) name }
{
    let Some(name) = name else {
        return None;
    };
    Some(Member { name, body })
}

/// The header at an offset, if `table` is the table of long names that stands before it.
pub fn read_entry(bytes: &[u8], table: Option<Span>, at: usize) -> Result<Entry, Flaw>
    requires { MatchOption table (Unit {0}) (λ t. t.from + t.len ≤ length bytes.now) }
    ensures value { result ≡ checked (read.checks_at bytes.now table at) (read.entry_at bytes.now table at) }
    ensures lies { IfOk result (λ entry. MatchOption entry.member (Unit {0}) (read.LiesIn (length bytes.now))) }
    ensures onward { IfOk result (λ entry. at < entry.next) }
    ensures inside { IfOk result (λ entry. MatchOption entry.table (Unit {0}) (λ t. t.from + t.len ≤ length bytes.now)) }
{
    let head = header_at(bytes, at as u64)?;
    let kind = kind_at(bytes, at);
    let name = name_of(bytes, table, at as u64, kind)?;
    let end = (head.body.from + head.body.len) as usize;
    Ok(Entry {
        member: member_named(name, head.body),
        table: later_table(table, kind, head.body),
        next: end + end % 2,
    })
}
