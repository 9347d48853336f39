//! What a header's name says, and the names of members.

ghost use Rattle.std.specs.Prelude.{codes, nat_eq, position, ◌≡◌, ℕ, ◌+◌, ◌≤◌, length, IfSome, IfOk, MatchOption, Some, None, if◌then◌else◌};
ghost use Rattle.std.specs.List.{starts_with};
ghost use Rattle.std.specs.Option.{option_or};
ghost use Rattle.lk_tables.specs.Checks.{checked};
ghost use Rattle.ar_read.specs.declared.format.TheConstants.{AR_NAME_LEN};
ghost use Rattle.ar_read.specs.Names as read;

use crate::fields::decimal;
use crate::format::SLASH;
use crate::headers::{flaw, span};
use lk_base::{DefectKind, Flaw};
use lk_tables::Span;
use memchr::memmem;

/// What a header's name says.
#[derive(Clone, Copy, Debug, PartialEq, Eq)]
pub enum NameKind {
    /// An index of symbols.
    Index,
    /// The table of long names.
    LongNames,
    /// A member whose name starts at this byte of the table of long names.
    Long(u64),
    /// A name of the BSD format, or one that does not end.
    Foreign,
    /// A member whose name has this many bytes, and stands in the header.
    Short(usize),
}

/// Whether a header of this name has an index of symbols.
#[tactic(auto, unfolding(crate::specs::Names::is_index))]
fn is_index(name: &[u8]) -> bool
    ensures { result ≡ read.is_index name.now }
{
    name == b"/".as_slice() || name == b"/SYM64/".as_slice()
}

/// Whether a header of this name has the table of long names.
#[tactic(auto, unfolding(crate::specs::Names::is_table))]
fn is_table(name: &[u8]) -> bool
    ensures { result ≡ read.is_table name.now }
{
    name == b"//".as_slice()
}

/// Whether a name is of the BSD format.
#[tactic(auto, unfolding(crate::specs::Names::is_bsd))]
fn is_bsd(name: &[u8]) -> bool
    ensures { result ≡ read.is_bsd name.now }
{
    name.starts_with(b"#1/") || name.starts_with(b"__.SYMDEF")
}

/// Whether a name starts with `/`.
fn starts_with_slash(name: &[u8]) -> bool
    ensures { result ≡ starts_with nat_eq name.now (codes "/") }
{
    name.starts_with(b"/".as_slice())
}

/// The place in the table of long names that `/` and digits name.
#[tactic(auto, unfolding(crate::specs::Names::long_place))]
fn long_place(name: &[u8]) -> Option<u64>
    requires { length name.now ≤ AR_NAME_LEN }
    ensures { result ≡ read.long_place name.now }
{
    if name.is_empty() {
        return None;
    }
    if !starts_with_slash(name) {
        return None;
    }
    let (_, digits) = name.split_at(1);
    decimal(digits)
}

/// Where the first `/` of a name stands.
fn slash_in(name: &[u8]) -> Option<usize>
    ensures value { result ≡ position read.is_slash name.now }
    ensures within { IfSome result (λ len. len ≤ length name.now) }
{
    name.iter().position(|byte| *byte == SLASH)
}

/// What a header's name says.
#[tactic(auto, unfolding(crate::specs::Names::kind_of))]
pub fn kind_of(name: &[u8]) -> NameKind
    requires { length name.now ≤ AR_NAME_LEN }
    ensures value { result ≡ read.kind_of name.now }
    ensures short { read.ShortWithin (length name.now) result }
{
    if is_index(name) {
        return NameKind::Index;
    }
    if is_table(name) {
        return NameKind::LongNames;
    }
    if let Some(place) = long_place(name) {
        return NameKind::Long(place);
    }
    if is_bsd(name) {
        return NameKind::Foreign;
    }
    let Some(len) = slash_in(name) else {
        return NameKind::Foreign;
    };
    NameKind::Short(len)
}

/// How many bytes stand before the first `/` and newline.
fn ended_len(text: &[u8]) -> Option<usize>
    ensures value { result ≡ read.ended_len text.now }
    ensures within { IfSome result (λ len. len + 2 ≤ length text.now) }
{
    memmem::find(text, b"/\n")
}

/// The name that starts at byte `place` of the table of long names, if it ends there. The search goes no further than
/// the table; names that share an end are each searched for up to it.
#[tactic(auto, unfolding(crate::specs::Names::long_name))]
fn long_name(bytes: &[u8], table: Option<Span>, place: u64) -> Option<Span>
    requires { MatchOption table (Unit {0}) (λ t. t.from + t.len ≤ length bytes.now) }
    ensures value { result ≡ read.long_name bytes.now table place }
    ensures inside { IfSome result (λ name. name.from + name.len ≤ length bytes.now) }
{
    let Some(table) = table else {
        return None;
    };
    if table.len <= place {
        return None;
    }
    let from = (table.from + place) as usize;
    let end = (table.from + table.len) as usize;
    let Some(len) = ended_len(&bytes[from..end]) else {
        return None;
    };
    Some(span(table.from + place, len as u64))
}

/// The name of the member whose header stands at an offset, or None for an index or the table of long names.
#[tactic(auto, unfolding(crate::specs::Names::name_checks, crate::specs::Names::name_of))]
pub fn name_of(
    bytes: &[u8],
    table: Option<Span>,
    at: u64,
    kind: NameKind,
) -> Result<Option<Span>, Flaw>
    requires table { MatchOption table (Unit {0}) (λ t. t.from + t.len ≤ length bytes.now) }
    requires header { at + AR_NAME_LEN ≤ length bytes.now }
    requires short { read.ShortWithin AR_NAME_LEN kind }
    ensures value { result ≡ checked (read.name_checks bytes.now table at kind) (read.name_of bytes.now table at kind) }
    ensures inside { IfOk result (λ name. MatchOption name (Unit {0}) (λ s. s.from + s.len ≤ length bytes.now)) }
{
    match kind {
        NameKind::Index => Ok(None),
        NameKind::LongNames => {
            if table.is_some() {
                return Err(flaw(DefectKind::F06, at));
            }
            Ok(None)
        }
        NameKind::Long(place) => {
            let Some(name) = long_name(bytes, table, place) else {
                return Err(flaw(DefectKind::F06, at));
            };
            Ok(Some(name))
        }
        NameKind::Foreign => Err(flaw(DefectKind::F18, at)),
        NameKind::Short(len) => Ok(Some(span(at, len as u64))),
    }
}

/// The table of long names that stands before the next header.
#[tactic(auto, unfolding(crate::specs::Names::is_long_names))]
pub fn later_table(table: Option<Span>, kind: NameKind, body: Span) -> Option<Span>
    ensures { result ≡ option_or table (if read.is_long_names kind then Some body else None) }
{
    if table.is_some() {
        return table;
    }
    match kind {
        NameKind::LongNames => Some(body),
        _ => None,
    }
}
