//! One header.

ghost use Rattle.std.specs.Prelude.{◌≡◌, ℕ, ◌+◌, ◌≤◌, length, IfOk, Err};
ghost use Rattle.lk_base.specs.declared.defects.Flaw.{Flaw as FlawValue};
ghost use Rattle.lk_tables.specs.Checks.{checked, flaw_at, IsFirstBroken};
ghost use Rattle.lk_tables.specs.Names.{span as span_of};
ghost use Rattle.ar_read.specs.declared.format.TheConstants.{AR_HDR_LEN, AR_NAME_LEN};
ghost use Rattle.ar_read.specs.Fields.{form_checks, head_of, HeaderAt};

use crate::fields::{decimal, field_at};
use crate::format::{
    AR_FMAG_AT, AR_FMAG_FIRST, AR_FMAG_SECOND, AR_HDR_LEN, AR_NAME_LEN, AR_SIZE_AT, AR_SIZE_LEN,
};
use lk_base::{DefectKind, Flaw, NO_FILE};
use lk_tables::Span;

/// What a member's header says (`struct ar_hdr` of <ar.h>, 60 bytes). Its spans are file offsets in the archive, in bytes.
#[derive(Clone, Copy, Debug, PartialEq, Eq)]
pub struct ArHead {
    /// Its name field, without the spaces at its end.
    pub name: Span,
    /// The bytes after it, as many as its size says.
    pub body: Span,
}

/// A flaw of the header at an offset.
pub fn flaw(kind: DefectKind, at: u64) -> Flaw
    ensures { result ≡ flaw_at kind 0 at }
{
    Flaw {
        kind,
        section: 0,
        place: at,
        other: 0,
    }
}

/// Bytes of the file that is read.
pub fn span(from: u64, len: u64) -> Span
    ensures { result ≡ span_of from len }
{
    Span {
        file: NO_FILE,
        from,
        len,
    }
}

/// The header at an offset, or its first broken check.
#[tactic(auto, unfolding(crate::specs::Fields::form_checks, crate::specs::Fields::decimal, crate::specs::Fields::head_of, crate::specs::Fields::name_text, crate::specs::Fields::size_text))]
fn read_header(bytes: &[u8], off: u64) -> Result<ArHead, Flaw>
    ensures value { result ≡ checked (form_checks bytes.now off) (head_of bytes.now off) }
    ensures named { IfOk result (λ head. (head.name.from ≡ off) × (head.name.len ≤ AR_NAME_LEN)) }
    ensures after { IfOk result (λ head. head.body.from ≡ off + AR_HDR_LEN) }
    ensures inside { IfOk result (λ head. head.body.from + head.body.len ≤ length bytes.now) }
{
    let broken = flaw(DefectKind::F06, off);
    let length = bytes.len() as u64;
    if length < off || length - off < AR_HDR_LEN {
        return Err(broken);
    }
    let at = off as usize;
    if !(bytes[at + AR_FMAG_AT] == AR_FMAG_FIRST && bytes[at + AR_FMAG_AT + 1] == AR_FMAG_SECOND) {
        return Err(broken);
    }
    let Some(size) = decimal(field_at(bytes, at + AR_SIZE_AT, AR_SIZE_LEN)) else {
        return Err(broken);
    };
    if length - off - AR_HDR_LEN < size {
        return Err(broken);
    }
    let name = field_at(bytes, at, AR_NAME_LEN);
    Ok(ArHead {
        name: span(off, name.len() as u64),
        body: span(off + AR_HDR_LEN, size),
    })
}

/// The header at an offset of an archive, or BadArchive at that offset if it is cut off, does not end as a header
/// does, has a size that is no number, or has data that end past the file. Takes no memory.
pub fn header_at(bytes: &[u8], off: u64) -> Result<ArHead, Flaw>
    ensures exact { result ≡ checked (form_checks bytes.now off) (head_of bytes.now off) }
    ensures found { IfOk result (λ head. HeaderAt bytes.now off head) }
    ensures only { (head : ArHead) → HeaderAt bytes.now off head → result ≡ Ok head }
    ensures refused { (flaw : FlawValue) → result ≡ Err flaw → IsFirstBroken (form_checks bytes.now off) flaw }
    ensures broken { (flaw : FlawValue) → IsFirstBroken (form_checks bytes.now off) flaw → result ≡ Err flaw }
    ensures named { IfOk result (λ head. (head.name.from ≡ off) × (head.name.len ≤ AR_NAME_LEN)) }
    ensures after { IfOk result (λ head. head.body.from ≡ off + AR_HDR_LEN) }
    ensures inside { IfOk result (λ head. head.body.from + head.body.len ≤ length bytes.now) }
{
    read_header(bytes, off)
}
