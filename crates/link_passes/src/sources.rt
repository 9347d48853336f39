//! A file of a link before its head is read.

ghost use Rattle.std.specs.Prelude.{◌≤◌, length, MatchOption};
ghost use Rattle.std.proofs.Props.{props};
ghost use Rattle.lk_base.specs.declared.abi.TheConstants.{FILE_MAX};

use lk_base::Flaw;
use lk_tables::Span;

/// A file of a link before its head is read: an input, or a member of one that is an archive.
#[derive(Debug, Drop)]
pub struct Source<'a> {
    /// The number of its input.
    pub input: usize,
    /// The name of a member, in the bytes of its archive.
    pub label: Option<Span>,
    /// Whether it takes part only where another file asks for it.
    pub member: bool,
    /// Whether it is an archive by itself.
    pub archive: bool,
    /// Its bytes, lent by its input.
    pub bytes: &'a [u8],
    /// What is wrong with it before its head is looked at.
    pub flaw: Option<Flaw>,

    ghost short: { MatchOption flaw (length bytes.now ≤ FILE_MAX) (λ _. Unit {0}) } by { Prim.hlevel props },
}
