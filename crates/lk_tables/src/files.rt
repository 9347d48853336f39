//! A file of a link.

ghost use Rattle.std.specs.Prelude.{◌≡◌, ◌≤◌, ◌^◌, length, Ok, IfSome};
ghost use Rattle.std.proofs.Props.{props};
ghost use Rattle.lk_base.specs.declared.abi.TheConstants.{FILE_MAX};
ghost use Rattle.lk_tables.specs.Heads.{head_of, head_view};
ghost use Rattle.lk_tables.specs.Objects.{object_of, object_view};

use crate::heads::Head;
use crate::objects::Object;

/// A file of a link: an object of the command, an archive, or a member of one. An archive by itself has an empty head.
#[derive(Debug, Drop)]
pub struct File<'a> {
    /// Its bytes, from the first of the object on. They are lent: nothing is copied of an input.
    pub(crate) bytes: &'a [u8],
    /// Whether it takes part only if it is asked for.
    pub(crate) member: bool,
    /// What is read of every file.
    pub(crate) head: Head,
    /// What is read only of a file that takes part in the link: `None` is a file that does not.
    pub(crate) object: Option<Object>,

    ghost few: { length head.sections.items ≤ 2 ^ 28 } by { Prim.hlevel props },
    ghost short: { IfSome object (λ _. length bytes.now ≤ FILE_MAX) } by { Prim.hlevel props },
    ghost headed: { IfSome object (λ _. head_of bytes.now ≡ Ok (head_view head)) } by { Prim.hlevel props },
    ghost bodied: { IfSome object (λ object. object_of bytes.now ≡ Ok (object_view object)) } by { Prim.hlevel props },
}
