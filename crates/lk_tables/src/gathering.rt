//! The files of a link gathered, one after the other, when their heads are read.

ghost use Rattle.std.specs.Prelude.{◌≡◌, ◌++◌, ◌∷◌, ◌+◌, ◌<◌, ◌≤◌, ◌^◌, [], length, true, false, is_some, Ok, Some, None, IfSome, OnOk, OnErr};
ghost use Rattle.lk_base.specs.declared.abi.TheConstants.{FILE_MAX};
ghost use Rattle.lk_tables.specs.Gathering.{added, head_or_none};
ghost use Rattle.lk_tables.specs.Heads.{head_of, head_view};
ghost use Rattle.lk_tables.specs.NameNumbers.{NumbersNames, heads_alone};
ghost use Rattle.lk_tables.specs.FileView.{file_views};
ghost use Rattle.lk_tables.specs.TablesView.{are_numbered, heads_of};

use crate::files::File;
use crate::heads::Head;
use crate::numbering::NameNumbers;
use crate::tables::Heads;
use std::alloc::{AllocError, Global};

impl<'a> Heads<'a> {
    /// No files, whose names are not numbered. It keeps the allocator.
    pub fn empty(alloc: Global) -> Heads<'a>
        ensures files { heads_of result ≡ [] }
        ensures names { are_numbered result ≡ false }
    {
        Heads {
            alloc,
            files: Vec::new(alloc),
            names: None,
        }
    }

    /// Adds the next file. Its bytes are lent; an archive by itself has no head. Names have to be numbered again after it. Where memory
    /// runs out the files stay as they were, and so do the numbers of their names.
    pub fn add(
        &mut self,
        bytes: &'a [u8],
        head: Option<Head>,
        member: bool,
    ) -> Result<(), AllocError>
        requires few { length (heads_of self.old) + 1 < 2 ^ 24 }
        requires short { length bytes.now ≤ FILE_MAX }
        requires head { IfSome head (λ h. head_of bytes.now ≡ Ok (head_view h)) }
        ensures ok { OnOk result (heads_of self.new ≡ heads_of self.old ++ added bytes.now head member ∷ []) }
        ensures ok_names { OnOk result (are_numbered self.new ≡ false) }
        ensures err { OnErr result (heads_of self.new ≡ heads_of self.old) }
        ensures err_names { OnErr result (are_numbered self.new ≡ are_numbered self.old) }
    {
        let head = head_or_none(self.alloc, head);
        self.files.push(File {
            bytes,
            member,
            head,
            object: None,
        })?;
        self.names = None;
        Ok(())
    }

    /// How many files there are.
    pub fn file_count(&self) -> usize
        ensures { result ≡ length (heads_of self.now) }
    {
        self.files.len()
    }

    /// The files, by number.
    pub fn files(&self) -> &[File<'a>]
        ensures { file_views result.now ≡ heads_of self.now }
    {
        self.files.as_slice()
    }

    /// The numbers of the files' names, if these are numbered.
    pub fn names(&self) -> Option<&NameNumbers>
        ensures some { is_some result ≡ are_numbered self.now }
        ensures numbers { IfSome result (λ names. NumbersNames (heads_alone (heads_of self.now)) names.now) }
    {
        self.names.as_ref()
    }

    /// Keeps the numbers of the files' names for all later passes.
    pub fn keep_names(&mut self, names: NameNumbers)
        requires { NumbersNames (heads_alone (heads_of self.old)) names }
        ensures files { heads_of self.new ≡ heads_of self.old }
        ensures kept { are_numbered self.new ≡ true }
    {
        self.names = Some(names);
    }
}

/// The head of a file: an archive by itself has an empty one.
fn head_or_none(alloc: Global, head: Option<Head>) -> Head
    ensures { head_view result ≡ head_or_none head }
{
    if let Some(head) = head {
        return head;
    }
    Head {
        flags: 0,
        sections: Vec::new(alloc),
        symtab: 0,
        symbols: Vec::new(alloc),
        commons: 0,
    }
}
