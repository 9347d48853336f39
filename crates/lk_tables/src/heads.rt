//! The head of an object: what is read of each file, whether it takes part in the link or not.

ghost use Rattle.std.specs.Prelude.{◌≡◌, ◌≤◌, count_by, length};
ghost use Rattle.std.proofs.Props.{props};
ghost use Rattle.lk_tables.specs.Symbols.{is_common};

use crate::spans::Span;

/// One section (System V gABI, "Sections").
#[derive(Clone, Copy, Debug, PartialEq, Eq)]
pub struct Section {
    /// The name; empty at section 0 and at each section of type NULL.
    pub name: Span,
    /// What the section holds, by its number in the gABI.
    pub sh_type: u32,
    /// WRITE 1, ALLOC 2, EXECINSTR 4 and so on.
    pub flags: u64,
    /// File offset of the contents.
    pub offset: u64,
    /// Bytes of the contents.
    pub size: u64,
    /// Another section, as the type has it.
    pub link: u32,
    /// A number as the type has it.
    pub info: u32,
    /// `sh_addralign` as it stands: 0 counts as 1.
    pub align: u64,
    /// Bytes of one entry, in a table.
    pub entsize: u64,
}

/// Where a symbol stands (System V gABI, "Symbol Table", `st_shndx`).
#[derive(Clone, Copy, Debug, PartialEq, Eq)]
pub enum Place {
    /// Nowhere: another file defines it.
    Undef,
    /// In no section: its value is a number.
    Absolute,
    /// In no section yet: the link gives it room.
    Common,
    /// In the section of this index.
    Within(u32),
}

/// One symbol (System V gABI, "Symbol Table"). Symbol 0 counts as local, of no type, undefined and without a name.
#[derive(Clone, Copy, Debug, PartialEq, Eq)]
pub struct Symbol {
    /// The name, empty at symbol 0.
    pub name: Span,
    /// LOCAL 0, GLOBAL 1, WEAK 2, GNU_UNIQUE 10.
    pub binding: u8,
    /// The symbol's type: NOTYPE 0, OBJECT 1, FUNC 2, SECTION 3, FILE 4, COMMON 5, TLS 6, GNU_IFUNC 10.
    pub sort: u8,
    /// Where it stands.
    pub place: Place,
    /// An offset in its section, or a number.
    pub value: u64,
    /// Bytes of what it names.
    pub size: u64,
}

/// What the file header, the section table and the symbol table say.
#[derive(Debug, Drop)]
pub struct Head {
    /// The flags of its code (`e_flags`).
    pub flags: u32,
    /// By index, section 0 included.
    pub sections: Vec<Section>,
    /// The index of the symbol table's section, 0 where there is none.
    pub symtab: u32,
    /// By index, symbol 0 included.
    pub symbols: Vec<Symbol>,
    /// How many of the symbols are COMMON.
    pub commons: usize,

    ghost counted: { commons ≡ count_by (λ s. is_common s.place) symbols.items } by { Prim.hlevel props },
    ghost few: { commons ≤ length symbols.items } by { Prim.hlevel props },
}
