//! A file whose head is sound, with what was read of it.

ghost use Rattle.std.specs.Prelude.{◌≡◌, ℕ, ◌+◌, ◌*◌, ◌<◌, ◌≤◌, length, Ok};
ghost use Rattle.std.specs.List.{All};
ghost use Rattle.lk_base.specs.declared.abi.TheConstants.{SECTIONS_MAX, SHDR_SIZE};
ghost use Rattle.lk_tables.specs.Checks.{passes};
ghost use Rattle.lk_tables.specs.FileHeader as read;
ghost use Rattle.lk_tables.specs.Heads.{head_of, head_view, sections_of, symbols_of, all_section_checks};
ghost use Rattle.lk_tables.specs.declared.heads.Place.TheVariants.{Within};
ghost use Rattle.lk_tables.specs.Sections.{section_of, takes_relocs};
ghost use Rattle.lk_tables.specs.Symbols as tables;

use crate::header::open;
use crate::sections::section_in;
use lk_base::abi::SHDR_SIZE;
use lk_tables::{Head, Section, Symbol, is_read};

/// A file with its head, which is of its bytes.
#[derive(Clone, Copy)]
pub struct SoundFile<'a> {
    pub bytes: &'a [u8],
    pub sections: &'a [Section],
    pub symbols: &'a [Symbol],
    /// The index of the symbol table's section, 0 if there is none.
    pub symtab: u32,
    /// File offset of the section table.
    pub table: usize,

    ghost table_is: { table ≡ read.e_shoff bytes.now },
    ghost sections_are: { sections.now ≡ sections_of bytes.now },
    ghost counted: { length sections.now ≡ read.section_count bytes.now },
    ghost few: { length sections.now ≤ SECTIONS_MAX },
    ghost within: { table + SHDR_SIZE * length sections.now ≤ length bytes.now },
    ghost symbols_are: { symbols.now ≡ symbols_of bytes.now },
    ghost placed: { All (λ s. (k : ℕ) → s.place ≡ Within k → k < length sections.now) symbols.now },
    ghost symbols_counted: { length symbols.now ≡ tables.symbol_count bytes.now },
    ghost symtab_is: { symtab ≡ tables.symtab_of bytes.now },
    ghost passed: { passes (all_section_checks bytes.now) ≡ Ok tt },
}

/// The file of which this is the head, opened again.
pub fn reopen<'a>(bytes: &'a [u8], head: &'a Head) -> SoundFile<'a>
    requires { head_of bytes.now ≡ Ok (head_view head.now) }
    ensures { result.bytes.now ≡ bytes.now }
{
    let Ok(file) = open(bytes) else {
        unreachable!();
    };
    SoundFile {
        bytes,
        sections: head.sections.as_slice(),
        symbols: head.symbols.as_slice(),
        symtab: head.symtab,
        table: file.table,
    }
}

impl<'a> SoundFile<'a> {
    /// The file offset of a section's header.
    pub fn place_of(&self, index: u32) -> usize
        requires { index < length self.now.sections.now }
        ensures { result ≡ read.place_of self.now.bytes.now index }
    {
        self.table + SHDR_SIZE as usize * index as usize
    }

    /// A section.
    pub fn section(&self, index: u32) -> Section
        requires { index < length self.now.sections.now }
        ensures { result ≡ section_of self.now.bytes.now index }
    {
        section_in(self.bytes, self.sections, index as usize)
    }

    /// A symbol.
    pub fn symbol(&self, index: usize) -> Symbol
        requires { index < length self.now.symbols.now }
        ensures value { result ≡ tables.symbol_of self.now.bytes.now index }
        ensures placed { (k : ℕ) → result.place ≡ Within k → k < length self.now.sections.now }
    {
        self.symbols[index]
    }

    /// Whether the relocations of a section are read: those of a written one are, and of one that has unwind records.
    #[tactic(auto, unfolding(lk_tables::specs::Sections::takes_relocs))]
    pub fn takes_relocs(&self, index: u32) -> bool
        requires { index < length self.now.sections.now }
        ensures { result ≡ takes_relocs self.now.bytes.now index }
    {
        0 < index && is_read(self.bytes, &self.section(index))
    }
}
