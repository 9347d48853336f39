//! Entries of an object's tables, each read whole (System V gABI, "Section Header Table", "Symbol Table",
//! "Relocation").

ghost use Rattle.std.specs.Prelude.{◌≡◌, ◌+◌, ◌≤◌, length};
ghost use Rattle.lk_base.specs.declared.abi.TheConstants.{RELA_SIZE, SHDR_SIZE, SYM_SIZE};
ghost use Rattle.lk_tables.specs.Entries as read;

use lk_tables::{Reloc, SectionHeader, SymbolEntry, half_at, sxword_at, word_at, xword_at};

/// The section header at the file offset `at`.
#[tactic(auto, unfolding(lk_tables::specs::Entries::header_at))]
pub fn header_at(bytes: &[u8], at: usize) -> SectionHeader
    requires { at + SHDR_SIZE ≤ length bytes.now }
    ensures { result ≡ read.header_at bytes.now at }
{
    SectionHeader {
        name: word_at(bytes, at),
        sh_type: word_at(bytes, at + 4),
        flags: xword_at(bytes, at + 8),
        offset: xword_at(bytes, at + 24),
        size: xword_at(bytes, at + 32),
        link: word_at(bytes, at + 40),
        info: word_at(bytes, at + 44),
        align: xword_at(bytes, at + 48),
        entsize: xword_at(bytes, at + 56),
    }
}

/// The symbol table entry at the file offset `at`.
#[tactic(auto, unfolding(lk_tables::specs::Entries::entry_at))]
pub fn entry_at(bytes: &[u8], at: usize) -> SymbolEntry
    requires { at + SYM_SIZE ≤ length bytes.now }
    ensures { result ≡ read.entry_at bytes.now at }
{
    SymbolEntry {
        name: word_at(bytes, at),
        info: bytes[at + 4],
        shndx: half_at(bytes, at + 6),
        value: xword_at(bytes, at + 8),
        size: xword_at(bytes, at + 16),
    }
}

/// The relocation entry at the file offset `at`.
#[tactic(auto, unfolding(lk_tables::specs::Entries::reloc_at))]
pub fn reloc_at(bytes: &[u8], at: usize) -> Reloc
    requires { at + RELA_SIZE ≤ length bytes.now }
    ensures { result ≡ read.reloc_at bytes.now at }
{
    Reloc {
        offset: xword_at(bytes, at),
        kind: word_at(bytes, at + 8),
        symbol: word_at(bytes, at + 12),
        addend: sxword_at(bytes, at + 16),
    }
}
