//! The linker's global offset table (RISC-V ELF psABI, "Global Offset Table").

ghost use Rattle.std.specs.Prelude.{◌≡◌, ◌<◌, ◌^◌, ℕ, All};
ghost use Rattle.std.specs.HashMap.{get};
ghost use Rattle.std.proofs.Props.{props};
ghost use Rattle.link_sections.specs.declared.got.GotUse.{GotUse};
ghost use Rattle.link_sections.specs.GotEntries.{AreNumbered, AreUnlike, eq_keys, word_count, word_of};

use lk_base::{FileNo, SymNo};
use std::collections::HashMap;

/// What code takes from the table.
#[derive(Clone, Copy, Debug, PartialEq, Eq, Hash)]
pub enum GotUse {
    /// The address of a symbol: one word.
    Address,
    /// The offset of a thread-local symbol from the thread pointer: one word.
    ThreadOffset,
    /// The module of a thread-local symbol and its offset there, as a function of the C library takes them: two words.
    GeneralDynamic,
}

/// An entry of the table.
#[derive(Clone, Copy, Debug, PartialEq, Eq)]
pub struct GotEntry {
    /// Whose it is: of a local symbol its number, of another the number of its name.
    pub key: SymNo,
    /// What it is for.
    pub usage: GotUse,
    /// The file of the relocation that asks for it first.
    pub file: FileNo,
    /// The index of that relocation's symbol in the file.
    pub symbol: SymNo,
    /// The number of its first word in the table.
    pub word: u64,
}

/// The entries of the linker's global offset table, in order of their first use; its words have eight bytes each.
#[derive(Debug, Drop)]
pub struct Got {
    pub(crate) entries: Vec<GotEntry>,
    /// By key and use the number of the first word of its entry.
    pub(crate) firsts: HashMap<(SymNo, GotUse), u64>,
    pub(crate) words: u64,

    ghost numbered: { AreNumbered entries.items } by { Prim.hlevel props },
    ghost unlike: { AreUnlike entries.items } by { Prim.hlevel props },
    ghost low: { All (λ e. e.key < 2 ^ 31) entries.items } by { Prim.hlevel props },
    ghost found: { (key : ℕ) (usage : GotUse) → get eq_keys firsts (key, usage) ≡ word_of entries.items key usage } by { Prim.hlevel props },
    ghost counted: { words ≡ word_count entries.items } by { Prim.hlevel props },
}
