//! What is read of the linker's global offset table.

ghost use Rattle.std.specs.Prelude.{◌≡◌, ◌<◌, ◌^◌, [], length, is_some, OnOk, OnErr};
ghost use Rattle.lk_tables.specs.Files.{file_at};
ghost use Rattle.lk_tables.specs.NameNumbers.{NumbersNames, heads_alone};
ghost use Rattle.lk_tables.specs.TablesView.{files_of};
ghost use Rattle.link_sections.specs.GotEntries as spec;
ghost use Rattle.link_sections.specs.GotEntries.{AreNumbered, AreUnlike, with_use, word_count, word_of};
ghost use Rattle.link_sections.specs.GotView.{entries_of};

use crate::got::{Got, GotEntry, GotUse};
use lk_base::abi::{R_RISCV_GOT_HI20, R_RISCV_TLS_GD_HI20, R_RISCV_TLS_GOT_HI20};
use lk_base::{FileNo, SymNo};
use lk_tables::{NameNumbers, Tables, is_visible};
use std::alloc::{AllocError, Global};
use std::collections::HashMap;

impl Got {
    /// A table without words.
    #[tactic(auto, unfolding(crate::specs::GotEntries::word_count, crate::specs::GotEntries::entry_of))]
    pub fn empty(alloc: Global) -> Got
        ensures { entries_of result ≡ [] }
    {
        Got {
            entries: Vec::new(alloc),
            firsts: HashMap::new(alloc),
            words: 0,
        }
    }

    /// Adds an entry for a key and a use, after all others, if there is none yet; `file` and `symbol` are those of the relocation that
    /// asks. Out of memory leaves the table as it was.
    #[tactic(auto, unfolding(crate::specs::GotEntries::with_use))]
    pub fn add(
        &mut self,
        key: SymNo,
        usage: GotUse,
        file: FileNo,
        symbol: SymNo,
    ) -> Result<(), AllocError>
        requires { key < 2 ^ 31 }
        ensures ok { OnOk result (entries_of self.new ≡ with_use (entries_of self.old) key usage file symbol) }
        ensures err { OnErr result (entries_of self.new ≡ entries_of self.old) }
    {
        if self.has(key, usage) {
            return Ok(());
        }
        self.entries.reserve(1)?;
        self.firsts.insert((key, usage), self.words)?;
        self.entries.push(GotEntry {
            key,
            usage,
            file,
            symbol,
            word: self.words,
        })?;
        self.words += words_of(usage);
        Ok(())
    }

    /// Whether there is an entry for a key and a use.
    fn has(&self, key: SymNo, usage: GotUse) -> bool
        ensures { result ≡ is_some (spec.entry_of (entries_of self.now) key usage) }
    {
        self.word_of(key, usage).is_some()
    }

    /// The entries, in order of their first use.
    pub fn entries(&self) -> &[GotEntry]
        ensures value { result.now ≡ entries_of self.now }
        ensures numbered { AreNumbered result.now }
        ensures unlike { AreUnlike result.now }
    {
        self.entries.as_slice()
    }

    /// The number of the first word of the entry for a key and a use, if there is one. Takes no memory.
    pub fn word_of(&self, key: SymNo, usage: GotUse) -> Option<u64>
        ensures { result ≡ word_of (entries_of self.now) key usage }
    {
        self.firsts.get(&(key, usage)).copied()
    }

    /// How many words it has.
    pub fn words(&self) -> u64
        ensures value { result ≡ word_count (entries_of self.now) }
        ensures few { result < 2 ^ 34 }
    {
        self.words
    }
}

/// How many words an entry for a use has.
fn words_of(usage: GotUse) -> u64
    ensures { result ≡ spec.words_of usage }
{
    match usage {
        GotUse::Address => 1,
        GotUse::ThreadOffset => 1,
        GotUse::GeneralDynamic => 2,
    }
}

/// What a relocation of a kind takes from the table; none if it does not go by the table.
#[tactic(auto, unfolding(crate::specs::GotEntries::use_of))]
pub fn use_of(kind: u32) -> Option<GotUse>
    ensures { result ≡ spec.use_of kind }
{
    match kind {
        R_RISCV_GOT_HI20 => Some(GotUse::Address),
        R_RISCV_TLS_GOT_HI20 => Some(GotUse::ThreadOffset),
        R_RISCV_TLS_GD_HI20 => Some(GotUse::GeneralDynamic),
        _ => None,
    }
}

/// Whose entry a symbol of a file has: a local symbol has one of its own, by its number, and another shares that of its name, by the
/// name's number. Takes no memory.
#[tactic(auto, unfolding(crate::specs::GotEntries::key_of))]
pub fn key_of(tables: &Tables, numbers: &NameNumbers, file: FileNo, symbol: SymNo) -> SymNo
    requires numbers { NumbersNames (heads_alone (files_of tables.now)) numbers.now }
    requires file { file < length (files_of tables.now) }
    requires symbol { symbol < length (file_at (files_of tables.now) file).head.symbols }
    ensures { result ≡ spec.key_of (files_of tables.now) file symbol }
{
    tables.prove_few();
    if !is_visible(&tables.file(file).symbol(symbol as usize)) {
        return tables.symbol_no(file as usize, symbol as usize) as u32;
    }
    numbers.number(file as usize, symbol as usize)
}
