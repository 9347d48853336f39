//! The file header (System V gABI, "ELF Header"; RISC-V ELF psABI, "File Header"), and a file whose header is sound.

ghost use Rattle.std.specs.Prelude.{◌≡◌, ◌+◌, ◌*◌, ◌<◌, ◌≤◌, length, IfOk, OnOk, [], ◌∷◌};
ghost use Rattle.lk_base.specs.declared.abi.TheConstants.{EHDR_SIZE, SECTIONS_MAX, SHDR_SIZE};
ghost use Rattle.lk_tables.specs.Checks.{outcome, passes, ◌says◌, flaw_at};
ghost use Rattle.lk_tables.specs.FileHeader as read;
ghost use Rattle.lk_tables.specs.Sections.{is_symtab, names_from as first_name, names_size as size_of_names};

use crate::entries::header_at;
use lk_base::abi::{
    EF_RISCV_RVE, EHDR_SIZE, ELFCLASS64, ELFDATA2LSB, EM_RISCV, ET_REL, EV_CURRENT, SECTIONS_MAX,
    SHDR_SIZE, SHN_XINDEX, SHT_STRTAB, SHT_SYMTAB,
};
use lk_base::kinds::{BAD_HEADER, BAD_SECTION, LIMIT, NOT_OBJECT, OUTSIDE};
use lk_base::{DefectKind, Flaw};
use lk_tables::ehdr::{
    E_FLAGS, E_MACHINE, E_SHENTSIZE, E_SHNUM, E_SHOFF, E_SHSTRNDX, E_TYPE, E_VERSION, EI_CLASS,
    EI_DATA, EI_VERSION,
};
use lk_tables::{SectionHeader, half_at, word_at, xword_at};

/// A file whose header is sound: its section table and its section names lie in it.
#[derive(Clone, Copy)]
pub struct File<'a> {
    pub bytes: &'a [u8],
    /// File offset of the section table.
    pub table: usize,
    /// How many section headers it has.
    pub count: u32,
    /// File offset of the section name string table, and its bytes.
    pub names_from: usize,
    pub names_size: usize,

    ghost long: { EHDR_SIZE ≤ length bytes.now },
    ghost counted: { 0 < count },
    ghost few: { count ≤ SECTIONS_MAX },
    ghost table_is: { table ≡ read.e_shoff bytes.now },
    ghost count_is: { count ≡ read.section_count bytes.now },
    ghost within: { table + SHDR_SIZE * count ≤ length bytes.now },
    ghost names_from_is: { names_from ≡ first_name bytes.now },
    ghost names_size_is: { names_size ≡ size_of_names bytes.now },
    ghost names_within: { names_from + names_size ≤ length bytes.now },
}

/// The file, if its header is sound.
#[tactic(auto, using(lk_tables::proofs::Passing::checked_append), unfolding(lk_tables::specs::FileHeader::header_checks))]
pub fn open(bytes: &[u8]) -> Result<File<'_>, Flaw>
    ensures checked { outcome result ≡ passes (read.header_checks bytes.now) }
    ensures same { IfOk result (λ file. file.bytes.now ≡ bytes.now) }
{
    check_identity(bytes)?;
    check_form(bytes)?;
    open_table(bytes)
}

impl<'a> File<'a> {
    /// The file offset of a section's header.
    pub fn place_of(&self, index: u32) -> usize
        requires { index < read.section_count self.now.bytes.now }
        ensures value { result ≡ read.place_of self.now.bytes.now index }
        ensures within { result + EHDR_SIZE ≤ length self.now.bytes.now }
    {
        self.table + SHDR_SIZE as usize * index as usize
    }

    /// A section's header.
    pub fn header(&self, index: u32) -> SectionHeader
        requires { index < read.section_count self.now.bytes.now }
        ensures { result ≡ read.header self.now.bytes.now index }
    {
        header_at(self.bytes, self.place_of(index))
    }

    /// Whether a section is a string table; index 0 names no section.
    pub fn is_strtab(&self, index: u32) -> bool
        ensures { result ≡ read.is_strtab self.now.bytes.now index }
    {
        is_strtab_in(self.bytes, self.table, self.count, index)
    }

    /// Whether a section is a symbol table; index 0 names no section.
    pub fn is_symtab(&self, index: u32) -> bool
        ensures { result ≡ is_symtab self.now.bytes.now index }
    {
        0 < index && index < self.count && self.header(index).sh_type == SHT_SYMTAB
    }
}

/// A flaw of the entry or header at a file offset; `section` is the section's index.
pub fn flaw(kind: DefectKind, section: u32, place: usize) -> Flaw
    ensures { result ≡ flaw_at kind section place }
{
    Flaw {
        kind,
        section,
        place: place as u64,
        other: 0,
    }
}

/// One line of a list of checks.
pub fn reject(broken: bool, flaw: Flaw) -> Result<(), Flaw>
    ensures { result ≡ passes ((broken says flaw) ∷ []) }
{
    if broken { Err(flaw) } else { Ok(()) }
}

/// Whether `size` bytes at `from` end past a file of `file` bytes.
pub fn ends_past(file: u64, from: u64, size: u64) -> bool
    ensures { result ≡ read.ends_past file from size }
{
    from > file || file - from < size
}

/// The magic number, and a whole file header.
#[tactic(auto, unfolding(lk_tables::specs::FileHeader::identity_checks))]
fn check_identity(bytes: &[u8]) -> Result<(), Flaw>
    ensures checked { result ≡ passes (read.identity_checks bytes.now) }
    ensures long { OnOk result (EHDR_SIZE ≤ length bytes.now) }
{
    if !bytes.starts_with(b"\x7fELF") {
        return Err(flaw(NOT_OBJECT, 0, 0));
    }
    if bytes.len() < EHDR_SIZE as usize {
        return Err(flaw(BAD_HEADER, 0, bytes.len()));
    }
    Ok(())
}

/// 64 bits, the lowest byte first, version 1, relocatable, RISC-V, not RVE, section headers of 64 bytes.
#[tactic(auto, unfolding(lk_tables::specs::FileHeader::form_checks))]
fn check_form(bytes: &[u8]) -> Result<(), Flaw>
    requires { EHDR_SIZE ≤ length bytes.now }
    ensures { result ≡ passes (read.form_checks bytes.now) }
{
    reject(bytes[EI_CLASS] != ELFCLASS64, flaw(BAD_HEADER, 0, EI_CLASS))?;
    reject(bytes[EI_DATA] != ELFDATA2LSB, flaw(BAD_HEADER, 0, EI_DATA))?;
    reject(
        bytes[EI_VERSION] != EV_CURRENT,
        flaw(BAD_HEADER, 0, EI_VERSION),
    )?;
    reject(
        half_at(bytes, E_TYPE) != ET_REL,
        flaw(BAD_HEADER, 0, E_TYPE),
    )?;
    reject(
        half_at(bytes, E_MACHINE) != EM_RISCV,
        flaw(BAD_HEADER, 0, E_MACHINE),
    )?;
    reject(
        word_at(bytes, E_VERSION) != EV_CURRENT as u32,
        flaw(BAD_HEADER, 0, E_VERSION),
    )?;
    reject(
        word_at(bytes, E_FLAGS) & EF_RISCV_RVE != 0,
        flaw(BAD_HEADER, 0, E_FLAGS),
    )?;
    reject(xword_at(bytes, E_SHOFF) == 0, flaw(BAD_HEADER, 0, E_SHOFF))?;
    reject(
        half_at(bytes, E_SHENTSIZE) as u64 != SHDR_SIZE,
        flaw(BAD_HEADER, 0, E_SHENTSIZE),
    )
}

/// The section table and the section names of a file of the form that is linked.
#[tactic(auto, unfolding(lk_tables::specs::FileHeader::table_checks))]
fn open_table(bytes: &[u8]) -> Result<File<'_>, Flaw>
    requires { EHDR_SIZE ≤ length bytes.now }
    ensures checked { outcome result ≡ passes (read.table_checks bytes.now) }
    ensures same { IfOk result (λ file. file.bytes.now ≡ bytes.now) }
{
    let table = xword_at(bytes, E_SHOFF);
    let len = bytes.len() as u64;
    if half_at(bytes, E_SHNUM) == 0 && ends_past(len, table, SHDR_SIZE) {
        return Err(flaw(OUTSIDE, 0, E_SHOFF));
    }
    let count = count_in(bytes, table as usize);
    if count == 0 {
        return Err(flaw(BAD_SECTION, 0, E_SHNUM));
    }
    if SECTIONS_MAX < count {
        return Err(flaw(LIMIT, 0, E_SHNUM));
    }
    if ends_past(len, table, SHDR_SIZE * count) {
        return Err(flaw(OUTSIDE, 0, E_SHOFF));
    }
    let table = table as usize;
    let count = count as u32;
    let names = names_index_in(bytes, table);
    if !is_strtab_in(bytes, table, count, names) {
        return Err(flaw(BAD_SECTION, 0, E_SHSTRNDX));
    }
    let header = header_at(bytes, table + SHDR_SIZE as usize * names as usize);
    if ends_past(len, header.offset, header.size) {
        return Err(flaw(OUTSIDE, 0, E_SHSTRNDX));
    }
    Ok(File {
        bytes,
        table,
        count,
        names_from: header.offset as usize,
        names_size: header.size as usize,
    })
}

/// How many section headers there are; a number that e_shnum has no room for is the size of section 0.
#[tactic(auto, unfolding(lk_tables::specs::FileHeader::section_count))]
fn count_in(bytes: &[u8], table: usize) -> u64
    requires long { EHDR_SIZE ≤ length bytes.now }
    requires table_is { table ≡ read.e_shoff bytes.now }
    requires within { read.e_shnum bytes.now ≡ 0 → table + SHDR_SIZE ≤ length bytes.now }
    ensures { result ≡ read.section_count bytes.now }
{
    match half_at(bytes, E_SHNUM) {
        0 => header_at(bytes, table).size,
        count => count as u64,
    }
}

/// Which section has the sections' names; an index that e_shstrndx has no room for is section 0's link.
#[tactic(auto, unfolding(lk_tables::specs::FileHeader::names_index))]
fn names_index_in(bytes: &[u8], table: usize) -> u32
    requires long { EHDR_SIZE ≤ length bytes.now }
    requires table_is { table ≡ read.e_shoff bytes.now }
    requires within { table + SHDR_SIZE ≤ length bytes.now }
    ensures { result ≡ read.names_index bytes.now }
{
    match half_at(bytes, E_SHSTRNDX) {
        SHN_XINDEX => header_at(bytes, table).link,
        index => index as u32,
    }
}

/// Whether a section is a string table; index 0 names no section.
fn is_strtab_in(bytes: &[u8], table: usize, count: u32, index: u32) -> bool
    requires table_is { table ≡ read.e_shoff bytes.now }
    requires count_is { count ≡ read.section_count bytes.now }
    requires within { table + SHDR_SIZE * count ≤ length bytes.now }
    ensures { result ≡ read.is_strtab bytes.now index }
{
    0 < index
        && index < count
        && header_at(bytes, table + SHDR_SIZE as usize * index as usize).sh_type == SHT_STRTAB
}
