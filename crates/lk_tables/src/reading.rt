//! What passes read of a file.

ghost use Rattle.std.specs.Prelude.{◌≡◌, ◌≤◌, ◌==◌, ◌&&◌, nat_lt, is_some, map, length, count_by};
ghost use Rattle.lk_tables.specs.Files as spec;
ghost use Rattle.lk_tables.specs.FileView.{file_view};
ghost use Rattle.lk_tables.specs.Heads.{head_view};
ghost use Rattle.lk_tables.specs.Objects.{group_view};
ghost use Rattle.lk_tables.specs.Sections as read;
ghost use Rattle.lk_tables.specs.Symbols as symbols;
ghost use Rattle.lk_base.specs.RelocKinds.{is_among};

use crate::files::File;
use crate::heads::{Head, Place, Section, Symbol};
use crate::names::text_of;
use crate::objects::{Group, Reloc};
use crate::spans::Span;
use lk_base::NO_FILE;
use lk_base::abi::{
    SHF_ALLOC, SHF_EXCLUDE, SHT_FINI_ARRAY, SHT_INIT_ARRAY, SHT_NOBITS, SHT_NOTE, SHT_NULL,
    SHT_PREINIT_ARRAY, SHT_PROGBITS, STB_LOCAL, STT_NOTYPE, STT_SECTION,
};

/// No name.
const NO_NAME: Span = Span {
    file: NO_FILE,
    from: 0,
    len: 0,
};

/// A section past the end of the table: it is not written.
const NO_SECTION: Section = Section {
    name: NO_NAME,
    sh_type: SHT_NULL,
    flags: 0,
    offset: 0,
    size: 0,
    link: 0,
    info: 0,
    align: 0,
    entsize: 0,
};

/// A symbol past the end of the table: local, and not defined.
pub const NO_SYMBOL: Symbol = Symbol {
    name: NO_NAME,
    binding: STB_LOCAL,
    sort: STT_NOTYPE,
    place: Place::Undef,
    value: 0,
    size: 0,
};

impl<'a> File<'a> {
    /// Its bytes, from the first of the object on.
    pub fn bytes(&self) -> &'a [u8]
        ensures { result.now ≡ (file_view self.now).bytes }
    {
        self.bytes
    }

    /// Whether it takes part only if it is asked for: an archive, or a member of one.
    pub fn is_member(&self) -> bool
        ensures { result ≡ (file_view self.now).member }
    {
        self.member
    }

    /// What is read of every file.
    pub fn head(&self) -> &Head
        ensures { head_view result.now ≡ (file_view self.now).head }
    {
        &self.head
    }

    /// The flags of its code (`e_flags`).
    pub fn flags(&self) -> u32
        ensures { result ≡ (file_view self.now).head.flags }
    {
        self.head.flags
    }

    /// Its sections, by index.
    pub fn sections(&self) -> &[Section]
        ensures { result.now ≡ (file_view self.now).head.sections }
    {
        self.head.sections.as_slice()
    }

    /// Its symbols, by index.
    pub fn symbols(&self) -> &[Symbol]
        ensures { result.now ≡ (file_view self.now).head.symbols }
    {
        self.head.symbols.as_slice()
    }

    /// How many of its symbols are COMMON.
    pub fn commons(&self) -> usize
        ensures count { result ≡ spec.commons_before (file_view self.now) (length (file_view self.now).head.symbols) }
        ensures few { result ≤ length (file_view self.now).head.symbols }
    {
        self.head.commons
    }

    /// Whether the file takes part in the link.
    pub fn is_live(&self) -> bool
        ensures { result ≡ (file_view self.now).live }
    {
        self.object.is_some()
    }

    /// The symbol of an index of its symbol table; past the end a local one that is not defined.
    pub fn symbol(&self, index: usize) -> Symbol
        ensures { result ≡ spec.symbol_at (file_view self.now) index }
    {
        match self.head.symbols.get(index) {
            Some(symbol) => *symbol,
            None => NO_SYMBOL,
        }
    }

    /// The section of an index of its section table; past the end one that is not written.
    pub fn section(&self, index: usize) -> Section
        ensures { result ≡ spec.section_at (file_view self.now) index }
    {
        match self.head.sections.get(index) {
            Some(section) => *section,
            None => NO_SECTION,
        }
    }

    /// The relocations of a section, in stable order of offset; none of a section past the end, or of a file that takes no part.
    pub fn relocs(&self, index: usize) -> &[Reloc]
        ensures { result.now ≡ spec.relocs_at (file_view self.now) index }
    {
        let Some(object) = &self.object else {
            return &[];
        };
        match object.relocs.get(index) {
            Some(list) => list.as_slice(),
            None => &[],
        }
    }

    /// Its section groups, in order of their sections; none of a file that takes no part.
    pub fn groups(&self) -> &[Group]
        ensures { map group_view result.now ≡ (file_view self.now).object.groups }
    {
        match &self.object {
            Some(object) => object.groups.as_slice(),
            None => &[],
        }
    }

    /// The name of a symbol.
    pub fn symbol_name(&self, index: usize) -> &'a [u8]
        ensures { result.now ≡ spec.symbol_name (file_view self.now) index }
    {
        text_of(self.bytes, &self.symbol(index).name)
    }

    /// Whether a section has unwind records.
    pub fn is_frame(&self, index: usize) -> bool
        ensures { result ≡ spec.is_frame_at (file_view self.now) index }
    {
        match self.head.sections.get(index) {
            Some(section) => 0 < index && is_frame(self.bytes, section),
            None => false,
        }
    }

    /// Whether a section's bytes go into the executable.
    pub fn writes(&self, index: usize) -> bool
        ensures { result ≡ spec.writes (file_view self.now) index }
    {
        match self.head.sections.get(index) {
            Some(section) => 0 < index && is_written(self.bytes, section),
            None => false,
        }
    }
}

/// Whether sections of a type may be written.
pub fn is_loaded_type(sh_type: u32) -> bool
    ensures { result ≡ is_among read.loaded_types sh_type }
{
    matches!(
        sh_type,
        SHT_PROGBITS | SHT_NOTE | SHT_NOBITS | SHT_INIT_ARRAY | SHT_FINI_ARRAY | SHT_PREINIT_ARRAY
    )
}

/// Whether a section is loaded when the program runs.
#[tactic(auto, unfolding(crate::specs::Sections::is_loaded))]
pub fn is_loaded(section: &Section) -> bool
    ensures { result ≡ read.is_loaded section.now }
{
    section.flags & SHF_ALLOC != 0 && section.flags & SHF_EXCLUDE == 0
}

/// Whether a section's bytes go into the executable: it is loaded, of a type that is linked, and not `.eh_frame`, of which single records
/// may.
#[tactic(auto, unfolding(crate::specs::Sections::is_written))]
pub fn is_written(bytes: &[u8], section: &Section) -> bool
    ensures { result ≡ read.is_written bytes.now section.now }
{
    is_loaded(section)
        && [
            SHT_PROGBITS,
            SHT_NOTE,
            SHT_NOBITS,
            SHT_INIT_ARRAY,
            SHT_FINI_ARRAY,
            SHT_PREINIT_ARRAY,
        ]
        .contains(&section.sh_type)
        && text_of(bytes, &section.name) != b".eh_frame".as_slice()
}

/// Whether a section has unwind records (LSB Core, "Exception Frames"): it is loaded, of type PROGBITS, and named `.eh_frame`.
#[tactic(auto, unfolding(crate::specs::Sections::is_frame))]
pub fn is_frame(bytes: &[u8], section: &Section) -> bool
    ensures { result ≡ read.is_frame bytes.now section.now }
{
    is_loaded(section)
        && section.sh_type == SHT_PROGBITS
        && text_of(bytes, &section.name) == b".eh_frame".as_slice()
}

/// Whether a section's bytes and relocations are read: its bytes go into the executable, or it has unwind records.
#[tactic(auto, unfolding(crate::specs::Sections::is_read))]
pub fn is_read(bytes: &[u8], section: &Section) -> bool
    ensures { result ≡ read.is_read bytes.now section.now }
{
    is_written(bytes, section) || is_frame(bytes, section)
}

/// Whether a symbol stands for its section: a LOCAL symbol of type SECTION.
pub fn is_section_symbol(symbol: &Symbol) -> bool
    ensures { result ≡ spec.is_section_symbol symbol.now }
{
    symbol.binding == STB_LOCAL && symbol.sort == STT_SECTION
}

/// Whether other files see a symbol.
pub fn is_visible(symbol: &Symbol) -> bool
    ensures { result ≡ spec.is_visible symbol.now }
{
    symbol.binding != STB_LOCAL
}

/// Whether a symbol is COMMON: it stands in no section yet, and the link gives it room.
pub fn is_common(symbol: &Symbol) -> bool
    ensures { result ≡ symbols.is_common symbol.now.place }
{
    symbol.place == Place::Common
}

/// How many symbols are COMMON.
pub fn common_count(list: &[Symbol]) -> usize
    ensures count { result ≡ count_by (λ s. symbols.is_common s.place) list.now }
    ensures few { result ≤ length list.now }
{
    list.iter().filter(|symbol| is_common(symbol)).count()
}
