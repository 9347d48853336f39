//! What a symbol, and so a relocation, stands for (RISC-V ELF psABI, "Relocations": S and A).

ghost use Rattle.std.specs.Prelude.{◌≡◌, ◌<◌, ◌≤◌, ◌==◌, length, find};
ghost use Rattle.std.specs.List.Sorted.{IsNonDecreasingBy};
ghost use Rattle.lk_tables.specs.declared.commons.BoundCommon.{BoundCommon};
ghost use Rattle.lk_tables.specs.BindingView.{binding_view};
ghost use Rattle.lk_tables.specs.Files.{section_total};
ghost use Rattle.lk_tables.specs.FileView.{file_view};
ghost use Rattle.lk_tables.specs.Sites.{relocs_of, spot_at};
ghost use Rattle.lk_tables.specs.TablesView.{files_of};
ghost use Rattle.lk_tables.specs.Targets as spec;

use crate::binding::Binding;
use crate::bounds::{Bound, Spot};
use crate::commons::BoundCommon;
use crate::files::File;
use crate::heads::{Place, Symbol};
use crate::linker_symbols::FRAME_START_NO;
use crate::objects::Reloc;
use crate::ranks::{NO_RANK, file_of, is_linker_rank, symbol_of};
use crate::reading::{is_section_symbol, is_visible};
use crate::tables::Tables;
use lk_base::abi::STB_WEAK;
use lk_base::relocations::goes_by_got;
use lk_base::{FileNo, SecNo, SymNo};

impl Binding {
    /// What a symbol of a file stands for: a local one for itself, another for what its name is bound to. Takes no memory.
    #[tactic(auto, unfolding(crate::specs::Targets::bound))]
    pub fn bound(&self, tables: &Tables, file: FileNo, symbol: SymNo) -> Bound
        ensures { result ≡ spec.bound (files_of tables.now) (binding_view self.now) file symbol }
    {
        let Some(entry) = tables.files().get(file as usize) else {
            return Bound::Number(0);
        };
        if !is_visible(&entry.symbol(symbol as usize)) {
            return definition(tables, self, file, symbol);
        }
        self.bound_by(
            tables,
            self.rank_at(tables.symbol_no(file as usize, symbol as usize)),
        )
    }

    /// What the entry's name is bound to. Takes no memory.
    pub fn entry_bound(&self, tables: &Tables) -> Bound
        ensures { result ≡ spec.entry_bound (files_of tables.now) (binding_view self.now) }
    {
        self.bound_by(tables, self.entry)
    }

    /// The COMMON symbols of a file that get room, in order of symbol.
    pub fn commons(&self, file: usize) -> &[BoundCommon]
        ensures value { result.now ≡ spec.commons_at (binding_view self.now).commons file }
        ensures ordered { IsNonDecreasingBy (λ (c : BoundCommon). c.symbol) result.now }
        ensures numbered { IsNonDecreasingBy (λ (c : BoundCommon). c.section) result.now }
    {
        match self.commons.get(file) {
            Some(list) => list.as_slice(),
            None => &[],
        }
    }

    /// What a rank names.
    #[tactic(auto, unfolding(crate::specs::Targets::bound_by))]
    fn bound_by(&self, tables: &Tables, rank: u64) -> Bound
        ensures { result ≡ spec.bound_by (files_of tables.now) (binding_view self.now) rank }
    {
        if rank == NO_RANK {
            return Bound::Nobody;
        }
        if is_linker_rank(rank) {
            return Bound::Linker(symbol_of(rank));
        }
        definition(tables, self, file_of(rank), symbol_of(rank))
    }

    /// The rank that a symbol's name is bound to, by the symbol's number.
    pub fn rank_at(&self, symbol: usize) -> u64
        ensures { result ≡ spec.rank_at (binding_view self.now) symbol }
    {
        match self.ranks.get(symbol) {
            Some(rank) => *rank,
            None => NO_RANK,
        }
    }

    /// Whether a section was discarded with its group, by its number.
    pub fn is_discarded(&self, section: usize) -> bool
        ensures { result ≡ spec.is_gone (binding_view self.now) section }
    {
        match self.discarded.get(section) {
            Some(gone) => *gone,
            None => false,
        }
    }
}

/// What a symbol is, as its own file defines it.
#[tactic(auto, unfolding(crate::specs::Targets::definition))]
fn definition(tables: &Tables, binding: &Binding, file: FileNo, symbol: SymNo) -> Bound
    ensures { result ≡ spec.definition (files_of tables.now) (binding_view binding.now) file symbol }
{
    let Some(entry) = tables.files().get(file as usize) else {
        return Bound::Number(0);
    };
    let own = entry.symbol(symbol as usize);
    match own.place {
        Place::Undef => Bound::Number(0),
        Place::Absolute => Bound::Number(own.value),
        Place::Common => room_of(binding.commons(file as usize), symbol),
        Place::Within(section) => defined_in(tables, binding, file, section, &own),
    }
}

/// What a symbol is that stands in a section of its file.
fn defined_in(
    tables: &Tables,
    binding: &Binding,
    file: FileNo,
    section: u32,
    symbol: &Symbol,
) -> Bound
    requires { file < length (files_of tables.now) }
    ensures { result ≡ spec.defined_in (files_of tables.now) (binding_view binding.now) file section symbol.now }
{
    let number = tables.section_no(file as usize, section as usize);
    if binding.is_discarded(number) {
        return Bound::Nobody;
    }
    let entry = &tables.files()[file as usize];
    if !entry.writes(section as usize) {
        return unwritten(entry, section, symbol);
    }
    Bound::InSection {
        section: number as u32,
        offset: offset_in(symbol),
    }
}

/// What a symbol is that stands in a section that is not written.
fn unwritten(entry: &File, section: u32, symbol: &Symbol) -> Bound
    ensures { result ≡ spec.unwritten (file_view entry.now) section symbol.now }
{
    if entry.is_frame(section as usize) && symbol.value == 0 {
        return Bound::Linker(FRAME_START_NO);
    }
    Bound::Number(symbol.value)
}

/// Where a symbol stands in its section, in bytes: a SECTION symbol at the start.
fn offset_in(symbol: &Symbol) -> u64
    ensures { result ≡ spec.offset_in symbol.now }
{
    if is_section_symbol(symbol) {
        return 0;
    }
    symbol.value
}

/// The room that a COMMON symbol gets, by the list of those of its file.
fn room_of(commons: &[BoundCommon], symbol: SymNo) -> Bound
    requires { IsNonDecreasingBy (λ (c : BoundCommon). c.symbol) commons.now }
    ensures { result ≡ spec.room_of (find (λ c. c.symbol == symbol) commons.now) }
{
    let n = commons.partition_point(|common| common.symbol < symbol);
    let Some(common) = commons.get(n) else {
        return Bound::Nobody;
    };
    if common.symbol != symbol {
        return Bound::Nobody;
    }
    Bound::InSection {
        section: common.section,
        offset: 0,
    }
}

/// The offset in a section that an addend chooses: it lies within the section, or at its end.
fn clamped(size: u64, addend: i64) -> u64
    ensures value { result ≡ spec.clamped size addend }
    ensures most { result ≤ size }
{
    if addend < 0 {
        return 0;
    }
    size.min(addend as u64)
}

/// What a relocation of a file stands for. Takes no memory.
#[tactic(auto, unfolding(crate::specs::Targets::spot_of))]
pub fn spot_in(tables: &Tables, binding: &Binding, file: FileNo, reloc: &Reloc) -> Spot
    requires { file < length (files_of tables.now) }
    ensures { result ≡ spec.spot_of (files_of tables.now) (binding_view binding.now) file reloc.now }
{
    let entry = &tables.files()[file as usize];
    let symbol = entry.symbol(reloc.symbol as usize);
    match binding.bound(tables, file, reloc.symbol) {
        Bound::InSection { section, offset } => {
            in_section(entry, &symbol, reloc, section, offset)
        }
        Bound::Number(number) => Spot::Number(number),
        Bound::Linker(name) => Spot::Linker(name),
        Bound::Nobody => unbound(&symbol),
    }
}

/// The section that a relocation stands for: a SECTION symbol's addend chooses the byte.
fn in_section(entry: &File, symbol: &Symbol, reloc: &Reloc, section: SecNo, offset: u64) -> Spot
    ensures { result ≡ spec.in_section_of (file_view entry.now) symbol.now reloc.now section offset }
{
    if !is_section_symbol(symbol) || goes_by_got(reloc.kind) {
        return Spot::Section {
            section,
            offset,
            rest: reloc.addend,
        };
    }
    let byte = clamped(size_at(entry, symbol.place), reloc.addend);
    Spot::Section {
        section,
        offset: byte,
        rest: (reloc.addend as i128 - byte as i128) as i64,
    }
}

/// The bytes of the section in which a symbol stands, 0 if it stands in none.
fn size_at(entry: &File, place: Place) -> u64
    ensures { result ≡ spec.size_of (file_view entry.now) place }
{
    match place {
        Place::Within(section) => entry.section(section as usize).size,
        _ => 0,
    }
}

/// What a symbol stands for that nothing defines.
fn unbound(symbol: &Symbol) -> Spot
    ensures { result ≡ spec.unbound symbol.now }
{
    if symbol.binding == STB_WEAK {
        return Spot::Zero;
    }
    Spot::Unbound
}

/// What a relocation stands for: `reloc` is its number in its section's stable order of offset. Takes no memory.
pub fn spot_of(tables: &Tables, binding: &Binding, section: SecNo, reloc: usize) -> Spot
    requires section { section < section_total (files_of tables.now) }
    requires reloc { reloc < length (relocs_of (files_of tables.now) section) }
    ensures { result ≡ spot_at (files_of tables.now) (binding_view binding.now) section reloc }
{
    let place = tables.place_of(section);
    let relocs = tables.files()[place.file as usize].relocs(place.index as usize);
    spot_in(tables, binding, place.file, &relocs[reloc])
}

/// Whether a symbol of a file is undefined and has to be defined: it is not WEAK, and its name is bound to nothing, or it stands in a
/// section that was discarded. Takes no memory.
#[tactic(auto, unfolding(crate::specs::Targets::is_undefined))]
pub fn is_undefined(tables: &Tables, binding: &Binding, file: FileNo, symbol: SymNo) -> bool
    requires { file < length (files_of tables.now) }
    ensures { result ≡ spec.is_undefined (files_of tables.now) (binding_view binding.now) file symbol }
{
    let entry = &tables.files()[file as usize];
    entry.symbol(symbol as usize).binding != STB_WEAK
        && binding.bound(tables, file, symbol) == Bound::Nobody
}
