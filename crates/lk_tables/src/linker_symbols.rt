//! Symbols that the linker defines where no file does (the conventions of GNU ld's scripts, which start files and C libraries name; RISC-V
//! ELF psABI, "Global Pointer").

ghost use Rattle.std.specs.Prelude.{◌≡◌, ◌<◌, ◌^◌, length, map, slice_index_or};
ghost use Rattle.std.specs.List.{position_or_len};
ghost use Rattle.std.specs.Str.{bytes_eq};
ghost use Rattle.lk_tables.specs.declared.linker_symbols.Edge.TheVariants as edges;
ghost use Rattle.lk_tables.specs.LinkerSymbols as spec;

use crate::identifiers::is_c_identifier;
use lk_base::SecNo;

/// What the address of a symbol of the linker's is that is no section's.
#[derive(Clone, Copy, Debug, PartialEq, Eq)]
pub enum Edge {
    /// The start of the image, where the file header stands.
    ImageStart,
    /// The end of what is executed.
    CodeEnd,
    /// The end of what is written and has bytes in the file, where what has none there starts.
    BitsEnd,
    /// The end of what is written and has no bytes in the file.
    NobitsEnd,
    /// The linker's global offset table.
    Table,
    /// What the global pointer register holds.
    GlobalPointer,
    /// The start of the output section `.preinit_array`.
    PreinitStart,
    /// Its end.
    PreinitEnd,
    /// The start of the output section `.init_array`.
    InitStart,
    /// Its end.
    InitEnd,
    /// The start of the output section `.fini_array`.
    FiniStart,
    /// Its end.
    FiniEnd,
    /// The start of the output section `.eh_frame`.
    FrameStart,
}

/// How many fixed names there are.
const NAMED_COUNT: u32 = 18;

/// The number of the start of `.eh_frame`, which no name finds: a symbol at the start of an input section of unwind records stands for it.
pub const FRAME_START_NO: u32 = 18;

/// How many of the linker's symbols are no section's. They have numbers: first those of fixed names, then `FRAME_START_NO`, then for each
/// section number two, for the start and the end of the sections of its name.
pub const FIXED_COUNT: u32 = 19;

/// A fixed name, and what its address is.
#[derive(Clone, Copy)]
struct FixedSymbol {
    name: &'static [u8],
    edge: Edge,
}

macro_rules! fixed {
    ($name:literal, $edge:ident) => {
        FixedSymbol {
            name: $name,
            edge: Edge::$edge,
        }
    };
}

// Each by its number.
const FIXED: [FixedSymbol; 18] = [
    fixed!(b"__ehdr_start", ImageStart),
    fixed!(b"__rela_iplt_start", ImageStart),
    fixed!(b"__rela_iplt_end", ImageStart),
    fixed!(b"_etext", CodeEnd),
    fixed!(b"etext", CodeEnd),
    fixed!(b"_edata", BitsEnd),
    fixed!(b"edata", BitsEnd),
    fixed!(b"__bss_start", BitsEnd),
    fixed!(b"_end", NobitsEnd),
    fixed!(b"end", NobitsEnd),
    fixed!(b"_GLOBAL_OFFSET_TABLE_", Table),
    fixed!(b"__global_pointer$", GlobalPointer),
    fixed!(b"__preinit_array_start", PreinitStart),
    fixed!(b"__preinit_array_end", PreinitEnd),
    fixed!(b"__init_array_start", InitStart),
    fixed!(b"__init_array_end", InitEnd),
    fixed!(b"__fini_array_start", FiniStart),
    fixed!(b"__fini_array_end", FiniEnd),
];

/// The number of the linker's symbol of a fixed name.
#[tactic(auto, unfolding(crate::specs::FixedSymbols::fixed_no, crate::specs::FixedSymbols::fixed_symbols))]
pub fn fixed_no(name: &[u8]) -> Option<u32>
    ensures { result ≡ spec.fixed_if name.now }
{
    let number = place_of(&FIXED, name);
    if number < NAMED_COUNT {
        Some(number)
    } else {
        None
    }
}

// The place of a name in a table, or the table's length.
fn place_of(table: &[FixedSymbol], name: &[u8]) -> u32
    requires { length table.now < 100 }
    ensures { result ≡ position_or_len (λ s. bytes_eq s.name.now name.now) table.now }
{
    for (i, known) in table.iter().enumerate() {
        if known.name == name {
            return i as u32;
        }
    }
    table.len() as u32
}

/// What the address of a symbol of the linker's is that is no section's, by its number.
#[tactic(auto, unfolding(crate::specs::FixedSymbols::edge_of, crate::specs::FixedSymbols::fixed_symbols))]
pub fn edge_of(number: u32) -> Edge
    ensures { result ≡ spec.edge_of number }
{
    edge_in(&FIXED, number as usize)
}

// The edge of a number, the start of `.eh_frame` past the end of a table.
fn edge_in(table: &[FixedSymbol], number: usize) -> Edge
    ensures { result ≡ slice_index_or (map (λ s. s.edge) table.now) number edges.FrameStart }
{
    match table.get(number) {
        Some(symbol) => symbol.edge,
        None => Edge::FrameStart,
    }
}

/// The X of a name `__start_X`, if X is an identifier of C.
#[tactic(auto, unfolding(crate::specs::LinkerSymbols::start_prefix))]
pub fn start_of(name: &[u8]) -> Option<&[u8]>
    ensures { spec.text_if result ≡ spec.identifier_after spec.start_prefix name.now }
{
    identifier_after(b"__start_".as_slice(), name)
}

/// The X of a name `__stop_X`, if X is an identifier of C.
#[tactic(auto, unfolding(crate::specs::LinkerSymbols::stop_prefix))]
pub fn stop_of(name: &[u8]) -> Option<&[u8]>
    ensures { spec.text_if result ≡ spec.identifier_after spec.stop_prefix name.now }
{
    identifier_after(b"__stop_".as_slice(), name)
}

/// What follows a prefix, if it is an identifier of C.
#[tactic(auto, unfolding(crate::specs::LinkerSymbols::identifier_after))]
fn identifier_after<'a>(prefix: &[u8], name: &'a [u8]) -> Option<&'a [u8]>
    ensures { spec.text_if result ≡ spec.identifier_after prefix.now name.now }
{
    let rest = name.strip_prefix(prefix)?;
    if is_c_identifier(rest) {
        Some(rest)
    } else {
        None
    }
}

/// The number of the symbol for the start of the sections that have the name of a section.
pub fn start_no(section: SecNo) -> u32
    requires { section < 2 ^ 28 }
    ensures { result ≡ spec.start_no section }
{
    FIXED_COUNT + 2 * section
}

/// The number of the symbol for the end of the sections that have the name of a section.
pub fn stop_no(section: SecNo) -> u32
    requires { section < 2 ^ 28 }
    ensures { result ≡ spec.stop_no section }
{
    FIXED_COUNT + 2 * section + 1
}

/// The section whose name's start or end a symbol of the linker's is; none for a number below `FIXED_COUNT`.
pub fn bound_section(number: u32) -> Option<SecNo>
    ensures { result ≡ spec.bound_if number }
{
    if number < FIXED_COUNT {
        return None;
    }
    Some((number - FIXED_COUNT) / 2)
}

/// Whether it is the end.
pub fn is_stop(number: u32) -> bool
    ensures { result ≡ spec.is_stop_no number }
{
    number.saturating_sub(FIXED_COUNT) % 2 == 1
}
