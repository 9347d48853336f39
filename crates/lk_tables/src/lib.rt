//! The tables of a link: what the relocatable objects say, as plain lists of sections, symbols and relocations, and what their names
//! are bound to; and the definitions of which bytes say it. The readers fill these tables, and each later pass reads them.
//!
//! Spans count from the first byte of a file, so those of an archive's member from the member's. A section keeps its alignment as the
//! header has it: 0 counts as 1 where it is used. Section 0 and sections of type NULL have no name; symbol 0 counts as local and undefined
//! whatever its bytes are.
#![tactic(auto)]

mod alignments;
mod binding;
mod binding_parts;
mod bounds;
mod classes;
mod commons;
pub mod ehdr;
mod entries;
mod files;
mod frames;
mod gathering;
mod heads;
mod identifiers;
mod linker_symbols;
mod misfits;
mod names;
mod numbering;
mod numbers;
mod objects;
mod opening;
mod output_names;
mod parts;
mod places;
mod ranks;
mod reading;
mod records;
mod reloc_offsets;
mod section_places;
mod spans;
mod starts;
mod tables;
mod targets;
mod uleb_lengths;
mod uppers;
mod walks;

pub use alignments::{is_alignment, place_width};
pub use binding::Binding;
pub use bounds::{Bound, Spot};
pub use classes::{Class, is_in, output_rank};
pub use commons::BoundCommon;
pub use entries::{SectionHeader, SymbolEntry};
pub use files::File;
pub use frames::{FrameBytes, FramePlan, Frames};
pub use heads::{Head, Place, Section, Symbol};
pub use identifiers::is_c_identifier;
pub use linker_symbols::{
    Edge, FIXED_COUNT, FRAME_START_NO, bound_section, edge_of, fixed_no, is_stop, start_no,
    start_of, stop_no, stop_of,
};
pub use misfits::misfit_defect;
pub use names::text_of;
pub use numbering::NameNumbers;
pub use numbers::{half_at, sxword_at, word_at, xword_at};
pub use objects::{Group, Object, Reloc};
pub use output_names::{is_init_or_fini, output_name, priority_of};
pub use parts::part_of;
pub use ranks::{
    NO_RANK, class_of, class_of_rank, file_of, is_linker_rank, is_offer, linker_rank, rank_of,
    symbol_of,
};
pub use reading::{
    common_count, is_common, is_frame, is_loaded, is_loaded_type, is_read, is_section_symbol,
    is_visible, is_written,
};
pub use records::{FrameNo, Record};
pub use reloc_offsets::relocs_before;
pub use section_places::SectionPlace;
pub use spans::Span;
pub use starts::{first_symbols, section_count};
pub use tables::{Heads, Tables};
pub use targets::{is_undefined, spot_in, spot_of};
pub use uleb_lengths::{contents_of, uleb_len};
pub use uppers::Uppers;
pub use walks::{RelocTest, first_over_relocs, reloc_defect};
