//! Relocations done: the value of each relocation, and the bytes of a block of the executable with its relocations done (RISC-V ELF
//! psABI, "Relocations"). The addresses of symbols, sections and pieces are those of `link_sections`.
//!
//! Workers test relocations by their numbers, those of one section after those of the section before it; there are as many numbers as
//! workers at least. A value costs one load for its symbol's address. Local symbols stand before all others, so a relocation's symbol from
//! the first that is not local on is not read to learn whether it is a SECTION symbol (`plain`); for fewer than 64 relocations of a section
//! that first symbol is not looked for. The upper parts of all sections stand in one list by section number, made once (`sec_graph::find_uppers`), so that
//! a lower part finds its own by bisection, while the definition speaks of the section's relocations alone. Relocations of one section are
//! done in order, and some kinds add to what their place holds. A block therefore walks them with a window of ten bytes (`scanning`), in which
//! stand the bytes of the place after all relocations before it, whether or not these lie in the block.
//!
//! `uppers` finds the upper parts of a section, `values` computes what a relocation puts into its place, `plain` looks ahead whether
//! relocations name SECTION symbols, `operands` reads what pairs of relocations need, `calls` says what becomes of a call that loses bytes,
//! `numbered` numbers the relocations of all sections, `checks` finds the first that can't be done, `image` writes a piece of a file into a
//! block of it, `staying` the bytes of a section that stay, `scanning` does the relocations of a section that reach a block, `pool_pieces`
//! writes the merged pieces and `table_words` the global offset table, and `relocated` writes all members of the layout that meet a block.
#![tactic(auto)]

mod calls;
mod checks;
mod founds;
mod image;
mod numbered;
mod operands;
mod plain;
mod pool_pieces;
mod relocated;
mod scanning;
mod sites;
mod sources;
mod staying;
mod table_words;
mod touching;
mod uppers;
mod values;

pub use checks::check_relocations;
pub use image::{Piece, fill_piece};
pub use relocated::{apply, write_block};
pub use scanning::value;
