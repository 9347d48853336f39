//! The address of each symbol, once everything has its place (RISC-V ELF psABI, "Relocations": S), and that at which the executable starts.
//!
//! Workers find the address of each symbol as its own file defines it, each those of a run of symbol numbers, whatever file they are of, so
//! that one large object is shared out too. After that a symbol whose name is bound to another takes that one's, from the list alone
//! (`prevailing`). Where the output sections of a name start and end is found once for all names, before the workers start (`extents`), so
//! no symbol's name is searched for among 65,000 output sections.
//!
//! `bytes` gives the addresses of bytes of sections, `names` the name of a section, `places` the output sections of a name, `edges` the
//! addresses of the linker's symbols that have fixed names, `extents` where the output sections of each name start and end. `sources` gives
//! a symbol its address, `prevailing` one that is bound to another the address of that, `entry` the executable its start, and `addresses`
//! lists all of them. Once they are found, `link_sections` reads them.
#![tactic(auto)]

mod addresses;
mod bytes;
mod edges;
mod entry;
mod extents;
mod names;
mod places;
mod prevailing;
mod sources;

pub use addresses::find_addresses;
