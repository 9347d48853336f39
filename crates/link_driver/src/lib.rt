//! The link of one command: its words, the load of its inputs, the phases of the link, the executable, the map and the report.
//!
//! `run` is the top call. Its contract says that, whatever the words, the bytes of the inputs, the number of workers and the
//! order of their steps, the files, the line and the status are those of one definition, `link` in specs/Link.antt; any other
//! end is out of memory, or follows a failed call of the store of files or of an output, and leaves no more than the first
//! bytes of a file.
//!
//! `linking` runs the phases: those before the layout are calls of link_passes, which find the files in the inputs, read them, bind their names and
//! find what is kept. What goes into the executable is laid out (`placing`), and all is made that is written but the executable's bytes (`writing`),
//! the unwind records by `frames`. What a command asks why is said by `certificates`, in the lines of `certificate_lines`, and is found while the
//! rest is made. What a link gives (`linked`) owns the tables (`executable`), and makes the executable from them block by block while it is
//! written. `driving` reads the command, loads, links and writes, and says how it ended, by the lines of `diagnostics`. `piped` has `run_piped`,
//! which reads the inputs while it loads them. The phases up to the layout are public one by one too, for whoever looks at what they hand on.
//!
//! The executable is nowhere whole, and no memory is taken once its file is begun: a window has room for as many blocks of 65,536 bytes as there
//! are workers, or as the file has blocks, or for one where there are so few relocations that a thread would cost more than it does. Each worker
//! makes one block of the window (`elf_out::fill_window`), then the blocks are added to the file in order, each by a call of its own, and the next
//! window takes their place.
//!
//! `reports` counts what was shortened: a call that keeps less than its eight bytes is a cut that is no alignment, and these are counted by
//! section number.
//!
//! A shortened call reaches its target (`reaching`): sizes are chosen by the greatest distances, before anything has a place (RISC-V ELF psABI,
//! "Function Call Relaxation"), so once everything has its place no `jal` and no `c.j` of such a call is odd or out of range. Once all relocations
//! are done, code does at their places what they ask for (`code`): that is said of the bytes of each section, from the fields of whole instructions.
//! Where a section loses bytes is a call's or an alignment's own place (`HaveOwnCuts`), so no relocation fills what these leave; and each alignment
//! is done, with `--no-relax` too.
#![tactic(auto)]

mod certificate_lines;
mod certificates;
mod code;
mod diagnostics;
mod driving;
mod executable;
mod frames;
mod line;
mod linked;
mod linking;
mod piped;
mod placing;
mod reaching;
mod reports;
mod shown;
mod symbol_names;
mod writing;

pub use driving::run;
pub use frames::write_frames;
pub use link_command::{Command, IcfMode, Wanted};
pub use link_passes::{
    Inputs, Options, Source, bind_names, find_barred, find_frames, find_kept, find_leaders,
    find_plan, find_sources, read_files,
};
pub use linked::Linked;
pub use linking::{lay_out, link};
pub use piped::run_piped;
pub use piped_reads::{Piped, PipedFile, PipedFlaw, read_piped};
pub use work_split::{Gate, OpenGate};
