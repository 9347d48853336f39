//! Unwind records, by which exceptions and debuggers find their way through the stack (LSB Core, "Exception Frames"; DWARF, "Call Frame
//! Information"). `read_frames` reads the records of a section `.eh_frame` of an object, `table` finds which function each FDE is for, `plan`
//! chooses the records that are written, and `write` gives what `.eh_frame` and `.eh_frame_hdr` hold.
//!
//! `format` has the names of the format, `parts` finds parts of lists in order, `reading` reads one record after
//! another, `strays` finds relocations that lie in none, and `sections` reads those of a section. `owners` finds the functions of the records
//! of a link, `cies` what tells CIEs apart, and `planning` which records are written. `lookups` finds a record by its numbers, `placing` says
//! where those that are written stand, `sharing` cuts these into runs for workers, `values` has what their relocations put into their places,
//! `checking` what is wrong with these values, `relocating` does the relocations of a record, `contents` and `header` give the bytes, and
//! `standing` says what of all this stands in them.
//!
//! The records of a file are read by the worker that reads its body (`records` of link_passes). `checking` and `strays` find the first that
//! is broken; the lists of all files come in order of section number, since workers read runs of files. Once names are bound, workers find
//! which section each record's function is in, and one walk notes each FDE under that (`owners`). Whoever follows the relocations of a
//! section (`sec_graph`) follows those of its FDEs and their CIEs too. Once leaders are known, one walk takes the FDEs of leaders, whose
//! functions workers find again, and the CIE of each as a row of bytes in a table of those that came before, so that equal ones are one
//! (`planning`, `cies`). The layout asks for no more than how many bytes they have. After the layout workers test the values of their
//! relocations (`checking`), make their bytes (`contents`) and list their functions (`header`), each those of a run of the records that
//! are written, before the bytes of the executable, which copies them. Where a value of theirs does not fit, the values of all relocations
//! are tested too, and the first by section is reported (`frames` of link_driver). `prove_records_stand` does nothing while a program runs: its
//! clause says that the FDEs stand so in what was made (`standing`).
#![tactic(auto)]

mod checking;
mod cies;
mod contents;
mod format;
mod header;
mod lookups;
mod owners;
mod parts;
mod placing;
mod planning;
mod reading;
mod relocating;
mod sections;
mod sharing;
mod standing;
mod strays;
mod values;

pub use cies::CieReloc;
pub use contents::write;
pub use owners::table;
pub use planning::plan;
pub use sections::read_frames;
pub use standing::prove_records_stand;
