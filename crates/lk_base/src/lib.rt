//! What every pass of the linker shares: the ABI's names, the numbers of files, sections and symbols, the kinds of
//! defects and the one line that reports a defect, the limits of a link, and the table of the kinds of relocations.
#![tactic(auto)]

pub mod abi;
mod arithmetic;
mod defects;
mod digits;
pub mod kinds;
mod limits;
mod lines;
mod numbers;
pub mod relocations;

pub use arithmetic::{low_bits, up};
pub use defects::{Defect, Flaw, LinkStop, Misfit, ReadFault};
pub use digits::push_decimal;
pub use kinds::DefectKind;
pub use limits::{Limits, check_count, check_file_size, count_defect};
pub use lines::{line_of, push_escaped};
pub use numbers::{FileNo, NO_FILE, SecNo, SymNo};
