//! The passes of a link before its layout, one by one: what each gives is said in specs/Passes.antt.
//!
//! `finding` finds the files in the inputs (`inputs`, `sources`). `reading` reads them: `heads` and `bodies` by all workers, the latter with their
//! unwind records (`records`), while `numbering` numbers their names; `sections` counts what has a section number. `binding` binds the names.
//! `frames` finds which function each FDE is for, and which unwind records are written. `collecting` finds what is kept; the graph by which
//! sections were kept stays for what a command asks why. `barring` finds the sections that are folded with no other: those in which names stand
//! that are to be kept unique (`asked_names`), and with `--icf safe` those whose address is taken (`sec_graph::address_taken`). `pools` merges,
//! lists the upper parts, and tests that what kept sections refer to is defined; `folding` finds which section is written in the place of each.
//! What a command asks of them beside its names is `options`.
//!
//! What follows, from the layout on, is the work of link_driver, which calls them in order.
#![tactic(auto)]

mod barring;
mod binding;
mod bodies;
mod collecting;
mod finding;
mod folding;
mod frames;
mod heads;
mod inputs;
mod numbering;
mod options;
mod pools;
mod reading;
mod records;
mod sections;
mod sources;

pub use barring::find_barred;
pub use binding::{bind_and_count, bind_names};
pub use collecting::{SectionGraph, find_graph, find_kept, find_kept_by};
pub use finding::find_sources;
pub use folding::{find_leaders, fold_items};
pub use frames::{find_frames, find_plan};
pub use inputs::{Inputs, generated_inputs, inputs_of};
pub use numbering::numbers_of;
pub use options::{Options, options_of};
pub use pools::{check_defined, find_pools};
pub use reading::{read_files, read_files_after};
pub use sources::Source;
