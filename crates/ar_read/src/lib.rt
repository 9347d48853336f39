//! Reads static archives (System V ar format with GNU long names), so that a link finds the objects in them: `members`
//! gives the name and the data of each member, and `header_at` one header; both calls answer what the bytes say, or the first
//! broken check of the format. `is_archive` says which files begin as archives do.
//!
//! `format` has the names of the format, `fields` reads the text of a header, `headers` one header, `names` what a name
//! says, `entries` one header after the earlier ones, and `archive` them all.
#![tactic(auto)]

mod archive;
mod entries;
mod fields;
mod format;
mod headers;
mod names;

pub use archive::{Member, is_archive, members};
pub use headers::{ArHead, header_at};
