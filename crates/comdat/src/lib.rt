//! Which sections of a link are discarded with their groups.
//!
//! Compilers give each file its own copy of what several files may need, such as an inline function, in a COMDAT section group, and name
//! the group by a signature. Of the groups of one signature in the files that take part, the first stays, in order of file and section,
//! and the members of the others are discarded (System V gABI, "Section Groups"). The groups are listed in this order and their signatures
//! numbered, each by the first equal one; a group stays exactly where the number of its signature is its own place.
//!
//! `groups` lists the groups, `signatures` their signatures, `marks` marks the members of those that go, and `discarded_sections` does all of it in
//! order.
#![tactic(auto)]

mod discarded_sections;
mod groups;
mod marks;
mod signatures;

pub use discarded_sections::discard;
