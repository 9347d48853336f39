//! Worked examples of whole links by what is read, over stores of files and streams in memory: commands, archives, groups, what is collected,
//! generated objects, what is refused, failed calls, limits, and workers in either order. An example is a command and its objects, and the line or the
//! executable that it has to leave, worked out by hand from the rules of a link.
//!
//! This crate has tests alone, and no crate stands on it; `tests_link_outputs` has the other examples.
#![tactic(auto)]

#[cfg(test)]
mod tests;
