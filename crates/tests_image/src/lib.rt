//! Worked rows of the passes from merging to the map, by their public calls on objects written by hand, which `link_driver` reads and binds first.
//!
//! A crate with tests of its own is proved once more for them, so these rows stand in a crate above those that they test.
#![tactic(auto)]

#[cfg(test)]
mod tests;
