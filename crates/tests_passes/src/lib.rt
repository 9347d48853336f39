//! Worked rows of single passes, over their public calls alone: what each answers on bytes, names and tables that were made by hand.
//!
//! A crate with tests of its own is proved once more for them, so these rows stand in a crate above those that they test.
#![tactic(auto)]

#[cfg(test)]
mod tests;
