//! Which output section each kept section goes to, and in which order the output sections and their members stand (System V gABI,
//! "Sections" and "Special Sections"): computed once, for those that shorten calls and for those that lay out.
//!
//! Of each class the items are noted in their output sections, by name, and then listed with the rank of theirs, which takes the type of
//! the item that stands first in it (`heads`, `rows`); which classes have items one walk finds (`present`). A stable sort by rank, first item
//! and priority gives their order. Workers do some classes each, if there are 16,384 items.
#![tactic(auto)]

mod heads;
mod items;
mod order;
mod present;
mod rows;

pub use items::Item;
pub use order::{OutputSections, order_sections};
pub use rows::{Row, class_no};
