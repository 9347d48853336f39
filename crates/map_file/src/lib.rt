//! The map of a link, as text: each output section with what stands in it, what was folded, left out or discarded, and the symbols.
//!
//! `numbers` writes numbers, `places` says where a section of a number stands, `lines` has a line of each kind, `folded` gathers the folded
//! sections by output section, `blocks` lists the output sections, `left` the sections that are not in the executable, `rooms` counts
//! how much room the text takes, and `maps` puts it together.
#![tactic(auto)]

mod blocks;
mod folded;
mod left;
mod lines;
mod maps;
mod numbers;
mod places;
mod rooms;

pub use maps::map_text;
