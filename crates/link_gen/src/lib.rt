//! Generated input: any number of relocatable objects that call one another, made in memory, so that a link can be tried at any
//! size with no compiler at hand.
//!
//! Object `k` of `n` is `genK.o`. Object `k` has a function `fK`, that calls `gK` and the `f` of objects `2k + 1` and `2k + 2` where these are
//! there, a function `gK` that returns a number, and a function `dK` that nothing calls; a string that many objects have; and a
//! pointer to that string. Object 0 has `_start` too. So each function `f` is reached from `_start`, no `d` is, some `f` and `g` are
//! equal, and each string stands in every eleventh object.
//!
//! `numbers` has zero bytes and counts digits, `symbols` the symbols of an object with their table and their names, `sections` the ten
//! sections, their names and the file header, `contents` what stands in each section, and `generator` whole objects.
#![tactic(auto)]

mod contents;
mod generator;
mod numbers;
mod sections;
mod symbols;

pub use generator::objects;
