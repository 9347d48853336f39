//! Worked examples over `run`, each with its words and what it has to leave. All the inputs are at hand in each, and each runs with several
//! numbers of workers. `piped` has those of `run_piped`, and `held_load` a load that waits for one of its parsers.

mod aligned;
mod folded;
mod held_load;
mod kinds;
mod linker_symbols;
mod maps;
mod merged;
mod orders;
mod pairs;
mod piped;
mod symbols;
mod thread_data;
mod unwound;

use link_examples::{Files, Store, Stores, shared_files};
use link_runs::{each_is_refused, each_links};
use std::alloc::{AllocError, Global};
use std::test::Fail;

/// The stores that the examples here name.
struct OwnStores;

impl Stores for OwnStores {
    fn files(&self, alloc: Global, store: Store) -> Result<Files, AllocError> {
        match store {
            Store::Orders => orders::files(alloc),
            Store::Kinds => files_of_kinds(alloc),
            Store::Threads => thread_data::files(alloc),
            Store::LinkerSymbols => linker_symbols::files(alloc),
            Store::Merged => merged::files(alloc),
            Store::Folded => folded::files(alloc),
            Store::Aligned => aligned::files(alloc),
            Store::Symbols => symbols::files(alloc),
            Store::Maps => maps::files(alloc),
            Store::Unwound => unwound::files(alloc),
            _ => shared_files(alloc, store),
        }
    }
}

/// The files of each kind of relocation.
fn files_of_kinds(alloc: Global) -> Result<Files, AllocError> {
    let mut files = kinds::files(alloc)?;
    pairs::push_files(&mut files, alloc)?;
    Ok(files)
}

#[test]
fn note_sections_stand_first(rt: HostRuntime) -> Result<(), Fail> {
    each_links!(rt; &OwnStores, orders::NOTES_FIRST)
}

#[test]
fn arrays_of_functions_stand_by_priority(rt: HostRuntime) -> Result<(), Fail> {
    each_links!(rt; &OwnStores, orders::BY_NUMBER)
}

#[test]
fn each_type_of_relocation_is_applied(rt: HostRuntime) -> Result<(), Fail> {
    each_links!(rt; &OwnStores, kinds::WRITTEN)
}

#[test]
fn branches_past_their_reach_are_refused(rt: HostRuntime) -> Result<(), Fail> {
    each_is_refused!(rt; &OwnStores, kinds::BRANCHES)
}

#[test]
fn upper_parts_and_words_past_their_reach_are_refused(rt: HostRuntime) -> Result<(), Fail> {
    each_is_refused!(rt; &OwnStores, kinds::HALVES_AND_WORDS)
}

#[test]
fn lower_parts_without_an_upper_part_are_refused(rt: HostRuntime) -> Result<(), Fail> {
    each_is_refused!(rt; &OwnStores, kinds::WRONG)
}

#[test]
fn pairs_are_written(rt: HostRuntime) -> Result<(), Fail> {
    each_links!(rt; &OwnStores, pairs::WRITTEN)
}

#[test]
fn numbers_past_their_bytes_are_refused(rt: HostRuntime) -> Result<(), Fail> {
    each_is_refused!(rt; &OwnStores, pairs::UNFIT)
}

#[test]
fn distances_of_what_is_not_defined_are_refused(rt: HostRuntime) -> Result<(), Fail> {
    each_is_refused!(rt; &OwnStores, pairs::ABSENT)
}

#[test]
fn numbers_have_places_of_their_own(rt: HostRuntime) -> Result<(), Fail> {
    each_is_refused!(rt; &OwnStores, pairs::WITHOUT_PLACE)
}

#[test]
fn numbers_have_ends_and_parts_have_each_other(rt: HostRuntime) -> Result<(), Fail> {
    each_is_refused!(rt; &OwnStores, pairs::WRONG)
}

#[test]
fn got_entries_stand_by_first_use(rt: HostRuntime) -> Result<(), Fail> {
    each_links!(rt; &OwnStores, thread_data::TABLES)
}

#[test]
fn a_map_has_the_got(rt: HostRuntime) -> Result<(), Fail> {
    each_links!(rt; &OwnStores, thread_data::MAPPED)
}

#[test]
fn thread_offsets_count_from_the_tls_block(rt: HostRuntime) -> Result<(), Fail> {
    each_links!(rt; &OwnStores, thread_data::OFFSETS_OF_THREADS)
}

#[test]
fn linker_symbols_have_their_addresses(rt: HostRuntime) -> Result<(), Fail> {
    each_links!(rt; &OwnStores, linker_symbols::FIXED)
}

#[test]
fn a_definition_goes_before_the_linkers_own(rt: HostRuntime) -> Result<(), Fail> {
    each_links!(rt; &OwnStores, linker_symbols::OFFERED)
}

#[test]
fn a_program_begins_at_any_symbol(rt: HostRuntime) -> Result<(), Fail> {
    each_links!(rt; &OwnStores, linker_symbols::ENTRIES)
}

#[test]
fn start_and_stop_symbols_bound_their_sections(rt: HostRuntime) -> Result<(), Fail> {
    each_links!(rt; &OwnStores, linker_symbols::NAMED)
}

#[test]
fn start_and_stop_symbols_without_a_section_are_undefined(rt: HostRuntime) -> Result<(), Fail> {
    each_is_refused!(rt; &OwnStores, linker_symbols::LACKING)
}

#[test]
fn equal_strings_of_files_are_merged(rt: HostRuntime) -> Result<(), Fail> {
    each_links!(rt; &OwnStores, merged::STRINGS_OF_FILES)
}

#[test]
fn pieces_are_constants_and_strings(rt: HostRuntime) -> Result<(), Fail> {
    each_links!(rt; &OwnStores, merged::PIECES)
}

#[test]
fn equal_functions_are_folded_together(rt: HostRuntime) -> Result<(), Fail> {
    each_links!(rt; &OwnStores, folded::TOGETHER)
}

#[test]
fn names_part_functions(rt: HostRuntime) -> Result<(), Fail> {
    each_links!(rt; &OwnStores, folded::NAMED_APART)
}

#[test]
fn taken_addresses_part_functions(rt: HostRuntime) -> Result<(), Fail> {
    each_links!(rt; &OwnStores, folded::TAKEN)
}

#[test]
fn calls_and_entries_take_no_address(rt: HostRuntime) -> Result<(), Fail> {
    each_links!(rt; &OwnStores, folded::NOT_TAKEN)
}

#[test]
fn what_differs_is_not_folded(rt: HostRuntime) -> Result<(), Fail> {
    each_links!(rt; &OwnStores, folded::EQUAL)
}

#[test]
fn pairs_say_why_functions_are_not_folded(rt: HostRuntime) -> Result<(), Fail> {
    each_links!(rt; &OwnStores, folded::WHY)
}

#[test]
fn alignments_keep_the_nops_that_they_need(rt: HostRuntime) -> Result<(), Fail> {
    each_links!(rt; &OwnStores, aligned::STAYING)
}

#[test]
fn alignments_short_of_nops_are_refused(rt: HostRuntime) -> Result<(), Fail> {
    each_is_refused!(rt; &OwnStores, aligned::SHORTAGES)
}

#[test]
fn calls_and_tail_calls_are_shortened(rt: HostRuntime) -> Result<(), Fail> {
    each_links!(rt; &OwnStores, aligned::SHORTENED)
}

#[test]
fn each_symbol_has_its_entry(rt: HostRuntime) -> Result<(), Fail> {
    each_links!(rt; &OwnStores, symbols::LISTED)
}

#[test]
fn symbols_that_are_not_written_have_no_entry(rt: HostRuntime) -> Result<(), Fail> {
    each_links!(rt; &OwnStores, symbols::CHOSEN)
}

#[test]
fn a_map_has_what_is_written(rt: HostRuntime) -> Result<(), Fail> {
    each_links!(rt; &OwnStores, maps::WRITTEN)
}

#[test]
fn a_map_has_what_is_left_out(rt: HostRuntime) -> Result<(), Fail> {
    each_links!(rt; &OwnStores, maps::LEFT_OUT)
}

#[test]
fn a_map_has_pools(rt: HostRuntime) -> Result<(), Fail> {
    each_links!(rt; &OwnStores, maps::POOLS)
}

#[test]
fn a_map_escapes_names(rt: HostRuntime) -> Result<(), Fail> {
    each_links!(rt; &OwnStores, maps::NAMES)
}

#[test]
fn unwind_records_are_written(rt: HostRuntime) -> Result<(), Fail> {
    each_links!(rt; &OwnStores, unwound::WRITTEN)
}

#[test]
fn unwind_records_keep_what_their_functions_need(rt: HostRuntime) -> Result<(), Fail> {
    each_links!(rt; &OwnStores, unwound::COLLECTED)
}

#[test]
fn functions_of_different_records_are_not_folded(rt: HostRuntime) -> Result<(), Fail> {
    each_links!(rt; &OwnStores, unwound::FOLDED)
}

#[test]
fn unwind_records_are_checked_as_they_are_written(rt: HostRuntime) -> Result<(), Fail> {
    each_is_refused!(rt; &OwnStores, unwound::LACKING_OR_FAR)
}

#[test]
fn wrong_unwind_records_are_refused(rt: HostRuntime) -> Result<(), Fail> {
    each_is_refused!(rt; &OwnStores, unwound::WRONG)
}
