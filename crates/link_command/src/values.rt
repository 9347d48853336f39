//! The values that clap found.

ghost use Rattle.std.specs.Prelude.{◌≡◌, ◌≤◌, IfOk, IfSome, codes, map, not, option_map, string_bytes};
ghost use Rattle.clap.specs.Words.{first_of};
ghost use Rattle.link_command.specs.Command.{are_named, are_two, generated_in, inputs_in, is_mode, is_named, is_on, listed_in, lists_of, mode_of, text_of, texts_of, workers_in};
ghost use Rattle.link_command.specs.Grammar.{HasGenerated, HasThreads, rows_in};

use crate::command::IcfMode;
use crate::parts::parts_of;
use clap::ArgMatches;
use std::alloc::{AllocError, Global};

/// The text of an option, empty where it has none.
fn text_of<'a>(matches: &ArgMatches<'a>, id: &str) -> &'a str
    ensures { result.now ≡ text_of id.now (rows_in matches.now) }
{
    matches.get_str(id).unwrap_or("")
}

/// The text of an option, owned.
pub(crate) fn owned_text(
    alloc: Global,
    matches: &ArgMatches,
    id: &str,
) -> Result<String, AllocError>
    ensures { IfOk result (λ text. string_bytes text ≡ text_of id.now (rows_in matches.now)) }
{
    text_of(matches, id).to_string(alloc)
}

/// The text of an option, owned, if it is given.
pub(crate) fn text_if(
    alloc: Global,
    matches: &ArgMatches,
    id: &str,
) -> Result<Option<String>, AllocError>
    ensures { IfOk result (λ text. option_map (λ owned. string_bytes owned) text ≡ first_of id.now (rows_in matches.now)) }
{
    let Some(text) = matches.get_str(id) else {
        return Ok(None);
    };
    Ok(Some(text.to_string(alloc)?))
}

/// Whether sections that nothing refers to are left out.
pub(crate) fn gc_of(matches: &ArgMatches) -> bool
    ensures { result ≡ is_on (codes "gc-sections") (rows_in matches.now) }
{
    text_of(matches, "gc-sections") == "true"
}

/// Whether a mode of folding is one of the three that there are.
pub(crate) fn has_mode(matches: &ArgMatches) -> bool
    ensures { result ≡ is_mode (text_of (codes "icf") (rows_in matches.now)) }
{
    let mode = text_of(matches, "icf");
    mode == "none" || (mode == "all" || mode == "safe")
}

/// Which equal code is folded.
pub(crate) fn icf_of(matches: &ArgMatches) -> IcfMode
    ensures { result ≡ mode_of (text_of (codes "icf") (rows_in matches.now)) }
{
    let mode = text_of(matches, "icf");
    if mode == "all" {
        return IcfMode::All;
    }
    if mode == "safe" {
        return IcfMode::Safe;
    }
    IcfMode::Off
}

/// The names of an option, none where it is not given.
pub(crate) fn names_of(
    alloc: Global,
    matches: &ArgMatches,
    id: &str,
) -> Result<Vec<Vec<u8>>, AllocError>
    ensures { IfOk result (λ names. lists_of names.items ≡ listed_in id.now (rows_in matches.now)) }
{
    let Some(text) = matches.get_str(id) else {
        return Ok(Vec::new(alloc));
    };
    parts_of(alloc, text.as_bytes())
}

/// Whether no name is empty.
pub(crate) fn are_named(names: &[Vec<u8>]) -> bool
    ensures { result ≡ are_named (lists_of names.now) }
{
    for name in names {
        if name.len() == 0 {
            return false;
        }
    }
    true
}

/// Whether a name is not empty, if there is one.
pub(crate) fn is_named(name: &Option<String>) -> bool
    ensures { result ≡ is_named (option_map (λ text. string_bytes text) name.now) }
{
    match name {
        None => true,
        Some(name) => !name.is_empty(),
    }
}

/// Whether there are two names, neither empty, or none.
pub(crate) fn are_two(names: &[Vec<u8>]) -> bool
    ensures { result ≡ are_two (lists_of names.now) }
{
    if names.len() == 0 {
        return true;
    }
    if names.len() != 2 {
        return false;
    }
    are_named(names)
}

/// Whether calls are relaxed.
pub(crate) fn relax_of(matches: &ArgMatches) -> bool
    ensures { result ≡ not (is_on (codes "no-relax") (rows_in matches.now)) }
{
    text_of(matches, "no-relax") != "true"
}

/// Whether symbols are left out.
pub(crate) fn strip_of(matches: &ArgMatches) -> bool
    ensures { result ≡ is_on (codes "strip-all") (rows_in matches.now) }
{
    text_of(matches, "strip-all") == "true"
}

/// The number of workers.
pub(crate) fn threads_of(matches: &ArgMatches) -> u32
    requires { HasThreads (rows_in matches.now) }
    ensures number { result ≡ workers_in (rows_in matches.now) }
    ensures least { 1 ≤ result }
    ensures most { result ≤ 64 }
{
    matches.get_one::<u32>("threads").unwrap_or(1)
}

/// How many generated objects are asked for, if any are.
pub(crate) fn generated_of(matches: &ArgMatches) -> Option<u32>
    requires { HasGenerated (rows_in matches.now) }
    ensures number { result ≡ generated_in (rows_in matches.now) }
    ensures range { IfSome result (λ count. (1 ≤ count) × (count ≤ 65536)) }
{
    matches.get_one::<u32>("self-input")
}

/// Owned copies of texts.
fn owned(alloc: Global, texts: &[&str]) -> Result<Vec<String>, AllocError>
    ensures { IfOk result (λ strings. texts_of strings.items ≡ map (λ text. text.now) texts.now) }
{
    let mut strings = Vec::new(alloc);
    for text in texts {
        strings.push(text.to_string(alloc)?)?;
    }
    Ok(strings)
}

/// The names of the inputs, in the order of the command.
pub(crate) fn inputs_of(alloc: Global, matches: &ArgMatches) -> Result<Vec<String>, AllocError>
    ensures { IfOk result (λ inputs. texts_of inputs.items ≡ inputs_in (rows_in matches.now)) }
{
    match matches.get_strs("files") {
        Some(names) => owned(alloc, names),
        None => Ok(Vec::new(alloc)),
    }
}
