//! An accepted command.

ghost use Rattle.std.specs.Prelude.{◌≡◌, ◌≤◌, IfOk, IfSome, is_some, option_map, string_bytes};
ghost use Rattle.link_command.specs.Command.{IsWanted, command_of_words, command_view, folds, generated_in, generated_of, has_inputs, inputs_in, is_apart, is_safe, names_of as given_names, read_from, texts_of};
ghost use Rattle.link_command.specs.Grammar.{HasGenerated, HasThreads, rows_in};

use crate::matching::matches_of;
use crate::values::{
    are_named, are_two, gc_of, generated_of, has_mode, icf_of, inputs_of, is_named, names_of,
    owned_text, relax_of, strip_of, text_if, threads_of,
};
use clap::ArgMatches;
use std::alloc::{AllocError, Global};

/// What a command links.
#[derive(Drop)]
pub enum Wanted {
    /// The files of these names, in the order of the command.
    Files(Vec<String>),
    /// So many generated objects, 1 to 65536. No file is read.
    Generated(u32),
}

impl Wanted {
    /// The names of the files, in the order of the command; none where objects are generated.
    pub fn names(&self) -> &[String]
        ensures { texts_of result.now ≡ given_names self.now }
    {
        match self {
            Wanted::Files(names) => names.as_slice(),
            Wanted::Generated(_) => &[],
        }
    }
}

/// Which equal code is folded.
#[derive(Clone, Copy, Debug, PartialEq, Eq)]
pub enum IcfMode {
    /// None.
    Off,
    /// All code that may be.
    All,
    /// The code that may be, but for sections whose address is taken: those that something other than a call or a jump refers to.
    Safe,
}

impl IcfMode {
    /// Whether equal code is folded.
    pub fn folds(self) -> bool
        ensures { result ≡ folds self }
    {
        match self {
            IcfMode::Off => false,
            IcfMode::All => true,
            IcfMode::Safe => true,
        }
    }

    /// Whether code whose address is taken is folded with no other.
    pub fn is_safe(self) -> bool
        ensures { result ≡ is_safe self }
    {
        match self {
            IcfMode::Off => false,
            IcfMode::All => false,
            IcfMode::Safe => true,
        }
    }
}

/// An accepted command.
#[derive(Drop)]
pub struct Command {
    /// `-o`: the name of the executable, `a.out` where none is given.
    pub output: String,
    /// `--Map`: the name of the map file, if one is asked for.
    pub map: Option<String>,
    /// `-e`: the name of the symbol at which the executable starts, `_start` where none is given.
    pub entry: String,
    /// `--threads`: the number of workers, 1 to 64, 4 where none is given.
    pub threads: u32,
    /// `--gc-sections`: whether sections that nothing refers to are left out.
    pub gc: bool,
    /// `--icf`: which equal code is folded.
    pub icf: IcfMode,
    /// Without `--no-relax`: whether calls are relaxed.
    pub relax: bool,
    /// `-s`: whether the symbol table is left out.
    pub strip: bool,
    /// `--undefined`: names, none empty, that are asked for as by an undefined symbol; none where it is not given.
    pub undefined: Vec<Vec<u8>>,
    /// `--keep-unique`: names, none empty, whose sections are folded with no other; none where it is not given.
    pub unique: Vec<Vec<u8>>,
    /// `--why-live`: the name, not empty, of which it is said why its section is kept, if that is asked.
    pub why_live: Option<String>,
    /// `--why-apart`: the two names, neither empty, of which it is said why their sections are not folded; none where that is not asked.
    pub why_apart: Vec<Vec<u8>>,
    /// What is linked.
    pub inputs: Wanted,
}

/// What is linked. `None` where there are both files and generated objects, or neither.
fn wanted_of(alloc: Global, matches: &ArgMatches) -> Result<Option<Wanted>, AllocError>
    requires { HasGenerated (rows_in matches.now) }
    ensures given { IfOk result (λ wanted. is_some wanted ≡ has_inputs (read_from (rows_in matches.now))) }
    ensures generated { IfOk result (λ wanted. IfSome wanted (λ w. generated_of w ≡ generated_in (rows_in matches.now))) }
    ensures names { IfOk result (λ wanted. IfSome wanted (λ w. given_names w ≡ inputs_in (rows_in matches.now))) }
    ensures some { IfOk result (λ wanted. IfSome wanted IsWanted) }
{
    let names = inputs_of(alloc, matches)?;
    let Some(count) = generated_of(matches) else {
        if names.len() == 0 {
            return Ok(None);
        }
        return Ok(Some(Wanted::Files(names)));
    };
    if names.len() != 0 {
        return Ok(None);
    }
    Ok(Some(Wanted::Generated(count)))
}

/// What the matches of a command ask for, where this is linked.
fn read_from(alloc: Global, matches: &ArgMatches, inputs: Wanted) -> Result<Command, AllocError>
    requires threads { HasThreads (rows_in matches.now) }
    requires generated { generated_of inputs ≡ generated_in (rows_in matches.now) }
    requires names { given_names inputs ≡ inputs_in (rows_in matches.now) }
    ensures asked { IfOk result (λ command. command_view command ≡ read_from (rows_in matches.now)) }
    ensures threads { IfOk result (λ command. (1 ≤ command.threads) × (command.threads ≤ 64)) }
    ensures inputs { IfOk result (λ command. command.inputs ≡ inputs) }
{
    let output = owned_text(alloc, matches, "output")?;
    let map = text_if(alloc, matches, "map")?;
    let entry = owned_text(alloc, matches, "entry")?;
    let undefined = names_of(alloc, matches, "undefined")?;
    let unique = names_of(alloc, matches, "keep-unique")?;
    let why_live = text_if(alloc, matches, "why-live")?;
    let why_apart = names_of(alloc, matches, "why-apart")?;
    Ok(Command {
        output,
        map,
        entry,
        threads: threads_of(matches),
        gc: gc_of(matches),
        icf: icf_of(matches),
        relax: relax_of(matches),
        strip: strip_of(matches),
        undefined,
        unique,
        why_live,
        why_apart,
        inputs,
    })
}

/// Whether the map has another name than the executable: one would be written over the other.
fn is_apart(map: &Option<String>, output: &str) -> bool
    ensures { result ≡ is_apart (option_map (λ name. string_bytes name) map.now) output.now }
{
    match map {
        None => true,
        Some(map) => map.as_str() != output,
    }
}

/// The command of these words, the program's name first. `None` refuses them. The only error is out of memory.
#[tactic(auto, unfolding(crate::specs::Command::command_of_words))]
pub fn command_of(alloc: Global, words: &[String]) -> Result<Option<Command>, AllocError>
    ensures exact { IfOk result (λ command. option_map command_view command ≡ command_of_words (texts_of words.now)) }
    ensures threads { IfOk result (λ command. IfSome command (λ c. (1 ≤ c.threads) × (c.threads ≤ 64))) }
    ensures inputs { IfOk result (λ command. IfSome command (λ c. IsWanted c.inputs)) }
{
    let Some(matches) = matches_of(alloc, words)? else {
        return Ok(None);
    };
    if !has_mode(&matches) {
        return Ok(None);
    }
    let Some(inputs) = wanted_of(alloc, &matches)? else {
        return Ok(None);
    };
    let command = read_from(alloc, &matches, inputs)?;
    if command.entry.is_empty() || !is_apart(&command.map, command.output.as_str()) {
        return Ok(None);
    }
    if !are_named(command.undefined.as_slice()) || !are_named(command.unique.as_slice()) {
        return Ok(None);
    }
    if !is_named(&command.why_live) || !are_two(command.why_apart.as_slice()) {
        return Ok(None);
    }
    Ok(Some(command))
}
