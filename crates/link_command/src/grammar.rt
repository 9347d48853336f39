//! The options of the command, one function each, and the command that has them.

ghost use Rattle.std.specs.Prelude.{◌≡◌, IfOk, false};
ghost use Rattle.clap.specs.Words.{app_of, rule_of};
ghost use Rattle.link_command.specs.Grammar.{entry_rule, files_rule, gc_rule, generated_rule, icf_rule, map_rule, output_rule, relax_rule, rvld_app, strip_rule, threads_rule, undefined_rule, unique_rule, why_apart_rule, why_live_rule};

use clap::{Arg, ArgAction};
use std::alloc::{AllocError, Global};

/// `-o`, `--output FILE`: the name of the executable.
fn output_option<'a>(alloc: Global) -> Arg<'a>
    ensures rule { rule_of result ≡ output_rule }
    ensures local { result.global ≡ false }
{
    Arg::new(alloc, "output")
        .short('o')
        .long("output")
        .action(ArgAction::Set)
        .default_value("a.out")
}

/// `--Map FILE`: the name of the map file.
fn map_option<'a>(alloc: Global) -> Arg<'a>
    ensures rule { rule_of result ≡ map_rule }
    ensures local { result.global ≡ false }
{
    Arg::new(alloc, "map").long("Map").action(ArgAction::Set)
}

/// `-e`, `--entry NAME`: the symbol at which the executable begins.
fn entry_option<'a>(alloc: Global) -> Arg<'a>
    ensures rule { rule_of result ≡ entry_rule }
    ensures local { result.global ≡ false }
{
    Arg::new(alloc, "entry")
        .short('e')
        .long("entry")
        .action(ArgAction::Set)
        .default_value("_start")
}

/// `--threads N`: the number of workers.
fn threads_option<'a>(alloc: Global) -> Arg<'a>
    ensures rule { rule_of result ≡ threads_rule }
    ensures local { result.global ≡ false }
{
    Arg::new(alloc, "threads")
        .long("threads")
        .value_parser(clap::value_parser!(u32).range(1..=64))
        .action(ArgAction::Set)
        .default_value("4")
}

/// `--gc-sections`: sections that nothing refers to are left out.
fn gc_option<'a>(alloc: Global) -> Arg<'a>
    ensures rule { rule_of result ≡ gc_rule }
    ensures local { result.global ≡ false }
{
    Arg::new(alloc, "gc-sections")
        .long("gc-sections")
        .action(ArgAction::SetTrue)
}

/// `--icf MODE`: which equal code is folded, `none`, `all` or `safe`.
fn icf_option<'a>(alloc: Global) -> Arg<'a>
    ensures rule { rule_of result ≡ icf_rule }
    ensures local { result.global ≡ false }
{
    Arg::new(alloc, "icf")
        .long("icf")
        .action(ArgAction::Set)
        .default_value("none")
}

/// `--no-relax`: calls keep their bytes.
fn relax_option<'a>(alloc: Global) -> Arg<'a>
    ensures rule { rule_of result ≡ relax_rule }
    ensures local { result.global ≡ false }
{
    Arg::new(alloc, "no-relax")
        .long("no-relax")
        .action(ArgAction::SetTrue)
}

/// `-s`, `--strip-all`: no symbol table.
fn strip_option<'a>(alloc: Global) -> Arg<'a>
    ensures rule { rule_of result ≡ strip_rule }
    ensures local { result.global ≡ false }
{
    Arg::new(alloc, "strip-all")
        .short('s')
        .long("strip-all")
        .action(ArgAction::SetTrue)
}

/// `--undefined NAMES`: names that are asked for as by an undefined symbol, between commas.
fn undefined_option<'a>(alloc: Global) -> Arg<'a>
    ensures rule { rule_of result ≡ undefined_rule }
    ensures local { result.global ≡ false }
{
    Arg::new(alloc, "undefined")
        .long("undefined")
        .action(ArgAction::Set)
}

/// `--keep-unique NAMES`: names whose sections are folded with no other, between commas.
fn unique_option<'a>(alloc: Global) -> Arg<'a>
    ensures rule { rule_of result ≡ unique_rule }
    ensures local { result.global ≡ false }
{
    Arg::new(alloc, "keep-unique")
        .long("keep-unique")
        .action(ArgAction::Set)
}

/// `--why-live NAME`: the report says why the section in which a name stands is kept.
fn why_live_option<'a>(alloc: Global) -> Arg<'a>
    ensures rule { rule_of result ≡ why_live_rule }
    ensures local { result.global ≡ false }
{
    Arg::new(alloc, "why-live")
        .long("why-live")
        .action(ArgAction::Set)
}

/// `--why-apart A,B`: the report says why the sections in which two names stand are not folded.
fn why_apart_option<'a>(alloc: Global) -> Arg<'a>
    ensures rule { rule_of result ≡ why_apart_rule }
    ensures local { result.global ≡ false }
{
    Arg::new(alloc, "why-apart")
        .long("why-apart")
        .action(ArgAction::Set)
}

/// `--self-input N`: so many generated objects are linked, in place of files.
fn generated_option<'a>(alloc: Global) -> Arg<'a>
    ensures rule { rule_of result ≡ generated_rule }
    ensures local { result.global ≡ false }
{
    Arg::new(alloc, "self-input")
        .long("self-input")
        .value_parser(clap::value_parser!(u32).range(1..=65536))
        .action(ArgAction::Set)
}

/// `FILES..`: the inputs, which may stand between options.
fn files_argument<'a>(alloc: Global) -> Arg<'a>
    ensures rule { rule_of result ≡ files_rule }
    ensures local { result.global ≡ false }
{
    Arg::new(alloc, "files").num_args(1..)
}

/// The command line of rvld.
#[tactic(auto, unfolding(crate::specs::Grammar::rvld_app))]
pub(crate) fn command_line<'a>(alloc: Global) -> Result<clap::Command<'a>, AllocError>
    ensures { IfOk result (λ command. app_of command ≡ rvld_app) }
{
    clap::Command::new(alloc, "rvld")
        .arg(output_option(alloc))?
        .arg(map_option(alloc))?
        .arg(entry_option(alloc))?
        .arg(threads_option(alloc))?
        .arg(gc_option(alloc))?
        .arg(icf_option(alloc))?
        .arg(relax_option(alloc))?
        .arg(strip_option(alloc))?
        .arg(undefined_option(alloc))?
        .arg(unique_option(alloc))?
        .arg(why_live_option(alloc))?
        .arg(why_apart_option(alloc))?
        .arg(generated_option(alloc))?
        .arg(files_argument(alloc))
}
