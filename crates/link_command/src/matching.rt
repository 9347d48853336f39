//! The parse of the words by clap.

ghost use Rattle.std.specs.Prelude.{◌≡◌, IfOk, IfSome, option_map};
ghost use Rattle.link_command.specs.Command.{texts_of};
ghost use Rattle.link_command.specs.Grammar.{HasGenerated, HasThreads, rows_in, taken};

use crate::grammar::command_line;
use clap::ArgMatches;
use clap::error::ErrorKind;
use std::alloc::{AllocError, Global};

/// What clap finds in the words. `None` where it refuses them, and where they ask for help.
pub(crate) fn matches_of<'a>(
    alloc: Global,
    words: &'a [String],
) -> Result<Option<ArgMatches<'a>>, AllocError>
    ensures exact { IfOk result (λ matches. option_map rows_in matches ≡ taken (texts_of words.entry.now)) }
    ensures threads { IfOk result (λ matches. IfSome matches (λ m. HasThreads (rows_in m))) }
    ensures generated { IfOk result (λ matches. IfSome matches (λ m. HasGenerated (rows_in m))) }
{
    let command = command_line(alloc)?;
    match command.try_get_matches_from(words) {
        Ok(matches) => Ok(Some(matches)),
        Err(error) => match error.kind() {
            ErrorKind::OutOfMemory => Err(AllocError),
            _ => Ok(None),
        },
    }
}
