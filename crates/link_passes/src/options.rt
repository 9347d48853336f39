//! What a command asks of a link beside its names.

ghost use Rattle.std.specs.Prelude.{◌≡◌, ◌<◌, Bool, List, map};
ghost use Rattle.link_command.specs.Command.{command_view, generated_of};
ghost use Rattle.link_passes.specs.Passes.{link_options_of};
ghost use Rattle.link_passes.specs.Tables.{link_options};

use link_command::{Command, Wanted};

/// What a command asks of a link beside its names.
#[derive(Clone, Copy, Debug, PartialEq, Eq)]
pub struct Options {
    /// `--gc-sections`: whether sections that nothing refers to are left out.
    pub gc: bool,
    /// `--icf all` or `safe`: whether equal code is folded.
    pub icf: bool,
    /// Without `--no-relax`: whether calls are relaxed.
    pub relax: bool,
    /// `-s`: whether the symbol table is left out.
    pub strip: bool,
    /// `--Map`: whether there is a map.
    pub map: bool,
    /// `--self-input`: of how many generated objects there is a report, if there is one.
    pub generated: Option<u32>,
}

/// How many generated objects a command links, if it links these.
fn generated_of(inputs: &Wanted) -> Option<u32>
    ensures { result ≡ generated_of inputs.now }
{
    match inputs {
        Wanted::Files(_) => None,
        Wanted::Generated(objects) => Some(*objects),
    }
}

/// The options of a command.
pub fn options_of(command: &Command) -> Options
    ensures { (barred : List Bool) → link_options result barred ≡ link_options_of (command_view command.now) barred }
{
    Options {
        gc: command.gc,
        icf: command.icf.folds(),
        relax: command.relax,
        strip: command.strip,
        map: command.map.is_some(),
        generated: generated_of(&command.inputs),
    }
}
