//! The inputs of a link: their names and their bytes.

ghost use Rattle.std.specs.Prelude.{◌≡◌, List, [], Some, map, length, string_bytes, IfOk};
ghost use Rattle.link_command.specs.Command.{texts_of};
ghost use Rattle.link_passes.specs.Contents.{contents_of, input_contents, input_names};
ghost use Rattle.link_passes.specs.Given.{contents_by, names_by};

use link_gen::objects as objects_of;
use std::alloc::{AllocError, Global};

/// The inputs of a link, in the order of the command: the name of each, and its bytes.
#[derive(Drop)]
pub struct Inputs {
    pub files: Vec<(String, Vec<u8>)>,
}

/// A copy of a name.
fn copy_of(name: &String) -> Result<String, AllocError>
    ensures { IfOk result (λ copy. string_bytes copy ≡ string_bytes name.now) }
{
    name.clone()
}

/// The inputs of these names, which have these bytes.
pub fn inputs_of(
    alloc: Global,
    names: &[String],
    contents: Vec<Vec<u8>>,
) -> Result<Inputs, AllocError>
    requires { length contents.items ≡ length names.now }
    ensures names { IfOk result (λ inputs. input_names inputs ≡ texts_of names.now) }
    ensures contents { IfOk result (λ inputs. input_contents inputs ≡ contents_of contents.items) }
{
    let mut files = Vec::with_capacity(alloc, names.len())?;
    let mut at = 0;
    for bytes in contents {
        files.push((copy_of(&names[at])?, bytes))?;
        at += 1;
    }
    Ok(Inputs { files })
}

/// So many generated objects.
pub fn generated_inputs(alloc: Global, objects: u32) -> Result<Inputs, AllocError>
    ensures names { IfOk result (λ inputs. input_names inputs ≡ names_by (Some objects) []) }
    ensures contents { IfOk result (λ inputs. input_contents inputs ≡ contents_by (Some objects) []) }
{
    let files = objects_of(alloc, objects)?;
    Ok(Inputs { files })
}
