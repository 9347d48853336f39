//! The output sections by their names and classes, so that that of a section is found at once.

ghost use Rattle.std.specs.Prelude.{◌≡◌, ◌==◌, ◌<◌, ◌^◌, ℕ, List, length, map, IfOk, OnOk, Some, if◌then◌else◌};
ghost use Rattle.link_sections.specs.InputViews.{input_view};
ghost use Rattle.link_sections.specs.LaidOut.{layout_view, output_view};
ghost use Rattle.lk_tables.specs.Classes.{is_in, class_no as spec_no};
ghost use Rattle.lk_tables.specs.declared.classes.Class.{Class as AnyClass};
ghost use Rattle.symbol_table.specs.Noted.{AreNoted, has, noted, output_numbers};
ghost use Rattle.symbol_table.specs.Outputs.{place_in, place_or};

use crate::symbols::TablePlace;
use link_sections::{InputSection, Layout, OutputSection};
use lk_base::abi::{SHF_EXECINSTR, SHF_TLS, SHF_WRITE, SHT_NOBITS};
use lk_tables::{Class, output_name};
use std::alloc::{AllocError, Global};
use std::collections::HashMap;

/// The numbers of output sections, from 1 on, by their names and the numbers of their classes.
#[derive(Drop)]
pub struct Outputs<'a> {
    known: HashMap<(&'a [u8], u8), u16>,
}

impl<'a> Outputs<'a> {
    /// By name and class, the numbers of these output sections, from 1 on. The only error is out of memory.
    pub fn of(alloc: Global, list: &[OutputSection<'a>]) -> Result<Outputs<'a>, AllocError>
        requires { length list.now < 2 ^ 16 }
        ensures { IfOk result (λ outputs. AreNoted 1 (map output_view list.now) (output_numbers outputs)) }
    {
        let mut known = HashMap::new(alloc);
        let mut left = list.len();
        while left > 0 {
            note(&mut known, &list[left - 1], left as u16)?;
            left -= 1;
        }
        Ok(Outputs { known })
    }

    /// Where a section stands: the number of its output section, `Absolute` where that is empty. `layout` is the one whose output sections were
    /// noted.
    #[tactic(auto, unfolding(crate::specs::Outputs::place_in, link_sections::specs::LaidOut::layout_view))]
    pub fn place_of(&self, layout: &Layout, section: &InputSection) -> TablePlace
        requires { AreNoted 1 (layout_view layout.now).outputs (output_numbers self.now) }
        ensures { result ≡ place_in (layout_view layout.now) (input_view section.now) }
    {
        let class = class_of(section.sh_type, section.flags);
        self.get(output_name(section.name), class_no(class))
    }

    /// The place of the output section of a name and a class.
    #[tactic(auto, unfolding(crate::specs::Noted::noted))]
    fn get(&self, name: &[u8], class: u8) -> TablePlace
        ensures { result ≡ place_or (output_numbers self.now name.now class) }
    {
        match self.known.get(&(name, class)) {
            Some(number) => TablePlace::Output(*number),
            None => TablePlace::Absolute,
        }
    }
}

/// Notes the number of an output section, in place of that of one of the same name and class.
#[tactic(auto, unfolding(crate::specs::Noted::noted))]
fn note<'a>(
    known: &mut HashMap<(&'a [u8], u8), u16>,
    output: &OutputSection<'a>,
    number: u16,
) -> Result<(), AllocError>
    ensures { OnOk result ((name : List ℕ) (class : ℕ) → noted known.new name class ≡ (if has name class (output_view output.now) then Some number else noted known.old name class)) }
{
    known.insert((output.name, class_no(output.class)), number)?;
    Ok(())
}

/// The number of a class.
fn class_no(class: Class) -> u8
    ensures { result ≡ spec_no class }
{
    match class {
        Class::R => 0,
        Class::Rx => 1,
        Class::TlsBits => 2,
        Class::TlsNobits => 3,
        Class::RwBits => 4,
        Class::RwNobits => 5,
    }
}

/// The class of a section of this type and these flags.
#[tactic(auto, unfolding(lk_tables::specs::Classes::is_in))]
fn class_of(sh_type: u32, flags: u64) -> Class
    ensures { (class : AnyClass) → is_in class sh_type flags ≡ (spec_no class == spec_no result) }
{
    let nobits = sh_type == SHT_NOBITS;
    if flags & SHF_TLS != 0 {
        return if nobits {
            Class::TlsNobits
        } else {
            Class::TlsBits
        };
    }
    if flags & SHF_WRITE != 0 {
        return if nobits {
            Class::RwNobits
        } else {
            Class::RwBits
        };
    }
    if flags & SHF_EXECINSTR != 0 {
        return Class::Rx;
    }
    Class::R
}
