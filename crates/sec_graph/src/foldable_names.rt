//! By their headers, which sections may be folded.

ghost use Rattle.std.specs.Prelude.{◌≡◌, slice_index};
ghost use Rattle.std.specs.List.{list_all};
ghost use Rattle.link_sections.specs.InputViews.{input_view};
ghost use Rattle.sec_graph.specs.Foldable as spec;

use link_sections::InputSection;
use lk_base::abi::{
    SHF_ALLOC, SHF_EXECINSTR, SHF_GNU_RETAIN, SHF_LINK_ORDER, SHF_MERGE, SHF_TLS, SHF_WRITE,
    SHT_PROGBITS,
};
use lk_tables::{is_c_identifier, is_init_or_fini};

/// The flags of sections that are more than their bytes.
const BARRING: u64 = SHF_WRITE + SHF_MERGE + SHF_TLS + SHF_GNU_RETAIN + SHF_LINK_ORDER;

/// Whether a section may be folded, if it is kept: it is code that nothing writes, has a byte, and its name has no meaning to the linker.
#[tactic(auto, unfolding(crate::specs::Foldable::is_foldable_input))]
pub fn is_foldable_input(section: &InputSection) -> bool
    ensures { result ≡ spec.is_foldable_input (input_view section.now) }
{
    section.sh_type == SHT_PROGBITS
        && (is_code(section.flags)
            && (section.flags & BARRING == 0
                && (section.size != 0 && is_foldable_name(section.name))))
}

/// Whether a section is executed.
fn is_code(flags: u64) -> bool
    ensures { result ≡ spec.is_code flags }
{
    flags & SHF_ALLOC != 0 && flags & SHF_EXECINSTR != 0
}

/// Whether the linker gives a name no meaning.
fn is_foldable_name(name: &[u8]) -> bool
    ensures { result ≡ spec.is_foldable_name name.now }
{
    !is_init_or_fini(name) && !is_c_identifier(name)
}
