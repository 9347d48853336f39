//! What is asked of a section by itself before it is linked (System V gABI, "Section Header Table").

ghost use Rattle.std.specs.Prelude.{◌≡◌, ◌<◌, length};
ghost use Rattle.lk_tables.specs.Bodies as read;
ghost use Rattle.lk_tables.specs.Checks.{passes};

use crate::header::{flaw, reject};
use crate::sound_file::SoundFile;
use lk_base::Flaw;
use lk_base::abi::{
    ALIGN_MAX, NOBITS_MAX, SHF_COMPRESSED, SHF_EXECINSTR, SHF_LINK_ORDER, SHF_WRITE, SHT_NOBITS,
    SHT_REL,
};
use lk_base::kinds::{BAD_ALIGNMENT, BAD_SECTION, COMPRESSED, LIMIT};
use lk_tables::{Section, is_loaded, is_loaded_type, is_written, text_of};

/// The checks of a section by itself.
#[tactic(auto, unfolding(lk_tables::specs::Bodies::plain_checks))]
pub fn check_plain(file: &SoundFile, index: u32, section: &Section) -> Result<(), Flaw>
    requires { index < length file.now.sections.now }
    ensures { result ≡ passes (read.plain_checks file.now.bytes.now index section.now) }
{
    let place = file.place_of(index);
    let count = file.sections.len();
    let loaded = is_loaded(section);
    reject(
        section.flags & SHF_COMPRESSED != 0,
        flaw(COMPRESSED, index, place),
    )?;
    reject(section.sh_type == SHT_REL, flaw(BAD_SECTION, index, place))?;
    reject(
        loaded && is_bad_loaded(file.bytes, count, section),
        flaw(BAD_SECTION, index, place),
    )?;
    reject(
        loaded && is_bad_alignment(section.align),
        flaw(BAD_ALIGNMENT, index, place),
    )?;
    reject(
        loaded && section.sh_type == SHT_NOBITS && NOBITS_MAX < section.size,
        flaw(LIMIT, index, place),
    )
}

/// Whether an alignment is no power of two, or too great; 0 counts as 1.
#[tactic(auto, unfolding(lk_tables::specs::Bodies::is_bad_alignment))]
pub fn is_bad_alignment(align: u64) -> bool
    ensures { result ≡ read.is_bad_alignment align }
{
    (align != 0 && !align.is_power_of_two()) || ALIGN_MAX < align
}

/// Whether a loaded section has a type that is not linked, is both written to and executed, is in the order of no section, or is named like
/// the table of unwind records, which the linker writes.
#[tactic(auto, unfolding(lk_tables::specs::Bodies::is_bad_loaded))]
fn is_bad_loaded(bytes: &[u8], count: usize, section: &Section) -> bool
    ensures { result ≡ read.is_bad_loaded bytes.now count section.now }
{
    !is_loaded_type(section.sh_type)
        || (section.flags & SHF_WRITE != 0 && section.flags & SHF_EXECINSTR != 0)
        || (section.flags & SHF_LINK_ORDER != 0 && count <= section.link as usize)
        || (is_written(bytes, section)
            && text_of(bytes, &section.name) == b".eh_frame_hdr".as_slice())
}
