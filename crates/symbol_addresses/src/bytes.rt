//! The addresses of bytes of sections, merged ones too.

ghost use Rattle.std.specs.Prelude.{◌≡◌, ◌≢◌, ℕ, ◌^◌, ◌≤ℤ◌, pos};
ghost use Rattle.link_sections.specs.Addresses as spec;
ghost use Rattle.link_sections.specs.Links.{link_binding, link_files, link_laid, link_leaders};
ghost use Rattle.link_sections.specs.declared.targets.Target.TheVariants as targets;

use link_sections::{LaidLink, Target, in_piece, in_section};
use lk_base::SecNo;

/// The address of a byte of a section: that of its piece, if the section is merged.
#[tactic(auto, unfolding(link_sections::specs::Addresses::byte_address))]
pub fn of_byte(link: &LaidLink, section: SecNo, offset: u64) -> i128
    ensures value { result ≡ pos (spec.byte_address (link_files link.now) (link_binding link.now) (link_leaders link.now) (link_laid link.now) section offset) }
    ensures low { pos 0 ≤ℤ result }
    ensures high { result ≤ℤ pos (2 ^ 66) }
{
    let byte = lk_tables::Spot::Section {
        section,
        offset,
        rest: 0,
    };
    in_target(link, link.pools.piece_target(byte))
}

/// The address of what is not a symbol of the linker's own.
fn in_target(link: &LaidLink, target: Target) -> i128
    requires other { (n : ℕ) → target ≢ targets.Linker n }
    ensures value { result ≡ pos (spec.target_address (link_files link.now) (link_binding link.now) (link_leaders link.now) (link_laid link.now) target) }
    ensures low { pos 0 ≤ℤ result }
    ensures high { result ≤ℤ pos (2 ^ 66) }
{
    match target {
        Target::Section {
            section,
            offset,
            rest: _,
        } => in_section(link, section, offset),
        Target::Piece {
            pool,
            piece,
            offset,
            rest: _,
        } => in_piece(link, pool, piece, offset),
        Target::Number(number) => number as i128,
        Target::Zero => 0,
        Target::Linker(_) => 0,
        Target::Unbound => 0,
    }
}
