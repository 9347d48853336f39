//! What a relocation stands for once equal pieces of sections are merged (RISC-V ELF psABI, "Relocations": S and A).

ghost use Rattle.std.specs.Prelude.{◌≡◌, ◌<◌, length};
ghost use Rattle.lk_tables.specs.BindingView.{binding_view};
ghost use Rattle.lk_tables.specs.Files.{section_total};
ghost use Rattle.lk_tables.specs.Sites.{relocs_of};
ghost use Rattle.lk_tables.specs.TablesView.{files_of};
ghost use Rattle.link_sections.specs.PieceTargets as spec;
ghost use Rattle.link_sections.specs.Pools.{AreInOrder};
ghost use Rattle.link_sections.specs.PoolViews.{merged_at, merged_views};

use crate::pieces::Part;
use crate::pools::Pools;
use lk_base::SecNo;
use lk_tables::{Binding, Tables};

/// What a relocation stands for.
#[derive(Clone, Copy, Debug, PartialEq, Eq)]
pub enum Target {
    /// A byte of a section that is written as it is, or its end.
    Section {
        /// The section's number in the link.
        section: SecNo,
        /// The offset in the section, in bytes.
        offset: u64,
        /// What is to be added to the byte's address.
        rest: i64,
    },
    /// A byte of a piece of a pool, or its end.
    Piece {
        /// The pool's number.
        pool: u32,
        /// The piece's number in the pool.
        piece: u32,
        /// The offset in the piece, in bytes.
        offset: u64,
        /// What is to be added to the byte's address.
        rest: i64,
    },
    /// A number that no layout changes.
    Number(u64),
    /// Zero: a WEAK symbol that nothing defines.
    Zero,
    /// A symbol of the linker's own, by its number.
    Linker(u32),
    /// Nothing, which is a defect.
    Unbound,
}

/// What a relocation stands for: `reloc` is its number in its section's stable order of offset. An offset in a section that is merged
/// belongs to the piece that holds it, and the section's end to its last piece. Takes no memory.
pub fn target_of(
    tables: &Tables,
    binding: &Binding,
    pools: &Pools,
    section: SecNo,
    reloc: usize,
) -> Target
    requires section { section < section_total (files_of tables.now) }
    requires reloc { reloc < length (relocs_of (files_of tables.now) section) }
    ensures { result ≡ spec.target_at (files_of tables.now) (binding_view binding.now) (merged_views pools.now) section reloc }
{
    pools.piece_target(lk_tables::spot_of(tables, binding, section, reloc))
}

impl Pools {
    /// What a target in a section becomes once equal pieces are merged. Takes no memory.
    #[tactic(auto, unfolding(crate::specs::PieceTargets::piece_target))]
    pub fn piece_target(&self, target: lk_tables::Spot) -> Target
        ensures { result ≡ spec.piece_target (merged_views self.now) target }
    {
        match target {
            lk_tables::Spot::Section {
                section,
                offset,
                rest,
            } => self.in_section(section, offset, rest),
            lk_tables::Spot::Number(number) => Target::Number(number),
            lk_tables::Spot::Zero => Target::Zero,
            lk_tables::Spot::Linker(name) => Target::Linker(name),
            lk_tables::Spot::Unbound => Target::Unbound,
        }
    }

    /// What an offset of a section becomes.
    fn in_section(&self, section: SecNo, offset: u64, rest: i64) -> Target
        ensures { result ≡ spec.in_section (merged_at (merged_views self.now) section) section offset rest }
    {
        let Some((pool, parts)) = self.parts(section) else {
            return Target::Section {
                section,
                offset,
                rest,
            };
        };
        in_part(pool, part_at(parts, offset), offset, rest)
    }
}

/// The byte of a part's piece that an offset of its section means.
fn in_part(pool: u32, part: Part, offset: u64, rest: i64) -> Target
    ensures { result ≡ spec.in_part pool part offset rest }
{
    Target::Piece {
        pool,
        piece: part.piece,
        offset: offset.saturating_sub(part.start),
        rest,
    }
}

/// The part that holds an offset of a section: the last one that starts there or before.
#[tactic(auto, unfolding(crate::specs::PieceTargets::part_at))]
fn part_at(parts: &[Part], offset: u64) -> Part
    requires { AreInOrder parts.now }
    ensures { result ≡ spec.part_at parts.now offset }
{
    let n = parts.partition_point(|part| part.start <= offset);
    match parts.get(n.saturating_sub(1)) {
        Some(part) => *part,
        None => Part { start: 0, piece: 0 },
    }
}
