//! What relocations of two items stand for, compared.

ghost use Rattle.std.specs.Prelude.{◌≡◌, Some};
ghost use Rattle.link_sections.specs.FoldItems.{item_view};
ghost use Rattle.link_sections.specs.declared.targets.Target.TheVariants as targets;
ghost use Rattle.icf_part.specs.Folding.{target_at};
ghost use Rattle.icf_part.specs.Leaders.{same_target};

use link_sections::{FoldItem, Target};
use lk_base::SecNo;

/// What a relocation of an item stands for; nothing where it is past the last.
pub fn target_of(item: &FoldItem, k: usize) -> Option<Target>
    ensures { result ≡ target_at (item_view item.now) k }
{
    match item.relocs.get(k) {
        Some(reloc) => reloc.target,
        None => None,
    }
}

/// Whether two targets are equal, of which either may be missing.
pub fn same_target(one: Option<Target>, two: Option<Target>) -> bool
    ensures { result ≡ same_target one two }
{
    let Some(one) = one else {
        return is_missing(two);
    };
    let Some(two) = two else {
        return false;
    };
    are_same(one, two)
}

/// Whether a target is missing, as another is.
fn is_missing(target: Option<Target>) -> bool
    ensures { result ≡ same_target None target }
{
    match target {
        Some(_) => false,
        None => true,
    }
}

/// Whether two targets are equal.
fn are_same(one: Target, two: Target) -> bool
    ensures { result ≡ same_target (Some one) (Some two) }
{
    match one {
        Target::Section {
            section,
            offset,
            rest,
        } => is_section(two, section, offset, rest),
        Target::Piece {
            pool,
            piece,
            offset,
            rest,
        } => is_piece(two, pool, piece, offset, rest),
        Target::Number(number) => is_number(two, number),
        Target::Zero => is_zero(two),
        Target::Linker(name) => is_linker(two, name),
        Target::Unbound => is_unbound(two),
    }
}

/// Whether a target is this place in a section.
fn is_section(target: Target, section: SecNo, offset: u64, rest: i64) -> bool
    ensures { result ≡ same_target (Some (targets.Section section offset rest)) (Some target) }
{
    match target {
        Target::Section {
            section: s,
            offset: o,
            rest: r,
        } => section == s && offset == o && rest == r,
        Target::Piece { .. } => false,
        Target::Number(_) => false,
        Target::Zero => false,
        Target::Linker(_) => false,
        Target::Unbound => false,
    }
}

/// Whether a target is this place in a piece of a pool.
fn is_piece(target: Target, pool: u32, piece: u32, offset: u64, rest: i64) -> bool
    ensures { result ≡ same_target (Some (targets.Piece pool piece offset rest)) (Some target) }
{
    match target {
        Target::Section { .. } => false,
        Target::Piece {
            pool: m,
            piece: n,
            offset: o,
            rest: r,
        } => { pool == m && piece == n && offset == o && rest == r }
        Target::Number(_) => false,
        Target::Zero => false,
        Target::Linker(_) => false,
        Target::Unbound => false,
    }
}

/// Whether a target is this number.
fn is_number(target: Target, number: u64) -> bool
    ensures { result ≡ same_target (Some (targets.Number number)) (Some target) }
{
    match target {
        Target::Section { .. } => false,
        Target::Piece { .. } => false,
        Target::Number(n) => number == n,
        Target::Zero => false,
        Target::Linker(_) => false,
        Target::Unbound => false,
    }
}

/// Whether a target is zero.
fn is_zero(target: Target) -> bool
    ensures { result ≡ same_target (Some targets.Zero) (Some target) }
{
    match target {
        Target::Section { .. } => false,
        Target::Piece { .. } => false,
        Target::Number(_) => false,
        Target::Zero => true,
        Target::Linker(_) => false,
        Target::Unbound => false,
    }
}

/// Whether a target is this symbol of the linker's own.
fn is_linker(target: Target, name: u32) -> bool
    ensures { result ≡ same_target (Some (targets.Linker name)) (Some target) }
{
    match target {
        Target::Section { .. } => false,
        Target::Piece { .. } => false,
        Target::Number(_) => false,
        Target::Zero => false,
        Target::Linker(n) => name == n,
        Target::Unbound => false,
    }
}

/// Whether a target is nothing.
fn is_unbound(target: Target) -> bool
    ensures { result ≡ same_target (Some targets.Unbound) (Some target) }
{
    match target {
        Target::Section { .. } => false,
        Target::Piece { .. } => false,
        Target::Number(_) => false,
        Target::Zero => false,
        Target::Linker(_) => false,
        Target::Unbound => true,
    }
}
