//! What decides whether two CIEs are one.

ghost use Rattle.std.specs.Prelude.{◌≡◌, ◌+◌, ◌^◌, ◌<◌, ◌++◌, All, take, drop, flat_map, map, length, IfOk, OnOk};
ghost use Rattle.std.specs.Int.{to_le_bytes, w64};
ghost use Rattle.lk_tables.specs.BindingView.{binding_view};
ghost use Rattle.lk_tables.specs.Files.{section_total};
ghost use Rattle.lk_tables.specs.TablesView.{files_of};
ghost use Rattle.link_sections.specs.PoolViews.{merged_views};
ghost use Rattle.lk_tables.specs.Sites.{contents_at, place_of};
ghost use Rattle.eh_frame.specs.Plan as spec;
ghost use Rattle.lk_tables.specs.RecordViews.{record_view};

use link_sections::{Pools, Target};
use lk_base::relocations::names_a_symbol;
use lk_base::{FileNo, SecNo};
use lk_tables::{Binding, Record, Reloc, Tables, contents_of, part_of, spot_in};
use std::alloc::{AllocError, Global};

/// A relocation of a CIE.
#[derive(Clone, Copy, Debug, PartialEq, Eq)]
pub struct CieReloc {
    /// Its offset from the CIE's start, in bytes.
    pub offset: u64,
    /// Its type by its number in the psABI.
    pub kind: u32,
    /// What it stands for; none where its kind names no symbol.
    pub target: Option<Target>,
    /// What is to be added to the address of that.
    pub addend: i64,
}

/// The bytes of a section in its file; what lies past the file's end is left out.
fn section_bytes<'a>(tables: &Tables<'a>, section: SecNo) -> &'a [u8]
    requires { section < section_total (files_of tables.now) }
    ensures { result.now ≡ contents_at (files_of tables.now) section }
{
    let place = tables.place_of(section);
    let file = tables.file(place.file);
    let header = file.section(place.index as usize);
    contents_of(file.bytes(), &header)
}

/// All bytes of a record.
pub fn record_bytes<'a>(tables: &Tables<'a>, section: SecNo, unwind_record: &Record) -> &'a [u8]
    requires section { section < section_total (files_of tables.now) }
    requires small { unwind_record.now.len + 4 < 2 ^ 64 }
    ensures { result.now ≡ take (4 + unwind_record.now.len) (drop unwind_record.now.from (contents_at (files_of tables.now) section)) }
{
    part_of(
        section_bytes(tables, section),
        unwind_record.from,
        unwind_record.len.saturating_add(4),
    )
}

/// A relocation of a CIE of a file that starts at an offset of its section.
#[tactic(auto, unfolding(crate::specs::Plan::reloc_in))]
fn cie_reloc(
    tables: &Tables,
    binding: &Binding,
    pools: &Pools,
    file: FileNo,
    from: u64,
    reloc: &Reloc,
) -> CieReloc
    requires { file < length (files_of tables.now) }
    ensures { result ≡ spec.reloc_in (files_of tables.now) (binding_view binding.now) (merged_views pools.now) file from reloc.now }
{
    let offset = reloc.offset.saturating_sub(from);
    if !names_a_symbol(reloc.kind) {
        return CieReloc {
            offset,
            kind: reloc.kind,
            target: None,
            addend: 0,
        };
    }
    let target = pools.piece_target(spot_in(tables, binding, file, reloc));
    CieReloc {
        offset,
        kind: reloc.kind,
        target: Some(target),
        addend: addend_of(target, reloc),
    }
}

/// A: of a section and of a piece, what is to be added to the byte that is meant.
pub fn addend_of(target: Target, reloc: &Reloc) -> i64
    ensures { result ≡ spec.addend_of target reloc.now }
{
    match target {
        Target::Section {
            section: _,
            offset: _,
            rest,
        } => rest,
        Target::Piece {
            pool: _,
            piece: _,
            offset: _,
            rest,
        } => rest,
        Target::Number(_) => reloc.addend,
        Target::Zero => reloc.addend,
        Target::Linker(_) => reloc.addend,
        Target::Unbound => reloc.addend,
    }
}

/// The bytes that tell a CIE from others: how many bytes it has, these, and of each of its relocations ten numbers.
pub fn cie_text(
    alloc: Global,
    tables: &Tables,
    binding: &Binding,
    pools: &Pools,
    section: SecNo,
    cie: &Record,
) -> Result<Vec<u8>, AllocError>
    requires section { section < section_total (files_of tables.now) }
    requires small { cie.now.len + 4 < 2 ^ 64 }
    ensures { IfOk result (λ text. spec.IsTextOf (spec.key_of (files_of tables.now) (binding_view binding.now) (merged_views pools.now) section (record_view cie.now)) text.items) }
{
    let bytes = record_bytes(tables, section, cie);
    let words = cie_words(alloc, tables, binding, pools, section, cie)?;
    let len = bytes.len() as u64;
    let mut text = Vec::new(alloc);
    push_word(&mut text, len)?;
    text.extend_from_slice(bytes)?;
    push_words(&mut text, words.as_slice())?;
    Ok(text)
}

/// The numbers of the relocations of a CIE.
fn cie_words(
    alloc: Global,
    tables: &Tables,
    binding: &Binding,
    pools: &Pools,
    section: SecNo,
    cie: &Record,
) -> Result<Vec<u64>, AllocError>
    requires { section < section_total (files_of tables.now) }
    ensures { IfOk result (λ words. words.items ≡ flat_map spec.reloc_words (map (spec.reloc_in (files_of tables.now) (binding_view binding.now) (merged_views pools.now) (place_of (files_of tables.now) section).file cie.now.from) cie.now.relocs.items)) }
{
    let place = tables.place_of(section);
    let mut words = Vec::new(alloc);
    for i in 0..cie.relocs.len() {
        push_reloc(
            &mut words,
            tables,
            binding,
            pools,
            place.file,
            cie.from,
            &cie.relocs[i],
        )?;
    }
    Ok(words)
}

/// Adds the numbers of a relocation of a CIE of a file that starts at an offset of its section.
fn push_reloc(
    words: &mut Vec<u64>,
    tables: &Tables,
    binding: &Binding,
    pools: &Pools,
    file: FileNo,
    from: u64,
    reloc: &Reloc,
) -> Result<(), AllocError>
    requires { file < length (files_of tables.now) }
    ensures { OnOk result (words.new.items ≡ words.old.items ++ spec.reloc_words (spec.reloc_in (files_of tables.now) (binding_view binding.now) (merged_views pools.now) file from reloc.now)) }
{
    let reloc = cie_reloc(tables, binding, pools, file, from, reloc);
    push_numbers(words, &reloc)?;
    Ok(())
}

/// Adds the numbers of a relocation: as many for each.
#[tactic(auto, unfolding(crate::specs::Plan::reloc_words))]
fn push_numbers(words: &mut Vec<u64>, reloc: &CieReloc) -> Result<(), AllocError>
    ensures { OnOk result (words.new.items ≡ words.old.items ++ spec.reloc_words reloc.now) }
{
    words.extend_from_slice(&[reloc.offset, reloc.kind as u64])?;
    push_target(words, reloc.target)?;
    words.extend_from_slice(&signed_words(reloc.addend))
}

/// Adds the numbers of a target.
fn push_target(words: &mut Vec<u64>, target: Option<Target>) -> Result<(), AllocError>
    ensures { OnOk result (words.new.items ≡ words.old.items ++ spec.target_words target) }
{
    match target {
        None => words.extend_from_slice(&[0, 0, 0, 0, 0, 0]),
        Some(
            Target::Section {
                section,
                offset,
                rest,
            },
        ) => {
            words.extend_from_slice(&[1, section as u64, offset, 0])?;
            words.extend_from_slice(&signed_words(rest))
        }
        Some(
            Target::Piece {
                pool,
                piece,
                offset,
                rest,
            },
        ) => {
            words.extend_from_slice(&[2, pool as u64, piece as u64, offset])?;
            words.extend_from_slice(&signed_words(rest))
        }
        Some(Target::Number(number)) => words.extend_from_slice(&[3, number, 0, 0, 0, 0]),
        Some(Target::Zero) => words.extend_from_slice(&[4, 0, 0, 0, 0, 0]),
        Some(Target::Linker(number)) => words.extend_from_slice(&[5, number as u64, 0, 0, 0, 0]),
        Some(Target::Unbound) => words.extend_from_slice(&[6, 0, 0, 0, 0, 0]),
    }
}

/// A number with its sign.
fn signed_words(number: i64) -> [u64; 2]
    ensures { result ≡ spec.signed_words number }
{
    if number < 0 {
        return [1, (-(number + 1)) as u64];
    }
    [0, number as u64]
}

/// Adds numbers of 8 bytes each.
fn push_words(text: &mut Vec<u8>, words: &[u64]) -> Result<(), AllocError>
    ensures bytes { OnOk result (text.new.items ≡ text.old.items ++ spec.words_bytes words.now) }
    ensures fit { OnOk result (All (λ w. w < 2 ^ 64) words.now) }
{
    for i in 0..words.len() {
        push_word(text, words[i])?;
    }
    Ok(())
}

/// Adds a number of 8 bytes.
fn push_word(text: &mut Vec<u8>, word: u64) -> Result<(), AllocError>
    ensures { OnOk result (text.new.items ≡ text.old.items ++ to_le_bytes w64 word) }
{
    text.extend_from_slice(&word.to_le_bytes())
}
