//! What is said of a link of generated objects.

ghost use Rattle.std.specs.Prelude.{◌≡◌, ◌<◌, ◌≤◌, ◌^◌, ◌++◌, [], not, filter, length, slice_index_or, IfOk, OnOk};
ghost use Rattle.link_sections.specs.declared.cuts.Cut.{Cut as HeldCut};
ghost use Rattle.link_sections.specs.Leaders.{leader_at};
ghost use Rattle.link_sections.specs.Pools.{AreRising};
ghost use Rattle.link_sections.specs.PoolViews.{piece_rows};
ghost use Rattle.link_sections.specs.Views.{files_in, laid_in, leaders_in};
ghost use Rattle.map_file.specs.MapText.{is_other};
ghost use Rattle.link_driver.specs.Link.{report_by};
ghost use Rattle.link_driver.specs.Reports as spec;

use link_sections::{Cut, Pool, Pools, View};
use lk_base::SecNo;
use lk_base::abi::IMAGE_BASE;
use std::alloc::{AllocError, Global};

/// How many sections are kept.
fn kept_count(kept: &[bool]) -> u64
    ensures { result ≡ spec.kept_count kept.now }
{
    kept.iter().filter(|kept| **kept).count() as u64
}

/// Whether a section is written in the place of another.
fn is_folded(leaders: &[Option<SecNo>], section: usize) -> bool
    ensures { result ≡ is_other (leader_at leaders.now section) section }
{
    let Some(Some(leader)) = leaders.get(section) else {
        return false;
    };
    *leader as usize != section
}

/// In whose places others are written.
fn folded_count(leaders: &[Option<SecNo>]) -> u64
    ensures { result ≡ spec.folded_count leaders.now }
{
    (0..leaders.len())
        .filter(|section| is_folded(leaders, *section))
        .count() as u64
}

/// How many calls of a section are shortened.
fn short_calls(cuts: &[Cut]) -> u64
    ensures { result ≡ length (filter (λ (c : HeldCut). not c.is_align) cuts.now) }
{
    cuts.iter().filter(|cut| !cut.is_align).count() as u64
}

/// How many calls are shortened.
fn relaxed_count(view: &View) -> u128
    ensures { result ≡ spec.relaxed_count (files_in view.now) (laid_in view.now) }
{
    view.tables.prove_few();
    let mut count: u128 = 0;
    for section in 0..view.tables.section_count() {
        count += short_calls(view.layout.sizes.cuts(section as u32)) as u128;
    }
    count
}

/// There are not more pools than section numbers of 32 bits.
fn prove_few_pools(pools: &[Pool]) -> usize
    requires { AreRising pools.now }
    ensures { length pools.now ≤ 2 ^ 32 }
{
    if pools.len() == 0 {
        return 0;
    }
    first_of(&pools[pools.len() - 1])
}

/// The number of a pool's first section.
fn first_of(pool: &Pool) -> usize
    ensures value { result ≡ pool.now.first }
    ensures few { result < 2 ^ 32 }
{
    pool.first as usize
}

/// How many pieces a pool has.
fn piece_count(pools: &Pools, pool: u32) -> u64
    ensures { result ≡ length (slice_index_or (piece_rows pools.now) pool []) }
{
    pools.pieces(pool).len() as u64
}

/// How many pieces all pools have.
fn piece_total(view: &View) -> u128
    ensures { result ≡ spec.piece_total (laid_in view.now) }
{
    let pools = view.pools.pools();
    prove_few_pools(pools);
    let mut count: u128 = 0;
    for pool in 0..pools.len() {
        count += piece_count(view.pools, pool as u32) as u128;
    }
    count
}

/// Adds a word and a number.
pub fn push_count(
    alloc: Global,
    text: &mut Vec<u8>,
    word: &[u8],
    count: u128,
) -> Result<(), AllocError>
    ensures { OnOk result (text.new.items ≡ text.old.items ++ spec.counted word.now count) }
{
    let digits = format!(in alloc; "{count}")?;
    text.extend_from_slice(word)?;
    text.extend_from_slice(digits.as_bytes())
}

/// The line about so many objects, of which the link gave this.
#[tactic(auto, unfolding(crate::specs::Reports::report_text))]
fn report_text(alloc: Global, view: &View, objects: u32) -> Result<Vec<u8>, AllocError>
    ensures { IfOk result (λ text. text.items ≡ spec.report_text (files_in view.now) view.now.kept.now (leaders_in view.now) (laid_in view.now) objects) }
{
    let image = view.layout.bounds.image_end.saturating_sub(IMAGE_BASE);
    let mut text = Vec::new(alloc);
    push_count(alloc, &mut text, b"objects ", objects as u128)?;
    push_count(alloc, &mut text, b" kept ", kept_count(view.kept) as u128)?;
    push_count(
        alloc,
        &mut text,
        b" folded ",
        folded_count(view.leaders) as u128,
    )?;
    push_count(alloc, &mut text, b" relaxed ", relaxed_count(view))?;
    push_count(alloc, &mut text, b" pieces ", piece_total(view))?;
    push_count(alloc, &mut text, b" image ", image as u128)?;
    text.push(b'\n')?;
    Ok(text)
}

/// That line, if objects were generated.
pub fn report_if(alloc: Global, view: &View, generated: Option<u32>) -> Result<Vec<u8>, AllocError>
    ensures { IfOk result (λ report. report.items ≡ report_by generated (files_in view.now) view.now.kept.now (leaders_in view.now) (laid_in view.now)) }
{
    let Some(objects) = generated else {
        return Ok(Vec::new(alloc));
    };
    report_text(alloc, view, objects)
}
