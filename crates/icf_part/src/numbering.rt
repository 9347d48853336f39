//! Rows by number: the number of a row is the place of the first that is equal to it.

ghost use Rattle.std.specs.Prelude.{◌≡◌, ◌<◌, ◌^◌, ◌++◌, All, length, map, flat_map, IfOk, OnOk};
ghost use Rattle.link_sections.specs.FoldItems.{item_views};
ghost use Rattle.icf_part.specs.Chosen.{views_at};
ghost use Rattle.icf_part.specs.Signatures.{bytes_of, output_of};
ghost use Rattle.name_numbers.specs.Texts.{lent_texts, text_numbers};

use flat_rows::Rows;
use intern_race::Texts;
use link_sections::FoldItem;
use name_numbers::number_texts;
use std::alloc::{AllocError, Global};
use std::thread::Threads;
use work_split::{Gate, OpenGate};

/// The number of each row, of rows in parts, by a table of texts: several workers place many rows.
pub fn number_rows<R: Threads + Sync, G: Gate>(
    rt: &R,
    alloc: Global,
    parts: &[Rows<u8>],
    workers: u32,
    gate: &G,
) -> Result<Vec<u32>, AllocError>
    requires { length (flat_map (λ part. part) parts.now) < 2 ^ 31 }
    ensures { IfOk result (λ list. list.items ≡ text_numbers (flat_map (λ part. part) parts.now)) }
{
    let mut texts = Vec::new(alloc);
    for part in parts {
        push_texts(&mut texts, part)?;
    }
    number_texts(rt, alloc, &Texts::of(alloc, texts), workers, gate)
}

/// Adds the rows of a part, lent.
fn push_texts<'a>(texts: &mut Vec<&'a [u8]>, rows: &'a Rows<u8>) -> Result<(), AllocError>
    ensures { OnOk result (lent_texts texts.new.items ≡ lent_texts texts.old.items ++ rows.now) }
{
    texts.reserve(rows.count())?;
    for n in 0..rows.count() {
        texts.push(rows.row(n))?;
    }
    Ok(())
}

/// The number of each item's contents.
pub fn number_contents<R: Threads + Sync, G: Gate>(
    rt: &R,
    alloc: Global,
    items: &[FoldItem],
    workers: u32,
    gate: &G,
) -> Result<Vec<u32>, AllocError>
    requires { length items.now < 2 ^ 31 }
    ensures { IfOk result (λ list. list.items ≡ text_numbers (map bytes_of (item_views items.now))) }
{
    let texts = contents_of(alloc, items)?;
    number_texts(rt, alloc, &Texts::of(alloc, texts), workers, gate)
}

/// The contents of items, lent.
fn contents_of<'a>(alloc: Global, items: &[FoldItem<'a>]) -> Result<Vec<&'a [u8]>, AllocError>
    ensures { IfOk result (λ texts. lent_texts texts.items ≡ map bytes_of (item_views items.now)) }
{
    let mut texts = Vec::with_capacity(alloc, items.len())?;
    for a in 0..items.len() {
        texts.push(items[a].bytes)?;
    }
    Ok(texts)
}

/// The number of the output section, by its name, of each item that is compared. One worker does it, since most often they are all one.
pub fn number_outputs<R: Threads + Sync>(
    rt: &R,
    alloc: Global,
    items: &[FoldItem],
    chosen: &[u32],
) -> Result<Vec<u32>, AllocError>
    requires few { length chosen.now < 2 ^ 31 }
    requires chosen { All (λ a. a < length items.now) chosen.now }
    ensures { IfOk result (λ list. list.items ≡ text_numbers (map output_of (views_at items.now chosen.now))) }
{
    let texts = outputs_of(alloc, items, chosen)?;
    number_texts(rt, alloc, &Texts::of(alloc, texts), 1, &OpenGate)
}

/// The names of their output sections, lent.
fn outputs_of<'a>(
    alloc: Global,
    items: &[FoldItem<'a>],
    chosen: &[u32],
) -> Result<Vec<&'a [u8]>, AllocError>
    requires { All (λ a. a < length items.now) chosen.now }
    ensures { IfOk result (λ texts. lent_texts texts.items ≡ map output_of (views_at items.now chosen.now)) }
{
    let mut texts = Vec::with_capacity(alloc, chosen.len())?;
    for k in 0..chosen.len() {
        texts.push(items[chosen[k] as usize].output)?;
    }
    Ok(texts)
}
