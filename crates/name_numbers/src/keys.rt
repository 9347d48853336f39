//! The keys of files: one for each span that is a name.

ghost use Rattle.std.specs.Prelude.{◌≡◌, ℕ, ◌+◌, ◌++◌, ◌∷◌, [], ◌<◌, ◌≤◌, ◌^◌, ◌==◌, ◌&&◌, length, map, slice_index, flat_map, IfOk, OnOk};
ghost use Rattle.std.specs.List.{range_with_len};
ghost use Rattle.lk_tables.specs.FileView.{file_view, file_views};
ghost use Rattle.lk_tables.specs.Files.{first_symbol, symbol_total};
ghost use Rattle.lk_tables.specs.NameNumbers.{is_named};
ghost use Rattle.name_numbers.specs.Columns.{Appends, HasKeys, IsEmpty};
ghost use Rattle.name_numbers.specs.Keys.{key_in, key_of, first_in};
ghost use Rattle.name_numbers.specs.Spans.{first_or_none};

use crate::spans::{first_spans, is_named};
use lk_tables::{File, Symbol, text_of};
use std::alloc::{AllocError, Global};
use std::ops::Range;

/// The keys of some files, in order of file and symbol. Each step that numbers them reads one of these lists alone.
#[derive(Drop)]
pub struct Keys<'a> {
    /// The names.
    pub texts: Vec<&'a [u8]>,
    /// The numbers of the first symbols of the names' spans.
    pub symbols: Vec<u32>,
}

/// The keys of some files, and by symbol, for each whose name counts, the number of the first of its span, which has a key.
#[derive(Drop)]
pub struct Listed<'a> {
    pub keys: Keys<'a>,
    pub firsts: Vec<u32>,
}

/// Nothing yet, with room for so many keys, and for so many symbols.
pub fn nothing_listed<'a>(
    alloc: Global,
    keys: usize,
    symbols: usize,
) -> Result<Listed<'a>, AllocError>
    ensures { IfOk result IsEmpty }
{
    let firsts = Vec::with_capacity(alloc, symbols)?;
    let texts = Vec::with_capacity(alloc, keys)?;
    let symbols = Vec::with_capacity(alloc, keys)?;
    let keys = Keys { texts, symbols };
    Ok(Listed { keys, firsts })
}

/// Lists the keys of a run of files.
pub fn keys_of_run<'a>(
    alloc: Global,
    files: &[File<'a>],
    starts: &[u32],
    run: Range<usize>,
) -> Result<Listed<'a>, AllocError>
    requires starts { starts.now ≡ map (first_symbol (file_views files.now)) (range_with_len 0 (length files.now + 1)) }
    requires symbols { symbol_total (file_views files.now) < 2 ^ 31 }
    requires ordered { run.start ≤ run.end }
    requires within { run.end ≤ length files.now }
    ensures { IfOk result (HasKeys (file_views files.now) run.start run.end) }
{
    let room = starts[run.end].saturating_sub(starts[run.start]) as usize;
    let mut listed = nothing_listed(alloc, room, room)?;
    for f in run.start..run.end {
        push_file(alloc, &mut listed, &files[f], starts[f])?;
    }
    Ok(listed)
}

/// What is listed of one file, whose first symbol has the number `start`.
fn push_file<'a>(
    alloc: Global,
    listed: &mut Listed<'a>,
    file: &File<'a>,
    start: u32,
) -> Result<(), AllocError>
    requires { start + length (file_view file.now).head.symbols < 2 ^ 31 }
    ensures keys { OnOk result (Appends (flat_map (key_in (file_view file.now).bytes (file_view file.now).head.symbols start) (range_with_len 0 (length (file_view file.now).head.symbols))) listed.old.keys listed.new.keys) }
    ensures firsts { OnOk result (listed.new.firsts.items ≡ listed.old.firsts.items ++ map (first_in (file_view file.now).head.symbols start) (range_with_len 0 (length (file_view file.now).head.symbols))) }
{
    let firsts = first_spans(alloc, file)?;
    push_keys(&mut listed.keys, file, start, firsts.as_slice())?;
    push_firsts(&mut listed.firsts, file, start, firsts.as_slice())?;
    Ok(())
}

/// The keys of one file.
fn push_keys<'a>(
    keys: &mut Keys<'a>,
    file: &File<'a>,
    start: u32,
    firsts: &[u32],
) -> Result<(), AllocError>
    requires few { start + length (file_view file.now).head.symbols < 2 ^ 31 }
    requires firsts { firsts.now ≡ map (first_or_none (file_view file.now).head.symbols) (range_with_len 0 (length (file_view file.now).head.symbols)) }
    ensures { OnOk result (Appends (flat_map (key_in (file_view file.now).bytes (file_view file.now).head.symbols start) (range_with_len 0 (length (file_view file.now).head.symbols))) keys.old keys.new) }
{
    for i in 0..file.symbols().len() {
        let symbol = file.symbol(i);
        if has_key(&symbol, firsts[i], i) {
            push_key(keys, text_of(file.bytes(), &symbol.name), start + i as u32)?;
        }
    }
    Ok(())
}

/// One key more: a name, and the number of the first symbol of its span.
fn push_key<'a>(keys: &mut Keys<'a>, text: &'a [u8], symbol: u32) -> Result<(), AllocError>
    ensures { OnOk result (Appends (key_of text.now symbol ∷ []) keys.old keys.new) }
{
    keys.texts.push(text)?;
    keys.symbols.push(symbol)?;
    Ok(())
}

/// Whether a symbol has a key: its name counts, and it is the first of its span.
fn has_key(symbol: &Symbol, first: u32, i: usize) -> bool
    ensures { result ≡ (is_named symbol.now && first == i) }
{
    is_named(symbol) && first as usize == i
}

/// For each symbol of a file the number of the first of its span.
fn push_firsts(
    list: &mut Vec<u32>,
    file: &File,
    start: u32,
    firsts: &[u32],
) -> Result<(), AllocError>
    requires few { start + length (file_view file.now).head.symbols < 2 ^ 31 }
    requires firsts { firsts.now ≡ map (first_or_none (file_view file.now).head.symbols) (range_with_len 0 (length (file_view file.now).head.symbols)) }
    ensures { OnOk result (list.new.items ≡ list.old.items ++ map (first_in (file_view file.now).head.symbols start) (range_with_len 0 (length (file_view file.now).head.symbols))) }
{
    for i in 0..file.symbols().len() {
        if is_named(&file.symbol(i)) {
            list.push(start + firsts[i])?;
        } else {
            list.push(0)?;
        }
    }
    Ok(())
}
