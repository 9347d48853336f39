//! The first symbol of a file whose name is the same span of its bytes: symbols of one span have one name, whatever its bytes.

ghost use Rattle.std.specs.Prelude.{◌≡◌, ℕ, ◌<◌, ◌==◌, ◌||◌, ◌-◌, ◌^◌, not, length, map, slice_index, replicate, if◌then◌else◌, IfOk, IfSome, Contains};
ghost use Rattle.std.specs.List.{range_with_len};
ghost use Rattle.std.specs.List.Sorted.{IsPermutation, IsSorted};
ghost use Rattle.lk_tables.specs.FileView.{file_view};
ghost use Rattle.lk_tables.specs.NameNumbers.{is_named};
ghost use Rattle.name_numbers.specs.Marks.{Marks};
ghost use Rattle.name_numbers.specs.Spans.{StepsOver, spot_cmp, spots, span_of, place_of, first_or_none, is_same_span};

use lk_tables::{File, Symbol, is_common, is_visible};
use std::alloc::{AllocError, Global};

/// Where a name stands in its file.
#[derive(Clone, Copy, PartialEq, Eq, PartialOrd, Ord)]
pub struct NameSpan {
    pub from: u64,
    pub len: u64,
}

/// A symbol whose name counts, by its index. Spots are in order by their spans, then by their symbols.
#[derive(Clone, Copy, PartialEq, Eq, PartialOrd, Ord)]
pub struct Spot {
    pub span: NameSpan,
    pub symbol: u32,
}

/// By index, the first symbol of the file whose name is the same span; 0 for a symbol whose name does not count. Where names stand in order of their
/// symbols, each is its own first, and no list of spans is made.
pub fn first_spans(alloc: Global, file: &File) -> Result<Vec<u32>, AllocError>
    requires { length (file_view file.now).head.symbols < 2 ^ 31 }
    ensures { IfOk result (λ firsts. firsts.items ≡ map (first_or_none (file_view file.now).head.symbols) (range_with_len 0 (length (file_view file.now).head.symbols))) }
{
    match rising_firsts(alloc, file)? {
        Some(firsts) => Ok(firsts),
        None => sorted_firsts(alloc, file),
    }
}

/// By index, the first symbol of the file whose name is the same span, if each name that counts begins after where the one before it begins.
fn rising_firsts(alloc: Global, file: &File) -> Result<Option<Vec<u32>>, AllocError>
    requires { length (file_view file.now).head.symbols < 2 ^ 31 }
    ensures { IfOk result (λ found. IfSome found (λ firsts. firsts.items ≡ map (first_or_none (file_view file.now).head.symbols) (range_with_len 0 (length (file_view file.now).head.symbols)))) }
{
    let count = file.symbols().len();
    let mut firsts = Vec::with_capacity(alloc, count)?;
    let mut next: u64 = 0;
    for i in 0..count {
        let symbol = file.symbol(i);
        let Some(more) = next_from(&symbol, next) else {
            return Ok(None);
        };
        next = more;
        firsts.push(own_or_none(&symbol, i as u32))?;
    }
    Ok(Some(firsts))
}

/// Where the name of the next symbol may begin, after a symbol whose name may begin at `next` or later. None if it begins before.
fn next_from(symbol: &Symbol, next: u64) -> Option<u64>
    ensures { IfSome result (StepsOver symbol.now next) }
{
    if !is_named(symbol) {
        return Some(next);
    }
    if symbol.name.from < next {
        return None;
    }
    symbol.name.from.checked_add(1)
}

/// The index of a symbol whose name counts; 0 for another.
fn own_or_none(symbol: &Symbol, i: u32) -> u32
    ensures { result ≡ (if is_named symbol.now then i else 0) }
{
    if is_named(symbol) { i } else { 0 }
}

/// By index, the first symbol of the file whose name is the same span, in whatever order names stand: they are sorted by their spans.
fn sorted_firsts(alloc: Global, file: &File) -> Result<Vec<u32>, AllocError>
    requires { length (file_view file.now).head.symbols < 2 ^ 31 }
    ensures { IfOk result (λ firsts. firsts.items ≡ map (first_or_none (file_view file.now).head.symbols) (range_with_len 0 (length (file_view file.now).head.symbols))) }
{
    let mut spots = spots_of(alloc, file)?;
    sort_spots(spots.as_mut_slice());
    mark_spots(alloc, file.symbols().len(), spots.as_slice())
}

/// Whether a symbol's name counts: other files see it, or it asks for room under its name.
pub fn is_named(symbol: &Symbol) -> bool
    ensures { result ≡ is_named symbol.now }
{
    is_visible(symbol) || is_common(symbol)
}

/// The symbols of a file whose names count.
fn spots_of(alloc: Global, file: &File) -> Result<Vec<Spot>, AllocError>
    requires { length (file_view file.now).head.symbols < 2 ^ 31 }
    ensures { IfOk result (λ list. list.items ≡ spots (file_view file.now).head.symbols) }
{
    let count = file.symbols().len();
    let mut list = Vec::with_capacity(alloc, count)?;
    for i in 0..count {
        let symbol = file.symbol(i);
        if is_named(&symbol) {
            list.push(Spot {
                span: NameSpan {
                    from: symbol.name.from,
                    len: symbol.name.len,
                },
                symbol: i as u32,
            })?;
        }
    }
    Ok(list)
}

/// Sorts spots.
fn sort_spots(list: &mut [Spot])
    ensures permutation { IsPermutation list.old list.new }
    ensures len { length list.new ≡ length list.old }
    ensures sorted { IsSorted spot_cmp list.new }
{
    list.sort_unstable();
}

/// By index, the first of the spots that have the same span, which stand side by side.
fn mark_spots(alloc: Global, count: usize, spots: &[Spot]) -> Result<Vec<u32>, AllocError>
    requires sorted { IsSorted spot_cmp spots.now }
    requires within { (s : Spot) → Contains spots.now s → s.symbol < count }
    requires once { (s t : Spot) → Contains spots.now s → Contains spots.now t → s.symbol ≡ t.symbol → s.span ≡ t.span }
    ensures { IfOk result (λ firsts. Marks span_of place_of spots.now (replicate count 0) firsts.items) }
{
    let mut firsts = vec![in alloc; 0; count]?;
    let mut first: u32 = 0;
    for k in 0..spots.len() {
        if is_new(spots, k) {
            first = spots[k].symbol;
        }
        firsts[spots[k].symbol as usize] = first;
    }
    Ok(firsts)
}

/// Whether a span is not the one before it.
fn is_new(spots: &[Spot], k: usize) -> bool
    requires { k < length spots.now }
    ensures { result ≡ (k == 0 || not (is_same_span spots.now (k - 1) k)) }
{
    k == 0 || spots[k - 1].span != spots[k].span
}
