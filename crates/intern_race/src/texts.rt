//! Texts by number.

ghost use Rattle.std.specs.Prelude.{◌≡◌, ◌≢◌, ◌+◌, ◌-◌, ◌<◌, ◌≤◌, ◌^◌, [], ◌∷◌, ◌++◌, length, take, drop, slice_index_or, IfOk, OnOk, OnErr};
ghost use Rattle.intern_race.specs.Texts.{AreCounted, cut_text, cut_texts, IsRowOf, lent_texts, row_texts, text_at, texts_in};
ghost use Rattle.intern_race.specs.Texts as spec;

use std::alloc::{AllocError, Global};
use std::marker::Model;

/// Texts one after the other: one, or those of bytes that are cut at ends.
#[derive(Clone, Copy, Debug)]
pub(crate) enum Cut<'a> {
    Whole(&'a [u8]),
    At(&'a [u8], &'a [u32]),
}

/// Texts one after the other, with how many texts of rows are before them.
#[derive(Clone, Copy, Debug)]
pub(crate) struct Row<'a> {
    pub before: usize,
    pub cut: Cut<'a>,
}

/// Every so manyth text of rows has a note of its row.
const NOTED: usize = 64;

/// Texts by number, lent. A clause sees the list of their bytes.
#[derive(Debug, Drop)]
pub struct Texts<'a> {
    /// The first texts, as long as no bytes were cut.
    singles: Vec<&'a [u8]>,
    /// The texts after them.
    rows: Vec<Row<'a>>,
    /// How many texts the rows have.
    count: usize,
    /// For the first of each 64 of these a row that begins there or before it: where to look first.
    notes: Vec<usize>,
}

impl<'a> Model for Texts<'a> {
    ghost use Rattle.std.specs.Prelude.{List, ℕ};
    ghost use Rattle.intern_race.specs.Texts.{all_texts, AreKept};

    ghost Value = { List (List ℕ) };

    ghost view = { λ t. all_texts t.singles.items t.rows.items };

    ghost invariant = { λ t. AreKept t.singles.items t.rows.items t.count };
}

impl<'a> Texts<'a> {
    /// No texts.
    pub fn empty(alloc: Global) -> Texts<'a>
        ensures { result ≡ [] }
    {
        Texts::of(alloc, Vec::new(alloc))
    }

    /// The texts of a list.
    pub fn of(alloc: Global, singles: Vec<&'a [u8]>) -> Texts<'a>
        ensures { result ≡ lent_texts singles.entry.items }
    {
        Texts {
            singles,
            rows: Vec::new(alloc),
            count: 0,
            notes: Vec::new(alloc),
        }
    }

    /// Adds a text after the last one. Out of memory leaves the texts as they were.
    #[tactic(auto, using(crate::proofs::Rows::singles_push))]
    pub fn add(&mut self, text: &'a [u8]) -> Result<(), AllocError>
        ensures ok { OnOk result (self.new ≡ self.old ++ text.now ∷ []) }
        ensures err { OnErr result (self.new ≡ self.old) }
    {
        if !self.rows.is_empty() {
            return self.add_row(Cut::Whole(text));
        }
        self.singles.push(text)?;
        Ok(())
    }

    /// Adds after the last text those that the bytes are cut into, one for each end: it goes from the end before it, or from the first
    /// byte, to its own. Past the last byte there is none. Out of memory leaves the texts as they were.
    pub fn add_cut(&mut self, bytes: &'a [u8], ends: &'a [u32]) -> Result<(), AllocError>
        ensures ok { OnOk result (self.new ≡ self.old ++ cut_texts bytes.now ends.now) }
        ensures err { OnErr result (self.new ≡ self.old) }
    {
        self.add_row(Cut::At(bytes, ends))
    }

    /// How many texts there are.
    pub fn len(&self) -> usize
        ensures { result ≡ length self.now }
    {
        self.singles.len() + self.count
    }

    /// Text `i`.
    pub fn text(&self, i: usize) -> &[u8]
        requires { i < length self.now }
        ensures { result.now ≡ text_at self.now i }
    {
        let few = self.singles.len();
        if i < few {
            return self.singles[i];
        }
        text_in_rows(self.rows.as_slice(), self.notes.as_slice(), i - few)
    }

    /// Texts `i` to `i + 3`. Where they stand in one row, that row is looked for once.
    pub fn four(&self, i: usize) -> (&[u8], &[u8], &[u8], &[u8])
        requires { i + 4 ≤ length self.now }
        ensures first { result.0.now ≡ text_at self.now i }
        ensures second { result.1.now ≡ text_at self.now (i + 1) }
        ensures third { result.2.now ≡ text_at self.now (i + 2) }
        ensures fourth { result.3.now ≡ text_at self.now (i + 3) }
    {
        let few = self.singles.len();
        if i < few {
            return (
                self.text(i),
                self.text(i + 1),
                self.text(i + 2),
                self.text(i + 3),
            );
        }
        four_in_rows(self.rows.as_slice(), self.notes.as_slice(), i - few)
    }

    /// Reads where text `i` ends, if there are so many, so that this is at hand when the text is asked for. Nothing is known of the number.
    pub fn warm(&self, i: usize) -> usize {
        let few = self.singles.len();
        if i < few {
            return self.singles[i].len();
        }
        let at = i - few;
        match self.notes.get(at / NOTED) {
            Some(row) => end_in_row(self.rows.as_slice(), *row, at),
            None => 0,
        }
    }
}

impl<'a> Texts<'a> {
    // Adds a row. Out of memory leaves the texts as they were.
    #[tactic(auto, using(crate::proofs::Rows::row_steps))]
    fn add_row(&mut self, cut: Cut<'a>) -> Result<(), AllocError>
        ensures ok { OnOk result (self.new ≡ self.old ++ texts_in cut.entry) }
        ensures err { OnErr result (self.new ≡ self.old) }
    {
        let before = self.count;
        let Some(count) = before.checked_add(texts_of(&cut)) else {
            return Err(AllocError);
        };
        self.singles.len().checked_add(count).ok_or(AllocError)?;
        note(&mut self.notes, self.rows.len(), count)?;
        self.rows.push(Row { before, cut })?;
        self.count = count;
        Ok(())
    }
}

// How many texts a row has.
fn texts_of(cut: &Cut) -> usize
    ensures { result ≡ length (texts_in cut.now) }
{
    match *cut {
        Cut::Whole(_) => 1,
        Cut::At(_, ends) => ends.len(),
    }
}

// Notes a row, which ends before text `count`, for each text that wants a note.
fn note(notes: &mut Vec<usize>, row: usize, count: usize) -> Result<(), AllocError> {
    for _ in notes.len()..count.div_ceil(NOTED) {
        notes.push(row)?;
    }
    Ok(())
}

// Text `i` of the rows.
fn text_in_rows<'a>(rows: &[Row<'a>], notes: &[usize], i: usize) -> &'a [u8]
    requires rows { AreCounted rows.now }
    requires there { i < length (row_texts rows.now) }
    ensures { result.now ≡ text_at (row_texts rows.now) i }
{
    let r = row_of(rows, notes, i);
    text_of_row(rows, r, i)
}

// Text `i` of the rows, which stands in row `r`.
fn text_of_row<'a>(rows: &[Row<'a>], r: usize, i: usize) -> &'a [u8]
    requires rows { AreCounted rows.now }
    requires row { IsRowOf rows.now i r }
    ensures { result.now ≡ text_at (row_texts rows.now) i }
{
    text_of(&rows[r].cut, i - rows[r].before)
}

// Texts `i` to `i + 3` of the rows.
fn four_in_rows<'a>(
    rows: &[Row<'a>],
    notes: &[usize],
    i: usize,
) -> (&'a [u8], &'a [u8], &'a [u8], &'a [u8])
    requires rows { AreCounted rows.now }
    requires there { i + 4 ≤ length (row_texts rows.now) }
    requires few { i + 4 < 2 ^ 64 }
    ensures first { result.0.now ≡ text_at (row_texts rows.now) i }
    ensures second { result.1.now ≡ text_at (row_texts rows.now) (i + 1) }
    ensures third { result.2.now ≡ text_at (row_texts rows.now) (i + 2) }
    ensures fourth { result.3.now ≡ text_at (row_texts rows.now) (i + 3) }
{
    let r = row_of(rows, notes, i);
    let last = i + 3 - rows[r].before;
    let count = texts_of(&rows[r].cut);
    if last >= count {
        return (
            text_in_rows(rows, notes, i),
            text_in_rows(rows, notes, i + 1),
            text_in_rows(rows, notes, i + 2),
            text_in_rows(rows, notes, i + 3),
        );
    }
    (
        text_of_row(rows, r, i),
        text_of_row(rows, r, i + 1),
        text_of_row(rows, r, i + 2),
        text_of_row(rows, r, i + 3),
    )
}

// Where text `i` of the rows ends, if it stands in this row.
fn end_in_row(rows: &[Row], row: usize, i: usize) -> usize {
    let Some(row) = rows.get(row) else {
        return 0;
    };
    match row.cut {
        Cut::Whole(_) => 0,
        Cut::At(_, ends) => end_at(ends, i.wrapping_sub(row.before)),
    }
}

// An end, if there are so many.
fn end_at(ends: &[u32], k: usize) -> usize {
    match ends.get(k) {
        Some(end) => *end as usize,
        None => 0,
    }
}

// Text `k` of a row.
fn text_of<'a>(cut: &Cut<'a>, k: usize) -> &'a [u8]
    requires { k < length (texts_in cut.now) }
    ensures { result.now ≡ text_at (texts_in cut.now) k }
{
    match *cut {
        Cut::Whole(text) => text,
        Cut::At(bytes, ends) => text_between(bytes, ends, k),
    }
}

// The row of text `i` of the rows.
fn row_of(rows: &[Row], notes: &[usize], i: usize) -> usize
    requires rows { AreCounted rows.now }
    requires there { i < length (row_texts rows.now) }
    ensures { IsRowOf rows.now i result }
{
    for r in first_row(rows, notes, i)..rows.len() {
        let row = rows[r];
        if i - row.before < texts_of(&row.cut) {
            return r;
        }
    }
    unreachable!()
}

// A row that begins at text `i` or before it: that of a note, if there is one.
fn first_row(rows: &[Row], notes: &[usize], i: usize) -> usize
    requires rows { AreCounted rows.now }
    ensures { length (row_texts (take result rows.now)) ≤ i }
{
    let Some(row) = notes.get(i / NOTED) else {
        return 0;
    };
    let row = *row;
    if row < rows.len() && rows[row].before <= i {
        row
    } else {
        0
    }
}

// The bytes of text `k` of those that bytes are cut into.
fn text_between<'a>(bytes: &'a [u8], ends: &[u32], k: usize) -> &'a [u8]
    requires { k < length ends.now }
    ensures { result.now ≡ cut_text bytes.now ends.now k }
{
    part_of(bytes, start_of(ends, k), ends[k] as usize)
}

// Where text `k` of those begins.
fn start_of(ends: &[u32], k: usize) -> usize
    requires { k ≤ length ends.now }
    ensures { result ≡ spec.start_of ends.now k }
{
    if k == 0 {
        return 0;
    }
    ends[k - 1] as usize
}

// The bytes from one on and before another.
fn part_of(bytes: &[u8], start: usize, end: usize) -> &[u8]
    ensures { result.now ≡ take (end - start) (drop start bytes.now) }
{
    let end = end.min(bytes.len());
    let start = start.min(end);
    &bytes[start..end]
}
