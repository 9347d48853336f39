//! The lists, where each starts, and the calls that read and add one.

ghost use Rattle.std.specs.Prelude.{◌≡◌, ℕ, ◌+◌, ◌-◌, ◌<◌, ◌≤◌, ◌^◌, ◌++◌, ◌∷◌, [], length, map, take, drop, flat_map, slice_index_or, All, List, IfOk, OnOk, OnErr};

use std::alloc::{AllocError, Global};
use std::marker::Model;

/// Lists by number, one after the other in one buffer: row n is the n-th list. A clause sees the list of the rows.
#[derive(Debug, Drop)]
pub struct Rows<T> {
    firsts: Vec<usize>,
    items: Vec<T>,
}

impl<T> Model for Rows<T> {
    ghost use Rattle.std.specs.Prelude.{List};
    ghost use Rattle.flat_rows.specs.Laid.{AreLaid, rows_in};

    ghost Value = { List (List T) };

    ghost view = { λ r. rows_in r.firsts.items r.items.items };

    ghost invariant = { λ r. AreLaid (rows_in r.firsts.items r.items.items) r.firsts.items r.items.items };
}

impl<T: Copy + Drop> Rows<T> {
    /// No rows.
    pub fn empty(alloc: Global) -> Result<Rows<T>, AllocError>
        ensures { IfOk result (λ rows. rows ≡ []) }
    {
        let mut firsts = Vec::new(alloc);
        firsts.push(0)?;
        Ok(Rows {
            firsts,
            items: Vec::new(alloc),
        })
    }

    /// Adds a row after the last one. Out of memory leaves the rows as they were.
    pub fn push(&mut self, row: &[T]) -> Result<(), AllocError>
        ensures ok { OnOk result (self.new ≡ self.old ++ row.now ∷ []) }
        ensures err { OnErr result (self.new ≡ self.old) }
    {
        self.firsts.reserve(1)?;
        self.items.extend_from_slice(row)?;
        self.firsts.push(self.items.len())?;
        Ok(())
    }

    /// Adds a row after the last one, and takes its items over: where there are no others, and no more room was reserved, they are not
    /// copied. Out of memory leaves the rows as they were.
    pub fn push_vec(&mut self, row: Vec<T>) -> Result<(), AllocError>
        ensures ok { OnOk result (self.new ≡ self.old ++ row.items ∷ []) }
        ensures err { OnErr result (self.new ≡ self.old) }
    {
        if self.items.len() != 0 || row.capacity() < self.items.capacity() {
            return self.push(row.as_slice());
        }
        let end = row.len();
        self.firsts.reserve(1)?;
        self.items = row;
        self.firsts.push(end)?;
        Ok(())
    }

    /// Makes room for so many items more. The rows stay as they are.
    pub fn reserve(&mut self, additional: usize) -> Result<(), AllocError>
        ensures { self.new ≡ self.old }
    {
        self.items.reserve(additional)?;
        Ok(())
    }

    /// Adds all rows of another after the last one, in order. Out of memory leaves the rows as they were.
    pub fn append(&mut self, other: &Rows<T>) -> Result<(), AllocError>
        ensures ok { OnOk result (self.new ≡ self.old ++ other.now) }
        ensures err { OnErr result (self.new ≡ self.old) }
    {
        self.items.reserve(other.items.len())?;
        let (_, ends) = other.firsts.as_slice().split_at(1);
        push_ends(&mut self.firsts, ends, self.items.len())?;
        self.items.extend_from_slice(other.items.as_slice())?;
        Ok(())
    }

    /// The row of a number: an empty one past the last.
    pub fn row(&self, n: usize) -> &[T]
        ensures { result.now ≡ slice_index_or self.now n [] }
    {
        let items = self.items.as_slice();
        let firsts = self.firsts.as_slice();
        if n >= firsts.len() - 1 {
            return part(items, 0, 0);
        }
        part(items, firsts[n], firsts[n + 1])
    }

    /// How many rows there are.
    pub fn count(&self) -> usize
        ensures { result ≡ length self.now }
    {
        self.firsts.len() - 1
    }

    /// The items of all rows, one row after the other.
    pub fn items(&self) -> &[T]
        ensures { result.now ≡ flat_map (λ row. row) self.now }
    {
        self.items.as_slice()
    }
}

/// The items from `from` on and before `to`.
fn part<T>(items: &[T], from: usize, to: usize) -> &[T]
    requires order { from ≤ to }
    requires within { to ≤ length items.now }
    ensures { result.now ≡ take (to - from) (drop from items.now) }
{
    &items[from..to]
}

/// Adds the ends of rows that come after `base` items.
fn push_ends(firsts: &mut Vec<usize>, ends: &[usize], base: usize) -> Result<(), AllocError>
    requires { All (λ end. base + end < 2 ^ 64) ends.now }
    ensures ok { OnOk result (firsts.new.items ≡ firsts.old.items ++ map (λ end. base + end) ends.now) }
    ensures err { OnErr result (firsts.new.items ≡ firsts.old.items) }
{
    firsts.reserve(ends.len())?;
    for end in ends {
        firsts.push(base + *end)?;
    }
    Ok(())
}
