//! The records that are written, cut into runs for workers.

ghost use Rattle.std.specs.Prelude.{◌≡◌, ◌-◌, ◌≤◌, length, take, drop};

/// Fewer records are not worth a thread.
pub const LEAST: usize = 1024;

/// The elements of a list from one number on and before another.
pub fn run_of<T>(list: &[T], from: usize, to: usize) -> &[T]
    requires order { from ≤ to }
    requires within { to ≤ length list.now }
    ensures { result.now ≡ take (to - from) (drop from list.now) }
{
    &list[from..to]
}
