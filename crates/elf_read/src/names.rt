//! Names in string tables (System V gABI, "String Table").

ghost use Rattle.std.specs.Prelude.{◌≡◌, ℕ, ◌+◌, ◌≤◌, length, position, IfSome};
ghost use Rattle.lk_tables.specs.Names as read;
ghost use Rattle.elf_read.specs.Names.{IsLast};

use lk_base::NO_FILE;
use lk_tables::Span;
use memchr::memchr;

/// The name that was found last in a string table: where it starts and where its zero byte stands, in bytes of the table. A
/// name that starts in it ends where it does, and is not searched for again: many symbols may share one long name.
#[derive(Clone, Copy)]
pub struct LastName {
    pub from: usize,
    pub end: usize,
}

/// No name was found yet.
pub const NO_LAST: LastName = LastName { from: 1, end: 0 };

/// How many bytes the name has that starts at `at` of the string table of `size` bytes at `from`, if it ends there.
pub fn find_len(
    bytes: &[u8],
    from: usize,
    size: usize,
    last: &mut LastName,
    at: u32,
) -> Option<usize>
    requires within { from + size ≤ length bytes.now }
    requires last { IsLast bytes.now from size last.old }
    ensures value { result ≡ read.name_len bytes.now from size at }
    ensures within { IfSome result (λ len. from + at + len ≤ length bytes.now) }
    ensures last { IsLast bytes.now from size last.new }
{
    let at = at as usize;
    if last.from <= at && at <= last.end {
        return Some(last.end - at);
    }
    let len = search(bytes, from, size, at)?;
    *last = LastName {
        from: at,
        end: at + len,
    };
    Some(len)
}

/// Bytes of the file that is read.
pub fn span(from: usize, len: usize) -> Span
    ensures { result ≡ read.span from len }
{
    Span {
        file: NO_FILE,
        from: from as u64,
        len: len as u64,
    }
}

/// How many bytes the name has that stands at an offset, by a search for its end.
#[tactic(auto, unfolding(lk_tables::specs::Names::name_len))]
fn search(bytes: &[u8], from: usize, size: usize, at: usize) -> Option<usize>
    requires { from + size ≤ length bytes.now }
    ensures value { result ≡ read.name_len bytes.now from size at }
    ensures within { IfSome result (λ len. from + at + len ≤ length bytes.now) }
{
    if size <= at {
        return None;
    }
    let rest = &bytes[from + at..from + size];
    let Some(len) = zero_in(rest) else {
        return None;
    };
    Some(len)
}

/// The first zero byte.
fn zero_in(bytes: &[u8]) -> Option<usize>
    ensures { result ≡ position read.is_zero bytes.now }
{
    memchr(0, bytes)
}
