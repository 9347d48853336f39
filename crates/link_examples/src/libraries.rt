//! The archives of the examples.

use crate::objects::{ASKED_M, BREAK, COMMON_OF_8, RETURN, START, STRONG, TO_SECOND};
use crate::{library, member};
use elf_bytes::{Object, Symbol, THIN, object, section, symbol, text};
pub use elf_bytes::{ARCHIVE, Archive, Contents, Member};

/// An input that is an archive: its name, the archive, and what stands after its members.
#[derive(Clone, Copy)]
pub struct Library<'a> {
    pub name: &'a str,
    pub archive: Archive<'a>,
    pub tail: &'a [u8],
}

const N: Symbol = symbol!(b"n", 1, 2, 1, 0, 4);

const M: Symbol = symbol!(b"m", 1, 2, 1, 0, 4);

/// `n` of one `ret`.
const RETURNING: Object = object!([RETURN]; [N]);
/// A weak one.
const WEAKLY_RETURNING: Object = object!(RETURNING => symbols: &[symbol!(b"n", 2, 2, 1, 0, 4)]);
/// `n` of one `ebreak`.
const BREAKING: Object = object!(RETURNING => sections: &[BREAK]);

/// `n` with a jump to `m`.
const CALLING: Object = object!([text!(b"\xef\0\0\0\x67\x80\0\0"; TO_SECOND)]; [N, ASKED_M]);

/// `n` in a compressed section.
const COMPRESSED: Object = object!(RETURNING => sections: &[section!(RETURN => flags: 0x806)]);
/// `n` for another float ABI.
const DOUBLE: Object = object!(RETURNING => flags: 4);
/// `m`, `m` and `n`, `w`, `_start`, and what nothing asks for, each of one `ret`.
const OFFER_OF_M: Object = object!(RETURNING => symbols: &[M]);

const OFFER_OF_BOTH: Object = object!(RETURNING => symbols: &[M, N]);

const OFFER_OF_W: Object = object!(RETURNING => symbols: &[symbol!(b"w", 1, 2, 1, 0, 4)]);

const OFFER_OF_START: Object = object!(RETURNING => symbols: &[START]);

const IDLE: Object = object!(RETURNING => symbols: &[symbol!(b"idle", 1, 2, 1, 0, 4)]);

/// A member of odd size that is no object.
const NOTES: Member = member!(b"notes.txt"; b"not an object");

const ONE: Member = member!(b"one.o", RETURNING);

const TWO: Member = member!(b"two.o", OFFER_OF_M);

const SEVEN: Member = member!(b"seven.o", OFFER_OF_BOTH);

const CALLER: Member = member!(b"caller.o", CALLING);

const WEAK: Member = member!(b"weak.o", WEAKLY_RETURNING);

const BREAKER: Member = member!(b"breaker.o", BREAKING);

const PACKED: Member = member!(b"packed.o", COMPRESSED);

const CUT: Member = member!(b"two.o", RETURNING, 63);

const LONG_CUT: Member = member!(b"cut_to_63_bytes_.o", IDLE, 63);

const LONG: Member = member!(b"return_of_a_long_name.o", RETURNING);

const LONG_IDLE: Member = member!(b"idle_of_a_long_name.o", IDLE);

/// `n` alone.
pub const ONE_MEMBER: Library = library!("lib.a"; ONE);

/// `n` in the first of seven members; `m` and `n` in the last.
pub const SEVEN_MEMBERS: Library =
    library!("lib.a"; ONE, member!(b"two.o", IDLE), member!(b"three.o", IDLE), member!(b"four.o", IDLE), member!(b"five.o", IDLE), member!(b"six.o", IDLE),
        SEVEN);

/// No members.
pub const EMPTY: Library = library!("lib.a";);
/// Members that are no objects.
pub const WITH_TEXT: Library = library!("lib.a"; NOTES, ONE, NOTES);

/// Long names, and an index of odd size that names what is not there.
pub const INDEXED: Library =
    library!("lib.a"; LONG_IDLE, NOTES, LONG; index: Some(b"\0\0\0\x01\0\0\0\x08k\0x"));

/// `w` alone.
pub const OFFER_OF_WEAK: Library = library!("lib.a"; member!(b"w.o", OFFER_OF_W));
/// `m`, and `n` that asks for it.
pub const CHAIN: Library = library!("lib.a"; TWO, CALLER);
/// `m`, and `n` that asks for it, in two archives.
pub const CHAIN_END: Library = library!("two.a"; TWO);

pub const CHAIN_BEGIN: Library = library!("caller.a"; CALLER);
/// `n` in two members.
pub const FIRST_RETURNS: Library = library!("lib.a"; ONE, BREAKER);

pub const FIRST_BREAKS: Library = library!("lib.a"; BREAKER, ONE);
/// The first weak.
pub const WEAK_FIRST: Library = library!("lib.a"; WEAK, BREAKER);

/// `x` as a common, then as a function.
pub const COMMON_FIRST: Library =
    library!("lib.a"; member!(b"common.o", COMMON_OF_8), member!(b"strong.o", STRONG));

/// `x` as a function.
pub const STRONG_ALONE: Library = library!("lib.a"; member!(b"strong.o", STRONG));
/// A member whose body has a defect.
pub const PACKED_LAST: Library = library!("lib.a"; ONE, PACKED);

pub const PACKED_FIRST: Library = library!("lib.a"; PACKED, ONE);
/// A member for another float ABI.
pub const DOUBLE_LAST: Library = library!("lib.a"; ONE, member!(b"double.o", DOUBLE));

pub const DOUBLE_FIRST: Library = library!("lib.a"; member!(b"double.o", DOUBLE), ONE);
/// A member whose head has a defect.
pub const CUT_MEMBER: Library = library!("lib.a"; ONE, CUT);

pub const LONG_CUT_MEMBER: Library = library!("lib.a"; LONG, LONG_CUT);
/// `n` that asks for `m`, which is not there.
pub const CALLER_ALONE: Library = library!("lib.a"; CALLER);
/// `_start` alone.
pub const START_ALONE: Library = library!("lib.a"; member!(b"start.o", OFFER_OF_START));
/// A thin archive.
pub const NO_MEMBERS_BYTES: Library = library!("lib.a"; ; magic: THIN);

/// 59 bytes of a header.
pub const CUT_HEADER: Library =
    library!("lib.a"; ; tail: b"one.o/          0           0     0     644     456       `");

/// A name in the manner of BSD, in the first header and after a member.
pub const BSD_FIRST: Library =
    library!("lib.a"; ; tail: b"#1/20           0           0     0     644     24        `\nmember_of_20_bytes.otext");

pub const BSD_LAST: Library =
    library!("lib.a"; ONE; tail: b"#1/20           0           0     0     644     24        `\nmember_of_20_bytes.otext");

/// A name without its `/`.
pub const NO_SLASH: Library =
    library!("lib.a"; ONE; tail: b"bare.o          0           0     0     644     4         `\ntext");

/// A size that is no number.
pub const NO_SIZE: Library =
    library!("lib.a"; ONE; tail: b"x.o/            0           0     0     644     4x        `\ntext");

/// A long name without a table.
pub const NO_TABLE: Library =
    library!("lib.a"; ONE; tail: b"/4              0           0     0     644     4         `\ntext");

/// A header without its end.
pub const NO_END: Library =
    library!("lib.a"; ONE; tail: b"x.o/            0           0     0     644     4         ``text");

/// Data that end past the file's end.
pub const CUT_DATA: Library =
    library!("lib.a"; ONE; tail: b"x.o/            0           0     0     644     5         `\ntext");
