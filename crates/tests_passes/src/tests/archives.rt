//! An archive of `riscv64-linux-gnu-ar` without its last byte of padding, and the answers to altered ones, worked out from the format.

use super::{joined, put};
use ar_read::{ArHead, Member, header_at, members};
use lk_base::DefectKind::{self, F06, F07, F18};
use lk_base::{Flaw, NO_FILE, ReadFault};
use lk_tables::Span;
use std::alloc::{AllocError, Global};
use std::test::Fail;

const PARTS: &[&[u8]] = table![
    b"!<arch>\n";
    b"/               0           0     0     0       10        `\n"; // At 8: the index of symbols, 10 bytes at 68.
    b"\0\0\0\x01\0\0\0\xfcf\0";
    // At 78: the table of long names, 48 bytes at 138, of which the last is padding.
    b"//                                              48        `\n";
    b"another_rather_long.txt/\na_rather_long_name.o/\n\n";
    b"a.txt/          0           0     0     644     5         `\n"; // At 186: a text of an odd size at 246, and a byte of padding.
    b"hello\n";
    b"/25             0           0     0     644     6         `\n"; // At 252: a member with a long name, 6 bytes at 312.
    b"long!!";
    b"/0              0           0     0     644     3         `\n"; // At 318: another, 3 bytes at 378 without padding.
    b"xyz";
];

/// The archive with some bytes replaced.
fn altered(alloc: Global, from: usize, text: &[u8]) -> Result<Vec<u8>, AllocError> {
    let mut bytes = joined(alloc, PARTS)?;
    for (offset, byte) in text.iter().enumerate() {
        put(bytes.as_mut_slice(), from.saturating_add(offset), *byte);
    }
    Ok(bytes)
}

fn span(from: u64, len: u64) -> Span {
    record!(Span; file: NO_FILE, from: from, len: len)
}

macro_rules! member {
    ($name:expr; $body:expr) => {
        Member { name: $name, body: $body }
    };
}

fn flaw(kind: DefectKind, place: u64) -> Flaw {
    record!(Flaw; kind: kind, section: 0, place: place, other: 0)
}

fn flaw_in(alloc: Global, bytes: &[u8]) -> Option<Flaw> {
    match members(alloc, bytes) {
        Err(ReadFault::Bad(flaw)) => Some(flaw),
        _ => None,
    }
}

#[test]
fn lists_the_members_in_order(rt: HostRuntime) -> Result<(), Fail> {
    let bytes = altered(rt.alloc(), 0, b"")?;
    let list = members(rt.alloc(), bytes.as_slice())?;
    let wanted = [
        member!(span(186, 5); span(246, 5)),
        member!(span(163, 20); span(312, 6)),
        member!(span(138, 23); span(378, 3)),
    ];
    assert_eq!(rt; list.as_slice(), wanted.as_slice());
    let empty = members(rt.alloc(), b"!<arch>\n")?;
    assert_eq!(rt; empty.len(), 0);
    // A name that starts with `/` and is no number has no byte before its first `/`.
    let nameless = altered(rt.alloc(), 186, b"/foo  ")?;
    let list = members(rt.alloc(), nameless.as_slice())?;
    assert_eq!(rt; list.first().map(|member| member.name), Some(span(186, 0)));
    Ok(())
}

/// Bytes that replace others, and the flaw that they make.
const ROWS: &[(usize, &[u8], DefectKind, u64)] = table![
    (0, b"?", F06, 0); (2, b"thin", F07, 0);
    // A header that does not end as one.
    (244, b"'", F06, 186);
    // Sizes that are no numbers, and one that passes the end of the file.
    (234, b"a", F06, 186); (234, b"1 2", F06, 186); (234, b" ", F06, 186); (366, b"4", F06, 318);
    // The index is a table of long names, so that the next one is a second.
    (9, b"/", F06, 78);
    // No table; past it; no end in it.
    (79, b" ", F06, 252); (253, b"48", F06, 252); (184, b"x", F06, 252);
    // Names of BSD, and one that does not end.
    (186, b"#1/20 ", F18, 186); (186, b"__.SYMDEF/", F18, 186); (186, b"__.SYMDEF SORTED", F18, 186); (186, b"a.text", F18, 186);
    // The first of two.
    (186, b"#1/20                                           x", F06, 186);
];

/// A length, and the place of what is reported of the archive cut there.
const CUT: &[(usize, u64)] = table![(0, 0); (7, 0); (67, 8); (77, 8); (318 + 59, 318); (380, 318);];

#[test]
fn tells_the_first_broken_check(rt: HostRuntime) -> Result<(), Fail> {
    for row in ROWS {
        let (from, text, kind, place) = *row;
        let bytes = altered(rt.alloc(), from, text)?;
        let found = flaw_in(rt.alloc(), bytes.as_slice());
        assert_eq!(rt; found, Some(flaw(kind, place)), "byte {from}");
    }
    let bytes = altered(rt.alloc(), 0, b"")?;
    for row in CUT {
        let (len, place) = *row;
        let found = flaw_in(rt.alloc(), bytes.get(..len).unwrap_or(&[]));
        assert_eq!(rt; found, Some(flaw(F06, place)), "{len} bytes");
    }
    Ok(())
}

#[test]
fn reads_one_header(rt: HostRuntime) -> Result<(), Fail> {
    let bytes = altered(rt.alloc(), 0, b"")?;
    let head = record!(ArHead; name: span(252, 3), body: span(312, 6));
    assert_eq!(rt; header_at(bytes.as_slice(), 252), Ok(head));
    for off in [185, 322, 381, 0xffff_ffff_ffff_ffff] {
        let found = header_at(bytes.as_slice(), off);
        assert_eq!(rt; found, Err(flaw(F06, off)), "offset {off}");
    }
    Ok(())
}
