//! Lines that report defects, and a file as long as one may be.

use lk_base::kinds::{BAD_ARCHIVE, DUPLICATE, LIMIT, RANGE, TOO_BIG};
use lk_base::{Defect, Flaw, Limits, NO_FILE, check_file_size, line_of};
use std::test::Fail;

/// A defect, the names of its file, of what it speaks of and of the other file, and its line.
#[derive(Clone, Copy)]
struct Row {
    defect: Defect,
    file: &'static [u8],
    name: &'static [u8],
    other: &'static [u8],
    line: &'static [u8],
}

macro_rules! row {
    ($file:expr, $name:expr, $other:expr, $defect:expr; $line:expr) => {
        Row { file: $file, name: $name, other: $other, defect: $defect, line: $line }
    };
}

const ROWS: &[Row] = &[
    row!(b"p.o", b"x", b"q.o", Defect { kind: DUPLICATE, file: 0, section: 0, place: 1, symbol: 1, other: 1 };
        b"rvld: F20 Duplicate file=p.o section=0 place=1 name=x other=q.o\n"),
    row!(b"a.o", b"", b"b.o", Defect { kind: TOO_BIG, file: NO_FILE, section: 0, place: 2147491840, symbol: 1, other: 0 };
        b"rvld: F23 TooBig file=- section=0 place=2147491840 name= other=0\n"),
    row!(b"lib.a", b"", b"", Defect { kind: BAD_ARCHIVE, file: 3, section: 0, place: 8, symbol: 1, other: 0 };
        b"rvld: F06 BadArchive file=lib.a section=0 place=8 name= other=0\n"),
    row!(b"lib.a(two.o)", b"100% \x00\xff\x7f~!", b"", Defect { kind: RANGE, file: 5, section: 12, place: 0, symbol: 1, other: 0xffff_ffff_ffff_ffff };
        b"rvld: F24 Range file=lib.a(two.o) section=12 place=0 name=100%25%20%00%FF%7F~! other=18446744073709551615\n"),
];

#[test]
fn lines_of_defects(rt: HostRuntime) -> Result<(), Fail> {
    for row in ROWS {
        let line = line_of(rt.alloc(), &row.defect, row.file, row.name, row.other)?;
        assert_eq!(rt; line.as_slice(), row.line);
    }
    Ok(())
}

#[test]
fn sizes_at_the_limit(rt: HostRuntime) {
    let limits = Limits::standard();
    assert_eq!(rt; check_file_size(2147483647, &limits), Ok(()));
    let flaw = record!(Flaw; kind: LIMIT, section: 0, place: 2147483648, other: 0);
    assert_eq!(rt; check_file_size(2147483648, &limits), Err(flaw));
}
