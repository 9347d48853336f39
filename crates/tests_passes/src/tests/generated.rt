//! Objects, with bytes that were worked out from the format and read by `readelf`.

use link_gen::objects;
use std::test::Fail;

/// Some bytes of an object.
#[derive(Clone, Copy)]
struct Piece {
    /// The object's number.
    number: usize,
    name: &'static str,
    /// How many bytes the object has.
    size: usize,
    /// Where the bytes start.
    offset: usize,
    bytes: &'static [u8],
}

macro_rules! piece {
    ($number:expr, $name:expr, $size:expr, $offset:expr; $bytes:expr) => {
        Piece { number: $number, name: $name, size: $size, offset: $offset, bytes: $bytes }
    };
    ($base:expr => $($field:ident: $value:expr),+) => {
        Piece { $($field: $value,)+ ..$base }
    };
}

const FIRST: Piece =
    piece!(0, "gen0.o", 1152, 0; b"\x7fELF\x02\x01\x01\0\0\0\0\0\0\0\0\0\x01\0\xf3\0\x01\0\0\0\0\0\0\0\0\0\0\0\0\0\0\0\0\0\0\0\xc0\x01\0\0\0\0\0\0\x05\0\0\0@\0\0\0\0\0@\0\x0b\0\x0a\0");

const ONE: &[Piece] = &[
    FIRST,
    // A call of g0, a return, and the call's relocations.
    piece!(FIRST => offset: 64,
        bytes: b"\x97\0\0\0\xe7\x80\0\0\x67\x80\0\0\0\0\0\0\0\0\0\0\0\0\0\0\x13\0\0\0\x04\0\0\0\0\0\0\0\0\0\0\0\0\0\0\0\0\0\0\0\x33\0\0\0\0\0\0\0\0\0\0\0\0\0\0\0"),
    // g0, d0, the string, the zeros, and their relocation.
    piece!(FIRST => offset: 128,
        bytes: b"\x13\x05\0\0\x67\x80\0\0\x67\x80\0\0\0\0\0\0s0\0\0\0\0\0\0\0\0\0\0\0\0\0\0\0\0\0\0\0\0\0\0\x02\0\0\0\x01\0\0\0\0\0\0\0\0\0\0\0"),
    // Symbols 1 and 2, and the names.
    piece!(FIRST => offset: 208, bytes: b"\0\0\0\0\x03\0\x05\0\0\0\0\0\0\0\0\0\0\0\0\0\0\0\0\0\x01\0\0\0\x12\0\x01\0\0\0\0\0\0\0\0\0\x0c\0\0\0\0\0\0\0"),
    piece!(FIRST => offset: 328,
        bytes: b"\0_start\0f0\0g0\0d0\0\0\0\0\0\0\0\0\0.text.f\0.rela.text.f\0.text.g\0.text.d\0.rodata.str1.1\0.data\0.rela.data\0.symtab\0.strtab\0.shstrtab\0\0\0\0\0"),
    // The header of the symbol table.
    piece!(FIRST => offset: 960,
        bytes: b"\x46\0\0\0\x02\0\0\0\0\0\0\0\0\0\0\0\0\0\0\0\0\0\0\0\xb8\0\0\0\0\0\0\0\x90\0\0\0\0\0\0\0\x09\0\0\0\x02\0\0\0\x08\0\0\0\0\0\0\0\x18\0\0\0\0\0\0\0"),
];

const TWO: &[Piece] = &[
    // The second call's relocation is to the last symbol.
    piece!(FIRST => size: 1232, offset: 136, bytes: b"\x08\0\0\0\0\0\0\0\x13\0\0\0\x06\0\0\0"),
    piece!(1, "gen1.o", 1120, 304; b"\0f1\0g1\0d1\0\0"),
];

const FIFTEEN: &[Piece] = &[
    piece!(6, "gen6.o", 1288, 464; b"\0f6\0g6\0d6\0f13\0f14\0"),
    // 12 mod 7 is 5.
    piece!(12, "gen12.o", 1120, 128; b"\x13\x05\x50\0\x67\x80\0\0"),
];

const FORTY: &[Piece] = &[
    piece!(10, "gen10.o", 1288, 256; b"s10\0"),
    piece!(19, "gen19.o", 1208, 384; b"\0f19\0g19\0d19\0f39\0"),
    piece!(39, "gen39.o", 1120, 144; b"s6\0"),
];

fn has_piece(list: &[(String, Vec<u8>)], piece: &Piece) -> bool {
    let Some(object) = list.get(piece.number) else {
        return false;
    };
    let rest = object.1.as_slice().get(piece.offset..).unwrap_or(&[]);
    object.0.as_str() == piece.name && object.1.len() == piece.size && rest.starts_with(piece.bytes)
}

fn has_all(list: &[(String, Vec<u8>)], pieces: &[Piece]) -> bool {
    pieces.iter().all(|piece| has_piece(list, piece))
}

/// So many objects, and pieces of them.
const LISTS: &[(u32, &[Piece])] = &[(1, ONE), (2, TWO), (15, FIFTEEN), (40, FORTY)];

#[test]
fn generated_objects(rt: HostRuntime) -> Result<(), Fail> {
    for row in LISTS {
        let (count, pieces) = *row;
        let list = objects(rt.alloc(), count)?;
        assert_eq!(rt; list.len(), count as usize);
        assert!(rt; has_all(&list, pieces), "{count} objects");
    }
    Ok(())
}
