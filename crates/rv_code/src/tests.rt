//! Fields at their ends, and the bytes that GNU as makes of the same instructions and numbers.

mod encodings;

use crate::{cj, fits, fits_uleb, jal, nops, patch, patch_uleb_bits};
use encodings::*;
use lk_base::Misfit;
use lk_base::abi::*;
use lk_base::relocations::{fills_field, kind_of};

/// A value, and a place that holds it.
#[derive(Clone, Copy)]
struct Encoding {
    v: i128,
    place: u64,
}

/// Kinds of relocations, and places that hold values of them.
#[derive(Clone, Copy)]
struct Field {
    kinds: &'static [u32],
    rows: &'static [Encoding],
}

/// Kinds of relocations with the values that fit, those that are odd where an even one is needed, and those out of reach.
#[derive(Clone, Copy)]
struct Reach {
    kinds: &'static [u32],
    fit: &'static [i128],
    odd: &'static [i128],
    out: &'static [i128],
}

/// Kinds with the rows of places that hold values of them.
macro_rules! fields {
    ($($kinds:expr => $rows:expr),+) => {
        [$(Field { kinds: $kinds, rows: $rows }),+]
    };
}

/// Kinds with the values that fit, that are odd, and that are out of reach.
macro_rules! reaches {
    ($(kinds [$($kind:expr),+] fit [$($fit:expr),*] odd [$($odd:expr),*] out [$($out:expr),*]);+) => {
        [$(Reach { kinds: &[$($kind),+], fit: &[$($fit),*], odd: &[$($odd),*], out: &[$($out),*] }),+]
    };
}

const LOW_I: &[u32] = &[R_RISCV_PCREL_LO12_I, R_RISCV_LO12_I, R_RISCV_TPREL_LO12_I];

const LOW_S: &[u32] = &[R_RISCV_PCREL_LO12_S, R_RISCV_LO12_S, R_RISCV_TPREL_LO12_S];

const CALLS: &[u32] = &[R_RISCV_CALL, R_RISCV_CALL_PLT];

const FIELDS: [Field; 23] = fields![
    &[R_RISCV_BRANCH] => BRANCH, &[R_RISCV_BRANCH] => OTHER_BRANCH, &[R_RISCV_JAL] => JUMP,
    &[R_RISCV_JAL] => OTHER_JUMP, &[R_RISCV_RVC_BRANCH] => SHORT_BRANCH, &[R_RISCV_RVC_BRANCH] => OTHER_SHORT_BRANCH,
    &[R_RISCV_RVC_JUMP] => SHORT_JUMP, &[R_RISCV_HI20, R_RISCV_TPREL_HI20] => UPPER,
    &[R_RISCV_GOT_HI20, R_RISCV_TLS_GOT_HI20, R_RISCV_TLS_GD_HI20, R_RISCV_PCREL_HI20] => UPPER_HERE, LOW_I => LOW,
    LOW_I => LOW_OF_LOAD, LOW_S => LOW_OF_STORE, LOW_S => LOW_OF_FLOAT_STORE, CALLS => CALL, CALLS => TAIL_CALL,
    &[R_RISCV_ADD8, R_RISCV_SUB8, R_RISCV_SET8] => BYTE, &[R_RISCV_ADD16, R_RISCV_SUB16, R_RISCV_SET16] => HALF,
    &[R_RISCV_ADD32, R_RISCV_SUB32, R_RISCV_SET32] => WORD, &[R_RISCV_64, R_RISCV_ADD64, R_RISCV_SUB64] => DOUBLEWORD,
    &[R_RISCV_32] => ADDRESS, &[R_RISCV_32_PCREL, R_RISCV_PLT32] => DISTANCE, &[R_RISCV_SUB6, R_RISCV_SET6] => SIX,
    &[R_RISCV_SUB6, R_RISCV_SET6] => OTHER_SIX
];

const REACHES: [Reach; 8] = reaches![
    kinds [R_RISCV_BRANCH] fit [-4096, -4094, -2, 0, 2, 4092, 4094]
        odd [-4099, -4097, -4095, -1, 1, 4093, 4095, 4097, i128::MAX]
        out [i128::MIN, -18446744073709551618, -4098, 4096, 18446744073709551618, i128::MAX - 1];
    kinds [R_RISCV_JAL] fit [-1048576, -1048574, -2, 0, 2, 1048572, 1048574]
        odd [-1048579, -1048577, -1048575, -1, 1, 1048573, 1048575, 1048577, i128::MAX]
        out [i128::MIN, -18446744073709551618, -1048578, 1048576, 18446744073709551618, i128::MAX - 1];
    kinds [R_RISCV_RVC_BRANCH] fit [-256, -254, -2, 0, 2, 252, 254]
        odd [-259, -257, -255, -1, 1, 253, 255, 257, i128::MAX]
        out [i128::MIN, -18446744073709551618, -258, 256, 18446744073709551618, i128::MAX - 1];
    kinds [R_RISCV_RVC_JUMP] fit [-2048, -2046, -2, 0, 2, 2044, 2046]
        odd [-2051, -2049, -2047, -1, 1, 2045, 2047, 2049, i128::MAX]
        out [i128::MIN, -18446744073709551618, -2050, 2048, 18446744073709551618, i128::MAX - 1];
    kinds [R_RISCV_CALL, R_RISCV_CALL_PLT, R_RISCV_GOT_HI20, R_RISCV_TLS_GOT_HI20, R_RISCV_TLS_GD_HI20, R_RISCV_PCREL_HI20,
        R_RISCV_HI20, R_RISCV_TPREL_HI20]
        fit [-2147485696, -2147485695, -1, 0, 1, 2147481598, 2147481599] odd []
        out [i128::MIN, -18446744073709551616, -2147485697, 2147481600, 18446744073709551616, i128::MAX];
    kinds [R_RISCV_32] fit [-2147483648, -2147483647, -1, 0, 1, 2147483647, 2147483648, 4294967294, 4294967295] odd []
        out [i128::MIN, -18446744073709551616, -4294967295, -2147483649, 4294967296, 18446744073709551616, i128::MAX];
    kinds [R_RISCV_32_PCREL, R_RISCV_PLT32] fit [-2147483648, -2147483647, -1, 0, 1, 2147483646, 2147483647] odd []
        out [i128::MIN, -18446744073709551616, -2147483649, 2147483648, 4294967295, 18446744073709551616, i128::MAX];
    kinds [R_RISCV_64, R_RISCV_PCREL_LO12_I, R_RISCV_PCREL_LO12_S, R_RISCV_LO12_I, R_RISCV_LO12_S, R_RISCV_TPREL_LO12_I,
        R_RISCV_TPREL_LO12_S, R_RISCV_ADD8, R_RISCV_ADD16, R_RISCV_ADD32, R_RISCV_ADD64, R_RISCV_SUB8, R_RISCV_SUB16,
        R_RISCV_SUB32, R_RISCV_SUB64, R_RISCV_SUB6, R_RISCV_SET6, R_RISCV_SET8, R_RISCV_SET16, R_RISCV_SET32]
        fit [i128::MIN, -18446744073709551617, -129, -1, 0, 63, 64, 255, 256, 4095, 4096, 65536, 4294967296, 18446744073709551616, i128::MAX] odd [] out []
];

/// Why a value is refused, if it is.
fn misfit(kind: u32, v: i128) -> Option<Misfit> {
    if !fills_field(kind) {
        return None;
    }
    fits(kind, v).err()
}

/// Whether the patch of a place makes the row's.
fn is_met(kind: u32, old: u64, row: Encoding) -> bool {
    let width = kind_of(kind).width;
    if width > 8 || !fills_field(kind) || fits(kind, row.v).is_err() {
        return false;
    }
    let mut bytes = old.to_le_bytes();
    patch(kind, &mut bytes[..width as usize], row.v);
    u64::from_le_bytes(bytes) == row.place
}

#[test]
fn the_bytes_of_the_assembler(rt: HostRuntime) {
    for field in FIELDS.iter() {
        for kind in field.kinds {
            let mut old = None;
            for row in field.rows {
                let met = is_met(*kind, old.unwrap_or(row.place), *row);
                assert_eq!(rt; met, true, "kind {kind}, value {}", row.v);
                old = Some(row.place);
            }
        }
    }
    for kind in 0..256 {
        let listed = FIELDS.iter().any(|field| field.kinds.contains(&kind));
        assert_eq!(rt; fills_field(kind), listed, "kind {kind}");
    }
}

#[test]
fn values_that_fit(rt: HostRuntime) {
    for reach in REACHES.iter() {
        for kind in reach.kinds {
            for v in reach.fit {
                assert_eq!(rt; misfit(*kind, *v), None, "kind {kind}, value {v}");
            }
            for v in reach.odd {
                let found = misfit(*kind, *v);
                assert_eq!(rt; found, Some(Misfit::Odd), "kind {kind}, value {v}");
            }
            for v in reach.out {
                let found = misfit(*kind, *v);
                assert_eq!(rt; found, Some(Misfit::Range), "kind {kind}, value {v}");
            }
        }
    }
    for kind in 0..256 {
        let listed = REACHES.iter().any(|reach| reach.kinds.contains(&kind));
        assert_eq!(rt; fills_field(kind), listed, "kind {kind}");
    }
}

/// `jal` by the offset, where it reaches so far.
#[tactic(auto, unfolding(lk_base::specs::RelocKinds::kind_of, lk_base::specs::RelocKinds::fills_field, lk_base::specs::RelocKinds::has_value, lk_base::specs::RelocKinds::is_uleb))]
fn jump(rd: u32, v: i128) -> Option<u64> {
    let offset = i64::try_from(v).ok()?;
    if rd >= 32 || fits(R_RISCV_JAL, i128::from(offset)).is_err() {
        return None;
    }
    Some(u64::from(jal(rd, offset)))
}

/// `c.j` by the offset, where it reaches so far.
#[tactic(auto, unfolding(lk_base::specs::RelocKinds::kind_of, lk_base::specs::RelocKinds::fills_field, lk_base::specs::RelocKinds::has_value, lk_base::specs::RelocKinds::is_uleb))]
fn short_jump(v: i128) -> Option<u64> {
    let offset = i64::try_from(v).ok()?;
    if fits(R_RISCV_RVC_JUMP, i128::from(offset)).is_err() {
        return None;
    }
    Some(u64::from(cj(offset)))
}

#[test]
fn whole_instructions(rt: HostRuntime) {
    for row in JUMP {
        assert_eq!(rt; jump(1, row.v), Some(row.place), "value {}", row.v);
    }
    for row in OTHER_JUMP {
        assert_eq!(rt; jump(30, row.v), Some(row.place), "value {}", row.v);
    }
    for row in SHORT_JUMP {
        assert_eq!(rt; short_jump(row.v), Some(row.place), "value {}", row.v);
    }
    let mut padding = [0xffu8; 10];
    nops(&mut padding);
    assert_eq!(rt; padding, [0x13, 0, 0, 0, 0x13, 0, 0, 0, 0x01, 0]);
    nops(&mut padding[..6]);
    assert_eq!(rt; padding, [0x13, 0, 0, 0, 0x01, 0, 0, 0, 0x01, 0]);
    nops(&mut padding[..2]);
    assert_eq!(rt; padding, [0x01, 0, 0, 0, 0x01, 0, 0, 0, 0x01, 0]);
    nops(&mut padding[..0]);
    assert_eq!(rt; padding, [0x01, 0, 0, 0, 0x01, 0, 0, 0, 0x01, 0]);
}

/// How many bytes a ULEB128 number has, ten bytes, a value, the ten with it, and whether the number takes it.
type Row = (u32, [u8; 10], i128, [u8; 10], bool);

/// The low bytes of ten, the others zeros.
macro_rules! low {
    ($first:literal) => {
        [$first, 0, 0, 0, 0, 0, 0, 0, 0, 0]
    };
    ($first:literal, $second:literal) => {
        [$first, $second, 0, 0, 0, 0, 0, 0, 0, 0]
    };
}

/// A first byte, eight alike, and a last.
macro_rules! ten {
    ($first:literal, $each:literal, $last:literal) => {
        [$first, $each, $each, $each, $each, $each, $each, $each, $each, $last]
    };
}

/// Rows, each in its line.
macro_rules! ulebs {
    ($($n:expr, $old:expr, $v:expr, $new:expr, $is_fit:expr);+) => {
        &[$(($n, $old, $v, $new, $is_fit)),+]
    };
}

const ULEBS: &[Row] = ulebs![
    1, low!(0), 0, low!(0), true; 1, low!(0), 127, low!(0x7f), true; 1, low!(0x2a), 128, low!(0, 1), false;
    1, low!(0), -1, ten!(0x7f, 0x7f, 0x7f), false; 2, low!(0x80, 0), 4, low!(0x84, 0), true;
    2, low!(0x80, 0x7f), 8, low!(0x88, 0), true; 2, low!(0xff, 0), 16383, low!(0xff, 0x7f), true;
    2, low!(0x80, 0), -4, ten!(0xfc, 0x7f, 0x7f), false; 9, ten!(0x80, 0x80, 0), 0x7fff_ffff_ffff_ffff, ten!(0xff, 0xff, 0), true;
    9, ten!(0x80, 0x80, 0), 0x8000_0000_0000_0000, ten!(0x80, 0x80, 1), false;
    10, ten!(0x80, 0x80, 0), 0xffff_ffff_ffff_ffff, ten!(0xff, 0xff, 1), true;
    10, ten!(0x80, 0x80, 0), 0x1_0000_0000_0000_0000, ten!(0x80, 0x80, 2), false;
    10, ten!(0x80, 0x80, 0), -1, ten!(0xff, 0xff, 0x7f), false
];

#[test]
fn numbers_of_seven_bits_a_byte(rt: HostRuntime) {
    for row in ULEBS {
        let (n, old, v, new, is_fit) = *row;
        let mut place = old;
        patch_uleb_bits(&mut place, v);
        assert_eq!(rt; place, new, "{n} bytes, value {v}");
        let misfit = if is_fit { None } else { Some(Misfit::Range) };
        assert_eq!(rt; fits_uleb(n, v).err(), misfit, "{n} bytes, value {v}");
    }
}
