//! The commands with archives. Each has its own archives at hand, beside all inputs that are objects.

use elf_bytes::{Image, object, symbol};
use link_examples::images::*;
use link_examples::libraries::*;
use link_examples::objects::RETURN;
use link_examples::{Link, Refusal, code, library, link, member, refusal};

/// Forms of archives, and an archive before the object that asks.
pub const READ: &[Link] = &[
    link!("-s", "m.o", "lib.a" => ASKED; libraries: &[WITH_TEXT]),
    link!("-s", "a.o", "lib.a" => FIRST; libraries: &[EMPTY]),
    link!("-s", "m.o", "lib.a" => ASKED; libraries: &[INDEXED]),
    link!("-s", "lib.a", "m.o" => ASKED_BEFORE; libraries: &[ONE_MEMBER]),
];

/// Members that nothing pulls.
pub const IDLE: &[Link] = &[
    link!("-s", "call.o", "lib.a" => WEAK_CALL; libraries: &[OFFER_OF_WEAK]),
    link!("-s", "a.o", "lib.a" => FIRST; libraries: &[ONE_MEMBER]),
    link!("-s", "lib.a", "a.o" => FIRST; libraries: &[ONE_MEMBER]),
    link!("-s", "a.o", "lib.a" => FIRST; libraries: &[CHAIN]),
    link!("-s", "m.o", "lib.a" => ASKED; libraries: &[PACKED_LAST]),
    link!("-s", "m.o", "lib.a" => ASKED; libraries: &[DOUBLE_LAST]),
];

/// Which offer of a name is taken.
pub const CHOSEN: &[Link] = &[
    link!("-s", "m.o", "lib.a", "lib.a" => ASKED; libraries: &[ONE_MEMBER]),
    link!("-s", "m.o", "lib.a", "n.o" => ASKED_BREAK; libraries: &[ONE_MEMBER]),
    link!("-s", "m.o", "lib.a" => ASKED; libraries: &[FIRST_RETURNS]),
    link!("-s", "m.o", "lib.a" => ASKED_BREAK; libraries: &[FIRST_BREAKS]),
    link!("-s", "m.o", "lib.a" => ASKED; libraries: &[WEAK_FIRST]),
    link!("-s", "x.o", "lib.a" => ASKED_COMMON; libraries: &[COMMON_FIRST]),
    link!("-s", "x.o", "lib.a", "c8.o" => ASKED_COMMON; libraries: &[STRONG_ALONE]),
];

/// A jump to the function after it, and the member that only the command asks for.
const ASKED_BY_NAME: Image = code!(12 => 0x1020; b"\xef\0\x40\0\x67\x80\0\0\x67\x80\0\0");

/// `n` as a number, beside code.
const NUMBER: Library =
    library!("lib.a"; member!(b"number.o", object!([RETURN]; [symbol!(b"n", 1, 0, 0xfff1, 5, 0)])));

/// `n` for its own file alone.
const LOCAL: Library =
    library!("lib.a"; member!(b"local.o", object!([RETURN]; [symbol!(b"n", 0, 2, 1, 0, 4)])));

/// Members that the command asks for: the first that offers the name, weak or not, and what it pulls; one that offers a number keeps nothing.
pub const BY_NAME: &[Link] = &[
    link!("-s", "--undefined", "n", "a.o", "lib.a" => ASKED_BY_NAME; libraries: &[ONE_MEMBER]),
    // The archive first, and two names that nobody offers.
    link!("-s", "--undefined=x,nowhere,n", "lib.a", "a.o", "--gc-sections" =>
        code!(12 => 0x1020; b"\x67\x80\0\0\xef\0\x40\0\x67\x80\0\0"; entry: 0x11004); libraries: &[ONE_MEMBER]),
    link!("-s", "--undefined", "n", "a.o", "lib.a" => ASKED_BY_NAME; libraries: &[WEAK_FIRST]),
    // A jump to the function after it, the member that another one pulls, and that one, which only the command asks for.
    link!("-s", "--undefined", "n", "a.o", "lib.a" =>
        code!(20 => 0x1028; b"\xef\0\x40\0\x67\x80\0\0\x67\x80\0\0\xef\xf0\xdf\xff\x67\x80\0\0"); libraries: &[CHAIN]),
    link!("-s", "--undefined", "n", "a.o", "lib.a" => ASKED_BY_NAME; libraries: &[NUMBER]),
    link!("-s", "--gc-sections", "--undefined", "n", "a.o", "lib.a" => FIRST; libraries: &[NUMBER]),
];

/// Names that pull no member: an object offers them, weak or COMMON, or a member has them as local symbols. The room of a COMMON symbol stays.
pub const BY_NAME_IN_VAIN: &[Link] = &[
    // A jump to the function after it, and an `ebreak` of another file.
    link!("-s", "--undefined", "n", "a.o", "n.o", "lib.a" => code!(12 => 0x1020; b"\xef\0\x40\0\x67\x80\0\0\x73\0\x10\0"); libraries: &[ONE_MEMBER]),
    link!("-s", "--gc-sections", "--undefined", "x", "a.o", "c8.o", "lib.a" => ASKED_COMMON; libraries: &[STRONG_ALONE]),
    link!("-s", "--undefined", "n", "a.o", "lib.a" => FIRST; libraries: &[LOCAL]),
];

/// A member that another pulls.
pub const CHAINS: &[Link] = &[
    link!("-s", "m.o", "lib.a" => ASKED_TWICE; libraries: &[CHAIN]),
    link!("-s", "m.o", "two.a", "caller.a" => ASKED_TWICE; libraries: &[CHAIN_END, CHAIN_BEGIN]),
];

/// What is wrong with members.
pub const WRONG_MEMBERS: &[Refusal] = &[
    refusal!("-s", "both.o", "lib.a" => 1, 2, "F20 Duplicate file=lib.a(one.o) section=0 place=1 name=n other=lib.a(seven.o)"; libraries: &[SEVEN_MEMBERS]),
    refusal!("-s", "a.o", "lib.a" => 1, 2, "F02 BadHeader file=lib.a(two.o) section=0 place=63 name= other=0"; libraries: &[CUT_MEMBER]),
    refusal!("-s", "m.o", "lib.a" => 1, 2, "F02 BadHeader file=lib.a(cut_to_63_bytes_.o) section=0 place=63 name= other=0"; libraries: &[LONG_CUT_MEMBER]),
    refusal!("-s", "m.o", "lib.a" => 1, 2, "F05 Compressed file=lib.a(packed.o) section=1 place=200 name= other=0"; libraries: &[PACKED_FIRST]),
    refusal!("-s", "m.o", "lib.a" => 1, 2, "F16 FlagsClash file=lib.a(double.o) section=0 place=4 name= other=0"; libraries: &[DOUBLE_FIRST]),
    refusal!("-s", "h.o", "lib.a" => 1, 2, "F21 NoEntry file=- section=0 place=0 name=_start other=0"; libraries: &[START_ALONE]),
    refusal!("-s", "lib.a" => 1, 1, "F21 NoEntry file=- section=0 place=0 name=_start other=0"; libraries: &[START_ALONE]),
    refusal!("-s", "m.o", "lib.a" => 1, 2, "F22 Undefined file=lib.a(caller.o) section=1 place=0 name=m other=0"; libraries: &[CALLER_ALONE]),
];

/// What is wrong with archives.
pub const WRONG_ARCHIVES: &[Refusal] = &[
    refusal!("-s", "a.o", "lib.a" => 1, 2, "F07 Thin file=lib.a section=0 place=0 name= other=0"; libraries: &[NO_MEMBERS_BYTES]),
    refusal!("-s", "a.o", "lib.a" => 1, 2, "F06 BadArchive file=lib.a section=0 place=8 name= other=0"; libraries: &[CUT_HEADER]),
    refusal!("-s", "a.o", "lib.a" => 1, 2, "F06 BadArchive file=lib.a section=0 place=524 name= other=0"; libraries: &[NO_SIZE]),
    refusal!("-s", "a.o", "lib.a" => 1, 2, "F06 BadArchive file=lib.a section=0 place=524 name= other=0"; libraries: &[NO_TABLE]),
    refusal!("-s", "a.o", "lib.a" => 1, 2, "F06 BadArchive file=lib.a section=0 place=524 name= other=0"; libraries: &[NO_END]),
    refusal!("-s", "a.o", "lib.a" => 1, 2, "F06 BadArchive file=lib.a section=0 place=524 name= other=0"; libraries: &[CUT_DATA]),
    refusal!("-s", "a.o", "lib.a" => 1, 2, "F18 BsdName file=lib.a section=0 place=8 name= other=0"; libraries: &[BSD_FIRST]),
    refusal!("-s", "a.o", "lib.a" => 1, 2, "F18 BsdName file=lib.a section=0 place=524 name= other=0"; libraries: &[BSD_LAST]),
    refusal!("-s", "a.o", "lib.a" => 1, 2, "F18 BsdName file=lib.a section=0 place=524 name= other=0"; libraries: &[NO_SLASH]),
];
