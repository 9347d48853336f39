//! Functions that are folded (`--icf all` and `safe`): those whose bytes are equal and whose targets are equal, or are folded in their turn.

use elf_bytes::{
    Image, Object, Reloc, Section, Symbol, data, image, image_of, object, object_of, record, reloc,
    section, symbol, text,
};
use link_driver::OpenGate;
use link_examples::images::{FIRST, NAMES, READ, RETURN_ALONE, STACK};
use link_examples::objects::{Input, RETURN, START, TO_SECOND};
use link_examples::{
    Files, Link, SOUND, Store, WORKERS, code, code_and_data, inputs, link, objects_of,
    push_objects, words_of,
};
use link_runs::run_over;
use std::alloc::{AllocError, Global};
use std::test::Fail;
use std::thread::Threads;

/// A jump, and a `ret`.
const JUMPS: Section = text!(b"\xef\0\0\0\x67\x80\0\0");
/// A jump, and an `ebreak`.
const JUMPS_AND_BREAKS: Section = text!(b"\xef\0\0\0\x73\0\x10\0");
/// A jump alone.
const GOES: Section = text!(b"\xef\0\0\0");

const TO_FIRST: Reloc = reloc!(0, 17, 1, 0);

const TO_THIRD: Reloc = reloc!(0, 17, 3, 0);

const TO_FOURTH: Reloc = reloc!(0, 17, 4, 0);

const F_IN_2: Symbol = symbol!(b"f1", 1, 2, 2, 0, 8);
/// `g`, which is asked for.
const G_IN_3: Symbol = symbol!(b"g", 1, 2, 3, 0, 8);

/// Two functions that call the first of them, and a jump to the second.
const BOTH_TO_FIRST: Object =
    object!([section!(GOES => relocs: &[TO_SECOND]), section!(JUMPS => name: b".text.f", relocs: &[TO_FIRST]),
    section!(JUMPS => name: b".text.g", relocs: &[TO_FIRST])]; [F_IN_2, G_IN_3, START]);

/// The address of a string in two halves; the function is weak.
const SAYS: Object = object!([
    section!(b".text.say", 1, 6, 4; b"\x17\x05\0\0\x13\x05\x05\0\x67\x80\0\0"; relocs: &[reloc!(0, 23, 2, 0), reloc!(4, 24, 1, 0)]),
    section!(b".rodata.str1.1", 1, 0x32, 1; b"hi\0"; entsize: 1),
]; [symbol!(b".L0", 0, 0, 1, 0, 0), symbol!(b".LC0", 0, 0, 2, 0, 0), symbol!(b"say", 2, 2, 1, 0, 4)]);

/// Two more of the function of one `ret`.
const G_RETURNS: Section = section!(RETURN => name: b".text.g");

const H_RETURNS: Section = section!(RETURN => name: b".text.h");
/// Eight bytes of data.
const DATA: Section = data!(b"\0\0\0\0\0\0\0\0");

/// Three equal functions, of which the second has two names, and a word of data that is the address of the second.
const ADDRESSED: Object = object!([
    RETURN, G_RETURNS, H_RETURNS, section!(DATA => relocs: &[reloc!(0, 2, 2, 0)]),
]; [START, symbol!(b"g", 1, 2, 2, 0, 4), symbol!(b"h", 1, 2, 3, 0, 4), symbol!(b"also_g", 1, 2, 2, 4, 0)]);

/// The three functions, and another section beside them.
macro_rules! beside {
    ($section:expr) => {
        object!(ADDRESSED => sections: &[RETURN, G_RETURNS, H_RETURNS, $section])
    };
}

const INPUTS: &[Input] = inputs!(
    "taken.o" => ADDRESSED,
    // Two pairs of functions that call each other, and a jump to the second pair.
    "pairs.o" => object!([
        section!(GOES => relocs: &[TO_THIRD]), section!(JUMPS => name: b".text.f1", relocs: &[TO_SECOND]),
        section!(JUMPS_AND_BREAKS => name: b".text.g1", relocs: &[TO_FIRST]), section!(JUMPS => name: b".text.f2", relocs: &[TO_FOURTH]),
        section!(JUMPS_AND_BREAKS => name: b".text.g2", relocs: &[TO_THIRD]),
    ]; [F_IN_2, symbol!(b"g1", 1, 2, 3, 0, 8), symbol!(b"f2", 1, 2, 4, 0, 8), symbol!(b"g2", 1, 2, 5, 0, 8), START]),
    // One such pair under names of its own file.
    "pair.o" => object!([section!(JUMPS => name: b".text.f", relocs: &[TO_SECOND]),
        section!(JUMPS_AND_BREAKS => name: b".text.g", relocs: &[TO_FIRST])]; [symbol!(b"f", 0, 2, 1, 0, 8), symbol!(b"g", 0, 2, 2, 0, 8)]),
    "returns.o" => object!([RETURN]; [START]),
    "first.o" => BOTH_TO_FIRST,
    // Two functions that call themselves.
    "itself.o" => object!(BOTH_TO_FIRST => sections: &[section!(GOES => relocs: &[TO_SECOND]),
        section!(JUMPS => name: b".text.f", relocs: &[TO_FIRST]), section!(JUMPS => name: b".text.g", relocs: &[TO_SECOND])]),
    // A function fourteen times, of which two are folded: the others differ in alignment, name, flags or relocations, may not be folded, or are empty.
    "apart.o" => object!([
        RETURN, section!(RETURN => name: b".text.a", align: 8), section!(RETURN => name: b"code"), section!(RETURN => name: b"code"),
        section!(RETURN => name: b".text.r", flags: 0x200006), section!(RETURN => name: b".fini"), section!(RETURN => name: b".fini"),
        section!(RETURN => name: b".text.b"), section!(RETURN => name: b".other"), section!(RETURN => name: b".other"),
        section!(RETURN => name: b".text.c", relocs: &[reloc!(0, 0, 0, 0)]),
        section!(RETURN => name: b".text.d", flags: 0x206), section!(RETURN => name: b".text.o", flags: 0x86), section!(b".text.n", 1, 6, 4; b""),
    ]; [START]),
    // Jumps to `h`: to its beginning by two names, to 4 after it by two names, by its section, and by an addend.
    "named.o" => object!([section!(JUMPS => relocs: &[reloc!(0, 17, 6, 0)]), section!(b".text.h", 1, 6, 4; b"\x67\x80\0\0\x73\0\x10\0"),
        section!(GOES => name: b".text.a", relocs: &[TO_SECOND]), section!(GOES => name: b".text.b", relocs: &[TO_THIRD]),
        section!(GOES => name: b".text.c", relocs: &[TO_FIRST]), section!(GOES => name: b".text.d", relocs: &[TO_FOURTH]),
        section!(GOES => name: b".text.e", relocs: &[reloc!(0, 17, 2, 4)]), section!(GOES => name: b".text.f", relocs: &[reloc!(0, 17, 5, 0)])]; [
            symbol!(b"", 0, 3, 2, 0, 4), symbol!(b"h", 1, 2, 2, 0, 4), symbol!(b"h4", 1, 2, 2, 4, 4), symbol!(b"also_h", 1, 2, 2, 0, 4),
            symbol!(b"also_h4", 1, 2, 2, 4, 4), symbol!(b"d", 1, 2, 6, 0, 4), START]),
    "say.o" => SAYS,
    // `say` with another string.
    "sing.o" => object!(SAYS => sections: &[
        section!(b".text.say", 1, 6, 4; b"\x17\x05\0\0\x13\x05\x05\0\x67\x80\0\0"; relocs: &[reloc!(0, 23, 2, 0), reloc!(4, 24, 1, 0)]),
        section!(b".rodata.str1.1", 1, 0x32, 1; b"ho\0"; entsize: 1)]),
);

const TAKING_INPUTS: &[Input] = inputs!(
    // A jump to `say`.
    "ask.o" => object!([section!(GOES => relocs: &[TO_FIRST])]; [symbol!(b"say", 1, 0, 0, 0, 0), START]),
    // What names the second function: a relocation that writes nothing, a distance, an entry of the linker's table, a branch, and a section that
    // is not in memory; and the distance of the second from the first.
    "none.o" => beside!(section!(DATA => relocs: &[reloc!(0, 0, 2, 0)])),
    "distance.o" => beside!(section!(DATA => relocs: &[reloc!(0, 59, 2, 0)])),
    "table.o" => beside!(section!(b".text.c", 1, 6, 4; b"\x17\x05\0\0"; relocs: &[reloc!(0, 20, 2, 0)])),
    "branch.o" => beside!(section!(b".text.c", 1, 6, 4; b"\x63\0\0\0"; relocs: &[reloc!(0, 16, 2, 0)])),
    "notes.o" => beside!(section!(DATA => name: b".debug", flags: 0, relocs: &[reloc!(0, 2, 2, 0)])),
    "uleb.o" => beside!(section!(DATA => relocs: &[reloc!(0, 60, 2, 0), reloc!(0, 61, 1, 0)])),
    // The address of the second function in two halves, twice, where each lower half names the function that it stands in.
    "halves.o" => object!([
        RETURN, G_RETURNS, section!(b".text.c", 1, 6, 4; b"\x17\x05\0\0\x13\x05\x05\0"; relocs: &[reloc!(0, 23, 4, 0), reloc!(4, 24, 1, 0)]),
        section!(b".text.d", 1, 6, 4; b"\x17\x05\0\0\x13\x05\x05\0"; relocs: &[reloc!(0, 23, 4, 0), reloc!(4, 24, 2, 0)]),
    ]; [symbol!(b".L0", 0, 0, 3, 0, 0), symbol!(b".L1", 0, 0, 4, 0, 0), START, symbol!(b"g", 1, 2, 2, 0, 4)]),
    // Jumps to both of two equal functions, and data with the address of the second, for which nothing asks.
    "idle.o" => object!([text!(b"\xef\0\0\0\xef\0\0\0"; TO_SECOND, reloc!(4, 17, 3, 0)), G_RETURNS, H_RETURNS,
        section!(DATA => relocs: &[reloc!(0, 2, 3, 0)])]; [START, symbol!(b"g", 1, 2, 2, 0, 4), symbol!(b"h", 1, 2, 3, 0, 4)]),
);

/// The files that are at hand. Each list has a function of its own, since what a function holds is proved in one go.
pub fn files(alloc: Global) -> Result<Files, AllocError> {
    let mut files = objects_of(alloc, INPUTS)?;
    push_taking(&mut files, alloc)?;
    Ok(files)
}

fn push_taking(files: &mut Files, alloc: Global) -> Result<(), AllocError> {
    push_objects(files, alloc, TAKING_INPUTS)
}

/// A jump, and one pair.
pub const ONE_PAIR: Image =
    code!(20 => 0x1028; b"\xef\0\x40\0\xef\0\x80\0\x67\x80\0\0\xef\xf0\x9f\xff\x73\0\x10\0");
/// A `ret`, and one pair.
const RETURN_AND_PAIR: Image =
    code!(20 => 0x1028; b"\x67\x80\0\0\xef\0\x80\0\x67\x80\0\0\xef\xf0\x9f\xff\x73\0\x10\0");
/// A jump, and two pairs.
const TWO_PAIRS: Image = image!(FIRST => table: 0x1038,
    segments: &[READ, [1, 5, 0x1000, 0x11000, 36, 36, 4096], STACK],
    contents: &[(0x1000, b"\xef\0\x40\x01\xef\0\x80\0\x67\x80\0\0\xef\xf0\x9f\xff\x73\0\x10\0"),
        (0x1014, b"\xef\0\x80\0\x67\x80\0\0\xef\xf0\x9f\xff\x73\0\x10\0"), (0x1024, NAMES)],
    sections: &[[1, 1, 6, 0x11000, 0x1000, 36, 4], [7, 3, 0, 0, 0x1024, 17, 1]]);
/// A jump to a function that calls itself.
const CALLS_ITSELF: Image = code!(12 => 0x1020; b"\xef\0\x40\0\xef\0\0\0\x67\x80\0\0");
/// A `ret`, and the address of one behind it.
const TAKEN_APART: Image =
    code_and_data!(8, 8 => 0x2020; b"\x67\x80\0\0\x67\x80\0\0"; b"\x04\x10\x01\0\0\0\0\0");
/// Each `ret` by itself, and the address of the second.
const ALL_APART: Image =
    code_and_data!(12, 8 => 0x2020; b"\x67\x80\0\0\x67\x80\0\0\x67\x80\0\0"; b"\x04\x10\x01\0\0\0\0\0");

/// Equal functions of which one is kept apart by its name; the names of LOCAL symbols are none.
pub const NAMED_APART: &[Link] = &[
    // A `ret`, and its address.
    link!("-s", "--icf", "all", "taken.o" => code_and_data!(4, 8 => 0x2020; b"\x67\x80\0\0"; b"\x00\x10\x01\0\0\0\0\0"); store: Store::Folded),
    link!("-s", "--icf", "all", "--keep-unique", "nowhere,g", "taken.o" => TAKEN_APART; store: Store::Folded),
    link!("-s", "--icf", "all", "--keep-unique", "g,also_g", "taken.o" => TAKEN_APART; store: Store::Folded),
    link!("-s", "--icf", "safe", "--keep-unique", "h", "taken.o" => ALL_APART; store: Store::Folded),
    link!("-s", "--icf", "all", "--keep-unique", "f,g", "returns.o", "pair.o", "pair.o" => RETURN_AND_PAIR; store: Store::Folded),
    link!("-s", "--gc-sections", "--undefined", "f,g", "returns.o", "pair.o" => RETURN_ALONE; store: Store::Folded),
];

/// Equal functions of which the address of one is taken: by each kind of relocation but branches, jumps, calls and lower halves.
pub const TAKEN: &[Link] = &[
    link!("-s", "--icf", "safe", "taken.o" => TAKEN_APART; store: Store::Folded),
    // A `ret`, one after it, and data that is nothing, or the distance to the second.
    link!("-s", "--icf", "safe", "none.o" => code_and_data!(8, 8 => 0x2020; b"\x67\x80\0\0\x67\x80\0\0"; b"\0\0\0\0\0\0\0\0"); store: Store::Folded),
    link!("-s", "--icf", "safe", "distance.o" =>
        code_and_data!(8, 8 => 0x2020; b"\x67\x80\0\0\x67\x80\0\0"; b"\x04\xf0\xff\xff\0\0\0\0"); store: Store::Folded),
    // Two `ret`, and the distance of the second from the first.
    link!("-s", "--icf", "safe", "uleb.o" =>
        code_and_data!(12, 8 => 0x2020; b"\x67\x80\0\0\x67\x80\0\0\x67\x80\0\0"; b"\x04\0\0\0\0\0\0\0"); store: Store::Folded),
    // Two `ret`, and half of the distance to the linker's table, which has the address of the second.
    link!("-s", "--icf", "safe", "table.o" => image!(ALL_APART =>
        contents: &[(0x1000, b"\x67\x80\0\0\x67\x80\0\0\x17\x15\0\0"), (0x2000, b"\x04\x10\x01\0\0\0\0\0"), (0x2008, b"\0.text\0.got\0.shstrtab\0")],
        sections: &[[1, 1, 6, 0x11000, 0x1000, 12, 4], [7, 1, 3, 0x12000, 0x2000, 8, 8], [12, 3, 0, 0, 0x2008, 22, 1]]); store: Store::Folded),
    // Two `ret`, and the address of the second.
    link!("-s", "--icf", "safe", "halves.o" => code!(16 => 0x1028; b"\x67\x80\0\0\x67\x80\0\0\x17\x05\0\0\x13\x05\xc5\xff"); store: Store::Folded),
    // A jump to each of two, and the address of the second.
    link!("-s", "--icf", "safe", "idle.o" =>
        code_and_data!(16, 8 => 0x2020; b"\xef\0\x80\0\xef\0\x80\0\x67\x80\0\0\x67\x80\0\0"; b"\x0c\x10\x01\0\0\0\0\0"); store: Store::Folded),
];

/// What takes no address: a branch, what is not in memory or left out, the entry, and a name that the command asks for.
pub const NOT_TAKEN: &[Link] = &[
    // A branch to a `ret` before it.
    link!("-s", "--icf", "safe", "branch.o" => code!(8 => 0x1020; b"\x67\x80\0\0\xe3\x0e\0\xfe"); store: Store::Folded),
    link!("-s", "--icf", "safe", "notes.o" => RETURN_ALONE; store: Store::Folded),
    // Two jumps to one `ret`.
    link!("-s", "--icf", "safe", "--gc-sections", "idle.o" => code!(12 => 0x1020; b"\xef\0\x80\0\xef\0\x40\0\x67\x80\0\0"); store: Store::Folded),
    link!("-s", "--icf", "safe", "-e", "h", "notes.o" => RETURN_ALONE; store: Store::Folded),
    link!("-s", "--icf", "safe", "--undefined", "h", "notes.o" => RETURN_ALONE; store: Store::Folded),
];

/// Functions that call each other, or themselves.
pub const TOGETHER: &[Link] = &[
    link!("-s", "--icf", "all", "pairs.o" => ONE_PAIR; store: Store::Folded),
    link!("-s", "pairs.o" => TWO_PAIRS; store: Store::Folded),
    link!("-s", "--icf", "none", "pairs.o" => TWO_PAIRS; store: Store::Folded),
    link!("-s", "--icf", "all", "-e", "f2", "pairs.o" => image!(ONE_PAIR => entry: 0x11004); store: Store::Folded),
    link!("-s", "--icf", "all", "--gc-sections", "pairs.o" => ONE_PAIR; store: Store::Folded),
    link!("-s", "--icf", "all", "returns.o", "pair.o", "pair.o" => RETURN_AND_PAIR; store: Store::Folded),
    link!("-s", "--icf", "all", "first.o" => CALLS_ITSELF; store: Store::Folded),
    link!("-s", "--icf", "all", "itself.o" => CALLS_ITSELF; store: Store::Folded),
];

/// Why functions are not folded, whether folding is asked for or not: pairs of them to one that differs, or that they are folded or may not be.
pub const WHY: &[Link] = &[
    link!("-s", "--icf", "all", "--why-apart", "f1,f2", "pairs.o" => ONE_PAIR; store: Store::Folded, said: "same f1 f2\n"),
    link!("-s", "--why-apart", "f1,f2", "pairs.o" => TWO_PAIRS; store: Store::Folded, said: "same f1 f2\n"),
    link!("-s", "--why-apart", "f1,f1", "pairs.o" => TWO_PAIRS; store: Store::Folded, said: "same f1 f1\n"),
    link!("-s", "--why-apart=f1,g1", "pairs.o" => TWO_PAIRS; store: Store::Folded, said: "apart f1 g1\npair pairs.o 2 pairs.o 3\ndiffer key\n"),
    link!("-s", "--icf", "all", "--keep-unique", "g2", "--why-apart", "f1,f2", "pairs.o" => TWO_PAIRS; store: Store::Folded,
        said: "apart f1 f2\npair pairs.o 2 pairs.o 4\ndiffer target 0\n"),
    link!("-s", "--keep-unique", "f2", "--why-apart", "f1,f2", "pairs.o" => TWO_PAIRS; store: Store::Folded, said: "unfoldable f2\n"),
    link!("-s", "--icf", "safe", "--why-apart", "g,h", "taken.o" => TAKEN_APART; store: Store::Folded, said: "unfoldable g\n"),
    link!("-s", "--icf", "safe", "--why-apart", "_start,h", "taken.o" => TAKEN_APART; store: Store::Folded, said: "same _start h\n"),
    link!("-s", "--why-apart", "f1,nowhere", "--why-live", "g2", "pairs.o" => TWO_PAIRS; store: Store::Folded,
        said: "live g2\nroot pairs.o 1 .text\nto pairs.o 4 .text.f2\nto pairs.o 5 .text.g2\nunknown nowhere\n"),
];

/// What is equal, and what is not.
pub const EQUAL: &[Link] = &[
    // Eleven of the fourteen.
    link!("-s", "--icf", "all", "apart.o" => image!(FIRST => table: 0x1058,
        segments: &[READ, [1, 5, 0x1000, 0x11000, 48, 48, 4096], STACK],
        contents: &[(0x1000, b"\x67\x80\0\0"), (0x1008, b"\x67\x80\0\0\x67\x80\0\0\x67\x80\0\0\x67\x80\0\0\x67\x80\0\0"),
            (0x101c, b"\x67\x80\0\0\x67\x80\0\0"), (0x1024, b"\x67\x80\0\0\x67\x80\0\0"), (0x102c, b"\x67\x80\0\0"),
            (0x1030, b"\0.text\0.fini\0code\0.other\0.shstrtab\0")],
        sections: &[[1, 1, 6, 0x11000, 0x1000, 28, 8], [7, 1, 6, 0x1101c, 0x101c, 8, 4], [13, 1, 6, 0x11024, 0x1024, 8, 4],
            [18, 1, 6, 0x1102c, 0x102c, 4, 4], [25, 3, 0, 0, 0x1030, 35, 1]]); store: Store::Folded),
    // Four of the six jumps.
    link!("-s", "--icf", "all", "named.o" =>
        code!(32 => 0x1038; b"\xef\0\0\x01\x67\x80\0\0\x67\x80\0\0\x73\0\x10\0\xef\xf0\x9f\xff\xef\xf0\x9f\xff\xef\xf0\x1f\xff\xef\xf0\x1f\xff");
        store: Store::Folded),
    // A string, and a function with its address.
    link!("-s", "--icf", "all", "ask.o", "say.o", "say.o" => image!(FIRST => table: 0x1030,
        segments: &[[1, 4, 0, 0x10000, 0xeb, 0xeb, 4096], [1, 5, 0x1000, 0x11000, 16, 16, 4096], STACK],
        contents: &[(0xe8, b"hi"), (0x1000, b"\xef\0\x40\0\x17\xf5\xff\xff\x13\x05\x45\x0e\x67\x80\0\0"), (0x1010, b"\0.rodata\0.text\0.shstrtab\0")],
        sections: &[[1, 1, 2, 0x100e8, 0xe8, 3, 1], [9, 1, 6, 0x11000, 0x1000, 16, 4], [15, 3, 0, 0, 0x1010, 25, 1]]); store: Store::Folded),
    // Two strings, and a function with the address of each.
    link!("-s", "--icf", "all", "ask.o", "say.o", "sing.o" => image!(FIRST => table: 0x1038,
        segments: &[[1, 4, 0, 0x10000, 0xee, 0xee, 4096], [1, 5, 0x1000, 0x11000, 28, 28, 4096], STACK],
        contents: &[(0xe8, b"hi\0ho"), (0x1000, b"\xef\0\x40\0\x17\xf5\xff\xff\x13\x05\x45\x0e\x67\x80\0\0"),
            (0x1010, b"\x17\xf5\xff\xff\x13\x05\xb5\x0d\x67\x80\0\0"), (0x101c, b"\0.rodata\0.text\0.shstrtab\0")],
        sections: &[[1, 1, 2, 0x100e8, 0xe8, 6, 1], [9, 1, 6, 0x11000, 0x1000, 28, 4], [15, 3, 0, 0, 0x101c, 25, 1]]); store: Store::Folded),
];

/// How many functions call the next one, where the last calls none.
const CALLERS: usize = 1000;
/// How many do so where the last calls the first.
const ROUND: usize = 1000;

/// A function that jumps to the second symbol.
const CALLER: Section = section!(JUMPS => relocs: &[TO_SECOND]);

/// The name of one of the functions in a row; the first begins the program.
fn name_of(alloc: Global, number: usize) -> Result<String, AllocError> {
    if number == 0 {
        "_start".to_string(alloc)
    } else {
        number.to_string(alloc)
    }
}

/// Adds a file of one function, which calls another by its name.
fn push_caller(
    files: &mut Files,
    alloc: Global,
    number: usize,
    called: usize,
) -> Result<(), AllocError> {
    let own = name_of(alloc, number)?;
    let other = name_of(alloc, called)?;
    let bytes = caller_of(alloc, own.as_bytes(), other.as_bytes())?;
    files.push((own, bytes))?;
    Ok(())
}

/// An object of one function, which calls another by its name.
fn caller_of<'n>(alloc: Global, own: &'n [u8], other: &'n [u8]) -> Result<Vec<u8>, AllocError> {
    let symbols = [
        symbol!(START => name: own),
        symbol!(START => name: other, sort: 0, section: 0, size: 0),
    ];
    let object = record!(Object; flags: 0, sections: &[CALLER], symbols: &symbols);
    object_of(alloc, &object)
}

/// Adds a file of one function that calls none.
fn push_last(files: &mut Files, alloc: Global, number: usize) -> Result<(), AllocError> {
    let own = name_of(alloc, number)?;
    let symbols = [symbol!(START => name: own.as_bytes())];
    let object = record!(Object; flags: 0, sections: &[RETURN], symbols: &symbols);
    let bytes = object_of(alloc, &object)?;
    files.push((own, bytes))?;
    Ok(())
}

/// Functions that each call the next one; the last calls none.
fn chain(alloc: Global) -> Result<Files, AllocError> {
    let mut files = Vec::new(alloc);
    for number in 0..CALLERS {
        push_caller(&mut files, alloc, number, number.wrapping_add(1))?;
    }
    push_last(&mut files, alloc, CALLERS)?;
    Ok(files)
}

/// Functions that each call the next one; the last calls the first.
fn ring(alloc: Global) -> Result<Files, AllocError> {
    let mut files = Vec::new(alloc);
    for number in 0..ROUND {
        push_caller(&mut files, alloc, number, number.wrapping_add(1) % ROUND)?;
    }
    Ok(files)
}

/// The words that fold all these files.
fn words_of_all(
    alloc: Global,
    files: &[(String, Vec<u8>)],
    workers: &[&str],
) -> Result<Vec<String>, AllocError> {
    let mut words = words_of(alloc, &["rvld", "-s", "--icf", "all"], workers)?;
    for file in files {
        words.push(file.0.clone()?)?;
    }
    Ok(words)
}

/// Whether all these files, folded, are an executable.
fn is_folded<R: Threads + Sync>(
    rt: &R,
    alloc: Global,
    files: Files,
    workers: &[&str],
    image: &Image,
) -> Result<bool, AllocError> {
    let words = words_of_all(alloc, files.as_slice(), workers)?;
    let left = run_over(rt, alloc, words.as_slice(), files, &SOUND, &OpenGate)?;
    let whole = image_of(alloc, image)?;
    Ok(left.status == 0 && left.depot.bytes("a.out") == Some(whole.as_slice()))
}

/// What the functions of the chain are when none is folded, and the names of the sections after them.
fn chain_code(alloc: Global) -> Result<Vec<u8>, AllocError> {
    let mut code = Vec::new(alloc);
    for _ in 0..CALLERS {
        code.extend_from_slice(b"\xef\0\x80\0\x67\x80\0\0")?;
    }
    code.extend_from_slice(b"\x67\x80\0\0")?;
    code.extend_from_slice(NAMES)?;
    Ok(code)
}

/// The executable of the chain, of which these are the functions and the names of the sections.
fn chain_image<'x>(contents: &'x [(usize, &'x [u8])]) -> Image<'x> {
    image!(; entry: 0x11000, flags: 0, table: 0x2f58, listed: None,
        segments: &[READ, [1, 5, 0x1000, 0x11000, 8004, 8004, 4096], STACK],
        contents: contents,
        sections: &[[1, 1, 6, 0x11000, 0x1000, 8004, 4], [7, 3, 0, 0, 0x2f44, 17, 1]])
}

/// The executable of the ring: one function, which calls itself.
const RING: Image = code!(8 => 0x1020; b"\xef\0\0\0\x67\x80\0\0");

#[test]
fn a_chain_of_calls_is_not_folded(rt: HostRuntime) -> Result<(), Fail> {
    let alloc = rt.alloc();
    let code = chain_code(alloc)?;
    let contents = [(0x1000usize, code.as_slice())];
    let image = chain_image(&contents);
    for workers in WORKERS {
        let files = chain(alloc)?;
        assert!(rt; is_folded(&rt, alloc, files, workers, &image)?);
    }
    Ok(())
}

#[test]
fn a_ring_of_calls_is_folded_to_one(rt: HostRuntime) -> Result<(), Fail> {
    let alloc = rt.alloc();
    for workers in WORKERS {
        let files = ring(alloc)?;
        assert!(rt; is_folded(&rt, alloc, files, workers, &RING)?);
    }
    Ok(())
}
