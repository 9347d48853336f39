//! Unwind records (LSB Core, "Exception Frames"): which are written and where, the table of functions before them, what stands for their start,
//! what they keep, what of them is not defined or does not fit, which functions they keep apart, and records that are refused.

use elf_bytes::{Image, Section, data, image, listed, object, reloc, section, symbol, text};
use link_examples::images::{FIRST, RETURN_ALONE, STACK};
use link_examples::objects::{Input, RETURN, START};
use link_examples::{
    Files, Link, Refusal, Store, code_and_data, inputs, link, objects_of, push_objects, refusal,
};
use std::alloc::{AllocError, Global};

/// A section of unwind records: its bytes, and its relocations.
macro_rules! frames {
    ($bytes:expr $(; $($reloc:expr),+)?) => {
        section!(b".eh_frame", 1, 2, 8; $bytes; relocs: &[$($($reloc),+)?])
    };
}

/// An executable of code with its unwind records and their table, which stands at 0x120: the size of the code, the end of what is read, and the
/// offset of the section headers; the size of the table, and the offset and the size of the records; the table, the records, and the code.
macro_rules! unwound {
    ($size:literal, $end:literal => $headers:literal; $table_size:literal, $at:literal, $records_size:literal; $table:expr; $records:expr; $code:expr) => {
        image!(FIRST => table: $headers,
            segments: &[[1, 4, 0, 0x10000, $end, $end, 4096], [1, 5, 0x1000, 0x11000, $size, $size, 4096],
                [0x6474_e550, 4, 0x120, 0x10120, $table_size, $table_size, 4], STACK],
            contents: &[(0x120, $table), ($at, $records), (0x1000, $code), (0x1000 + $size, b"\0.eh_frame_hdr\0.eh_frame\0.text\0.shstrtab\0")],
            sections: &[[1, 1, 2, 0x10120, 0x120, $table_size, 4], [15, 1, 2, 0x10000 + $at, $at, $records_size, 8],
                [25, 1, 6, 0x11000, 0x1000, $size, 4], [31, 3, 0, 0, 0x1000 + $size, 41, 1]])
    };
}

/// A CIE and an FDE of four bytes of code.
const RECORDS: &[u8] =
    b"\x10\0\0\0\0\0\0\0\x01zR\0\x01|\x01\x01\x1b\x0c\x02\0\x10\0\0\0\x18\0\0\0\0\0\0\0\x04\0\0\0\0\0\0\0";

/// A CIE and an FDE of eight bytes of code.
const LONGER_RECORDS: &[u8] =
    b"\x10\0\0\0\0\0\0\0\x01zR\0\x01|\x01\x01\x1b\x0c\x02\0\x10\0\0\0\x18\0\0\0\0\0\0\0\x08\0\0\0\0\0\0\0";

/// A CIE with a routine for exceptions, and an FDE with a table for it.
const RECORDS_WITH_TABLE: &[u8] =
    b"\x14\0\0\0\0\0\0\0\x01zPLR\0\x01x\x01\x07\x9b\x1b\0\0\0\0\x14\0\0\0\x1c\0\0\0\0\0\0\0\x04\0\0\0\0\0\0\0\0\0\0\0";

/// The records of the first section.
const OF_ONE: Section = frames!(RECORDS; reloc!(28, 57, 1, 0));

const WRITTEN_INPUTS: &[Input] = inputs!(
    // A CIE and an FDE of the first link's function.
    "e.o" => object!([
        text!(b"\xef\0\0\0g\x80\0\0"; reloc!(0, 17, 2, 0)), frames!(LONGER_RECORDS; reloc!(28, 57, 1, 0)),
    ]; [START, symbol!(b"f", 1, 2, 1, 4, 4)]),
    // An FDE that is longer than its section.
    "long.o" => object!([
        text!(b"\xef\0\0\0g\x80\0\0"; reloc!(0, 17, 2, 0)),
        frames!(b"\x10\0\0\0\0\0\0\0\x01zR\0\x01|\x01\x01\x1b\x0c\x02\0 \0\0\0\x18\0\0\0\0\0\0\0\x08\0\0\0\0\0\0\0"; reloc!(28, 57, 1, 0)),
    ]; [START, symbol!(b"f", 1, 2, 1, 4, 4)]),
    // A CIE and an FDE of `_start`.
    "one.o" => object!([RETURN, OF_ONE]; [START]),
    // A CIE and an FDE of `g`.
    "g.o" => object!([RETURN, OF_ONE]; [symbol!(b"g", 1, 2, 1, 0, 4)]),
    // A CIE and an FDE of a function that stands after all others.
    "fini.o" => object!([section!(b".fini", 1, 6, 4; b"g\x80\0\0"), OF_ONE]; [symbol!(b"g", 1, 2, 1, 0, 4)]),
    // The address of the section of unwind records.
    "start.o" => object!([text!(b"\xef\0\0\0g\x80\0\0"; reloc!(0, 17, 3, 0)), frames!(LONGER_RECORDS; reloc!(28, 57, 2, 0)),
        data!(b"\0\0\0\0\0\0\0\0"; reloc!(0, 2, 1, 0))]; [symbol!(b"", 0, 3, 2, 0, 0), START, symbol!(b"f", 1, 2, 1, 4, 4)]),
    // A symbol at 4 in that section: a number.
    "later.o" => object!([text!(b"\xef\0\0\0g\x80\0\0"; reloc!(0, 17, 3, 0)), frames!(LONGER_RECORDS; reloc!(28, 57, 2, 0)),
        data!(b"\0\0\0\0\0\0\0\0"; reloc!(0, 2, 1, 0))]; [symbol!(b".L0", 0, 0, 2, 4, 0), START, symbol!(b"f", 1, 2, 1, 4, 4)]),
    // A section that has nothing but the end of its list, and its address.
    "none.o" => object!([RETURN, frames!(b"\0\0\0\0"), data!(b"\0\0\0\0\0\0\0\0"; reloc!(0, 2, 1, 0))]; [symbol!(b"", 0, 3, 2, 0, 0), START]),
    // A name for the start of the records.
    "named.o" => object!([RETURN, OF_ONE]; [START, symbol!(b"all", 1, 1, 2, 0, 40)]),
    // Another file's word of it.
    "asks.o" => object!([data!(b"\0\0\0\0\0\0\0\0"; reloc!(0, 2, 1, 0))]; [symbol!(b"all", 1, 0, 0, 0, 0)]),
);

const KEPT_INPUTS: &[Input] = inputs!(
    // `_start`, which calls `g`; `h`; the tables of exceptions of both, and the routine that reads them.
    "gc.o" => object!([
        text!(b"\xef\0\0\0"; reloc!(0, 17, 3, 0)), section!(b".text.g", 1, 6, 4; b"g\x80\0\0"), section!(b".text.h", 1, 6, 4; b"s\0\x10\0"),
        section!(b".gcc_except_table.g", 1, 2, 1; b"gggg"), section!(b".gcc_except_table.h", 1, 2, 1; b"hhhh"),
        section!(b".text.p", 1, 6, 4; b"\x01\0\x82\x80"),
        frames!(
            b"\x14\0\0\0\0\0\0\0\x01zPLR\0\x01x\x01\x07\x9b\x1b\0\0\0\0\x14\0\0\0\x1c\0\0\0\0\0\0\0\x04\0\0\0\0\0\0\0\0\0\0\0\x14\0\0\04\0\0\0\0\0\0\0\x04\0\0\0\0\0\0\0\0\0\0\0";
            reloc!(20, 57, 5, 0), reloc!(32, 57, 3, 0), reloc!(40, 57, 1, 0), reloc!(56, 57, 4, 0), reloc!(64, 57, 2, 0)),
    ]; [symbol!(b"", 0, 3, 4, 0, 0), symbol!(b"", 0, 3, 5, 0, 0), symbol!(b"g", 1, 2, 2, 0, 4), symbol!(b"h", 1, 2, 3, 0, 4),
        symbol!(b"p", 1, 2, 6, 0, 4), START]),
    // An FDE of `h`, which nothing refers to, and its CIE refer to what is not defined.
    "lost.o" => object!([
        RETURN, section!(b".text.h", 1, 6, 4; b"s\0\x10\0"),
        frames!(RECORDS_WITH_TABLE; reloc!(20, 57, 3, 0), reloc!(32, 57, 2, 0), reloc!(40, 57, 3, 0)),
    ]; [START, symbol!(b"h", 1, 2, 2, 0, 4), symbol!(b"k", 1, 0, 0, 0, 0)]),
    // An FDE of `_start` does.
    "lack.o" => object!([RETURN, frames!(RECORDS_WITH_TABLE; reloc!(32, 57, 1, 0), reloc!(40, 57, 2, 0))]; [START, symbol!(b"k", 1, 0, 0, 0, 0)]),
    // Its CIE does.
    "lackcie.o" => object!([RETURN, frames!(RECORDS_WITH_TABLE; reloc!(20, 57, 2, 0), reloc!(32, 57, 1, 0))]; [START, symbol!(b"k", 1, 0, 0, 0, 0)]),
    // A CIE that no FDE uses does.
    "idle.o" => object!([
        RETURN,
        frames!(
            b"\x14\0\0\0\0\0\0\0\x01zPLR\0\x01x\x01\x07\x9b\x1b\0\0\0\0\x10\0\0\0\0\0\0\0\x01zR\0\x01|\x01\x01\x1b\x0c\x02\0\x10\0\0\0\x18\0\0\0\0\0\0\0\x04\0\0\0\0\0\0\0";
            reloc!(20, 57, 2, 0), reloc!(52, 57, 1, 0)),
    ]; [START, symbol!(b"k", 1, 0, 0, 0, 0)]),
    // A distance that is too long, in the first section, and a jump that is, in the second.
    "wide.o" => object!([
        frames!(RECORDS; reloc!(28, 57, 1, 0x80000000)), text!(b"\xef\0\0\0"; reloc!(0, 17, 1, 0x200000)),
    ]; [symbol!(b"_start", 1, 2, 2, 0, 4)]),
    // The two the other way round.
    "far.o" => object!([text!(b"\xef\0\0\0"; reloc!(0, 17, 1, 0x200000)), frames!(RECORDS; reloc!(28, 57, 1, 0x80000000))]; [START]),
    // The distance alone.
    "out.o" => object!([RETURN, frames!(RECORDS; reloc!(28, 57, 1, 0x80000000))]; [START]),
);

const FOLDED_INPUTS: &[Input] = inputs!(
    // Two functions of the same bytes, with FDEs of the same bytes.
    "same.o" => object!([
        text!(b"\xef\0\0\0\xef\0\0\0"; reloc!(0, 17, 1, 0), reloc!(4, 17, 2, 0)), section!(b".text.f", 1, 6, 4; b"g\x80\0\0"),
        section!(b".text.g", 1, 6, 4; b"g\x80\0\0"),
        frames!(
            b"\x10\0\0\0\0\0\0\0\x01zR\0\x01|\x01\x01\x1b\x0c\x02\0\x10\0\0\0\x18\0\0\0\0\0\0\0\x04\0\0\0\0\0\0\0\x10\0\0\0,\0\0\0\0\0\0\0\x04\0\0\0\0\0\0\0";
            reloc!(28, 57, 1, 0), reloc!(48, 57, 2, 0)),
    ]; [symbol!(b"f", 1, 2, 2, 0, 4), symbol!(b"g", 1, 2, 3, 0, 4), START]),
    // With FDEs of different bytes.
    "unlike.o" => object!([
        text!(b"\xef\0\0\0\xef\0\0\0"; reloc!(0, 17, 1, 0), reloc!(4, 17, 2, 0)), section!(b".text.f", 1, 6, 4; b"g\x80\0\0"),
        section!(b".text.g", 1, 6, 4; b"g\x80\0\0"),
        frames!(
            b"\x10\0\0\0\0\0\0\0\x01zR\0\x01|\x01\x01\x1b\x0c\x02\0\x10\0\0\0\x18\0\0\0\0\0\0\0\x04\0\0\0\0\0\0\0\x10\0\0\0,\0\0\0\0\0\0\0\x04\0\0\0\x01\0\0\0";
            reloc!(28, 57, 1, 0), reloc!(48, 57, 2, 0)),
    ]; [symbol!(b"f", 1, 2, 2, 0, 4), symbol!(b"g", 1, 2, 3, 0, 4), START]),
    // With CIEs that refer to different bytes.
    "cies.o" => object!([
        text!(b"\xef\0\0\0\xef\0\0\0"; reloc!(0, 17, 1, 0), reloc!(4, 17, 2, 0)), section!(b".text.f", 1, 6, 4; b"g\x80\0\0"),
        section!(b".text.g", 1, 6, 4; b"g\x80\0\0"),
        frames!(
            b"\x14\0\0\0\0\0\0\0\x01zPLR\0\x01x\x01\x07\x9b\x1b\0\0\0\0\x10\0\0\0\x1c\0\0\0\0\0\0\0\x04\0\0\0\0\0\0\0\x14\0\0\0\0\0\0\0\x01zPLR\0\x01x\x01\x07\x9b\x1b\0\0\0\0\x10\0\0\0\x1c\0\0\0\0\0\0\0\x04\0\0\0\0\0\0\0";
            reloc!(20, 57, 3, 0), reloc!(32, 57, 1, 0), reloc!(64, 57, 3, 1), reloc!(76, 57, 2, 0)),
    ]; [symbol!(b"f", 1, 2, 2, 0, 4), symbol!(b"g", 1, 2, 3, 0, 4), START]),
    // A function with its records, and a call of another.
    "first.o" => object!([text!(b"\xef\0\0\0\xef\0\0\0"; reloc!(0, 17, 1, 0), reloc!(4, 17, 2, 0)), section!(b".text.f", 1, 6, 4; b"g\x80\0\0"),
        OF_ONE]; [symbol!(b"f", 1, 2, 2, 0, 4), symbol!(b"g", 1, 0, 0, 0, 0), START]),
    // The other, of the same bytes.
    "second.o" => object!([section!(b".text.g", 1, 6, 4; b"g\x80\0\0"), OF_ONE]; [symbol!(b"g", 1, 2, 1, 0, 4)]),
);

const REFUSED_INPUTS: &[Input] = inputs!(
    // A call in a record.
    "call.o" => object!([RETURN, frames!(RECORDS; reloc!(28, 57, 1, 0), reloc!(32, 18, 1, 0))]; [START]),
    // An alignment in a record.
    "align.o" => object!([RETURN, frames!(RECORDS; reloc!(28, 57, 1, 0), reloc!(32, 43, 1, 0))]; [START]),
    // A ULEB128 number in a record.
    "uleb.o" => object!([RETURN, frames!(RECORDS; reloc!(28, 57, 1, 0), reloc!(32, 60, 1, 0))]; [START]),
    // A section of the name of the table of functions.
    "header.o" => object!([RETURN, section!(b".eh_frame_hdr", 1, 2, 4; b"\0\0\0\0")]; [START]),
    // A record that is cut off, and a function that is chosen at run time.
    "ifunc.o" => object!([RETURN, frames!(b"\x10")]; [START, symbol!(b"i", 1, 10, 1, 0, 4)]),
    // A record that is cut off.
    "cut.o" => object!([RETURN, frames!(b"\x10")]; [START]),
    // A compressed section.
    "comp.o" => object!([section!(b".text", 1, 0x806, 4; b"g\x80\0\0")]; [symbol!(b"x", 1, 2, 1, 0, 4)]),
    // A relocation that leads past its record.
    "stray.o" => object!([
        RETURN,
        frames!(
            b"\x10\0\0\0\0\0\0\0\x01zR\0\x01|\x01\x01\x1b\x0c\x02\0\x10\0\0\0\x18\0\0\0\0\0\0\0\x04\0\0\0\0\0\0\0\0\0\0\0";
            reloc!(28, 57, 1, 0), reloc!(36, 2, 1, 0)),
    ]; [START]),
    // One that stands after the end of the list.
    "after.o" => object!([
        RETURN,
        frames!(
            b"\x10\0\0\0\0\0\0\0\x01zR\0\x01|\x01\x01\x1b\x0c\x02\0\x10\0\0\0\x18\0\0\0\0\0\0\0\x04\0\0\0\0\0\0\0\0\0\0\0\0\0\0\0";
            reloc!(28, 57, 1, 0), reloc!(43, 33, 1, 0)),
    ]; [START]),
    // An FDE that does not begin with the distance to its function.
    "kind.o" => object!([RETURN, frames!(RECORDS; reloc!(28, 2, 1, 0))]; [START]),
    // An FDE that leads to no CIE.
    "back.o" => object!([
        RETURN, frames!(b"\x10\0\0\0\0\0\0\0\x01zR\0\x01|\x01\x01\x1b\x0c\x02\0\x10\0\0\0\x14\0\0\0\0\0\0\0\x04\0\0\0\0\0\0\0"; reloc!(28, 57, 1, 0)),
    ]; [START]),
);

/// The files that are at hand. Each list has a function of its own, since what a function holds is proved in one go.
pub fn files(alloc: Global) -> Result<Files, AllocError> {
    let mut files = objects_of(alloc, WRITTEN_INPUTS)?;
    push_kept(&mut files, alloc)?;
    push_folded(&mut files, alloc)?;
    push_refused(&mut files, alloc)?;
    Ok(files)
}

fn push_kept(files: &mut Files, alloc: Global) -> Result<(), AllocError> {
    push_objects(files, alloc, KEPT_INPUTS)
}

fn push_folded(files: &mut Files, alloc: Global) -> Result<(), AllocError> {
    push_objects(files, alloc, FOLDED_INPUTS)
}

fn push_refused(files: &mut Files, alloc: Global) -> Result<(), AllocError> {
    push_objects(files, alloc, REFUSED_INPUTS)
}

/// A table of one function, and its records.
const UNWOUND: Image = unwound!(8, 356 => 0x1038; 20, 0x138, 44;
    b"\x01\x1b\x03;\x14\0\0\0\x01\0\0\0\xe0\x0e\0\0,\0\0\0";
    b"\x10\0\0\0\0\0\0\0\x01zR\0\x01|\x01\x01\x1b\x0c\x02\0\x10\0\0\0\x18\0\0\0\xac\x0e\0\0\x08\0\0\0\0\0\0\0\0\0\0\0";
    b"\xef\0@\0g\x80\0\0");

/// A word of the start of the records.
const START_MEANT: Image = image!(FIRST => table: 0x2038,
    segments: &[[1, 4, 0, 0x10000, 412, 412, 4096], [1, 5, 0x1000, 0x11000, 8, 8, 4096], [1, 6, 0x2000, 0x12000, 8, 8, 4096],
        [0x6474_e550, 4, 0x158, 0x10158, 20, 20, 4], STACK],
    contents: &[(0x158, b"\x01\x1b\x03;\x14\0\0\0\x01\0\0\0\xa8\x0e\0\0,\0\0\0"),
        (0x170, b"\x10\0\0\0\0\0\0\0\x01zR\0\x01|\x01\x01\x1b\x0c\x02\0\x10\0\0\0\x18\0\0\0t\x0e\0\0\x08\0\0\0\0\0\0\0\0\0\0\0"),
        (0x1000, b"\xef\0@\0g\x80\0\0"), (0x2000, b"p\x01\x01\0\0\0\0\0"), (0x2008, b"\0.eh_frame_hdr\0.eh_frame\0.text\0.data\0.shstrtab\0")],
    sections: &[[1, 1, 2, 0x10158, 0x158, 20, 4], [15, 1, 2, 0x10170, 0x170, 44, 8], [25, 1, 6, 0x11000, 0x1000, 8, 4],
        [31, 1, 3, 0x12000, 0x2000, 8, 8], [37, 3, 0, 0, 0x2008, 47, 1]]);

/// One function, with one FDE.
const FOLDED_UNWOUND: Image = unwound!(12, 356 => 0x1038; 20, 0x138, 44;
    b"\x01\x1b\x03;\x14\0\0\0\x01\0\0\0\xe8\x0e\0\0,\0\0\0";
    b"\x10\0\0\0\0\0\0\0\x01zR\0\x01|\x01\x01\x1b\x0c\x02\0\x10\0\0\0\x18\0\0\0\xb4\x0e\0\0\x04\0\0\0\0\0\0\0\0\0\0\0";
    b"\xef\0\x80\0\xef\0@\0g\x80\0\0");

pub const WRITTEN: &[Link] = &[
    link!("-s", "e.o" => UNWOUND; store: Store::Unwound),
    // Two FDEs of one CIE.
    link!("-s", "one.o", "g.o" => unwound!(8, 384 => 0x1038; 28, 0x140, 64;
        b"\x01\x1b\x03;\x1c\0\0\0\x02\0\0\0\xe0\x0e\0\04\0\0\0\xe4\x0e\0\0H\0\0\0";
        b"\x10\0\0\0\0\0\0\0\x01zR\0\x01|\x01\x01\x1b\x0c\x02\0\x10\0\0\0\x18\0\0\0\xa4\x0e\0\0\x04\0\0\0\0\0\0\0\x10\0\0\0,\0\0\0\x94\x0e\0\0\x04\0\0\0\0\0\0\0\0\0\0\0";
        b"g\x80\0\0g\x80\0\0"); store: Store::Unwound),
    // The FDE of the later function stands first.
    link!("-s", "fini.o", "one.o" => image!(FIRST => table: 0x1038,
        segments: &[[1, 4, 0, 0x10000, 384, 384, 4096], [1, 5, 0x1000, 0x11000, 8, 8, 4096], [0x6474_e550, 4, 0x120, 0x10120, 28, 28, 4], STACK],
        contents: &[
            (0x120, b"\x01\x1b\x03;\x1c\0\0\0\x02\0\0\0\xe0\x0e\0\0H\0\0\0\xe4\x0e\0\04\0\0\0"),
            (0x140, b"\x10\0\0\0\0\0\0\0\x01zR\0\x01|\x01\x01\x1b\x0c\x02\0\x10\0\0\0\x18\0\0\0\xa8\x0e\0\0\x04\0\0\0\0\0\0\0\x10\0\0\0,\0\0\0\x90\x0e\0\0\x04\0\0\0\0\0\0\0\0\0\0\0"),
            (0x1000, b"g\x80\0\0"), (0x1004, b"g\x80\0\0"), (0x1008, b"\0.eh_frame_hdr\0.eh_frame\0.text\0.fini\0.shstrtab\0"),
        ],
        sections: &[[1, 1, 2, 0x10120, 0x120, 28, 4], [15, 1, 2, 0x10140, 0x140, 64, 8], [25, 1, 6, 0x11000, 0x1000, 4, 4],
            [31, 1, 6, 0x11004, 0x1004, 4, 4], [37, 3, 0, 0, 0x1008, 47, 1]]); store: Store::Unwound),
    link!("-s", "start.o" => START_MEANT; store: Store::Unwound),
    // A word of 4.
    link!("-s", "later.o" => image!(FIRST => table: 0x2038,
        segments: &[[1, 4, 0, 0x10000, 412, 412, 4096], [1, 5, 0x1000, 0x11000, 8, 8, 4096], [1, 6, 0x2000, 0x12000, 8, 8, 4096],
            [0x6474_e550, 4, 0x158, 0x10158, 20, 20, 4], STACK],
        contents: &[(0x158, b"\x01\x1b\x03;\x14\0\0\0\x01\0\0\0\xa8\x0e\0\0,\0\0\0"),
            (0x170, b"\x10\0\0\0\0\0\0\0\x01zR\0\x01|\x01\x01\x1b\x0c\x02\0\x10\0\0\0\x18\0\0\0t\x0e\0\0\x08\0\0\0\0\0\0\0\0\0\0\0"),
            (0x1000, b"\xef\0@\0g\x80\0\0"), (0x2000, b"\x04\0\0\0\0\0\0\0"), (0x2008, b"\0.eh_frame_hdr\0.eh_frame\0.text\0.data\0.shstrtab\0")],
        sections: &[[1, 1, 2, 0x10158, 0x158, 20, 4], [15, 1, 2, 0x10170, 0x170, 44, 8], [25, 1, 6, 0x11000, 0x1000, 8, 4],
            [31, 1, 3, 0x12000, 0x2000, 8, 8], [37, 3, 0, 0, 0x2008, 47, 1]]); store: Store::Unwound),
    // Without an FDE the start is that of the image.
    link!("-s", "none.o" => code_and_data!(4, 8 => 0x2020; b"g\x80\0\0"; b"\0\0\x01\0\0\0\0\0"); store: Store::Unwound),
    // A name for the start of the records is one symbol, and no section's.
    link!("named.o", "asks.o" => image!(START_MEANT => table: 0x20a0,
        segments: &[[1, 4, 0, 0x10000, 412, 412, 4096], [1, 5, 0x1000, 0x11000, 4, 4, 4096], [1, 6, 0x2000, 0x12000, 8, 8, 4096],
            [0x6474_e550, 4, 0x158, 0x10158, 20, 20, 4], STACK],
        contents: &[(0x158, b"\x01\x1b\x03;\x14\0\0\0\x01\0\0\0\xa8\x0e\0\0,\0\0\0"),
            (0x170, b"\x10\0\0\0\0\0\0\0\x01zR\0\x01|\x01\x01\x1b\x0c\x02\0\x10\0\0\0\x18\0\0\0t\x0e\0\0\x04\0\0\0\0\0\0\0\0\0\0\0"),
            (0x1000, b"g\x80\0\0"), (0x2000, b"p\x01\x01\0\0\0\0\0")],
        listed: listed!(0x2008, b"\0_start\0all\0", b"\0.eh_frame_hdr\0.eh_frame\0.text\0.data\0.symtab\0.strtab\0.shstrtab\0";
            [1, 0x12, 3, 0x11000, 4], [8, 0x11, 0xfff1, 0x10170, 40]),
        sections: &[
            [1, 1, 2, 0x10158, 0x158, 20, 4], [15, 1, 2, 0x10170, 0x170, 44, 8], [25, 1, 6, 0x11000, 0x1000, 4, 4], [31, 1, 3, 0x12000, 0x2000, 8, 8],
            [37, 2, 0, 0, 0x2008, 72, 8], [45, 3, 0, 0, 0x2050, 12, 1], [53, 3, 0, 0, 0x205c, 63, 1],
        ]); store: Store::Unwound),
    // The CIE that no FDE uses is left out.
    link!("-s", "idle.o" => unwound!(4, 356 => 0x1030; 20, 0x138, 44;
        b"\x01\x1b\x03;\x14\0\0\0\x01\0\0\0\xe0\x0e\0\0,\0\0\0";
        b"\x10\0\0\0\0\0\0\0\x01zR\0\x01|\x01\x01\x1b\x0c\x02\0\x10\0\0\0\x18\0\0\0\xac\x0e\0\0\x04\0\0\0\0\0\0\0\0\0\0\0";
        b"g\x80\0\0"); store: Store::Unwound),
    link!("-s", "e.o", "--Map", "m" => UNWOUND; store: Store::Unwound, lines: &["rvld map 1", "entry 0000000000011000",
        "section 0000000000010120 0000000000000014 .eh_frame_hdr", "section 0000000000010138 000000000000002c .eh_frame",
        "section 0000000000011000 0000000000000008 .text", "input 0000000000011000 0000000000000008 e.o 1 .text", "symbol 0000000000011000 _start",
        "symbol 0000000000011004 f"]),
];

/// What records keep, and what they do not.
pub const COLLECTED: &[Link] = &[
    // All of them.
    link!("-s", "gc.o" => image!(FIRST => table: 0x1050,
        segments: &[[1, 4, 0, 0x10000, 404, 404, 4096], [1, 5, 0x1000, 0x11000, 16, 16, 4096], [0x6474_e550, 4, 0x128, 0x10128, 28, 28, 4], STACK],
        contents: &[
            (0x120, b"gggghhhh"), (0x128, b"\x01\x1b\x03;\x1c\0\0\0\x02\0\0\0\xdc\x0e\0\08\0\0\0\xe0\x0e\0\0P\0\0\0"),
            (0x148, b"\x14\0\0\0\0\0\0\0\x01zPLR\0\x01x\x01\x07\x9b\x1b\xb0\x0e\0\0\x14\0\0\0\x1c\0\0\0\x9c\x0e\0\0\x04\0\0\0\xb0\xff\xff\xff\0\0\0\0\x14\0\0\04\0\0\0\x88\x0e\0\0\x04\0\0\0\x9c\xff\xff\xff\0\0\0\0\0\0\0\0"),
            (0x1000, b"\xef\0@\0g\x80\0\0s\0\x10\0\x01\0\x82\x80"), (0x1010, b"\0.gcc_except_table\0.eh_frame_hdr\0.eh_frame\0.text\0.shstrtab\0"),
        ],
        sections: &[[1, 1, 2, 0x10120, 0x120, 8, 1], [19, 1, 2, 0x10128, 0x128, 28, 4], [33, 1, 2, 0x10148, 0x148, 76, 8],
            [43, 1, 6, 0x11000, 0x1000, 16, 4], [49, 3, 0, 0, 0x1010, 59, 1]]); store: Store::Unwound),
    // What is kept has its table, and the routine that reads it; the other function and its table are dropped.
    link!("-s", "--gc-sections", "gc.o" => image!(FIRST => table: 0x1048,
        segments: &[[1, 4, 0, 0x10000, 364, 364, 4096], [1, 5, 0x1000, 0x11000, 12, 12, 4096], [0x6474_e550, 4, 0x124, 0x10124, 20, 20, 4], STACK],
        contents: &[(0x120, b"gggg"), (0x124, b"\x01\x1b\x03;\x10\0\0\0\x01\0\0\0\xe0\x0e\0\0,\0\0\0"),
            (0x138, b"\x14\0\0\0\0\0\0\0\x01zPLR\0\x01x\x01\x07\x9b\x1b\xbc\x0e\0\0\x14\0\0\0\x1c\0\0\0\xac\x0e\0\0\x04\0\0\0\xc0\xff\xff\xff\0\0\0\0\0\0\0\0"),
            (0x1000, b"\xef\0@\0g\x80\0\0\x01\0\x82\x80"), (0x100c, b"\0.gcc_except_table\0.eh_frame_hdr\0.eh_frame\0.text\0.shstrtab\0")],
        sections: &[[1, 1, 2, 0x10120, 0x120, 4, 1], [19, 1, 2, 0x10124, 0x124, 20, 4], [33, 1, 2, 0x10138, 0x138, 52, 8],
            [43, 1, 6, 0x11000, 0x1000, 12, 4], [49, 3, 0, 0, 0x100c, 59, 1]]); store: Store::Unwound),
    link!("-s", "--gc-sections", "lost.o" => RETURN_ALONE; store: Store::Unwound),
];

/// Functions whose records differ are not folded.
pub const FOLDED: &[Link] = &[
    link!("-s", "--icf", "all", "same.o" => FOLDED_UNWOUND; store: Store::Unwound),
    // Both, with their FDEs.
    link!("-s", "--icf", "all", "unlike.o" => unwound!(16, 384 => 0x1040; 28, 0x140, 64;
        b"\x01\x1b\x03;\x1c\0\0\0\x02\0\0\0\xe8\x0e\0\04\0\0\0\xec\x0e\0\0H\0\0\0";
        b"\x10\0\0\0\0\0\0\0\x01zR\0\x01|\x01\x01\x1b\x0c\x02\0\x10\0\0\0\x18\0\0\0\xac\x0e\0\0\x04\0\0\0\0\0\0\0\x10\0\0\0,\0\0\0\x9c\x0e\0\0\x04\0\0\0\x01\0\0\0\0\0\0\0";
        b"\xef\0\x80\0\xef\0\x80\0g\x80\0\0g\x80\0\0"); store: Store::Unwound),
    // Both, with their CIEs.
    link!("-s", "--icf", "all", "cies.o" => unwound!(16, 412 => 0x1040; 28, 0x140, 92;
        b"\x01\x1b\x03;\x1c\0\0\0\x02\0\0\0\xe8\x0e\0\0P\0\0\0\xec\x0e\0\0d\0\0\0";
        b"\x14\0\0\0\0\0\0\0\x01zPLR\0\x01x\x01\x07\x9b\x1b\xac\x0e\0\0\x14\0\0\0\0\0\0\0\x01zPLR\0\x01x\x01\x07\x9b\x1b\x95\x0e\0\0\x10\0\0\04\0\0\0\x90\x0e\0\0\x04\0\0\0\0\0\0\0\x10\0\0\00\0\0\0\x80\x0e\0\0\x04\0\0\0\0\0\0\0\0\0\0\0";
        b"\xef\0\x80\0\xef\0\x80\0g\x80\0\0g\x80\0\0"); store: Store::Unwound),
    link!("-s", "--icf", "all", "first.o", "second.o" => FOLDED_UNWOUND; store: Store::Unwound),
];

/// What records refer to is not defined, or too far.
pub const LACKING_OR_FAR: &[Refusal] = &[
    refusal!("-s", "lost.o" => 1, 1, "F22 Undefined file=lost.o section=3 place=20 name=k other=0"; store: Store::Unwound),
    refusal!("-s", "lack.o" => 1, 1, "F22 Undefined file=lack.o section=2 place=40 name=k other=0"; store: Store::Unwound),
    refusal!("-s", "lackcie.o" => 1, 1, "F22 Undefined file=lackcie.o section=2 place=20 name=k other=0"; store: Store::Unwound),
    refusal!("-s", "wide.o" => 1, 1, "F24 Range file=wide.o section=1 place=28 name=_start other=2147487404"; store: Store::Unwound),
    refusal!("-s", "far.o" => 1, 1, "F24 Range file=far.o section=1 place=0 name=_start other=2097152"; store: Store::Unwound),
    refusal!("-s", "out.o" => 1, 1, "F24 Range file=out.o section=2 place=28 name=_start other=2147487404"; store: Store::Unwound),
];

/// Records that are wrong: they are the last defects of their file, and come before those of the next.
pub const WRONG: &[Refusal] = &[
    refusal!("-s", "long.o" => 1, 1, "F19 BadFrame file=long.o section=2 place=92 name= other=0"; store: Store::Unwound),
    refusal!("-s", "cut.o" => 1, 1, "F19 BadFrame file=cut.o section=2 place=72 name= other=0"; store: Store::Unwound),
    refusal!("-s", "kind.o" => 1, 1, "F19 BadFrame file=kind.o section=2 place=92 name= other=0"; store: Store::Unwound),
    refusal!("-s", "back.o" => 1, 1, "F19 BadFrame file=back.o section=2 place=92 name= other=0"; store: Store::Unwound),
    refusal!("-s", "stray.o" => 1, 1, "F19 BadFrame file=stray.o section=3 place=144 name= other=0"; store: Store::Unwound),
    refusal!("-s", "after.o" => 1, 1, "F19 BadFrame file=after.o section=3 place=144 name= other=0"; store: Store::Unwound),
    refusal!("-s", "call.o" => 1, 1, "F12 RelocKind file=call.o section=3 place=136 name= other=18"; store: Store::Unwound),
    refusal!("-s", "align.o" => 1, 1, "F12 RelocKind file=align.o section=3 place=136 name= other=43"; store: Store::Unwound),
    refusal!("-s", "uleb.o" => 1, 1, "F12 RelocKind file=uleb.o section=3 place=136 name= other=60"; store: Store::Unwound),
    refusal!("-s", "header.o" => 1, 1, "F04 BadSection file=header.o section=2 place=288 name= other=0"; store: Store::Unwound),
    refusal!("-s", "ifunc.o" => 1, 1, "F17 Ifunc file=ifunc.o section=3 place=128 name= other=0"; store: Store::Unwound),
    refusal!("-s", "cut.o", "comp.o" => 1, 2, "F19 BadFrame file=cut.o section=2 place=72 name= other=0"; store: Store::Unwound),
    refusal!("-s", "comp.o", "cut.o" => 1, 2, "F05 Compressed file=comp.o section=1 place=200 name= other=0"; store: Store::Unwound),
];
