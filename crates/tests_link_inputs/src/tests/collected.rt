//! What `--gc-sections` keeps and drops.

use link_examples::images::*;
use link_examples::{Link, Refusal, Store, link, refusal};

/// What is kept for itself.
pub const ROOTS: &[Link] = &[
    link!("-s", "--gc-sections", "ring.o" => RETURN_ALONE; store: Store::Collected),
    link!("-s", "--gc-sections", "held.o" => KEPT_RING; store: Store::Collected),
    link!("-s", "--gc-sections", "-e", "a", "ring.o" => RING_ALONE; store: Store::Collected),
    link!("-s", "--gc-sections", "frames.o" => FRAMED; store: Store::Collected),
    link!("-s", "--gc-sections", "note.o" => KEPT_NOTE; store: Store::Collected),
    link!("-s", "--gc-sections", "arrays.o" => ARRAYS_ALONE; store: Store::Collected),
];

/// What is kept with other sections: of its group, by its link, and by what names it.
pub const WITH_OTHERS: &[Link] = &[
    link!("-s", "--gc-sections", "together.o" => KEPT_TOGETHER; store: Store::Collected),
    link!("-s", "--gc-sections", "zero.o" => KEPT_TOGETHER; store: Store::Collected),
    link!("-s", "--gc-sections", "idle.o" => RETURN_ALONE; store: Store::Collected),
    link!("-s", "--gc-sections", "order.o" => ORDERED; store: Store::Collected),
    link!("-s", "--gc-sections", "asked.o" => KEPT_ORDER; store: Store::Collected),
    link!("-s", "--gc-sections", "none.o" => RETURN_AND_BREAK; store: Store::Collected),
];

/// What nothing asks for is dropped, whatever it lacks; without the option nothing is.
pub const DROPPED: &[Link] = &[
    link!("-s", "--gc-sections", "a.o", "c.o" => FIRST; store: Store::Collected),
    link!("-s", "--gc-sections", "x.o", "c.o" => ASKED_WORD; store: Store::Collected),
    link!("-s", "--gc-sections", "a.o", "k.o" => FIRST; store: Store::Collected),
    link!("-s", "--gc-sections", "a.o", "far.o" => FIRST; store: Store::Collected),
    link!("-s", "ring.o" => KEPT_RING; store: Store::Collected),
    link!("-s", "order.o" => ALL_ORDERED; store: Store::Collected),
];

/// Why a section is kept, with the option and without: a walk, which goes through a group in one step, or that there is none.
pub const WHY: &[Link] = &[
    link!("-s", "--gc-sections", "--why-live", "d", "four.o" => KEPT_FOUR; store: Store::Collected,
        said: "live d\nroot four.o 1 .text\nto four.o 3 .text.a\nto four.o 6 .text.d\n"),
    link!("-s", "four.o", "--why-live=d" => KEPT_FOUR; store: Store::Collected,
        said: "live d\nroot four.o 1 .text\nto four.o 3 .text.a\nto four.o 6 .text.d\n"),
    link!("-s", "--gc-sections", "--why-live", "_start", "ring.o" => RETURN_ALONE; store: Store::Collected, said: "live _start\nroot ring.o 1 .text\n"),
    link!("-s", "--why-live", "a", "ring.o" => KEPT_RING; store: Store::Collected, said: "dead a\n"),
    link!("-s", "--gc-sections", "--why-live", "no where", "ring.o" => RETURN_ALONE; store: Store::Collected, said: "unknown no%20where\n"),
];

/// What is kept may not lack it.
pub const STILL: &[Refusal] = &[
    refusal!("-s", "a.o", "k.o" => 1, 2, "F22 Undefined file=k.o section=1 place=0 name=k other=0"; store: Store::Collected),
    refusal!("-s", "a.o", "far.o" => 1, 2, "F24 Range file=far.o section=1 place=0 name=far other=2097152"; store: Store::Collected),
    refusal!("-s", "--gc-sections", "-e", "far", "far.o", "k.o" => 1, 2, "F24 Range file=far.o section=1 place=0 name=far other=2097152";
        store: Store::Collected),
];
