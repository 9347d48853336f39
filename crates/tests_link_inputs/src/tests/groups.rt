//! Which copy of a COMDAT group stays, and what a link lacks without the others.

use link_examples::images::*;
use link_examples::{Link, Refusal, Store, link, refusal};

/// The first copy of a group stays.
pub const COPIES: &[Link] = &[
    link!("-s", "m.o", "one.o", "two.o" => ASKED; store: Store::Groups),
    link!("-s", "m.o", "two.o", "one.o" => ASKED_BREAK; store: Store::Groups),
    link!("-s", "m.o", "one.o", "two.o", "one.o" => ASKED; store: Store::Groups),
    link!("-s", "m.o", "weak.o", "one.o" => ASKED_BREAK; store: Store::Groups),
    link!("-s", "m.o", "one.o", "lost.o" => ASKED; store: Store::Groups),
    link!("-s", "m.o", "zero.o", "two.o" => BOTH_COPIES; store: Store::Groups),
    link!("-s", "t.o", "u.o" => RETURN_AND_BREAK; store: Store::Groups),
    link!("-s", "twice.o" => RETURN_AND_BREAK; store: Store::Groups),
];

/// Signatures of each form, and groups in members of archives.
pub const SIGNATURES: &[Link] = &[
    link!("-s", "m.o", "sec.o", "label.o" => ASKED; store: Store::Groups),
    link!("-s", "m.o", "label.o", "sec.o" => ASKED_BREAK; store: Store::Groups),
    link!("-s", "m.o", "sec.o", "sec.o" => ASKED; store: Store::Groups),
    link!("-s", "both.o", "two.o", "lib.a" => BOTH_ASKED; store: Store::Groups),
    link!("-s", "lib.a", "both.o", "two.o" => BOTH_BEFORE; store: Store::Groups),
];

/// What is discarded, and what is dropped, is asked for by nothing that is kept; a member that is not live has a wrong group.
pub const UNUSED: &[Link] = &[
    link!("-s", "t.o", "u.o", "weakly.o" => WEAK_WORD; store: Store::Groups),
    link!("-s", "t.o", "u.o", "wrong.a" => RETURN_AND_BREAK; store: Store::Groups),
    link!("-s", "--gc-sections", "t.o", "u.o", "v.o" => RETURN_ALONE; store: Store::Groups),
    link!("-s", "--gc-sections", "m.o", "one.o", "local.o" => ASKED; store: Store::Groups),
    link!("-s", "--gc-sections", "m.o", "one.o", "whole.o" => ASKED; store: Store::Groups),
];

/// What is discarded is asked for, or is none and defined twice.
pub const ABSENT: &[Refusal] = &[
    refusal!("-s", "t.o", "u.o", "v.o" => 1, 3, "F22 Undefined file=v.o section=1 place=0 name=k other=0"; store: Store::Groups),
    refusal!("-s", "m.o", "one.o", "local.o" => 1, 3, "F22 Undefined file=local.o section=1 place=0 name=.L0 other=0"; store: Store::Groups),
    refusal!("-s", "m.o", "one.o", "whole.o" => 1, 3, "F22 Undefined file=whole.o section=1 place=0 name=.debug_n other=0"; store: Store::Groups),
    refusal!("-s", "m.o", "held.o", "one.o" => 1, 3, "F20 Duplicate file=held.o section=0 place=1 name=n other=one.o"; store: Store::Groups),
    refusal!("-s", "m.o", "sec.o", "one.o" => 1, 3, "F20 Duplicate file=sec.o section=0 place=2 name=n other=one.o"; store: Store::Groups),
];
