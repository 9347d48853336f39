//! Commands, archives, groups, what is collected and what is refused.

use super::{OwnStores, archives, collected, generated, groups, wrong_groups};
use link_examples::images::*;
use link_examples::{FIRST_LINK, Link, NO_WORDS, Refusal, link, refusal};
use link_runs::{each_is_refused, each_links, is_refused};
use std::test::Fail;

const LINKS: &[Link] = &[
    FIRST_LINK,
    link!("-s", "-o", "a.o", "a.o"; output: "a.o"),
    link!("a.o", "-e", "_start", "h.o", "-o", "x", "-s" => TWO_FILES; output: "x"),
    link!("-s", "a.o", "weak.o", "weak.o" => THREE_FILES),
    link!("-s", "a.o", "c8.o", "weak.o" => COMMON_OF_8),
    link!("-s", "a.o", "weak.o", "c8.o" => COMMON_OF_8),
    link!("-s", "a.o", "c4.o", "c16.o" => COMMON_OF_16),
    link!("-s", "a.o", "wide.o", "c16.o" => WIDE_COMMON),
    link!("-s", "a.o", "c8.o", "q.o" => TWO_FILES),
    link!("-s", "call.o" => WEAK_CALL),
    link!("-s", "halves.o" => HALVES),
];

const COMMANDS: &[Refusal] = &[
    refusal!("--threads", "65", "a.o" => 2, 0, "bad command"),
    refusal!("--icf", "some", "a.o" => 2, 0, "bad command"),
    refusal!("-o", "m", "--Map", "m", "a.o" => 2, 0, "bad command"),
    refusal!("--Map", "a.out", "a.o" => 2, 0, "bad command"),
    refusal!("--output=", "--Map=", "a.o" => 2, 0, "bad command"),
    refusal!("--Map", "m", "--Map", "n", "a.o" => 2, 0, "bad command"),
    refusal!("--Map", "m" => 2, 0, "bad command"),
    refusal!("--map", "m", "a.o" => 2, 0, "bad command"),
    refusal!("--why-live", "", "a.o" => 2, 0, "bad command"),
    refusal!("--why-apart", "f", "a.o" => 2, 0, "bad command"),
    refusal!("-e", "", "a.o" => 2, 0, "bad command"),
];

const REFUSALS: &[Refusal] = &[
    refusal!(=> 2, 0, "bad command"),
    refusal!("-s", "--threads", "65", "a.o" => 2, 0, "bad command"),
    refusal!("-s", "--icf", "some", "a.o" => 2, 0, "bad command"),
    refusal!("-s", "-o", "m", "--Map", "m", "a.o" => 2, 0, "bad command"),
    refusal!("-s", "a.o", "z.o" => 3, 2, "cannot read z.o"),
    refusal!("-s", "empty.o" => 1, 1, "F01 NotObject file=empty.o section=0 place=0 name= other=0"),
    refusal!("-s", "a.o", "cut.o" => 1, 2, "F02 BadHeader file=cut.o section=0 place=63 name= other=0"),
    refusal!("-s", "compressed.o" => 1, 1, "F05 Compressed file=compressed.o section=1 place=200 name= other=0"),
    refusal!("-s", "a.o", "double.o" => 1, 2, "F16 FlagsClash file=double.o section=0 place=4 name= other=0"),
    refusal!("-s", "double.o", "a.o" => 1, 2, "F16 FlagsClash file=a.o section=0 place=0 name= other=4"),
    refusal!("-s", "p.o", "q.o" => 1, 2, "F20 Duplicate file=p.o section=0 place=1 name=x other=q.o"),
    refusal!("-s", "a.o", "a.o" => 1, 2, "F20 Duplicate file=a.o section=0 place=1 name=_start other=a.o"),
    refusal!("-s", "-e", "g", "a.o" => 1, 1, "F21 NoEntry file=- section=0 place=0 name=g other=0"),
    refusal!("-s", "u.o" => 1, 1, "F22 Undefined file=u.o section=1 place=4 name=k other=0"),
    refusal!("-s", "big.o" => 1, 1, "F23 TooBig file=- section=0 place=2147491840 name= other=0"),
    refusal!("-s", "far.o" => 1, 1, "F24 Range file=far.o section=1 place=0 name=.text other=1048576"),
    refusal!("-s", "uneven.o" => 1, 1, "F25 Odd file=uneven.o section=1 place=0 name=_start other=3"),
    refusal!("-s", "alone.o" => 1, 1, "F26 NoPartner file=alone.o section=1 place=0 name=.L0 other=0"),
    refusal!("-s", "empty.o", "a.o", "cut.o" => 1, 3, "F01 NotObject file=empty.o section=0 place=0 name= other=0"),
];

#[test]
fn each_link_leaves_its_executable(rt: HostRuntime) -> Result<(), Fail> {
    each_links!(rt; &OwnStores, LINKS)
}

#[test]
fn archives_are_read_in_each_form(rt: HostRuntime) -> Result<(), Fail> {
    each_links!(rt; &OwnStores, archives::READ)
}

#[test]
fn members_that_nothing_pulls_add_nothing(rt: HostRuntime) -> Result<(), Fail> {
    each_links!(rt; &OwnStores, archives::IDLE)
}

#[test]
fn the_first_definition_in_archives_is_taken(rt: HostRuntime) -> Result<(), Fail> {
    each_links!(rt; &OwnStores, archives::CHOSEN)
}

#[test]
fn members_pull_members(rt: HostRuntime) -> Result<(), Fail> {
    each_links!(rt; &OwnStores, archives::CHAINS)
}

#[test]
fn names_of_the_command_pull_members(rt: HostRuntime) -> Result<(), Fail> {
    each_links!(rt; &OwnStores, archives::BY_NAME)
}

#[test]
fn names_of_the_command_that_pull_nothing(rt: HostRuntime) -> Result<(), Fail> {
    each_links!(rt; &OwnStores, archives::BY_NAME_IN_VAIN)
}

#[test]
fn a_command_without_words_is_refused(rt: HostRuntime) -> Result<(), Fail> {
    assert!(rt; is_refused(&rt, rt.alloc(), &OwnStores, &NO_WORDS, &[])?);
    Ok(())
}

#[test]
fn each_wrong_command_is_refused(rt: HostRuntime) -> Result<(), Fail> {
    each_is_refused!(rt; &OwnStores, COMMANDS)
}

#[test]
fn each_refusal_leaves_its_line(rt: HostRuntime) -> Result<(), Fail> {
    each_is_refused!(rt; &OwnStores, REFUSALS)
}

#[test]
fn each_wrong_member_leaves_its_line(rt: HostRuntime) -> Result<(), Fail> {
    each_is_refused!(rt; &OwnStores, archives::WRONG_MEMBERS)
}

#[test]
fn each_wrong_archive_leaves_its_line(rt: HostRuntime) -> Result<(), Fail> {
    each_is_refused!(rt; &OwnStores, archives::WRONG_ARCHIVES)
}

#[test]
fn the_first_copy_of_a_group_stays(rt: HostRuntime) -> Result<(), Fail> {
    each_links!(rt; &OwnStores, groups::COPIES)
}

#[test]
fn groups_are_compared_by_the_names_of_their_signatures(rt: HostRuntime) -> Result<(), Fail> {
    each_links!(rt; &OwnStores, groups::SIGNATURES)
}

#[test]
fn what_is_discarded_is_not_asked_for(rt: HostRuntime) -> Result<(), Fail> {
    each_links!(rt; &OwnStores, groups::UNUSED)
}

#[test]
fn what_kept_copies_lack_or_repeat_is_refused(rt: HostRuntime) -> Result<(), Fail> {
    each_is_refused!(rt; &OwnStores, groups::ABSENT)
}

#[test]
fn groups_of_a_wrong_form_are_refused(rt: HostRuntime) -> Result<(), Fail> {
    each_is_refused!(rt; &OwnStores, wrong_groups::FORMS)
}

#[test]
fn groups_with_wrong_members_are_refused(rt: HostRuntime) -> Result<(), Fail> {
    each_is_refused!(rt; &OwnStores, wrong_groups::MEMBERS)
}

#[test]
fn collection_keeps_roots(rt: HostRuntime) -> Result<(), Fail> {
    each_links!(rt; &OwnStores, collected::ROOTS)
}

#[test]
fn walks_say_why_sections_are_kept(rt: HostRuntime) -> Result<(), Fail> {
    each_links!(rt; &OwnStores, collected::WHY)
}

#[test]
fn collection_keeps_what_kept_sections_need(rt: HostRuntime) -> Result<(), Fail> {
    each_links!(rt; &OwnStores, collected::WITH_OTHERS)
}

#[test]
fn collection_drops_all_else(rt: HostRuntime) -> Result<(), Fail> {
    each_links!(rt; &OwnStores, collected::DROPPED)
}

#[test]
fn defects_of_kept_sections_are_reported(rt: HostRuntime) -> Result<(), Fail> {
    each_is_refused!(rt; &OwnStores, collected::STILL)
}

#[test]
fn generated_objects_are_linked(rt: HostRuntime) -> Result<(), Fail> {
    each_links!(rt; &OwnStores, generated::FEW)
}

#[test]
fn wrong_commands_for_generated_objects_are_refused(rt: HostRuntime) -> Result<(), Fail> {
    each_is_refused!(rt; &OwnStores, generated::REFUSED)
}
